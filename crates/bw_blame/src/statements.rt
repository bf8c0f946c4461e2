//! Where the first test of statements fails.
ghost use Rattle.std.specs.Prelude.{◌≡◌, ◌<◌, ◌+◌, ◌^◌, false, IfOk, IfErr, OnOk, []};
ghost use Rattle.bw_lang.specs.declared.stmt.Kind.TheVariants.{Str};
ghost use Rattle.bw_lang.specs.Service.Code.{done, assign, while_loop, show};
ghost use Rattle.bw_lang.specs.Service.CodeView.{before};
ghost use Rattle.bw_lang.specs.Service.TermView.{term};
ghost use Rattle.bw_places.specs.Counts.{term_tokens, code_tokens};
ghost use Rattle.bw_types.specs.Places.{after};
ghost use Rattle.bw_types.specs.Scopes.{is_among, with_local, scope_behind, behind_each};
ghost use Rattle.bw_blame.specs.Blames as spec;

use crate::parts::{declared, received, untaken, variable, wanted_expr};
use crate::site::Missed;
use bw_lang::{Block, Expr, Kind, Name, Receives, Stmt};
use bw_types::locals::Locals;
use bw_types::names::Names;

/// The token behind an assignment, whose first token is `p`.
#[tactic(auto, using(crate::proofs::Sites::site_steps))]
fn assigned(
    names: &Names<'_>,
    locals: &Locals,
    d: usize,
    p: usize,
    name: &Name,
    value: &Expr,
) -> Result<usize, Missed>
    requires { p + 3 + term_tokens (term value.now) < 2 ^ 63 }
    ensures none { OnOk result (spec.blames_code names.now.service.now locals.now d p (assign name.now (term value.now) done) ≡ []) }
    ensures end { IfOk result (λ e. e ≡ p + 3 + term_tokens (term value.now)) }
    ensures first { IfErr result (λ e. spec.IsFirst e (spec.blames_code names.now.service.now locals.now d p (assign name.now (term value.now) done))) }
{
    let kind = variable(names, locals, d, p, name)?;
    let end = wanted_expr(names, locals, d, p + 2, kind, value)?;
    Ok(end + 1)
}

/// The token behind a show, whose first token is `p`.
#[tactic(auto, using(crate::proofs::Sites::site_steps))]
fn shown(
    names: &Names<'_>,
    locals: &Locals,
    d: usize,
    p: usize,
    page: &Expr,
    receives: &Receives,
) -> Result<usize, Missed>
    requires { p + code_tokens (show (term page.now) receives.now done) < 2 ^ 63 }
    ensures none { OnOk result (spec.blames_code names.now.service.now locals.now d p (show (term page.now) receives.now done) ≡ []) }
    ensures end { IfOk result (λ e. e ≡ p + code_tokens (show (term page.now) receives.now done)) }
    ensures first { IfErr result (λ e. spec.IsFirst e
        (spec.blames_code names.now.service.now locals.now d p (show (term page.now) receives.now done))) }
{
    let end = wanted_expr(names, locals, d, p + 1, Kind::Html, page)?;
    let list = receives.as_slice();
    if list.is_empty() {
        return Ok(end + 1);
    }
    let end = received(names, locals, d, end + 1, list)?;
    Ok(end + 2)
}

/// The token behind the statements of a block, of which the first begins at token `p`; or what the first test that fails
/// is about. Behind it the block's locals are out of scope, and their names are taken.
#[tactic(auto, using(bw_lang::proofs::Sizes::size_steps))]
#[cycle(block)]
pub fn block(
    names: &Names<'_>,
    locals: &mut Locals,
    d: usize,
    p: usize,
    block: &Block,
) -> Result<usize, Missed>
    requires { p + code_tokens block.now < 2 ^ 63 }
    ensures none { OnOk result (spec.blames_code names.now.service.now locals.old d p block.now ≡ []) }
    ensures left { OnOk result (locals.new ≡ scope_behind locals.old block.now) }
    ensures end { IfOk result (λ e. e ≡ p + code_tokens block.now) }
    ensures first { IfErr result (λ e. spec.IsFirst e (spec.blames_code names.now.service.now locals.old d p block.now)) }
{
    let depth = locals.depth();
    let mut at = p;
    for stmt in block.as_slice() {
        at = statement(names, locals, d, at, stmt)?;
    }
    locals.leave(depth);
    Ok(at)
}

/// The token behind a block and the test in front of it, which stand as in a loop whose first token is `p`.
#[tactic(auto, using(crate::proofs::Sites::site_steps))]
#[cycle(block)]
fn tested(
    names: &Names<'_>,
    locals: &mut Locals,
    d: usize,
    p: usize,
    body: &Block,
    test: &Expr,
) -> Result<usize, Missed>
    requires { p + code_tokens (while_loop (term test.now) body.now done) < 2 ^ 63 }
    ensures none { OnOk result (spec.blames_code names.now.service.now locals.old d p (while_loop (term test.now) body.now done) ≡ []) }
    ensures left { OnOk result (locals.new ≡ scope_behind locals.old body.now) }
    ensures end { IfOk result (λ e. e ≡ p + code_tokens (while_loop (term test.now) body.now done)) }
    ensures first { IfErr result (λ e. spec.IsFirst e
        (spec.blames_code names.now.service.now locals.old d p (while_loop (term test.now) body.now done))) }
{
    let end = wanted_expr(names, locals, d, p + 2, Kind::Bool, test)?;
    let end = block(names, locals, d, end + 2, body)?;
    Ok(end + 1)
}

/// The token behind the body of a foreach, whose first token is `p`, where its local is in scope.
#[tactic(auto, using(crate::proofs::Sites::site_steps))]
#[cycle(block)]
fn each(
    names: &Names<'_>,
    locals: &mut Locals,
    d: usize,
    p: usize,
    name: &Name,
    body: &Block,
) -> Result<usize, Missed>
    requires free { is_among name.now locals.old.taken ≡ false }
    requires short { p + code_tokens body.now < 2 ^ 63 }
    ensures none { OnOk result (spec.blames_code names.now.service.now (with_local locals.old name.now Str) d p body.now ≡ []) }
    ensures left { OnOk result (locals.new ≡ behind_each locals.old name.now body.now) }
    ensures end { IfOk result (λ e. e ≡ p + code_tokens body.now) }
    ensures first { IfErr result (λ e. spec.IsFirst e
        (spec.blames_code names.now.service.now (with_local locals.old name.now Str) d p body.now)) }
{
    let depth = locals.depth();
    declared(locals, name, Kind::Str)?;
    let end = block(names, locals, d, p, body)?;
    locals.leave(depth);
    Ok(end)
}

/// The same of one statement.
#[tactic(auto, using(crate::proofs::Sites::site_steps))]
#[cycle(block)]
fn statement(
    names: &Names<'_>,
    locals: &mut Locals,
    d: usize,
    p: usize,
    stmt: &Stmt,
) -> Result<usize, Missed>
    requires { p + code_tokens (before stmt.now done) < 2 ^ 63 }
    ensures none { OnOk result (spec.blames_code names.now.service.now locals.old d p (before stmt.now done) ≡ []) }
    ensures left { OnOk result (locals.new ≡ after locals.old (before stmt.now done)) }
    ensures end { IfOk result (λ e. e ≡ p + code_tokens (before stmt.now done)) }
    ensures first { IfErr result (λ e. spec.IsFirst e (spec.blames_code names.now.service.now locals.old d p (before stmt.now done))) }
{
    match stmt {
        Stmt::Declare { kind, name, value } => {
            untaken(names, locals, d, p + 1, name)?;
            let end = wanted_expr(names, locals, d, p + 3, *kind, value)?;
            declared(locals, name, *kind)?;
            Ok(end + 1)
        }
        Stmt::Assign { name, value } => assigned(names, locals, d, p, name, value),
        Stmt::If { test, yes, no } => {
            let end = tested(names, locals, d, p, yes, test)?;
            match no {
                Some(no) => {
                    let end = block(names, locals, d, end + 2, no)?;
                    Ok(end + 1)
                }
                None => Ok(end),
            }
        }
        Stmt::While { test, body } => tested(names, locals, d, p, body, test),
        Stmt::Block(inner) => {
            let end = block(names, locals, d, p + 1, inner)?;
            Ok(end + 1)
        }
        Stmt::Each { name, value, body } => {
            untaken(names, locals, d, p + 2, name)?;
            let end = wanted_expr(names, locals, d, p + 4, Kind::Strs, value)?;
            let end = each(names, locals, d, end + 2, name, body)?;
            Ok(end + 1)
        }
        Stmt::Show { page, receives } => shown(names, locals, d, p, page, receives),
        Stmt::Exit { page } => {
            let end = wanted_expr(names, locals, d, p + 1, Kind::Html, page)?;
            Ok(end + 1)
        }
    }
}
