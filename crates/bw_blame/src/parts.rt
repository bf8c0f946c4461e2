//! Where the first test of a part of a statement fails.
ghost use Rattle.std.specs.Prelude.{◌≡◌, ◌<◌, ◌+◌, ◌^◌, ◌*◌, false, Some, IfOk, IfErr, OnOk, [], length};
ghost use Rattle.bw_lang.specs.Service.TermView.{term};
ghost use Rattle.bw_places.specs.Counts.{term_tokens};
ghost use Rattle.bw_types.specs.ExpressionFaults.{name_unknown};
ghost use Rattle.bw_types.specs.Faults.{local_repeated, receive_fault};
ghost use Rattle.bw_types.specs.Scopes.{is_among, variable_kind, with_local};
ghost use Rattle.bw_blame.specs.Blames as spec;
ghost use Rattle.bw_blame.specs.declared.site.Missed.TheVariants as missed;
ghost use Rattle.bw_blame.specs.declared.site.Site.TheVariants.{Target};

use crate::demands::wanted;
use crate::expressions::expr;
use crate::site::{Missed, Site};
use bw_lang::{Expr, Kind, Memory, Name, Receive};
use bw_types::kinds::demand_of_target;
use bw_types::locals::Locals;
use bw_types::names::Names;

/// The token behind an expression of which this kind is demanded.
#[tactic(auto, using(crate::proofs::Sites::site_steps))]
pub fn wanted_expr(
    names: &Names<'_>,
    locals: &Locals,
    d: usize,
    p: usize,
    kind: Kind,
    value: &Expr,
) -> Result<usize, Missed>
    requires { p + term_tokens (term value.now) < 2 ^ 63 }
    ensures none { OnOk result (spec.blames_wanted names.now.service.now locals.now d p kind (term value.now) ≡ []) }
    ensures end { IfOk result (λ e. e ≡ p + term_tokens (term value.now)) }
    ensures first { IfErr result (λ e. spec.IsFirst e (spec.blames_wanted names.now.service.now locals.now d p kind (term value.now))) }
{
    match expr(names, locals, d, p, value) {
        Err(site) => Err(Missed::At(site)),
        Ok(seen) => match wanted(d, p, seen.end, kind, seen.kind) {
            Err(site) => Err(Missed::At(site)),
            Ok(()) => Ok(seen.end),
        },
    }
}

/// The kind of a variable, whose name is token `p`.
#[tactic(auto, using(crate::proofs::Sites::site_steps))]
pub fn variable(
    names: &Names<'_>,
    locals: &Locals,
    d: usize,
    p: usize,
    name: &Name,
) -> Result<Kind, Missed>
    requires { p + 1 < 2 ^ 63 }
    ensures none { OnOk result (spec.about d (spec.these p 1) (name_unknown name.now (variable_kind names.now.service.now locals.now name.now)) ≡ []) }
    ensures kind { IfOk result (λ k. variable_kind names.now.service.now locals.now name.now ≡ Some k) }
    ensures first { IfErr result (λ e. spec.IsFirst e
        (spec.about d (spec.these p 1) (name_unknown name.now (variable_kind names.now.service.now locals.now name.now)))) }
{
    match names.variable_kind(locals, name.as_str()) {
        Some(kind) => Ok(kind),
        None => Err(Missed::At(Site::Tokens(p, p + 1))),
    }
}

/// The name of a new local, token `p`, is not taken.
#[tactic(auto, using(crate::proofs::Sites::site_steps))]
pub fn untaken(
    names: &Names<'_>,
    locals: &Locals,
    d: usize,
    p: usize,
    name: &Name,
) -> Result<(), Missed>
    requires { p + 1 < 2 ^ 63 }
    ensures free { OnOk result (is_among name.now locals.now.taken ≡ false) }
    ensures none { OnOk result (spec.about d (spec.these p 1) (local_repeated names.now.service.now locals.now name.now) ≡ []) }
    ensures first { IfErr result (λ e. spec.IsFirst e
        (spec.about d (spec.these p 1) (local_repeated names.now.service.now locals.now name.now))) }
{
    if names.is_taken(locals, name.as_str()) {
        return Err(Missed::At(Site::Tokens(p, p + 1)));
    }
    Ok(())
}

/// A local of that kind is in scope from here on.
pub fn declared(locals: &mut Locals, name: &Name, kind: Kind) -> Result<(), Missed>
    requires { is_among name.now locals.old.taken ≡ false }
    ensures left { OnOk result (locals.new ≡ with_local locals.old name.now kind) }
    ensures first { IfErr result (λ e. e ≡ missed.Memory) }
{
    match locals.declare(name, kind) {
        Ok(()) => Ok(()),
        Err(Memory) => Err(Missed::Memory),
    }
}

/// The token behind receives, of which the first stands behind the sign `p`.
pub fn received(
    names: &Names<'_>,
    locals: &Locals,
    d: usize,
    p: usize,
    receives: &[Receive],
) -> Result<usize, Missed>
    requires { p + 4 * length receives.now < 2 ^ 63 }
    ensures none { OnOk result (spec.blames_receives names.now.service.now locals.now d p receives.now ≡ []) }
    ensures end { IfOk result (λ e. e ≡ p + 4 * length receives.now) }
    ensures first { IfErr result (λ e. spec.IsFirst e (spec.blames_receives names.now.service.now locals.now d p receives.now)) }
{
    let mut at = p;
    for receive in receives {
        target(names, locals, d, at + 1, receive)?;
        at += 4;
    }
    Ok(at)
}

/// The target of a receive, whose name is token `p`.
#[tactic(auto, using(crate::proofs::Sites::site_steps))]
fn target(
    names: &Names<'_>,
    locals: &Locals,
    d: usize,
    p: usize,
    receive: &Receive,
) -> Result<(), Missed>
    ensures none { OnOk result (spec.about d (Target p) (receive_fault names.now.service.now locals.now receive.now) ≡ []) }
    ensures first { IfErr result (λ e. spec.IsFirst e (spec.about d (Target p) (receive_fault names.now.service.now locals.now receive.now))) }
{
    match names.variable_kind(locals, receive.target.as_str()) {
        None => Err(Missed::At(Site::Target(p))),
        Some(kind) => match demand_of_target(kind) {
            Ok(()) => Ok(()),
            Err(fault) => {
                drop(fault);
                Err(Missed::At(Site::Target(p)))
            }
        },
    }
}
