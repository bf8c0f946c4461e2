//! Where the first test of an expression fails.
ghost use Rattle.std.specs.Prelude.{◌≡◌, ◌<◌, ◌+◌, ◌^◌, Some, IfOk, IfErr, OnOk, []};
ghost use Rattle.bw_lang.specs.Service.Term.{binary, no_more, filling};
ghost use Rattle.bw_lang.specs.Service.TermView.{term};
ghost use Rattle.bw_places.specs.Counts.{term_tokens, pair_tokens};
ghost use Rattle.bw_types.specs.ExpressionFaults.{kind_of};
ghost use Rattle.bw_blame.specs.Blames as spec;

use crate::demands::{wanted, wanted_by_gap, wanted_left, wanted_right};
use crate::site::Site;
use bw_lang::{Expr, Kind, Op, Pair, Pairs, Part};
use bw_types::kinds::{fun_gives, fun_takes, op_kind};
use bw_types::locals::Locals;
use bw_types::names::Names;

/// The kind of an expression without a fault, and the token behind it.
#[derive(Clone, Copy)]
pub struct Seen {
    pub kind: Kind,
    pub end: usize,
}

/// An expression of this kind that is one token, `p`.
fn single(kind: Kind, p: usize) -> Seen
    requires { p + 1 < 2 ^ 63 }
    ensures kind { result.kind ≡ kind }
    ensures end { result.end ≡ p + 1 }
{
    Seen { kind, end: p + 1 }
}

/// The kind of an expression, whose first token is `p`, and the token behind it; or what the first test that fails is
/// about.
#[tactic(auto, using(crate::proofs::Sites::site_steps))]
#[cycle(expr)]
pub fn expr(
    names: &Names<'_>,
    locals: &Locals,
    d: usize,
    p: usize,
    expr: &Expr,
) -> Result<Seen, Site>
    requires { p + term_tokens (term expr.now) < 2 ^ 63 }
    ensures none { OnOk result (spec.blames_in names.now.service.now locals.now d p (term expr.now) ≡ []) }
    ensures kind { IfOk result (λ k. kind_of names.now.service.now locals.now (term expr.now) ≡ Some k.kind) }
    ensures end { IfOk result (λ k. k.end ≡ p + term_tokens (term expr.now)) }
    ensures first { IfErr result (λ s. spec.first_site (spec.blames_in names.now.service.now locals.now d p (term expr.now)) ≡ Some s) }
{
    match expr {
        Expr::Int(_) => Ok(single(Kind::Int, p)),
        Expr::Bool(_) => Ok(single(Kind::Bool, p)),
        Expr::Str(_) => Ok(single(Kind::Str, p)),
        Expr::Nothing => Ok(single(Kind::Strs, p)),
        Expr::Name(name) => match names.name_kind(locals, name.as_str()) {
            Some(kind) => Ok(single(kind, p)),
            None => Err(Site::Tokens(p, p + 1)),
        },
        Expr::Paren(part) => match part_of(names, locals, d, p + 1, part) {
            Ok(seen) => Ok(Seen {
                kind: seen.kind,
                end: seen.end + 1,
            }),
            Err(site) => Err(site),
        },
        Expr::Not(part) => wanted_part(names, locals, d, p + 1, Kind::Bool, part),
        Expr::Neg(part) => wanted_part(names, locals, d, p + 1, Kind::Int, part),
        Expr::Binary { op, left, right } => binary(names, locals, d, p, *op, left, right),
        Expr::Call { fun, arg } => {
            match wanted_part(names, locals, d, p + 2, fun_takes(*fun), arg) {
                Ok(seen) => Ok(Seen {
                    kind: fun_gives(*fun),
                    end: seen.end + 1,
                }),
                Err(site) => Err(site),
            }
        }
        Expr::Plug { base, pairs } => {
            let seen = wanted_part(names, locals, d, p, Kind::Html, base)?;
            let end = pairs_of(names, locals, d, seen.end, pairs)?;
            Ok(Seen {
                kind: Kind::Html,
                end: end + 1,
            })
        }
    }
}

/// The same of a part.
#[cycle(expr)]
fn part_of(
    names: &Names<'_>,
    locals: &Locals,
    d: usize,
    p: usize,
    part: &Part,
) -> Result<Seen, Site>
    requires { p + term_tokens part.now < 2 ^ 63 }
    ensures none { OnOk result (spec.blames_in names.now.service.now locals.now d p part.now ≡ []) }
    ensures kind { IfOk result (λ k. kind_of names.now.service.now locals.now part.now ≡ Some k.kind) }
    ensures end { IfOk result (λ k. k.end ≡ p + term_tokens part.now) }
    ensures first { IfErr result (λ s. spec.first_site (spec.blames_in names.now.service.now locals.now d p part.now) ≡ Some s) }
{
    expr(names, locals, d, p, part.expr())
}

/// A part of this kind is demanded.
#[tactic(auto, using(crate::proofs::Sites::site_steps))]
#[cycle(expr)]
fn wanted_part(
    names: &Names<'_>,
    locals: &Locals,
    d: usize,
    p: usize,
    kind: Kind,
    part: &Part,
) -> Result<Seen, Site>
    requires { p + term_tokens part.now < 2 ^ 63 }
    ensures none { OnOk result (spec.blames_wanted names.now.service.now locals.now d p kind part.now ≡ []) }
    ensures kind { IfOk result (λ k. k.kind ≡ kind) }
    ensures end { IfOk result (λ k. k.end ≡ p + term_tokens part.now) }
    ensures first { IfErr result (λ s. spec.first_site (spec.blames_wanted names.now.service.now locals.now d p kind part.now) ≡ Some s) }
{
    let seen = part_of(names, locals, d, p, part)?;
    wanted(d, p, seen.end, kind, seen.kind)?;
    Ok(Seen {
        kind,
        end: seen.end,
    })
}

/// The same of an operator and its sides.
#[tactic(auto, using(crate::proofs::Sites::site_steps))]
#[cycle(expr)]
fn binary(
    names: &Names<'_>,
    locals: &Locals,
    d: usize,
    p: usize,
    op: Op,
    left: &Part,
    right: &Part,
) -> Result<Seen, Site>
    requires { p + term_tokens (binary op left.now right.now) < 2 ^ 63 }
    ensures none { OnOk result (spec.blames_in names.now.service.now locals.now d p (binary op left.now right.now) ≡ []) }
    ensures kind { IfOk result (λ k. kind_of names.now.service.now locals.now (binary op left.now right.now) ≡ Some k.kind) }
    ensures end { IfOk result (λ k. k.end ≡ p + term_tokens (binary op left.now right.now)) }
    ensures first { IfErr result (λ s. spec.first_site (spec.blames_in names.now.service.now locals.now d p (binary op left.now right.now)) ≡ Some s) }
{
    let one = part_of(names, locals, d, p, left)?;
    wanted_left(d, p, one.end, op, one.kind)?;
    let other = part_of(names, locals, d, one.end + 1, right)?;
    wanted_right(d, one.end + 1, other.end, op, one.kind, other.kind)?;
    Ok(Seen {
        kind: op_kind(op, one.kind),
        end: other.end,
    })
}

/// The token behind the pairs of a plug, of which the first stands behind the sign `p`.
#[cycle(expr)]
fn pairs_of(
    names: &Names<'_>,
    locals: &Locals,
    d: usize,
    p: usize,
    pairs: &Pairs,
) -> Result<usize, Site>
    requires { p + pair_tokens pairs.now < 2 ^ 63 }
    ensures none { OnOk result (spec.blames_in_pairs names.now.service.now locals.now d p pairs.now ≡ []) }
    ensures end { IfOk result (λ e. e ≡ p + pair_tokens pairs.now) }
    ensures first { IfErr result (λ s. spec.first_site (spec.blames_in_pairs names.now.service.now locals.now d p pairs.now) ≡ Some s) }
{
    let mut at = p;
    for pair in pairs.as_slice() {
        at = pair_of(names, locals, d, at, pair)?;
    }
    Ok(at)
}

/// One pair, behind the sign `p`.
#[tactic(auto, using(crate::proofs::Sites::site_steps))]
#[cycle(expr)]
fn pair_of(
    names: &Names<'_>,
    locals: &Locals,
    d: usize,
    p: usize,
    pair: &Pair,
) -> Result<usize, Site>
    requires { p + 3 + term_tokens (term pair.now.value) < 2 ^ 63 }
    ensures none { OnOk result (spec.blames_in_pairs names.now.service.now locals.now d p (filling pair.now.gap (term pair.now.value) no_more) ≡ []) }
    ensures end { IfOk result (λ e. e ≡ p + 3 + term_tokens (term pair.now.value)) }
    ensures first { IfErr result (λ s. spec.first_site (spec.blames_in_pairs names.now.service.now locals.now d p
        (filling pair.now.gap (term pair.now.value) no_more)) ≡ Some s) }
{
    match names.gap_kind(pair.gap.as_str()) {
        None => Err(Site::Tokens(p + 1, p + 2)),
        Some(gap) => {
            let seen = expr(names, locals, d, p + 3, &pair.value)?;
            wanted_by_gap(d, p + 3, seen.end, gap, seen.kind)?;
            Ok(seen.end)
        }
    }
}
