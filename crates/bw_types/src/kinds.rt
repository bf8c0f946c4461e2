//! What operators, functions and gaps demand, and what they give. None of these takes memory.
ghost use Rattle.std.specs.Prelude.{◌≡◌, Some, IfErr, OnOk, []};
ghost use Rattle.bw_types.specs.ExpressionFaults as spec;
ghost use Rattle.bw_types.specs.Faults.{demand_received, first_member};

use crate::fault::{GapKind, TypeFault};
use bw_lang::{Fun, Kind, Op};

/// A value of this kind is demanded. `Kind` where another one was found.
pub fn demand(kind: Kind, found: Kind) -> Result<(), TypeFault>
    ensures none { OnOk result (spec.demand kind (Some found) ≡ []) }
    ensures first { IfErr result (λ e. first_member (spec.demand kind (Some found)) ≡ Some e) }
{
    match (kind, found) {
        (Kind::Int, Kind::Int)
        | (Kind::Bool, Kind::Bool)
        | (Kind::Str, Kind::Str)
        | (Kind::Html, Kind::Html)
        | (Kind::Strs, Kind::Strs) => Ok(()),
        _ => Err(TypeFault::Kind(kind, found)),
    }
}

/// What an operator demands of its left side.
pub fn demand_left(op: Op, left: Kind) -> Result<(), TypeFault>
    ensures none { OnOk result (spec.left_demand (spec.op_sort op) (Some left) ≡ []) }
    ensures first { IfErr result (λ e. first_member (spec.left_demand (spec.op_sort op) (Some left)) ≡ Some e) }
{
    match op {
        Op::Or | Op::And => demand(Kind::Bool, left),
        Op::Eq | Op::Ne => demand_plain(left),
        Op::Add => demand_sum(left),
        Op::Lt | Op::Le | Op::Gt | Op::Ge | Op::Sub | Op::Mul | Op::Div | Op::Rem => demand(
            Kind::Int,
            left,
        ),
    }
}

/// What an operator demands of its right side, whose left side has this kind.
pub fn demand_right(op: Op, left: Kind, right: Kind) -> Result<(), TypeFault>
    ensures none { OnOk result (spec.right_demand (spec.op_sort op) (Some left) (Some right) ≡ []) }
    ensures first { IfErr result (λ e. first_member (spec.right_demand (spec.op_sort op) (Some left) (Some right)) ≡ Some e) }
{
    match op {
        Op::Or | Op::And => demand(Kind::Bool, right),
        Op::Eq | Op::Ne | Op::Add => demand(left, right),
        Op::Lt | Op::Le | Op::Gt | Op::Ge | Op::Sub | Op::Mul | Op::Div | Op::Rem => demand(
            Kind::Int,
            right,
        ),
    }
}

/// The kind of what an operator gives, whose left side has this kind.
pub fn op_kind(op: Op, left: Kind) -> Kind
    ensures { spec.op_kind (spec.op_sort op) (Some left) ≡ Some result }
{
    match op {
        Op::Add => left,
        Op::Sub | Op::Mul | Op::Div | Op::Rem => Kind::Int,
        Op::Or | Op::And | Op::Eq | Op::Ne | Op::Lt | Op::Le | Op::Gt | Op::Ge => Kind::Bool,
    }
}

/// The kind that a function takes.
pub fn fun_takes(fun: Fun) -> Kind
    ensures { result ≡ spec.fun_takes fun }
{
    match fun {
        Fun::Text => Kind::Int,
        Fun::Number | Fun::IsNumber => Kind::Str,
        Fun::Count => Kind::Strs,
    }
}

/// The kind that a function gives.
pub fn fun_gives(fun: Fun) -> Kind
    ensures { result ≡ spec.fun_gives fun }
{
    match fun {
        Fun::Text => Kind::Str,
        Fun::Number | Fun::Count => Kind::Int,
        Fun::IsNumber => Kind::Bool,
    }
}

/// What a gap of this kind demands of what fills it.
pub fn demand_of_gap(gap: GapKind, found: Kind) -> Result<(), TypeFault>
    ensures none { OnOk result (spec.gap_demand (Some gap) (Some found) ≡ []) }
    ensures first { IfErr result (λ e. first_member (spec.gap_demand (Some gap) (Some found)) ≡ Some e) }
{
    match (gap, found) {
        (GapKind::Content, Kind::Str) => Ok(()),
        (GapKind::Content, _) => demand(Kind::Html, found),
        (GapKind::Attribute, _) => demand(Kind::Str, found),
    }
}

/// What a receive demands of its target: a string or a list.
pub fn demand_of_target(found: Kind) -> Result<(), TypeFault>
    ensures none { OnOk result (demand_received (Some found) ≡ []) }
    ensures first { IfErr result (λ e. first_member (demand_received (Some found)) ≡ Some e) }
{
    match found {
        Kind::Strs => Ok(()),
        _ => demand(Kind::Str, found),
    }
}

/// What is no document and no list is demanded, since these can't be compared.
fn demand_plain(found: Kind) -> Result<(), TypeFault>
    ensures none { OnOk result (spec.demand_plain (Some found) ≡ []) }
    ensures first { IfErr result (λ e. first_member (spec.demand_plain (Some found)) ≡ Some e) }
{
    match found {
        Kind::Html | Kind::Strs => Err(TypeFault::Kind(Kind::Str, found)),
        Kind::Int | Kind::Bool | Kind::Str => Ok(()),
    }
}

/// A number or a string is demanded.
fn demand_sum(found: Kind) -> Result<(), TypeFault>
    ensures none { OnOk result (spec.demand_sum (Some found) ≡ []) }
    ensures first { IfErr result (λ e. first_member (spec.demand_sum (Some found)) ≡ Some e) }
{
    match found {
        Kind::Int | Kind::Str => Ok(()),
        Kind::Bool | Kind::Html | Kind::Strs => Err(TypeFault::Kind(Kind::Int, found)),
    }
}
