//! What operators and functions give.
ghost use Rattle.std.specs.Prelude.{List, ◌≡◌, ◌++◌, ◌+ℤ◌, ◌-ℤ◌, ◌*ℤ◌, ◌≤◌, neg_ℤ, int_div, int_rem, length, IfOk, Ok};
ghost use Rattle.std.specs.Fmt.{signed_decimal};
ghost use Rattle.bw_lang.specs.declared.expr.Op.TheVariants as ops;
ghost use Rattle.bw_meaning.specs.Numbers as spec_numbers;
ghost use Rattle.bw_meaning.specs.Operators as spec;
ghost use Rattle.bw_eval.specs.View.{value, resulted};
ghost use Rattle.bw_eval.specs.Evaluations.{HasMemory};
ghost use Rattle.bw_eval.specs.Sound.{IsSound};
ghost use Rattle.bw_typed.specs.ShortStrings.{IsShort};
ghost use Rattle.bw_lang.specs.declared.service.Template.{Template};

use crate::value::Value;
use bw_lang::limits::MAX_STRING_BYTES;
use bw_lang::{Fun, Memory, Op, Text, TurnFault};
use itoa::Buffer;
use std::alloc::Global;

/// The sum, where it fits.
#[tactic(auto, using(crate::proofs::Fits::held_steps))]
fn sum(a: i64, b: i64) -> Result<Value, TurnFault>
    ensures value { resulted result ≡ spec.held (a +ℤ b) }
    ensures sound { (templates : List Template) → IfOk result (IsSound templates) }
{
    match a.checked_add(b) {
        Some(n) => Ok(Value::Int(n)),
        None => Err(TurnFault::Overflow),
    }
}

/// The difference, where it fits.
#[tactic(auto, using(crate::proofs::Fits::held_steps))]
fn difference(a: i64, b: i64) -> Result<Value, TurnFault>
    ensures value { resulted result ≡ spec.held (a -ℤ b) }
    ensures sound { (templates : List Template) → IfOk result (IsSound templates) }
{
    match a.checked_sub(b) {
        Some(n) => Ok(Value::Int(n)),
        None => Err(TurnFault::Overflow),
    }
}

/// The product, where it fits.
#[tactic(auto, using(crate::proofs::Fits::held_steps))]
fn product(a: i64, b: i64) -> Result<Value, TurnFault>
    ensures value { resulted result ≡ spec.held (a *ℤ b) }
    ensures sound { (templates : List Template) → IfOk result (IsSound templates) }
{
    match a.checked_mul(b) {
        Some(n) => Ok(Value::Int(n)),
        None => Err(TurnFault::Overflow),
    }
}

/// The number with the other sign, where it fits.
#[tactic(auto, using(crate::proofs::Fits::held_steps))]
pub fn negation(a: i64) -> Result<Value, TurnFault>
    ensures value { resulted result ≡ spec.held (neg_ℤ a) }
    ensures sound { (templates : List Template) → IfOk result (IsSound templates) }
{
    match a.checked_neg() {
        Some(n) => Ok(Value::Int(n)),
        None => Err(TurnFault::Overflow),
    }
}

/// The quotient, rounded towards zero.
fn quotient(a: i64, b: i64) -> Result<Value, TurnFault>
    ensures value { resulted result ≡ spec.divided int_div a b }
    ensures sound { (templates : List Template) → IfOk result (IsSound templates) }
{
    if b == 0 {
        return Err(TurnFault::DivideByZero);
    }
    match a.checked_div(b) {
        Some(n) => Ok(Value::Int(n)),
        None => Err(TurnFault::Overflow),
    }
}

/// The remainder, with the sign of the dividend.
fn remainder(a: i64, b: i64) -> Result<Value, TurnFault>
    ensures value { resulted result ≡ spec.divided int_rem a b }
    ensures sound { (templates : List Template) → IfOk result (IsSound templates) }
{
    if b == 0 {
        return Err(TurnFault::DivideByZero);
    }
    match a.checked_rem(b) {
        Some(n) => Ok(Value::Int(n)),
        None => Err(TurnFault::Overflow),
    }
}

/// Whether the left side of an operator decides, so that the right one isn't looked at.
pub fn decides(op: Op, left: &Value) -> bool
    ensures { result ≡ spec.decides op (value left.now) }
{
    match op {
        Op::Or => left.truth(),
        Op::And => !left.truth(),
        _ => false,
    }
}

/// One text behind another.
fn concatenation(alloc: Global, a: &str, b: &str) -> Result<Text, Memory>
    ensures { IfOk result (λ t. t ≡ a.now ++ b.now) }
{
    let mut text = String::from_str(alloc, a)?;
    text.push_str(b)?;
    Ok(Text::from_string(text))
}

/// One text behind another, where it isn't too long.
fn joined(alloc: Global, a: &str, b: &str) -> Result<Value, TurnFault>
    ensures value { HasMemory result → resulted result ≡ spec.joined (a.now ++ b.now) }
    ensures sound { (templates : List Template) → IfOk result (IsSound templates) }
{
    let len = a.len() as u64 + b.len() as u64;
    if len > MAX_STRING_BYTES as u64 {
        return Err(TurnFault::StringTooLong(len));
    }
    Ok(Value::Str(concatenation(alloc, a, b)?))
}

/// What an operator gives of two values, of which the left one didn't decide.
pub fn combined(alloc: Global, op: Op, left: &Value, right: Value) -> Result<Value, TurnFault>
    ensures value { HasMemory result → resulted result ≡ spec.combined op (value left.now) (value right) }
    ensures sound { (templates : List Template) → IsSound templates right → IfOk result (IsSound templates) }
{
    match op {
        Op::Or | Op::And => Ok(right),
        Op::Eq => Ok(Value::Bool(left.equals(&right))),
        Op::Ne => Ok(Value::Bool(!left.equals(&right))),
        Op::Lt => Ok(Value::Bool(left.number() < right.number())),
        Op::Le => Ok(Value::Bool(left.number() <= right.number())),
        Op::Gt => Ok(Value::Bool(right.number() < left.number())),
        Op::Ge => Ok(Value::Bool(right.number() <= left.number())),
        Op::Add => match left {
            Value::Str(s) => joined(alloc, s.as_str(), right.text()),
            _ => sum(left.number(), right.number()),
        },
        Op::Sub => difference(left.number(), right.number()),
        Op::Mul => product(left.number(), right.number()),
        Op::Div => quotient(left.number(), right.number()),
        Op::Rem => remainder(left.number(), right.number()),
    }
}

/// The decimal text of a number.
fn decimal(alloc: Global, n: i64) -> Result<Text, Memory>
    ensures text { IfOk result (λ t. t ≡ signed_decimal n) }
    ensures short { IfOk result IsShort }
{
    let mut buffer = Buffer::new();
    Text::of(alloc, buffer.format(n))
}

/// What a function gives.
pub fn called(alloc: Global, fun: Fun, v: &Value) -> Result<Value, TurnFault>
    ensures value { HasMemory result → resulted result ≡ Ok (spec.called fun (value v.now)) }
    ensures sound { (templates : List Template) → IfOk result (IsSound templates) }
{
    match fun {
        Fun::Text => Ok(Value::Str(decimal(alloc, v.number())?)),
        Fun::Number => Ok(Value::Int(spelled(v.text()).unwrap_or(0))),
        Fun::IsNumber => Ok(Value::Bool(spelled(v.text()).is_some())),
        Fun::Count => Ok(Value::Int(v.count() as i64)),
    }
}

/// The number that a text spells.
fn spelled(text: &str) -> Option<i64>
    ensures { result ≡ spec_numbers.spelled text.now }
{
    if text.starts_with('+') {
        return None;
    }
    text.parse::<i64>().ok()
}
