//! Reading of values.
ghost use Rattle.std.specs.Prelude.{◌≡◌, length, map};
ghost use Rattle.bw_saved.specs.Fields.Reading.{Gives};
ghost use Rattle.bw_run.specs.Follow.Kinds.{kinds_in};
ghost use Rattle.bw_saved.specs.Values.Reading as spec;
ghost use Rattle.bw_types.specs.Scopes.{shared_kinds};

use crate::documents::document_at;
use crate::fault::ReadError;
use crate::fields::{integer_at, strings_at, text_at};
use bw_eval::{Value, Values};
use bw_flow::Local;
use bw_lang::{Kind, Shared};
use bw_types::Typed;
use std::alloc::Global;

/// The bytes behind this one, if they begin with it.
fn tag_at(tag: u8, bytes: &[u8]) -> Result<&[u8], ReadError>
    ensures { Gives (λ rest. rest.now) result (spec.tag_at tag bytes.now) }
{
    match bytes {
        [] => Err(ReadError::Malformed),
        [first, rest @ ..] => {
            if *first == tag {
                Ok(rest)
            } else {
                Err(ReadError::Malformed)
            }
        }
    }
}

/// A truth value.
#[tactic(auto, unfolding(crate::specs::Values::Reading::bit_at))]
fn bit_at(bytes: &[u8]) -> Result<(bool, &[u8]), ReadError>
    ensures { Gives (λ x. (x.0, x.1.now)) result (spec.bit_at bytes.now) }
{
    match bytes {
        [] => Err(ReadError::Malformed),
        [0, rest @ ..] => Ok((false, rest)),
        [1, rest @ ..] => Ok((true, rest)),
        [_, ..] => Err(ReadError::Malformed),
    }
}

/// The byte in front of a value of that kind.
fn tag_of(kind: Kind) -> u8
    ensures { result ≡ spec.tag_of kind }
{
    match kind {
        Kind::Int => 0,
        Kind::Bool => 1,
        Kind::Str => 2,
        Kind::Html => 3,
        Kind::Strs => 4,
    }
}

/// A value of that kind, and the bytes behind it.
#[tactic(auto, unfolding(crate::specs::Values::Reading::value_at))]
fn value_at<'a>(
    alloc: Global,
    typed: &Typed,
    kind: Kind,
    bytes: &'a [u8],
) -> Result<(Value, &'a [u8]), ReadError>
    ensures { Gives (λ x. (x.0, x.1.now)) result (spec.value_at typed.now.service kind bytes.now) }
{
    let rest = tag_at(tag_of(kind), bytes)?;
    match kind {
        Kind::Int => {
            let (n, rest) = integer_at(rest)?;
            Ok((Value::Int(n), rest))
        }
        Kind::Bool => {
            let (b, rest) = bit_at(rest)?;
            Ok((Value::Bool(b), rest))
        }
        Kind::Str => {
            let (text, rest) = text_at(alloc, rest)?;
            Ok((Value::Str(text), rest))
        }
        Kind::Html => {
            let (doc, rest) = document_at(alloc, typed, rest)?;
            Ok((Value::Html(doc), rest))
        }
        Kind::Strs => {
            let (strings, rest) = strings_at(alloc, rest)?;
            Ok((Value::Strs(strings), rest))
        }
    }
}

/// The values of the locals in scope, and the bytes behind them.
pub(crate) fn locals_at<'a>(
    alloc: Global,
    typed: &Typed,
    scope: &[Local],
    bytes: &'a [u8],
) -> Result<(Values, &'a [u8]), ReadError>
    ensures { Gives (λ x. (x.0, x.1.now)) result (spec.variables_at typed.now.service (kinds_in scope.now) bytes.now) }
{
    let mut values = Values::new(alloc);
    let mut rest = bytes;
    for local in scope {
        let (value, after) = value_at(alloc, typed, local.kind, rest)?;
        values.push(local.name.copy()?, value)?;
        rest = after;
    }
    Ok((values, rest))
}

/// The values of the shared variables, and the bytes behind them.
pub(crate) fn shared_at<'a>(
    alloc: Global,
    typed: &Typed,
    bytes: &'a [u8],
) -> Result<(Values, &'a [u8]), ReadError>
    ensures { Gives (λ x. (x.0, x.1.now)) result (spec.variables_at typed.now.service (shared_kinds typed.now.service) bytes.now) }
{
    all_shared_at(alloc, typed, typed.service().shared.as_slice(), bytes)
}

/// The values of these shared variables.
fn all_shared_at<'a>(
    alloc: Global,
    typed: &Typed,
    all: &[Shared],
    bytes: &'a [u8],
) -> Result<(Values, &'a [u8]), ReadError>
    ensures { Gives (λ x. (x.0, x.1.now)) result (spec.variables_at typed.now.service (map (λ v. (v.name, v.kind)) all.now) bytes.now) }
{
    let mut values = Values::new(alloc);
    let mut rest = bytes;
    for shared in all {
        let (value, after) = value_at(alloc, typed, shared.kind, rest)?;
        values.push(shared.name.copy()?, value)?;
        rest = after;
    }
    Ok((values, rest))
}
