//! Writing of values.
ghost use Rattle.std.specs.Prelude.{◌≡◌, ◌++◌, OnOk};
ghost use Rattle.std.specs.List.{All, flat_map};
ghost use Rattle.bw_save.specs.Fitting.{FitsValue, FitValues};
ghost use Rattle.bw_saved.specs.Values.Layout as layout;

use crate::documents::put_document;
use crate::fields::{put_strings, put_text};
use bw_eval::{Value, Values, Variable};
use bw_lang::Memory;
use std::alloc::Global;

/// A value: a byte that says its kind, and what it is.
fn put_value(alloc: Global, out: &mut Vec<u8>, value: &Value) -> Result<(), Memory>
    requires { FitsValue value.now }
    ensures { OnOk result (out.new.items ≡ out.old.items ++ layout.value value.now) }
{
    match value {
        Value::Int(n) => {
            out.push(0)?;
            out.extend_from_slice(&n.cast_unsigned().to_be_bytes())?;
            Ok(())
        }
        Value::Bool(b) => {
            out.push(1)?;
            out.push(if *b { 1 } else { 0 })?;
            Ok(())
        }
        Value::Str(s) => {
            out.push(2)?;
            put_text(out, s.as_bytes())?;
            Ok(())
        }
        Value::Html(d) => {
            out.push(3)?;
            put_document(alloc, out, d)?;
            Ok(())
        }
        Value::Strs(strings) => {
            out.push(4)?;
            put_strings(out, strings.as_slice())?;
            Ok(())
        }
    }
}

/// The values of these variables.
fn put_all(alloc: Global, out: &mut Vec<u8>, all: &[Variable]) -> Result<(), Memory>
    requires { All (λ x. FitsValue x.value) all.now }
    ensures { OnOk result (out.new.items ≡ out.old.items ++ flat_map (λ x. layout.value x.value) all.now) }
{
    for variable in all {
        put_value(alloc, out, &variable.value)?;
    }
    Ok(())
}

/// The values of variables, in their order.
pub(crate) fn put_variables(alloc: Global, out: &mut Vec<u8>, all: &Values) -> Result<(), Memory>
    requires { FitValues all.now }
    ensures { OnOk result (out.new.items ≡ out.old.items ++ layout.variables all.now) }
{
    put_all(alloc, out, all.as_slice())?;
    Ok(())
}
