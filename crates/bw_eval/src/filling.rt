//! Documents with their gaps filled.
ghost use Rattle.std.specs.Prelude.{◌≡◌, IfOk};
ghost use Rattle.bw_doc.specs.Operations.{IsOf};
ghost use Rattle.bw_lang.specs.declared.service.Template.{Template};
ghost use Rattle.bw_meaning.specs.Operators as spec;
ghost use Rattle.bw_meaning.specs.Values as meaning;
ghost use Rattle.std.specs.Prelude.{List};
ghost use Rattle.bw_eval.specs.Bases.{IsDocument};
ghost use Rattle.bw_eval.specs.Evaluations.{HasMemory};
ghost use Rattle.bw_eval.specs.Sound.{IsSound};
ghost use Rattle.bw_typed.specs.ShortStrings.{IsShort};
ghost use Rattle.bw_eval.specs.View.{document, value, resulted, plugged, turn_fault};

use crate::value::Value;
use bw_doc::{Doc, DocFault};
use bw_lang::{GapId, TurnFault};

/// The failure of a turn that a plug's failure is.
fn turn_fault(fault: DocFault) -> TurnFault
    ensures { result ≡ turn_fault fault }
{
    match fault {
        DocFault::Heavy(n) => TurnFault::Heavy(n),
        DocFault::Deep(n) => TurnFault::Deep(n),
        DocFault::Nested(n) => TurnFault::Nested(n),
        DocFault::Memory => TurnFault::Memory,
    }
}

/// The document with another in its open gaps of that number.
fn plug(doc: &Doc, gap: GapId, other: &Doc) -> Result<Doc, TurnFault>
    ensures value { HasMemory result → plugged result ≡ spec.filled gap (meaning.document (document other.now)) (document doc.now) }
    ensures sound { (templates : List Template) → IsOf templates doc.now → IsOf templates other.now → IfOk result (IsOf templates) }
{
    match doc.plug(gap, other) {
        Ok(plugged) => Ok(plugged),
        Err(fault) => Err(turn_fault(fault)),
    }
}

/// The document with a text in its open gaps of that number.
fn plug_text(doc: &Doc, gap: GapId, text: &str) -> Result<Doc, TurnFault>
    requires { IsShort text.now }
    ensures value { HasMemory result → plugged result ≡ spec.filled gap (meaning.text text.now) (document doc.now) }
    ensures sound { (templates : List Template) → IsOf templates doc.now → IfOk result (IsOf templates) }
{
    match doc.plug_text(gap, text) {
        Ok(plugged) => Ok(plugged),
        Err(fault) => Err(turn_fault(fault)),
    }
}

/// The document with a value in its open gaps of that number.
fn fill(doc: &Doc, gap: GapId, filling: &Value) -> Result<Value, TurnFault>
    requires { IsShort (spec.text_of (value filling.now)) }
    ensures value { HasMemory result → resulted result ≡ spec.filled gap (value filling.now) (document doc.now) }
    ensures document { IfOk result (λ v. IsDocument (value v)) }
    ensures sound { (templates : List Template) → IsOf templates doc.now → IsSound templates filling.now → IfOk result (IsSound templates) }
{
    match filling {
        Value::Str(text) => Ok(Value::Html(plug_text(doc, gap, text.as_str())?)),
        Value::Html(other) => Ok(Value::Html(plug(doc, gap, other)?)),
        _ => Ok(Value::Html(doc.copy()?)),
    }
}

impl Value {
    /// The document that it is, with a value in its open gaps of that number. What it gives is a document again.
    pub fn filled(&self, gap: GapId, filling: &Value) -> Result<Value, TurnFault>
        requires document { IsDocument (value self.now) }
        requires short { IsShort (spec.text_of (value filling.now)) }
        ensures value { HasMemory result → resulted result ≡ spec.filled gap (value filling.now) (spec.document_of (value self.now)) }
        ensures document { IfOk result (λ v. IsDocument (value v)) }
        ensures sound { (templates : List Template) → IsSound templates self.now → IsSound templates filling.now → IfOk result (IsSound templates) }
    {
        match self {
            Value::Html(doc) => fill(doc, gap, filling),
            Value::Int(_) | Value::Bool(_) | Value::Str(_) | Value::Strs(_) => unreachable!(),
        }
    }
}
