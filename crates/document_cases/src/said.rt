//! What is said of turns.

use bw_doc::Doc;
use bw_eval::Value;
use bw_lang::{FieldId, TurnFault};
use bw_run::{FieldFault, SharedValues};
use bw_types::Typed;
use case_files::{Fault, begin_line};
use std::alloc::AllocError;
use std::str;

/// Documents of more bytes are told by their number alone.
const MANY: u64 = 200;

/// Says the page of a document that is at its end.
pub fn say_doc(said: &mut String, word: &str, typed: &Typed, doc: Doc) -> Result<(), Fault> {
    let page = say_page(said, word, typed, &doc);
    drop(doc);
    page
}

/// Says the document's page, or how many bytes the document prints to.
fn say_page(said: &mut String, word: &str, typed: &Typed, doc: &Doc) -> Result<(), Fault> {
    begin_line(said)?;
    said.push_str(word)?;
    let length = doc.length()?;
    if length > MANY {
        write!(said, " {length} bytes")?;
        return Ok(());
    }
    let sheet = doc.sheet(&typed.service().name, None)?;
    let page = say_bytes(said, sheet.as_bytes());
    drop(sheet);
    page
}

/// Says the bytes of a page.
fn say_bytes(said: &mut String, bytes: &[u8]) -> Result<(), Fault> {
    let page = str::from_utf8(bytes).map_err(|_| Fault::Malformed)?;
    said.push(' ')?;
    said.push_str(page)?;
    Ok(())
}

/// Says why a turn failed.
pub fn say_fault(said: &mut String, fault: TurnFault) -> Result<(), Fault> {
    let (words, number) = match fault {
        TurnFault::Spent => ("1 spent", None),
        TurnFault::DivideByZero => ("2 divide by zero", None),
        TurnFault::Overflow => ("3 overflow", None),
        TurnFault::StringTooLong(n) => ("4 string too long", Some(n)),
        TurnFault::Heavy(n) => ("5 heavy", Some(n)),
        TurnFault::Deep(n) => ("6 deep", Some(u64::from(n))),
        TurnFault::Nested(n) => ("7 nested", Some(u64::from(n))),
        TurnFault::PageTooLong(n) => ("8 page too long", Some(n)),
        TurnFault::SessionHeavy(n) => ("9 session heavy", Some(n)),
        TurnFault::SharedHeavy(n) => ("10 shared heavy", Some(n)),
        TurnFault::Memory => return Err(Fault::Memory),
    };
    begin_line(said)?;
    said.push_str("failed ")?;
    said.push_str(words)?;
    if let Some(number) = number {
        write!(said, " {number}")?;
    }
    Ok(())
}

/// Says why a form isn't taken.
pub fn say_missing(said: &mut String, typed: &Typed, fault: FieldFault) -> Result<(), AllocError> {
    let (word, field) = match fault {
        FieldFault::Lacking(field) => ("lacking", field),
        FieldFault::Repeated(field) => ("repeated", field),
        FieldFault::TooLong(field) => ("too long", field),
    };
    begin_line(said)?;
    said.push_str(word)?;
    said.push(' ')?;
    said.push_str(field_name(typed, field))
}

/// The name of a field.
fn field_name(typed: &Typed, field: FieldId) -> &str {
    typed.fields().name(field).unwrap_or("?")
}

/// Says the values of the shared variables, where there are some.
pub fn say_shared(
    said: &mut String,
    typed: &Typed,
    shared: &SharedValues,
) -> Result<(), AllocError> {
    let variables = typed.service().shared.as_slice();
    if variables.is_empty() {
        return Ok(());
    }
    begin_line(said)?;
    said.push_str("shared")?;
    for variable in variables {
        match shared.get(&variable.name) {
            Some(value) => say_value(said, value)?,
            None => said.push_str(" ?")?,
        }
    }
    Ok(())
}

/// Says a value, behind a blank.
fn say_value(said: &mut String, value: &Value) -> Result<(), AllocError> {
    said.push(' ')?;
    match value {
        Value::Int(n) => write!(said, "{n}"),
        Value::Bool(true) => said.push_str("true"),
        Value::Bool(false) => said.push_str("false"),
        Value::Str(text) => write!(said, "\"{}\"", text.as_str()),
        Value::Html(doc) => write!(said, "{}", doc.measure().weight),
        Value::Strs(list) => write!(said, "{} strings", list.as_slice().len()),
    }
}
