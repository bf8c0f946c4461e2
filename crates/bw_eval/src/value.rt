//! Values.
ghost use Rattle.std.specs.Prelude.{◌≡◌, ◌<◌, ◌≤◌, ◌^◌, None, IfOk, IfSome, length};
ghost use Rattle.bw_meaning.specs.Operators as spec;
ghost use Rattle.bw_meaning.specs.Values as meaning;
ghost use Rattle.bw_eval.specs.View.{value, is_list};

use bw_doc::Doc;
use bw_lang::{Memory, Text, Words};
use std::alloc::Global;

/// A value of a running session. The values of documents share their parts.
#[derive(Drop)]
pub enum Value {
    /// An integer of 64 bits.
    Int(i64),
    Bool(bool),
    /// A string in UTF-8.
    Str(Text),
    Html(Doc),
    /// A list of strings.
    Strs(Words),
}

impl Value {
    /// The number that it is, or 0.
    pub fn number(&self) -> i64
        ensures { result ≡ spec.number_of (value self.now) }
    {
        match self {
            Value::Int(n) => *n,
            _ => 0,
        }
    }

    /// Whether it is true.
    pub fn truth(&self) -> bool
        ensures { result ≡ spec.truth_of (value self.now) }
    {
        match self {
            Value::Bool(b) => *b,
            _ => false,
        }
    }

    /// The text that it is, or an empty one.
    pub fn text(&self) -> &str
        ensures { result.now ≡ spec.text_of (value self.now) }
    {
        match self {
            Value::Str(s) => s.as_str(),
            _ => "",
        }
    }

    /// How many strings the list has that it is.
    pub fn count(&self) -> usize
        ensures count { result ≡ length (spec.list_of (value self.now)) }
        ensures small { result < 2 ^ 63 }
    {
        match self {
            Value::Strs(strings) => strings.as_slice().len(),
            _ => 0,
        }
    }

    /// Whether the two are equal.
    pub fn equals(&self, other: &Value) -> bool
        ensures { result ≡ spec.equal (value self.now) (value other.now) }
    {
        match self {
            Value::Int(n) => *n == other.number(),
            Value::Bool(b) => *b == other.truth(),
            Value::Str(s) => s.as_str() == other.text(),
            _ => false,
        }
    }

    /// The list that it is, or an empty one.
    pub fn into_list(self, alloc: Global) -> Words
        ensures { result ≡ spec.list_of (value self) }
    {
        match self {
            Value::Strs(strings) => strings,
            _ => Words::new(alloc),
        }
    }

    /// Whether it is a list.
    pub fn is_list(&self) -> bool
        ensures { result ≡ is_list (value self.now) }
    {
        matches!(self, Value::Strs(_))
    }

    /// What it weighs, unless that is too great for a number of 64 bits.
    pub fn weight(&self) -> Option<u64>
        ensures some { IfSome result (λ w. w ≡ meaning.weight (value self.now)) }
        ensures none { result ≡ None → 2 ^ 64 ≤ meaning.weight (value self.now) }
    {
        match self {
            Value::Int(_) | Value::Bool(_) => Some(16),
            Value::Str(text) => 16u64.checked_add(text.len() as u64),
            Value::Html(doc) => Some(doc.measure().weight),
            Value::Strs(strings) => words_weight(strings.as_slice()),
        }
    }

    /// An equal value. A document's parts are shared, and the rest has memory of its own.
    pub fn copy(&self) -> Result<Value, Memory>
        ensures { IfOk result (λ v. v ≡ self.now) }
    {
        match self {
            Value::Int(n) => Ok(Value::Int(*n)),
            Value::Bool(b) => Ok(Value::Bool(*b)),
            Value::Str(s) => Ok(Value::Str(s.copy()?)),
            Value::Html(d) => Ok(Value::Html(d.copy()?)),
            Value::Strs(strings) => Ok(Value::Strs(strings.copy()?)),
        }
    }
}

/// What a list of strings weighs, unless that is too great for a number of 64 bits.
pub fn words_weight(strings: &[Text]) -> Option<u64>
    ensures some { IfSome result (λ w. w ≡ meaning.list_weight strings.now) }
    ensures none { result ≡ None → 2 ^ 64 ≤ meaning.list_weight strings.now }
{
    let mut total: u64 = 16;
    for string in strings {
        let own = 16u64.checked_add(string.len() as u64)?;
        total = total.checked_add(own)?;
    }
    Some(total)
}
