//! Formulas are read.
ghost use Rattle.std.specs.Prelude.{◌≡◌, ◌≤◌, ◌-◌, length, IfOk, take, drop};
ghost use Rattle.bw_schema.specs.Steps.Reading as spec;

use crate::fault::SchemaFault;
use crate::names::is_name;
use crate::needs::{Formula, Formulas};
use bw_lang::pieces::NameClass;
use bw_lang::{Memory, Name, Text, Words};
use std::alloc::Global;

/// The greatest number of formulas that may stand inside one another.
pub const FORMULA_NESTING: usize = 16;

fn is_paren(word: &Text) -> bool
    ensures { result ≡ spec.is_paren word.now }
{
    word.as_str() == "(" || word.as_str() == ")"
}

/// The words behind a closing parenthesis.
fn closed(words: &[Text]) -> Option<&[Text]>
    ensures { spec.Found (λ x. x.now) result (spec.closed words.now) }
{
    match words {
        [first, rest @ ..] if first.as_str() == ")" => Some(rest),
        _ => None,
    }
}

/// The name at the front, and the words behind it.
fn name_at(alloc: Global, class: NameClass, words: &[Text]) -> Result<(Name, &[Text]), SchemaFault>
    ensures { spec.Gives (λ x. (x.0, x.1.now)) result (spec.name_at class words.now) }
{
    match words {
        [first, rest @ ..] if is_name(class, first) => Ok((Name::of(alloc, first.as_str())?, rest)),
        _ => Err(SchemaFault::Malformed),
    }
}

/// How many words at the front are no parentheses.
fn count_values(words: &[Text]) -> usize
    ensures value { result ≡ spec.count_values words.now }
    ensures within { result ≤ length words.now }
{
    let mut n = 0;
    for word in words {
        if is_paren(word) {
            return n;
        }
        n += 1;
    }
    n
}

/// Equal words with memory of their own.
pub fn copied(alloc: Global, words: &[Text]) -> Result<Words, Memory>
    ensures { IfOk result (λ copy. copy ≡ words.now) }
{
    let mut copy = Words::new(alloc);
    for word in words {
        copy.push(word.copy()?)?;
    }
    Ok(copy)
}

/// The formula, if a closing parenthesis stands at the front, and the words behind it.
#[tactic(auto, unfolding(crate::specs::Steps::Reading::ended))]
fn ended(formula: Formula, words: &[Text]) -> Result<(Formula, &[Text]), SchemaFault>
    ensures { spec.Gives (λ x. (x.0, x.1.now)) result (spec.ended formula words.now) }
{
    match closed(words) {
        Some(rest) => Ok((formula, rest)),
        None => Err(SchemaFault::Malformed),
    }
}

/// `A )`, behind `( attr`.
#[tactic(auto, unfolding(crate::specs::Steps::Reading::attr_at))]
fn attr_at(alloc: Global, words: &[Text]) -> Result<(Formula, &[Text]), SchemaFault>
    ensures { spec.Gives (λ x. (x.0, x.1.now)) result (spec.attr_at words.now) }
{
    let (name, rest) = name_at(alloc, NameClass::Attr, words)?;
    ended(Formula::Attr(name), rest)
}

/// `A V .. )`, behind `( value`.
#[tactic(auto, unfolding(crate::specs::Steps::Reading::value_at))]
fn value_at(alloc: Global, words: &[Text]) -> Result<(Formula, &[Text]), SchemaFault>
    ensures { spec.Gives (λ x. (x.0, x.1.now)) result (spec.value_at words.now) }
{
    let (name, rest) = name_at(alloc, NameClass::Attr, words)?;
    let count = count_values(rest);
    if count == 0 {
        return Err(SchemaFault::Malformed);
    }
    let values = copied(alloc, &rest[..count])?;
    ended(Formula::OneOf(name, values), &rest[count..])
}

/// `T )`, behind `( content`.
#[tactic(auto, unfolding(crate::specs::Steps::Reading::content_at))]
fn content_at(alloc: Global, words: &[Text]) -> Result<(Formula, &[Text]), SchemaFault>
    ensures { spec.Gives (λ x. (x.0, x.1.now)) result (spec.content_at words.now) }
{
    let (tag, rest) = name_at(alloc, NameClass::Tag, words)?;
    ended(Formula::Content(tag), rest)
}

/// `T U )`, behind `( order`.
#[tactic(auto, unfolding(crate::specs::Steps::Reading::order_at))]
fn order_at(alloc: Global, words: &[Text]) -> Result<(Formula, &[Text]), SchemaFault>
    ensures { spec.Gives (λ x. (x.0, x.1.now)) result (spec.order_at words.now) }
{
    let (first, behind) = name_at(alloc, NameClass::Tag, words)?;
    let (last, rest) = name_at(alloc, NameClass::Tag, behind)?;
    ended(Formula::Order(first, last), rest)
}

/// A formula without parts, behind its parenthesis and its first word.
#[tactic(auto, unfolding(crate::specs::Steps::Reading::simple_at))]
fn simple_at<'a>(
    alloc: Global,
    head: &str,
    words: &'a [Text],
) -> Result<(Formula, &'a [Text]), SchemaFault>
    ensures { spec.Gives (λ x. (x.0, x.1.now)) result (spec.simple_at head.now words.now) }
{
    if head == "attr" {
        return attr_at(alloc, words);
    }
    if head == "value" {
        return value_at(alloc, words);
    }
    if head == "content" {
        return content_at(alloc, words);
    }
    if head == "order" {
        return order_at(alloc, words);
    }
    Err(SchemaFault::Malformed)
}

/// The formulas at the front, and the words behind them.
#[cycle(formulas)]
fn needs_at(alloc: Global, depth: usize, words: &[Text]) -> Result<(Formulas, &[Text]), Memory>
    ensures { IfOk result (λ x. spec.needs_at (spec.formula_at depth) (length words.now) words.now ≡ (x.0, x.1.now)) }
{
    let mut needs = Formulas::new(alloc);
    let mut rest = words;
    'parts: loop {
        match formula_at(alloc, depth, rest) {
            Ok((formula, behind)) => {
                needs.push(formula)?;
                rest = behind;
            }
            Err(SchemaFault::Malformed) => return Ok((needs, rest)),
            Err(_) => return Err(Memory),
        }
    }
}

/// The parts of `and` and `or`, one at least, and a closing parenthesis.
#[tactic(auto, unfolding(crate::specs::Steps::Reading::parts_at))]
#[cycle(formulas)]
fn parts_at(alloc: Global, depth: usize, words: &[Text]) -> Result<(Formulas, &[Text]), SchemaFault>
    ensures { spec.Gives (λ x. (x.0, x.1.now)) result (spec.parts_at (spec.formula_at depth) words.now) }
{
    let (parts, behind) = needs_at(alloc, depth, words)?;
    if parts.as_slice().is_empty() {
        return Err(SchemaFault::Malformed);
    }
    match closed(behind) {
        Some(rest) => Ok((parts, rest)),
        None => Err(SchemaFault::Malformed),
    }
}

/// The formula behind its parenthesis and its first word.
#[tactic(auto, unfolding(crate::specs::Steps::Reading::inside_at))]
#[cycle(formulas)]
fn inside_at<'a>(
    alloc: Global,
    depth: usize,
    head: &Text,
    words: &'a [Text],
) -> Result<(Formula, &'a [Text]), SchemaFault>
    ensures { spec.Gives (λ x. (x.0, x.1.now)) result (spec.inside_at (spec.formula_at depth) head.now words.now) }
{
    let head = head.as_str();
    if head == "and" {
        let (parts, rest) = parts_at(alloc, depth, words)?;
        return Ok((Formula::And(parts), rest));
    }
    if head == "or" {
        let (parts, rest) = parts_at(alloc, depth, words)?;
        return Ok((Formula::Or(parts), rest));
    }
    simple_at(alloc, head, words)
}

/// The formula at the front, with at most `depth` formulas inside one another in it, and the words behind it.
#[cycle(formulas)]
fn opened_at(alloc: Global, depth: usize, words: &[Text]) -> Result<(Formula, &[Text]), SchemaFault>
    ensures { spec.Gives (λ x. (x.0, x.1.now)) result (spec.opened (spec.inside_at (spec.formula_at depth)) words.now) }
{
    match words {
        [paren, head, rest @ ..] if paren.as_str() == "(" => inside_at(alloc, depth, head, rest),
        _ => Err(SchemaFault::Malformed),
    }
}

/// The formula at the front, at most `depth` formulas inside one another, and the words behind it.
#[tactic(auto, using(crate::proofs::FormulaLoops::formula_again))]
#[cycle(formulas)]
fn formula_at(
    alloc: Global,
    depth: usize,
    words: &[Text],
) -> Result<(Formula, &[Text]), SchemaFault>
    ensures { spec.Gives (λ x. (x.0, x.1.now)) result (spec.formula_at depth words.now) }
{
    if depth == 0 {
        return Err(SchemaFault::Malformed);
    }
    opened_at(alloc, depth - 1, words)
}

/// The formula that all of the words write.
#[tactic(auto, unfolding(crate::specs::Steps::Reading::formula_of))]
pub fn formula_of(alloc: Global, words: &[Text]) -> Result<Formula, SchemaFault>
    ensures { spec.Gives (λ f. f) result (spec.formula_of words.now) }
{
    let (formula, rest) = formula_at(alloc, FORMULA_NESTING, words)?;
    if rest.is_empty() {
        Ok(formula)
    } else {
        Err(SchemaFault::Malformed)
    }
}
