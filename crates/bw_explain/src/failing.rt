//! Strings that fail a rule as values of an attribute.
ghost use Rattle.std.specs.Prelude.{◌≡◌, ℕ, not, true, false, List, IfOk, MatchOption};
ghost use Rattle.std.specs.List.{list_any};
ghost use Rattle.bw_lang.specs.Table.Names.{same};
ghost use Rattle.bw_schema.specs.Words as wording;
ghost use Rattle.bw_schema.specs.Rules.{permits};
ghost use Rattle.bw_explain.specs.Atoms as spec;
ghost use Rattle.bw_explain.specs.Ways.{says};

use crate::atom::Atom;
use crate::way::Way;
use bw_lang::{Memory, Text, Words};
use bw_schema::{Rule, ValueList, is_among};
use std::alloc::Global;

/// Whether the value is one that the rule asks for.
pub fn passes(rule: &Rule, atom: &Atom, name: &str, value: &str) -> bool
    ensures { result ≡ spec.passes rule.now atom.now name.now value.now }
{
    match atom {
        Atom::NotAllowed => rule.allows(name),
        Atom::OtherValue => rule.values.permits(name, value),
        Atom::Outside(_, values) => is_among(values, value),
        _ => true,
    }
}

/// Whether one of the words fails.
fn some_fails(rule: &Rule, atom: &Atom, name: &str, words: &Words) -> bool
    ensures { result ≡ list_any (λ s. not (spec.passes rule.now atom.now name.now s)) words.now }
{
    words
        .as_slice()
        .iter()
        .any(|word| !passes(rule, atom, name, word.as_str()))
}

/// A list of values of an attribute, if it has one: a string that it lacks isn't permitted.
fn list_of<'a>(lists: &'a [ValueList], name: &str) -> Option<&'a ValueList>
    ensures { MatchOption result (list_any (λ l. same l.name name.now) lists.now ≡ false)
        (λ l. (list_any (λ l. same l.name name.now) lists.now ≡ true) ×
        ((s : List ℕ) → wording.is_among l.now.words s ≡ false → permits lists.now name.now s ≡ false)) }
{
    for list in lists {
        if list.name.as_str() == name {
            return Some(list);
        }
    }
    None
}

/// Whether a string that may fill the gap fails.
pub fn fails(rule: &Rule, atom: &Atom, name: &str, way: &Way) -> bool
    ensures { result ≡ spec.fails rule.now atom.now name.now way.now }
{
    match atom {
        Atom::NotAllowed => !rule.allows(name) && way.is_said(),
        Atom::OtherValue => {
            (way.is_free() && list_of(rule.values.as_slice(), name).is_some())
                || some_fails(rule, atom, name, way.words())
        }
        Atom::Outside(_, _) => way.is_free() || some_fails(rule, atom, name, way.words()),
        _ => false,
    }
}

/// The length of the longest word.
fn longest(words: &[Text]) -> usize
    ensures { result ≡ spec.longest words.now }
{
    let mut most: usize = 0;
    for word in words {
        most = most.max(word.len());
    }
    most
}

/// A string that is none of the words: it is longer than each.
fn longer(alloc: Global, words: &Words) -> Result<Text, Memory>
    ensures { IfOk result (λ s. wording.is_among words.now s ≡ false) }
{
    let most = longest(words.as_slice());
    let mut text = String::from_str(alloc, "x")?;
    for _ in 0..most {
        text.push_str("x")?;
    }
    Ok(Text::from_string(text))
}

/// A word that fails.
fn first_failing(rule: &Rule, atom: &Atom, name: &str, words: &Words) -> Result<Text, Memory>
    requires { list_any (λ s. not (spec.passes rule.now atom.now name.now s)) words.now ≡ true }
    ensures { IfOk result (λ s. (wording.is_among words.now s ≡ true) × (spec.passes rule.now atom.now name.now s ≡ false)) }
{
    for word in words.as_slice() {
        if !passes(rule, atom, name, word.as_str()) {
            return word.copy();
        }
    }
    unreachable!()
}

/// A string that may fill the gap and is free to be any, and fails.
fn free_failing(
    alloc: Global,
    rule: &Rule,
    atom: &Atom,
    name: &str,
    way: &Way,
) -> Result<Text, Memory>
    requires fails { spec.fails rule.now atom.now name.now way.now ≡ true }
    requires free { way.now.is_free ≡ true }
    ensures { IfOk result (λ s. (says way.now s ≡ true) × (spec.passes rule.now atom.now name.now s ≡ false)) }
{
    match atom {
        Atom::NotAllowed => way.word(alloc),
        Atom::OtherValue => match list_of(rule.values.as_slice(), name) {
            Some(list) => longer(alloc, &list.words),
            None => word_failing(rule, atom, name, way),
        },
        Atom::Outside(_, values) => longer(alloc, values),
        _ => unreachable!(),
    }
}

/// A word that may fill the gap, and fails.
fn word_failing(rule: &Rule, atom: &Atom, name: &str, way: &Way) -> Result<Text, Memory>
    requires { list_any (λ s. not (spec.passes rule.now atom.now name.now s)) way.now.words ≡ true }
    ensures { IfOk result (λ s. (says way.now s ≡ true) × (spec.passes rule.now atom.now name.now s ≡ false)) }
{
    first_failing(rule, atom, name, way.words())
}

/// A string that may fill the gap and is one of its words, and fails.
fn bound_failing(
    alloc: Global,
    rule: &Rule,
    atom: &Atom,
    name: &str,
    way: &Way,
) -> Result<Text, Memory>
    requires fails { spec.fails rule.now atom.now name.now way.now ≡ true }
    requires free { way.now.is_free ≡ false }
    ensures { IfOk result (λ s. (says way.now s ≡ true) × (spec.passes rule.now atom.now name.now s ≡ false)) }
{
    match atom {
        Atom::NotAllowed => way.word(alloc),
        Atom::OtherValue => word_failing(rule, atom, name, way),
        Atom::Outside(_, _) => word_failing(rule, atom, name, way),
        _ => unreachable!(),
    }
}

/// A string that may fill the gap, and fails.
pub fn failing_word(
    alloc: Global,
    rule: &Rule,
    atom: &Atom,
    name: &str,
    way: &Way,
) -> Result<Text, Memory>
    requires { spec.fails rule.now atom.now name.now way.now ≡ true }
    ensures { IfOk result (λ s. (says way.now s ≡ true) × (spec.passes rule.now atom.now name.now s ≡ false)) }
{
    if way.is_free() {
        free_failing(alloc, rule, atom, name, way)
    } else {
        bound_failing(alloc, rule, atom, name, way)
    }
}
