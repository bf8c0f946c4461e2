//! Sets of the strings that a value may be.
ghost use Rattle.std.specs.Prelude.{◌≡◌, ◌<◌, ◌^◌, ◌==◌, length, IfOk, []};
ghost use Rattle.std.specs.List.{AllByRecursion, list_all};
ghost use Rattle.bw_strings.specs.Strings as spec;
ghost use Rattle.bw_strings.specs.Strings.{IsWellFormed, both, is_none};
ghost use Rattle.bw_strings.specs.Asking.{AreLiterals, text_of, is_among, within, blank};
ghost use Rattle.bw_lang.specs.Text.Bytes.{is_blank_text};

use crate::literals::Literals;
use bw_lang::{Memory, Text, Words, is_blank_text};
use bw_solve::{Lattice, Set};
use std::alloc::{AllocError, Global};

/// The strings that a value may be: any string, or one of some of a service's literals, which are known by their
/// numbers.
#[derive(Drop)]
pub enum StrSet {
    /// Any string.
    Any,
    /// One of the literals of these numbers.
    Of(Set<u32>),
}

impl StrSet {
    /// No string.
    pub fn none(alloc: Global) -> StrSet
        ensures { result ≡ StrSet.Of [] }
    {
        StrSet::Of(Set::new(alloc))
    }

    /// An equal set with memory of its own.
    pub fn copy(&self, alloc: Global) -> Result<StrSet, Memory>
        ensures { IfOk result (λ s. s ≡ self.now) }
    {
        match self {
            StrSet::Any => Ok(StrSet::Any),
            StrSet::Of(numbers) => Ok(StrSet::Of(numbers.copy(alloc)?)),
        }
    }

    /// The strings of both: the union, and any string where either side is any string.
    pub fn join(&self, alloc: Global, other: &StrSet) -> Result<StrSet, Memory>
        ensures { IfOk result (λ s. s ≡ both self.now other.now) }
    {
        match (self, other) {
            (StrSet::Of(a), StrSet::Of(b)) => Ok(StrSet::Of(a.union(alloc, b)?)),
            _ => Ok(StrSet::Any),
        }
    }

    /// Whether no string is in it.
    pub fn is_none(&self) -> bool
        ensures none { result ≡ is_none self.now }
        ensures well_formed { IsWellFormed self.now }
    {
        match self {
            StrSet::Any => false,
            StrSet::Of(numbers) => has_none(numbers.as_slice()),
        }
    }

    /// Whether each string is among the allowed ones. Any string isn't.
    pub fn within(&self, literals: &Literals, allowed: &Words) -> bool
        requires { AreLiterals literals.now self.now }
        ensures { result ≡ within literals.now allowed.now self.now }
    {
        match self {
            StrSet::Any => false,
            StrSet::Of(numbers) => all_within(literals, allowed, numbers.as_slice()),
        }
    }

    /// Whether each string is blank: none but spaces, tabs, CR and LF. Any string isn't.
    pub fn blank(&self, literals: &Literals) -> bool
        requires { AreLiterals literals.now self.now }
        ensures { result ≡ blank literals.now self.now }
    {
        match self {
            StrSet::Any => false,
            StrSet::Of(numbers) => all_blank(literals, numbers.as_slice()),
        }
    }
}

// Whether a list of numbers is empty; they are numbers of 32 bits.
fn has_none(numbers: &[u32]) -> bool
    ensures none { result ≡ (length numbers.now == 0) }
    ensures fit { AllByRecursion (λ x. x < 2 ^ 32) numbers.now }
{
    numbers.is_empty()
}

// Whether a text is one of these words.
fn is_among(text: &str, allowed: &[Text]) -> bool
    ensures { result ≡ is_among allowed.now text.now }
{
    allowed.iter().any(|word| text == word.as_str())
}

// Whether each of the literals of these numbers is an allowed word.
fn all_within(literals: &Literals, allowed: &Words, numbers: &[u32]) -> bool
    requires { AllByRecursion (λ n. n < length literals.now) numbers.now }
    ensures { result ≡ list_all (λ n. is_among allowed.now (text_of literals.now n)) numbers.now }
{
    for number in numbers {
        if !is_among(literals.text(*number), allowed.as_slice()) {
            return false;
        }
    }
    true
}

// Whether each of the literals of these numbers is blank.
fn all_blank(literals: &Literals, numbers: &[u32]) -> bool
    requires { AllByRecursion (λ n. n < length literals.now) numbers.now }
    ensures { result ≡ list_all (λ n. is_blank_text (text_of literals.now n)) numbers.now }
{
    for number in numbers {
        if !is_blank_text(literals.text(*number)) {
            return false;
        }
    }
    true
}

impl Lattice for StrSet {
    ghost use Rattle.bw_strings.specs.Strings.{AreWellFormed, is_below, both, size_of, rank_of};
    ghost use Rattle.bw_strings.specs.Lawful.StringLaws.{strings_lattice};

    ghost alike = { AreWellFormed };

    ghost below = { is_below };

    ghost join = { both };

    ghost size = { size_of };

    ghost rank = { rank_of };

    ghost laws = { strings_lattice };

    fn join(&self, alloc: Global, other: &Self) -> Result<Self, AllocError> {
        Ok(self.join(alloc, other)?)
    }

    fn below(&self, other: &Self) -> bool {
        match (self, other) {
            (_, StrSet::Any) => true,
            (StrSet::Any, StrSet::Of(_)) => false,
            (StrSet::Of(a), StrSet::Of(b)) => a.is_subset(b),
        }
    }

    fn size(&self) -> u64 {
        match self {
            StrSet::Any => 16,
            StrSet::Of(numbers) => (numbers.len() as u64).min(16),
        }
    }
}
