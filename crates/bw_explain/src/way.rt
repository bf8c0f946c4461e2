//! What may stand at the gaps of a template.
ghost use Rattle.std.specs.Prelude.{◌≡◌, ◌≤◌, ◌||◌, ◌++◌, ◌∷◌, [], not, true, MatchOption, IfOk, OnOk};
ghost use Rattle.std.specs.List.{list_any};
ghost use Rattle.bw_lang.specs.Text.Bytes.{is_blank_text as blank};
ghost use Rattle.bw_explain.specs.declared.sizes.TheConstants.{NONE};
ghost use Rattle.bw_explain.specs.Ways as spec;
ghost use Rattle.bw_explain.specs.Building.{has_way};
ghost use Rattle.bw_explain.specs.Sizes as sizes;
ghost use Rattle.bw_explain.specs.Tables.{size_at};

use crate::sizes::NONE;
use crate::table::Table;
use bw_lang::{GapId, Memory, Text, Words, is_blank_text};
use std::alloc::Global;
use std::marker::Model;

/// What may stand at a gap: nothing, where it may be left open, any string, where it is free, these words, and these
/// templates.
pub struct Way {
    gap: GapId,
    is_open: bool,
    is_free: bool,
    words: Words,
    led: Vec<u32>,
}

impl Drop for Way {
    fn drop(self) {
        let Way {
            gap: _,
            is_open: _,
            is_free: _,
            words: _,
            led: _,
        } = self;
    }
}

impl Model for Way {
    ghost use Rattle.bw_explain.specs.Ways as spec;

    ghost Value = { spec.Way };

    ghost view = { λ w. record { at = w.gap; is_open = w.is_open; is_free = w.is_free; words = w.words; led = w.led.items } };
}

/// The ways of a template's gaps.
pub struct Node {
    ways: Vec<Way>,
}

impl Drop for Node {
    fn drop(self) {
        let Node { ways: _ } = self;
    }
}

impl Model for Node {
    ghost use Rattle.std.specs.Prelude.{List};
    ghost use Rattle.bw_explain.specs.Ways as spec;

    ghost Value = { List spec.Way };

    ghost view = { λ n. n.ways.items };
}

impl Node {
    /// No way yet.
    pub fn new(alloc: Global) -> Node
        ensures { result ≡ [] }
    {
        Node {
            ways: Vec::new(alloc),
        }
    }

    /// One way more, behind the others.
    pub fn push(&mut self, way: Way) -> Result<(), Memory>
        ensures { OnOk result (self.new ≡ self.old ++ way ∷ []) }
    {
        self.ways.push(way)?;
        Ok(())
    }

    /// Whether the gap has a way.
    pub fn has(&self, gap: GapId) -> bool
        ensures { result ≡ has_way self.now gap }
    {
        self.ways.iter().any(|way| way.gap == gap)
    }

    /// The ways as a slice.
    pub fn as_slice(&self) -> &[Way]
        ensures { result.now ≡ self.now }
    {
        self.ways.as_slice()
    }

    /// The way of a gap.
    pub fn way(&self, gap: GapId) -> Option<&Way>
        ensures { MatchOption result (spec.way_of self.now gap ≡ spec.no_way gap) (λ w. spec.way_of self.now gap ≡ w.now) }
    {
        for way in self.as_slice() {
            if way.gap == gap {
                return Some(way);
            }
        }
        None
    }
}

impl Way {
    /// A way by its parts.
    pub fn of(gap: GapId, is_open: bool, is_free: bool, words: Words, led: Vec<u32>) -> Way
        ensures { result ≡ record { at = gap; is_open = is_open; is_free = is_free; words = words; led = led.items } }
    {
        Way {
            gap,
            is_open,
            is_free,
            words,
            led,
        }
    }

    /// The gap.
    pub fn gap(&self) -> GapId
        ensures { result ≡ self.now.at }
    {
        self.gap
    }

    /// Whether it may be left open.
    pub fn is_open(&self) -> bool
        ensures { result ≡ self.now.is_open }
    {
        self.is_open
    }

    /// Whether any string may fill it.
    pub fn is_free(&self) -> bool
        ensures { result ≡ self.now.is_free }
    {
        self.is_free
    }

    /// The strings that may fill it.
    pub fn words(&self) -> &Words
        ensures { result.now ≡ self.now.words }
    {
        &self.words
    }

    /// The numbers of the templates that may stand there.
    pub fn led(&self) -> &[u32]
        ensures { result.now ≡ self.now.led }
    {
        self.led.as_slice()
    }

    /// Whether a string may fill the gap.
    pub fn is_said(&self) -> bool
        ensures { result ≡ sizes.is_said self.now }
    {
        self.is_free || !self.words.as_slice().is_empty()
    }

    /// A string that may fill the gap.
    pub fn word(&self, alloc: Global) -> Result<Text, Memory>
        requires { sizes.is_said self.now ≡ true }
        ensures { IfOk result (λ s. spec.says self.now s ≡ true) }
    {
        if self.is_free {
            return Text::of(alloc, "x");
        }
        match self.words.as_slice().first() {
            Some(word) => word.copy(),
            None => unreachable!(),
        }
    }

    /// Whether the gap may be left open or filled by a string.
    pub fn is_loose(&self) -> bool
        ensures { result ≡ sizes.is_loose self.now }
    {
        self.is_open || self.is_said()
    }

    /// Whether a string may fill the gap that isn't blank.
    pub fn is_wordy(&self) -> bool
        ensures { result ≡ (self.now.is_free || list_any (λ s. not (blank s)) self.now.words) }
    {
        self.is_free || has_words(self.words.as_slice())
    }

    /// A string that may fill the gap and isn't blank.
    pub fn wordy_word(&self, alloc: Global) -> Result<Text, Memory>
        requires { (self.now.is_free || list_any (λ s. not (blank s)) self.now.words) ≡ true }
        ensures { IfOk result (λ s. (spec.says self.now s ≡ true) × (not (blank s) ≡ true)) }
    {
        if self.is_free {
            return Text::of(alloc, "x");
        }
        for word in self.words.as_slice() {
            if !is_blank_text(word.as_str()) {
                return word.copy();
            }
        }
        unreachable!()
    }
}

fn has_words(words: &[Text]) -> bool
    ensures { result ≡ list_any (λ s. not (blank s)) words.now }
{
    words.iter().any(|word| !is_blank_text(word.as_str()))
}

/// The least of the sizes that are known of some templates.
#[tactic(auto, using(crate::proofs::Ways::way_steps))]
pub fn least_of(known: &Table, led: &[u32]) -> u32
    ensures least { result ≡ sizes.least_of (λ m. size_at known.now m) led.now }
    ensures most { result ≤ NONE }
{
    let mut least = NONE;
    for m in led {
        least = least.min(known.size(*m as usize));
    }
    least
}
