//! What is still to come of foreachs.
ghost use Rattle.std.specs.Prelude.{◌≡◌, ◌++◌, ◌∷◌, ◌-◌, ◌≤◌, ◌^◌, [], None, IfOk, IfSome, OnOk, OnErr, MatchOption, length, take, slice_get};
ghost use Rattle.bw_run.specs.Follow.Runs.{rests_weight};
ghost use Rattle.bw_meaning.specs.Values.{list_weight};

use bw_eval::words_weight;
use bw_lang::{Memory, Text, Words};
use std::alloc::Global;
use std::marker::Model;

/// The strings still to come of one foreach. Those that were taken stay where they are, so that to take one costs the same
/// however many are to come.
#[derive(Drop)]
pub struct Rest {
    strings: Words,
    taken: usize,
}

impl Model for Rest {
    ghost use Rattle.std.specs.Prelude.{ℕ, List, drop, length, ◌≤◌};

    ghost Value = { List (List ℕ) };

    ghost view = { λ r. drop r.taken r.strings };

    ghost invariant = { λ r. r.taken ≤ length r.strings };
}

impl Rest {
    /// All of these strings.
    pub fn of(strings: Words) -> Rest
        ensures { result ≡ strings }
    {
        Rest { strings, taken: 0 }
    }

    /// Takes the first string out, if there is one.
    pub fn take_first(&mut self) -> Result<Option<Text>, Memory>
        ensures { IfOk result (λ first. MatchOption first ((self.old ≡ []) × (self.new ≡ [])) (λ string. self.old ≡ string ∷ self.new)) }
    {
        match self.strings.as_slice().get(self.taken) {
            None => Ok(None),
            Some(string) => {
                let first = string.copy()?;
                self.taken += 1;
                Ok(Some(first))
            }
        }
    }

    /// The strings in their order.
    pub fn as_slice(&self) -> &[Text]
        ensures { result.now ≡ self.now }
    {
        &self.strings.as_slice()[self.taken..]
    }

    /// Equal strings with memory of their own.
    fn copy(&self, alloc: Global) -> Result<Rest, Memory>
        ensures { IfOk result (λ r. r ≡ self.now) }
    {
        let mut strings = Words::new(alloc);
        for string in self.as_slice() {
            strings.push(string.copy()?)?;
        }
        Ok(Rest::of(strings))
    }

    /// What they weigh, unless that is too great for a number of 64 bits.
    fn weight(&self) -> Option<u64>
        ensures some { IfSome result (λ w. w ≡ list_weight self.now) }
        ensures none { result ≡ None → 2 ^ 64 ≤ list_weight self.now }
    {
        words_weight(self.as_slice())
    }
}

/// The strings still to come of the foreachs around a place, the outermost first.
pub struct Rests {
    list: Vec<Rest>,
}

impl Drop for Rests {
    fn drop(self) {
        let Rests { list: _ } = self;
    }
}

impl Model for Rests {
    ghost use Rattle.std.specs.Prelude.{ℕ, List};

    ghost Value = { List (List (List ℕ)) };

    ghost view = { λ r. r.list.items };
}

impl Rests {
    /// No foreach.
    pub fn new(alloc: Global) -> Rests
        ensures { result ≡ [] }
    {
        Rests {
            list: Vec::new(alloc),
        }
    }

    pub fn alloc(&self) -> Global {
        *self.list.allocator()
    }

    /// How many foreachs there are.
    pub fn len(&self) -> usize
        ensures { result ≡ length self.now }
    {
        self.list.len()
    }

    /// What is still to come of each foreach, the outermost first.
    pub fn as_slice(&self) -> &[Rest]
        ensures { result.now ≡ self.now }
    {
        self.list.as_slice()
    }

    /// A foreach inside the others.
    pub fn push(&mut self, rest: Rest) -> Result<(), Memory>
        ensures ok { OnOk result (self.new ≡ self.old ++ rest ∷ []) }
        ensures err { OnErr result (self.new ≡ self.old) }
    {
        self.list.push(rest)?;
        Ok(())
    }

    /// Takes the innermost out.
    pub fn pop(&mut self) -> Option<Rest>
        ensures rest { result ≡ slice_get self.old (length self.old - 1) }
        ensures outer { self.new ≡ take (length self.old - 1) self.old }
    {
        self.list.pop()
    }

    /// Equal rests with memory of their own.
    pub fn copy(&self) -> Result<Rests, Memory>
        ensures { IfOk result (λ r. r ≡ self.now) }
    {
        let alloc = self.alloc();
        let mut list = Vec::new(alloc);
        for rest in &self.list {
            list.push(rest.copy(alloc)?)?;
        }
        Ok(Rests { list })
    }

    /// What all together weigh, unless that is too great for a number of 64 bits.
    pub fn weight(&self) -> Option<u64>
        ensures some { IfSome result (λ w. w ≡ rests_weight self.now) }
        ensures none { result ≡ None → 2 ^ 64 ≤ rests_weight self.now }
    {
        let mut total: u64 = 0;
        for rest in &self.list {
            total = total.checked_add(rest.weight()?)?;
        }
        Some(total)
    }
}
