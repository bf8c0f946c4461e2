//! Where the gaps of a document are open.
ghost use Rattle.std.specs.Prelude.{◌≡◌, ◌==◌, ◌+◌, ◌*◌, ◌^◌, ◌<◌, [], length, IsTrue, unwrap_or, IfOk, OnOk};
ghost use Rattle.bw_lang.specs.Document.Documents as doc;
ghost use Rattle.bw_doc.specs.Notes.{IsCounted, level, content_at, hole_at};
ghost use Rattle.bw_doc.specs.Spots as spec;

use bw_lang::{GapId, Memory};
use std::alloc::Global;
use std::marker::Model;

/// Where gaps are open: how many there are, and the greatest number of elements around one of them.
#[derive(Clone, Copy)]
pub struct Spot {
    pub count: u32,
    pub depth: Option<u32>,
}

/// Where the gaps of a name are open: in content, and as the values of attributes.
#[derive(Clone, Copy)]
pub struct Open {
    pub content: Spot,
    pub hole: Spot,
}

/// Where each gap is open, by its number.
#[derive(Drop)]
pub struct Openings {
    list: Vec<Open>,
}

impl Model for Openings {
    ghost use Rattle.std.specs.Prelude.{List};
    ghost use Rattle.bw_doc.specs.declared.spots.Open.{Open};

    ghost Value = { List Open };

    ghost view = { λ t. t.list.items };
}

/// The greater of two depths, where either is there.
fn deeper(a: Option<u32>, b: Option<u32>) -> Option<u32>
    ensures { result ≡ doc.deeper a b }
{
    match (a, b) {
        (None, b) => b,
        (a, None) => a,
        (Some(a), Some(b)) => Some(a.max(b)),
    }
}

/// The sum of two depths, where both are there.
fn below(a: Option<u32>, b: Option<u32>) -> Option<u32>
    requires { unwrap_or (spec.below a b) 0 < 2 ^ 32 }
    ensures { result ≡ spec.below a b }
{
    match (a, b) {
        (Some(a), Some(b)) => Some(a + b),
        _ => None,
    }
}

impl Spot {
    pub(crate) fn nowhere() -> Spot
        ensures { result ≡ spec.nowhere }
    {
        Spot {
            count: 0,
            depth: None,
        }
    }

    fn is_nowhere(self) -> bool
        ensures { IsTrue result → self ≡ spec.nowhere }
    {
        match self.depth {
            Some(_) => false,
            None => self.count == 0,
        }
    }

    /// Here and there.
    fn join(self, other: Spot) -> Spot
        requires { self.count + other.count < 2 ^ 32 }
        ensures { result ≡ spec.join self other }
    {
        Spot {
            count: self.count + other.count,
            depth: deeper(self.depth, other.depth),
        }
    }

    /// Once, inside so many elements.
    fn level(around: u32) -> Spot
        ensures { result ≡ level around }
    {
        Spot {
            count: 1,
            depth: Some(around),
        }
    }

    /// The other once more at each of these.
    fn times(self, other: Spot) -> Spot
        requires count { self.count * other.count < 2 ^ 32 }
        requires depth { unwrap_or (spec.below self.depth other.depth) 0 < 2 ^ 32 }
        ensures { result ≡ spec.times self other }
    {
        Spot {
            count: self.count * other.count,
            depth: below(self.depth, other.depth),
        }
    }

    /// Nowhere, where it holds.
    fn unless(self, holds: bool) -> Spot
        ensures { result ≡ spec.unless holds self }
    {
        if holds { Spot::nowhere() } else { self }
    }
}

impl Open {
    pub(crate) fn closed() -> Open
        ensures { result ≡ spec.closed }
    {
        Open {
            content: Spot::nowhere(),
            hole: Spot::nowhere(),
        }
    }

    /// One content gap, inside so many elements.
    pub(crate) fn content(around: u32) -> Open
        ensures { result ≡ content_at around }
    {
        Open {
            content: Spot::level(around),
            hole: Spot::nowhere(),
        }
    }

    /// One attribute gap, inside so many elements.
    pub(crate) fn hole(around: u32) -> Open
        ensures { result ≡ hole_at around }
    {
        Open {
            content: Spot::nowhere(),
            hole: Spot::level(around),
        }
    }

    /// Whether no gap of the name is open.
    fn is_closed(self) -> bool
        ensures { IsTrue result → self ≡ spec.closed }
    {
        self.content.is_nowhere() && self.hole.is_nowhere()
    }

    /// Here and there.
    fn join(self, other: Open) -> Open
        requires { IsCounted (spec.both self other) }
        ensures { result ≡ spec.both self other }
    {
        Open {
            content: self.content.join(other.content),
            hole: self.hole.join(other.hole),
        }
    }

    /// How many of either kind.
    pub(crate) fn count(self) -> u64
        ensures { result ≡ self.content.count + self.hole.count }
    {
        u64::from(self.content.count) + u64::from(self.hole.count)
    }

    /// The greatest number of elements around one of either kind, and 0 where none is open.
    pub(crate) fn around(self) -> u32
        ensures { result ≡ unwrap_or (doc.deeper self.content.depth self.hole.depth) 0 }
    {
        deeper(self.content.depth, self.hole.depth).unwrap_or(0)
    }

    /// What is open once others are put into some content gaps, which are of this name where `same` holds.
    fn plug(self, same: bool, with: Open, into: Spot) -> Open
        requires { spec.IsSmall (spec.plugged_open same self with into) }
        ensures { result ≡ spec.plugged_open same self with into }
    {
        Open {
            content: self.content.unless(same).join(into.times(with.content)),
            hole: self.hole.join(into.times(with.hole)),
        }
    }

    /// What is open once some gaps are filled, which are of this name where `same` holds.
    fn fill(self, same: bool) -> Open
        ensures { result ≡ spec.filled_open same self }
    {
        Open {
            content: self.content.unless(same),
            hole: self.hole.unless(same),
        }
    }
}

/// Takes away the entries at the end of a table that say nothing.
fn trim(list: &mut Vec<Open>)
    ensures { spec.IsTableOf (spec.at list.old.items) list.new.items }
{
    let mut size = list.len();
    while size > 0 && list[size - 1].is_closed() {
        size -= 1;
    }
    list.truncate(size);
}

/// Makes room for an entry, with entries that say nothing.
fn reach(list: &mut Vec<Open>, gap: usize) -> Result<(), Memory>
    ensures same { OnOk result (spec.IsTableOf (spec.at list.old.items) list.new.items) }
    ensures room { OnOk result (gap < length list.new.items) }
{
    while list.len() <= gap {
        list.push(Open::closed())?;
    }
    Ok(())
}

impl Openings {
    /// The table of these entries, by their places.
    pub(crate) fn from_vec(list: Vec<Open>) -> Openings
        ensures { result ≡ list.items }
    {
        Openings { list }
    }

    /// The allocator that the table keeps.
    pub(crate) fn alloc(&self) -> Global {
        *self.list.allocator()
    }

    /// Where the gap of that number is open.
    pub(crate) fn get(&self, gap: usize) -> Open
        ensures { result ≡ spec.at self.now gap }
    {
        match self.list.get(gap) {
            Some(open) => *open,
            None => Open::closed(),
        }
    }

    /// Takes in that more is open of that number.
    pub(crate) fn add(&mut self, gap: GapId, more: Open) -> Result<(), Memory>
        requires { IsCounted (spec.both (spec.at self.old gap) more) }
        ensures { OnOk result (spec.IsTableOf (spec.added_at gap more self.old) self.new) }
    {
        let gap = gap.number() as usize;
        reach(&mut self.list, gap)?;
        self.list[gap] = self.list[gap].join(more);
        Ok(())
    }

    /// Where gaps are open once others are put into the content gaps of that number.
    pub(crate) fn plug(&self, gap: GapId, with: &Openings) -> Result<Openings, Memory>
        requires { spec.AreSmall (spec.plugged_at gap self.now with.now) }
        ensures { IfOk result (λ t. spec.IsTableOf (spec.plugged_at gap self.now with.now) t) }
    {
        let gap = gap.number() as usize;
        let into = self.get(gap).content;
        let mut list = Vec::new(*self.list.allocator());
        for number in 0..self.list.len().max(with.list.len()) {
            list.push(self.get(number).plug(number == gap, with.get(number), into))?;
        }
        trim(&mut list);
        Ok(Openings { list })
    }

    /// Where gaps are open once those of that number are filled.
    pub(crate) fn fill(&self, gap: GapId) -> Result<Openings, Memory>
        ensures { IfOk result (λ t. spec.IsTableOf (spec.filled_at gap self.now) t) }
    {
        let gap = gap.number() as usize;
        let mut list = Vec::new(*self.list.allocator());
        for number in 0..self.list.len() {
            list.push(self.get(number).fill(number == gap))?;
        }
        trim(&mut list);
        Ok(Openings { list })
    }
}
