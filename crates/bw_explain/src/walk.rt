//! The least sizes of documents in which something is looked for.
ghost use Rattle.std.specs.Prelude.{◌≡◌, ◌+◌, ◌≤◌, ◌<◌, ◌^◌, ◌==◌, if◌then◌else◌, length};
ghost use Rattle.bw_lang.specs.Document.Documents.{elements};
ghost use Rattle.bw_lang.specs.Document.Forest.{none, element as node};
ghost use Rattle.bw_lang.specs.Document.View.{before};
ghost use Rattle.bw_explain.specs.declared.sizes.TheConstants.{NONE};
ghost use Rattle.bw_explain.specs.declared.aim.Aim.TheVariants.{Plain};
ghost use Rattle.bw_explain.specs.Aims.{aim_of, cost_of, walk_of, table_of};
ghost use Rattle.bw_explain.specs.Walks as spec;
ghost use Rattle.bw_explain.specs.Ways.{way_of, ways_at};

use crate::aim::Aim;
use crate::gaps::gap_size;
use crate::least::attrs_least;
use crate::page::Page;
use crate::reach::{Moves, Reach};
use crate::sizes::{NONE, if_so, plus};
use crate::table::Table;
use crate::way::Way;
use bw_lang::{Element, GapId, Item, Items, is_blank_text};

/// The least documents of all templates that go from a state to itself, from 0 to 1, from 1 to 2, and from 0 to 2.
#[derive(Clone, Copy)]
pub struct Known<'a> {
    pub stay: &'a Table,
    pub first: &'a Table,
    pub second: &'a Table,
    pub whole: &'a Table,
}

/// What a walk goes by: `plain` has the least ones of all documents, `known` those that are looked for, between two states.
#[derive(Clone, Copy)]
pub struct Walk<'a> {
    pub page: Page<'a>,
    pub aim: Aim<'a>,
    pub plain: &'a Table,
    pub known: Known<'a>,
    /// The first state and the last.
    pub low: u32,
    pub high: u32,
}

/// The sizes behind a part, and the number of elements up to its end.
#[derive(Clone, Copy)]
pub struct Behind {
    pub reach: Reach,
    pub place: u32,
}

/// What an item costs, and the number of elements up to its end.
#[derive(Clone, Copy)]
pub struct Step {
    pub moves: Moves,
    pub place: u32,
}

impl<'a> Known<'a> {
    /// The same table for all.
    pub fn all(table: &'a Table) -> Known<'a>
        ensures stay { result.stay.now ≡ table.now }
        ensures first { result.first.now ≡ table.now }
        ensures second { result.second.now ≡ table.now }
        ensures whole { result.whole.now ≡ table.now }
    {
        Known {
            stay: table,
            first: table,
            second: table,
            whole: table,
        }
    }

    /// Those from one state to another.
    pub fn table(&self, from: u32, to: u32) -> &Table
        ensures { result.now ≡ table_of self.now from to }
    {
        if from == to {
            self.stay
        } else if to == 1 {
            self.first
        } else if from == 1 {
            self.second
        } else {
            self.whole
        }
    }

    /// Others for those from one state to another.
    pub fn with(&self, from: u32, to: u32, table: &'a Table) -> Known<'a>
        ensures stay { result.stay.now ≡ (if from == to then table.now else self.now.stay.now) }
        ensures first { result.first.now ≡ (if from == to then self.now.first.now else if to == 1 then table.now else self.now.first.now) }
        ensures second { result.second.now ≡ (if from == to then self.now.second.now else if to == 1 then self.now.second.now else if from == 1
            then table.now else self.now.second.now) }
        ensures whole { result.whole.now ≡ (if from == to then self.now.whole.now else if to == 1 then self.now.whole.now else if from == 1
            then self.now.whole.now else table.now) }
    {
        let Known {
            stay,
            first,
            second,
            whole,
        } = *self;
        if from == to {
            return Known {
                stay: table,
                first,
                second,
                whole,
            };
        }
        if to == 1 {
            return Known {
                stay,
                first: table,
                second,
                whole,
            };
        }
        if from == 1 {
            return Known {
                stay,
                first,
                second: table,
                whole,
            };
        }
        Known {
            stay,
            first,
            second,
            whole: table,
        }
    }
}

impl<'a> Walk<'a> {
    /// The same where nothing is looked for.
    pub fn flat(&self) -> Walk<'a>
        ensures page { result.page ≡ self.now.page }
        ensures plain { result.plain.now ≡ self.now.plain.now }
        ensures aim { result.aim ≡ Plain }
        ensures stay { result.known.stay.now ≡ self.now.plain.now }
        ensures first { result.known.first.now ≡ self.now.plain.now }
        ensures second { result.known.second.now ≡ self.now.plain.now }
        ensures whole { result.known.whole.now ≡ self.now.plain.now }
        ensures states { (result.low ≡ 0) × (result.high ≡ 0) }
    {
        Walk {
            page: self.page,
            aim: Aim::Plain,
            plain: self.plain,
            known: Known::all(self.plain),
            low: 0,
            high: 0,
        }
    }
}

/// What a gap with this way costs.
fn way_moves(walk: &Walk, way: &Way) -> Moves
    ensures is { result ≡ spec.moves_of (spec.gap_cost (walk_of walk.now) way.now) }
    ensures most { spec.AreCosts result }
{
    let same = gap_size(walk, way, 0, 0);
    Moves {
        start: same,
        start_middle: gap_size(walk, way, 0, 1),
        start_last: gap_size(walk, way, 0, 2),
        middle: same,
        middle_last: gap_size(walk, way, 1, 2),
        last: same,
    }
}

/// What a gap costs.
fn gap_moves(walk: &Walk, n: usize, gap: GapId) -> Moves
    requires n { n < length walk.now.page.templates.now }
    ensures is { result ≡ spec.moves_of (spec.gap_cost (walk_of walk.now) (way_of (ways_at walk.now.page.nodes.now n) gap)) }
    ensures most { spec.AreCosts result }
{
    match walk.page.node(n).way(gap) {
        Some(way) => way_moves(walk, way),
        None => Moves::even(NONE, NONE, NONE),
    }
}

/// What a text costs.
fn text_moves(aim: &Aim, text: &str) -> Moves
    ensures is { result ≡ spec.moves_of (spec.text_cost (aim_of aim.now) text.now) }
    ensures most { spec.AreCosts result }
{
    let next = if_so(aim.is_wordy() && !is_blank_text(text), 1);
    Moves::even(1, next, NONE)
}

/// What an element costs, where it is looked for at any depth, by its attributes and items.
fn deep_moves(aim: &Aim, n: usize, place: u32, own: u32, inner: Reach) -> Moves
    requires own { own ≤ NONE }
    requires inner { spec.AreSizes inner }
    requires cost { cost_of aim.now ≤ NONE }
    ensures is { result ≡ spec.moves_of (spec.deep_cost (aim_of aim.now) n place own inner (cost_of aim.now)) }
    ensures most { spec.AreCosts result }
{
    let stay = plus(own, inner.start).min(NONE);
    let next = plus(own, inner.middle).min(aim.spot(n, place));
    let jump = plus(own, inner.last).min(NONE);
    Moves::even(stay, next, jump)
}

/// What an element costs, where it is looked for at the top, by its size.
fn top_moves(aim: &Aim, tag: &str, size: u32) -> Moves
    requires { size ≤ NONE }
    ensures is { result ≡ spec.moves_of (spec.top_cost (aim_of aim.now) tag.now size) }
    ensures most { spec.AreCosts result }
{
    let stay = if_so(aim.stays(tag), size);
    Moves {
        start: stay,
        start_middle: if_so(aim.next(0, tag), size),
        start_last: NONE,
        middle: stay,
        middle_last: if_so(aim.next(1, tag), size),
        last: stay,
    }
}

/// What an element of a template costs, where so many elements stand before it.
#[tactic(auto, using(crate::proofs::Walking::walk_steps))]
#[cycle(walk)]
fn element_step(walk: &Walk, n: usize, place: u32, element: &Element) -> Step
    requires n { n < length walk.now.page.templates.now }
    requires cost { cost_of walk.now.aim ≤ NONE }
    requires place { place + 1 + elements element.now.items < 2 ^ 32 }
    ensures moves { result.moves ≡ spec.moves_of (spec.item_cost (walk_of walk.now) n place
        (node element.now.tag element.now.attrs element.now.items none)) }
    ensures place { result.place ≡ place + 1 + elements element.now.items }
    ensures most { spec.AreCosts result.moves }
{
    let own = plus(1, attrs_least(walk.page.node(n), &element.attrs));
    if walk.aim.is_deep() {
        let inner = reach_items(walk, n, place + 1, 0, &element.items);
        return Step {
            moves: deep_moves(&walk.aim, n, place + 1, own, inner.reach),
            place: inner.place,
        };
    }
    let inner = reach_items(&walk.flat(), n, 0, 0, &element.items);
    let size = plus(own, inner.reach.start);
    Step {
        moves: top_moves(&walk.aim, element.tag.as_str(), size),
        place: place + 1 + inner.place,
    }
}

/// What an item costs.
#[tactic(auto, using(crate::proofs::Walking::walk_steps))]
#[cycle(walk)]
pub fn item_step(walk: &Walk, n: usize, place: u32, item: &Item) -> Step
    requires n { n < length walk.now.page.templates.now }
    requires cost { cost_of walk.now.aim ≤ NONE }
    requires place { place + elements (before item.now none) < 2 ^ 32 }
    ensures moves { result.moves ≡ spec.moves_of (spec.item_cost (walk_of walk.now) n place (before item.now none)) }
    ensures place { result.place ≡ place + elements (before item.now none) }
    ensures most { spec.AreCosts result.moves }
{
    match item {
        Item::Text(text) => Step {
            moves: text_moves(&walk.aim, text.as_str()),
            place,
        },
        Item::Gap(gap) => Step {
            moves: gap_moves(walk, n, *gap),
            place,
        },
        Item::Element(element) => element_step(walk, n, place, element),
    }
}

/// The least sizes in each state behind some items, from one state on, where so many elements stand before them.
#[tactic(auto, using(crate::proofs::Walking::walk_steps))]
#[cycle(walk)]
pub fn reach_items(walk: &Walk, n: usize, place: u32, state: u32, items: &Items) -> Behind
    requires n { n < length walk.now.page.templates.now }
    requires cost { cost_of walk.now.aim ≤ NONE }
    requires place { place + elements items.now < 2 ^ 32 }
    ensures is { result.reach ≡ spec.walk (walk_of walk.now) n place (spec.from state) items.now }
    ensures place { result.place ≡ place + elements items.now }
    ensures most { spec.AreSizes result.reach }
{
    let mut reach = Reach::begin(state);
    let mut at = place;
    for item in items.as_slice() {
        let step = item_step(walk, n, at, item);
        reach = reach.then(step.moves);
        at = step.place;
    }
    Behind { reach, place: at }
}
