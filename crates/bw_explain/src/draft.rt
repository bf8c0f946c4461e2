//! Documents of least size in which something is looked for.
ghost use Rattle.std.specs.Prelude.{◌≡◌, ◌+◌, ◌-◌, ◌≤◌, ◌<◌, ◌^◌, ◌==◌, true, if◌then◌else◌, IfOk, OnOk, length};
ghost use Rattle.bw_lang.specs.Document.Documents.{elements};
ghost use Rattle.bw_lang.specs.Document.Forest.{none, element as node};
ghost use Rattle.bw_lang.specs.Document.View.{before};
ghost use Rattle.bw_shape.specs.Nodes.Templates.{template_at};
ghost use Rattle.bw_sum.specs.Unfolding.{FillsAttrs, Fills};
ghost use Rattle.bw_explain.specs.declared.sizes.TheConstants.{MAX_SIZE, NONE};
ghost use Rattle.bw_explain.specs.Aims.{aim_of, cost_of, walk_of, IsPlain, IsElement, IsReady};
ghost use Rattle.bw_explain.specs.Tables.{Documents};
ghost use Rattle.bw_explain.specs.Walks as spec;
ghost use Rattle.bw_explain.specs.Walks.{Runs, Adds};
ghost use Rattle.bw_explain.specs.Ways.{graph};

use crate::aim::{Made, copy_made};
use crate::fill::fill_attrs;
use crate::gaps::put_gap;
use crate::ground::Stand;
use crate::putting::{either, put_element, put_text, rebase};
use crate::reach::Reach;
use crate::sizes::MAX_SIZE;
use crate::spotting::is_spotted;
use crate::walk::{Walk, item_step};
use bw_lang::{Element, Item, Items, Memory};
use std::alloc::Global;

/// Documents for the items that were walked over, one for each state.
#[derive(Drop)]
pub struct Draft {
    pub start: Items,
    pub middle: Items,
    pub last: Items,
}

impl Draft {
    /// That of one state.
    pub fn into_doc(self, state: u32) -> Items
        ensures { result ≡ spec.doc_of self.start self.middle self.last state }
    {
        let Draft {
            start,
            middle,
            last,
        } = self;
        if state == 0 {
            start
        } else if state == 1 {
            middle
        } else {
            last
        }
    }
}

/// An element of a template where it may stand at the top, with its items filled by themselves.
#[tactic(auto, using(crate::proofs::Walking::walk_steps))]
#[cycle(draft)]
fn make_top(alloc: Global, walk: &Walk, n: usize, element: &Element) -> Result<Made, Memory>
    requires n { n < length walk.now.page.templates.now }
    requires plain { Documents (IsPlain walk.now.page) walk.now.plain.now }
    requires few { elements element.now.items < 2 ^ 32 }
    requires small { spec.flat_size (walk_of walk.now) n element.now.attrs element.now.items ≤ MAX_SIZE }
    ensures { IfOk result (IsElement (λ b j. FillsAttrs (graph walk.now.page.nodes.now) n element.now.attrs b
        × Fills (template_at walk.now.page.templates.now) (graph walk.now.page.nodes.now) n element.now.items j)
        (spec.flat_size (walk_of walk.now) n element.now.attrs element.now.items)) }
{
    let attrs = fill_attrs(alloc, &walk.page, n, &element.attrs)?;
    let Ok(items) = draft_items(alloc, &walk.flat(), n, 0, 0, &element.items) else {
        drop(attrs);
        return Err(Memory);
    };
    Ok(Made {
        attrs,
        items: items.into_doc(0),
    })
}

/// An element with what is looked for inside it.
#[tactic(auto, using(crate::proofs::Walking::walk_steps))]
#[cycle(draft)]
fn make_inside(
    alloc: Global,
    walk: &Walk,
    n: usize,
    place: u32,
    state: u32,
    element: &Element,
) -> Result<Made, Memory>
    requires n { n < length walk.now.page.templates.now }
    requires cost { cost_of walk.now.aim ≤ NONE }
    requires ready { IsReady walk.now }
    requires deep { (aim_of walk.now.aim).deep ≡ true }
    requires place { place + 1 + elements element.now.items < 2 ^ 32 }
    requires state { state ≤ walk.now.high }
    requires small { spec.inside_size (walk_of walk.now) n place element.now.attrs element.now.items state ≤ MAX_SIZE }
    ensures { IfOk result (IsElement (λ b j. FillsAttrs (graph walk.now.page.nodes.now) n element.now.attrs b
        × Runs (template_at walk.now.page.templates.now) (graph walk.now.page.nodes.now) (aim_of walk.now.aim) n (place + 1) 0 element.now.items state j)
        (spec.inside_size (walk_of walk.now) n place element.now.attrs element.now.items state)) }
{
    let attrs = fill_attrs(alloc, &walk.page, n, &element.attrs)?;
    let Ok(items) = draft_items(alloc, walk, n, place + 1, 0, &element.items) else {
        drop(attrs);
        return Err(Memory);
    };
    Ok(Made {
        attrs,
        items: items.into_doc(state),
    })
}

/// An element that takes one state to another.
#[tactic(auto, using(crate::proofs::Walking::walk_steps))]
#[cycle(draft)]
fn make(
    alloc: Global,
    stand: &Stand<'_>,
    from: u32,
    to: u32,
    element: &Element,
) -> Result<Made, Memory>
    requires n { stand.now.n < length stand.now.walk.now.page.templates.now }
    requires cost { cost_of stand.now.walk.now.aim ≤ NONE }
    requires ready { IsReady stand.now.walk.now }
    requires place { stand.now.place + 1 + elements element.now.items < 2 ^ 32 }
    requires states { (stand.now.walk.now.low ≤ from) × (from ≤ to) × (to ≤ stand.now.walk.now.high) }
    requires small { spec.item_cost (walk_of stand.now.walk.now) stand.now.n stand.now.place
        (node element.now.tag element.now.attrs element.now.items none) from to ≤ MAX_SIZE }
    ensures { IfOk result (IsElement (λ b j. Runs (template_at stand.now.walk.now.page.templates.now) (graph stand.now.walk.now.page.nodes.now)
        (aim_of stand.now.walk.now.aim) stand.now.n stand.now.place from
        (node element.now.tag element.now.attrs element.now.items none) to (node element.now.tag b j none))
        (spec.item_cost (walk_of stand.now.walk.now) stand.now.n stand.now.place (node element.now.tag element.now.attrs element.now.items none) from to)) }
{
    let Stand { walk, n, place } = *stand;
    if !walk.aim.is_deep() {
        return make_top(alloc, walk, n, element);
    }
    if is_spotted(walk, n, place, from, to, element) {
        return copy_made(&walk.aim);
    }
    make_inside(alloc, walk, n, place, to - from, element)
}

/// Puts behind the others what an item becomes that takes one state to another.
#[tactic(auto, using(crate::proofs::Walking::walk_steps))]
#[cycle(draft)]
fn put(
    alloc: Global,
    stand: &Stand<'_>,
    from: u32,
    to: u32,
    item: &Item,
    out: &mut Items,
) -> Result<(), Memory>
    requires n { stand.now.n < length stand.now.walk.now.page.templates.now }
    requires cost { cost_of stand.now.walk.now.aim ≤ NONE }
    requires ready { IsReady stand.now.walk.now }
    requires place { stand.now.place + elements (before item.now none) < 2 ^ 32 }
    requires states { (stand.now.walk.now.low ≤ from) × (from ≤ to) × (to ≤ stand.now.walk.now.high) }
    requires small { spec.item_cost (walk_of stand.now.walk.now) stand.now.n stand.now.place (before item.now none) from to ≤ MAX_SIZE }
    ensures { OnOk result (Adds (Runs (template_at stand.now.walk.now.page.templates.now) (graph stand.now.walk.now.page.nodes.now)
        (aim_of stand.now.walk.now.aim) stand.now.n stand.now.place from
        (before item.now none) to) (spec.item_cost (walk_of stand.now.walk.now) stand.now.n stand.now.place (before item.now none) from to) out.old out.new) }
{
    match item {
        Item::Text(text) => put_text(text, out)?,
        Item::Gap(gap) => put_gap(alloc, stand, from, to, *gap, out)?,
        Item::Element(element) => {
            let made = make(alloc, stand, from, to, element)?;
            put_element(element, made, out)?;
        }
    }
    Ok(())
}

/// Makes the document of one state of that of another and an item, if it isn't too big.
#[tactic(auto, using(crate::proofs::Walking::walk_steps))]
#[cycle(draft)]
fn grow(
    alloc: Global,
    stand: &Stand<'_>,
    from: u32,
    to: u32,
    size: u32,
    item: &Item,
    base: &Items,
    own: &mut Items,
) -> Result<(), Memory>
    requires n { stand.now.n < length stand.now.walk.now.page.templates.now }
    requires cost { cost_of stand.now.walk.now.aim ≤ NONE }
    requires ready { IsReady stand.now.walk.now }
    requires place { stand.now.place + elements (before item.now none) < 2 ^ 32 }
    requires states { from ≤ to }
    requires low { to ≤ stand.now.walk.now.high → size ≤ MAX_SIZE → stand.now.walk.now.low ≤ from }
    requires small { size ≤ MAX_SIZE → spec.item_cost (walk_of stand.now.walk.now) stand.now.n stand.now.place (before item.now none) from to ≤ MAX_SIZE }
    ensures { OnOk result (to ≤ stand.now.walk.now.high → size ≤ MAX_SIZE → Adds (Runs (template_at stand.now.walk.now.page.templates.now)
        (graph stand.now.walk.now.page.nodes.now)
        (aim_of stand.now.walk.now.aim) stand.now.n stand.now.place from (before item.now none) to) (spec.item_cost
        (walk_of stand.now.walk.now) stand.now.n stand.now.place
        (before item.now none) from to)
        (if from == to then own.old else base.now) own.new) }
{
    if to > stand.walk.high || size > MAX_SIZE {
        return Ok(());
    }
    rebase(from == to, base, own)?;
    put(alloc, stand, from, to, item, own)
}

/// The documents for some items of a template, from one state on, where so many elements stand before them.
#[tactic(auto, using(crate::proofs::Walking::walk_steps))]
#[cycle(draft)]
pub fn draft_items(
    alloc: Global,
    walk: &Walk,
    n: usize,
    place: u32,
    state: u32,
    items: &Items,
) -> Result<Draft, Memory>
    requires n { n < length walk.now.page.templates.now }
    requires cost { cost_of walk.now.aim ≤ NONE }
    requires ready { IsReady walk.now }
    requires place { place + elements items.now < 2 ^ 32 }
    requires state { (walk.now.low ≤ state) × (state ≤ 2) }
    ensures { IfOk result (λ r. spec.IsDraft (template_at walk.now.page.templates.now) (graph walk.now.page.nodes.now) (aim_of walk.now.aim) n place state
        walk.now.high items.now (spec.walk (walk_of walk.now) n place (spec.from state) items.now) (spec.doc_of r.start r.middle r.last)) }
{
    let mut reach = Reach::begin(state);
    let mut at = place;
    let mut start = Items::new(alloc);
    let mut middle = Items::new(alloc);
    let mut last = Items::new(alloc);
    for item in items.as_slice() {
        let stand = Stand {
            walk: &*walk,
            n,
            place: at,
        };
        let step = item_step(walk, n, at, item);
        let next = reach.then(step.moves);
        let from = reach.origin(step.moves, 2);
        let base = either(from == 0, &start, &middle);
        grow(alloc, &stand, from, 2, next.last, item, base, &mut last)?;
        let from = reach.origin(step.moves, 1);
        grow(
            alloc,
            &stand,
            from,
            1,
            next.middle,
            item,
            &start,
            &mut middle,
        )?;
        grow(alloc, &stand, 0, 0, next.start, item, &last, &mut start)?;
        reach = next;
        at = step.place;
    }
    Ok(Draft {
        start,
        middle,
        last,
    })
}
