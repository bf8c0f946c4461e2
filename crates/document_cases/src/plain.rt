//! Documents as plain trees, by the definition and nothing else.

use bw_doc::DocFault;
use bw_lang::{
    AttrValue, Element, GapId, Item, Items, MAX_DEPTH, MAX_NEST, MAX_WEIGHT, Measure, Memory, Name,
    Template, Text, Tree,
};
use bw_page::{Sheet, wrap_exit, wrap_show};
use std::alloc::Global;

/// A document as a tree, with its measure.
#[derive(Drop)]
pub struct Plain {
    pub tree: Tree,
    pub measure: Measure,
}

impl Plain {
    pub fn constant(template: &Template) -> Result<Plain, Memory> {
        let weight = items_weight(&template.items).saturating_add(64);
        let nest = items_nest(&template.items);
        Ok(Plain {
            tree: Tree::constant(template)?,
            measure: Measure {
                weight,
                depth: 1,
                nest,
            },
        })
    }

    pub fn copy(&self) -> Result<Plain, Memory> {
        Ok(Plain {
            tree: self.tree.copy()?,
            measure: self.measure,
        })
    }

    /// How many gaps of that number are open, and how many elements stand around one at most.
    pub fn gaps(&self, gap: GapId) -> Gaps {
        items_gaps(&self.tree.items, gap, 0)
    }

    /// The page, as a session's last one or in a form with that target.
    pub fn page(
        &self,
        alloc: Global,
        title: &Name,
        target: Option<&Text>,
    ) -> Result<Sheet, Memory> {
        let page = match target {
            Some(target) => wrap_show(title, target, &self.tree)?,
            None => wrap_exit(title, &self.tree)?,
        };
        let sheet = Sheet::of(alloc, &page);
        drop(page);
        sheet
    }

    pub fn plug(&self, gap: GapId, other: &Plain) -> Result<Plain, DocFault> {
        let measure = self.plugged(gap, other.measure)?;
        Ok(Plain {
            tree: self.tree.plug(gap, &other.tree)?,
            measure,
        })
    }

    pub fn fill(&self, gap: GapId, text: &str) -> Result<Plain, DocFault> {
        let bytes = text.len() as u64;
        let measure = Measure {
            weight: bytes.saturating_add(16),
            depth: 0,
            nest: 0,
        };
        let measure = self.plugged(gap, measure)?;
        Ok(Plain {
            tree: self.tree.plug_text(gap, text)?,
            measure,
        })
    }

    /// The measure of the document with something of that measure in its gaps of that number.
    fn plugged(&self, gap: GapId, other: Measure) -> Result<Measure, DocFault> {
        let base = self.measure;
        let gaps = self.gaps(gap);
        let inside = gaps.count.saturating_mul(other.weight);
        let weight = base.weight.saturating_add(64).saturating_add(inside);
        let depth = base.depth.max(other.depth).saturating_add(1);
        let nest = base.nest.max(gaps.around.saturating_add(other.nest));
        if weight > MAX_WEIGHT {
            return Err(DocFault::Heavy(weight));
        }
        if depth > MAX_DEPTH {
            return Err(DocFault::Deep(depth));
        }
        if nest > MAX_NEST {
            return Err(DocFault::Nested(nest));
        }
        Ok(Measure {
            weight,
            depth,
            nest,
        })
    }
}

/// Open gaps of one name.
#[derive(Clone, Copy, PartialEq, Eq)]
pub struct Gaps {
    pub count: u64,
    pub around: u32,
}

impl Gaps {
    fn and(self, other: Gaps) -> Gaps {
        Gaps {
            count: self.count.saturating_add(other.count),
            around: self.around.max(other.around),
        }
    }

    /// One gap inside so many elements, where it is there.
    fn one(is_there: bool, around: u32) -> Gaps {
        if is_there {
            Gaps { count: 1, around }
        } else {
            Gaps {
                count: 0,
                around: 0,
            }
        }
    }
}

#[tactic(auto, using(bw_lang::proofs::Forests::forest_steps))]
#[cycle(gaps)]
fn items_gaps(items: &Items, gap: GapId, around: u32) -> Gaps {
    let mut gaps = Gaps::one(false, 0);
    for item in items.as_slice() {
        gaps = gaps.and(item_gaps(item, gap, around));
    }
    gaps
}

#[tactic(auto, using(bw_lang::proofs::Forests::forest_steps))]
#[cycle(gaps)]
fn item_gaps(item: &Item, gap: GapId, around: u32) -> Gaps {
    match item {
        Item::Text(_) => Gaps::one(false, 0),
        Item::Gap(open) => Gaps::one(*open == gap, around),
        Item::Element(element) => {
            let around = around.saturating_add(1);
            own_gaps(element, gap, around).and(items_gaps(&element.items, gap, around))
        }
    }
}

fn own_gaps(element: &Element, gap: GapId, around: u32) -> Gaps {
    let mut gaps = Gaps::one(false, 0);
    for attr in element.attrs.as_slice() {
        if let AttrValue::Hole(open) = &attr.value {
            gaps = gaps.and(Gaps::one(*open == gap, around));
        }
    }
    gaps
}

#[tactic(auto, using(bw_lang::proofs::Forests::forest_steps))]
#[cycle(weight)]
fn items_weight(items: &Items) -> u64 {
    let mut weight = 0u64;
    for item in items.as_slice() {
        weight = weight.saturating_add(64).saturating_add(item_weight(item));
    }
    weight
}

#[tactic(auto, using(bw_lang::proofs::Forests::forest_steps))]
#[cycle(weight)]
fn item_weight(item: &Item) -> u64 {
    match item {
        Item::Text(text) => text.as_bytes().len() as u64,
        Item::Gap(_) => 0,
        Item::Element(element) => attrs_weight(element).saturating_add(items_weight(
            &element.items,
        )),
    }
}

fn attrs_weight(element: &Element) -> u64 {
    let mut weight = 0u64;
    for attr in element.attrs.as_slice() {
        weight = weight.saturating_add(64);
        if let AttrValue::Fixed(value) = &attr.value {
            weight = weight.saturating_add(value.as_bytes().len() as u64);
        }
    }
    weight
}

#[tactic(auto, using(bw_lang::proofs::Forests::forest_steps))]
#[cycle(nest)]
fn items_nest(items: &Items) -> u32 {
    let mut nest = 0;
    for item in items.as_slice() {
        nest = nest.max(item_nest(item));
    }
    nest
}

#[tactic(auto, using(bw_lang::proofs::Forests::forest_steps))]
#[cycle(nest)]
fn item_nest(item: &Item) -> u32 {
    match item {
        Item::Element(element) => items_nest(&element.items).saturating_add(1),
        Item::Text(_) | Item::Gap(_) => 0,
    }
}
