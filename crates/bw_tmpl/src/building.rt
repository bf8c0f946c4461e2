//! Items are built from pieces.
ghost use Rattle.std.specs.Prelude.{◌≡◌, ◌≢◌, ◌++◌, Some, None, IfOk, OnOk, [], ◌∷◌, length, map, MatchOption};
ghost use Rattle.std.specs.Bool.{MatchBool};
ghost use Rattle.bw_lang.specs.Document.Forest.{none, element};
ghost use Rattle.bw_lang.specs.Document.Documents.{append};
ghost use Rattle.bw_lang.specs.Document.View.{before};
ghost use Rattle.bw_lang.specs.Template.NumberedGaps.{numbered, numbered_value};
ghost use Rattle.bw_tmpl.specs.Building.{nothing_built, with_items, begun_by, tag_taken, element_begun};
ghost use Rattle.bw_tmpl.specs.Building.{empty_element, element_ended, draft_after, draft_after_all, if_none_open, built, Builds};

use crate::fault::TmplFault;
use bw_lang::pieces::{Piece, RawAttr, RawAttrs, RawValue, Tag};
use bw_lang::{Attr, AttrValue, Attrs, Element, GapNames, Item, Items, Memory, Name, is_void};
use std::alloc::Global;
use std::marker::Model;
use std::mem;

/// An element that is open: its start tag, and the items in front of it.
#[derive(Drop)]
pub struct OpenElement {
    pub tag: Name,
    pub attrs: Attrs,
    pub front: Items,
}

/// The elements that are open, the innermost first.
pub struct OpenElements {
    list: Vec<OpenElement>,
}

impl Drop for OpenElements {
    fn drop(self) {
        let OpenElements { list: _ } = self;
    }
}

impl Model for OpenElements {
    ghost use Rattle.std.specs.Prelude.{List, reverse};
    ghost use Rattle.bw_tmpl.specs.declared.building.OpenElement.{OpenElement};

    ghost Value = { List OpenElement };

    ghost use Rattle.bw_tmpl.specs.contracts.building.OpenElement as element;
    ghost use Rattle.std.specs.Coded.{coded_list};

    ghost coded = { coded_list element.the_row.coded };

    ghost view = { λ a. reverse a.list.items };
}

impl OpenElements {
    pub fn new(alloc: Global) -> OpenElements
        ensures { result ≡ [] }
    {
        OpenElements {
            list: Vec::new(alloc),
        }
    }

    pub fn push(&mut self, element: OpenElement) -> Result<(), Memory>
        ensures ok { OnOk result (self.new ≡ element ∷ self.old) }
    {
        self.list.push(element)?;
        Ok(())
    }

    pub fn pop(&mut self) -> Option<OpenElement>
        ensures { MatchOption result ((self.old ≡ []) × (self.new ≡ [])) (λ l. self.old ≡ l ∷ self.new) }
    {
        self.list.pop()
    }

    pub fn len(&self) -> usize
        ensures { result ≡ length self.now }
    {
        self.list.len()
    }

    pub fn is_empty(&self) -> bool
        ensures { MatchBool result (self.now ≡ []) (self.now ≢ []) }
    {
        self.list.is_empty()
    }
}

/// What was built so far: the items of the innermost open element, and the elements that are open.
#[derive(Drop)]
pub struct Draft {
    pub items: Items,
    pub parents: OpenElements,
}

/// A value with its gap by number.
fn value_of(value: &RawValue, gaps: &GapNames) -> Result<AttrValue, Memory>
    ensures { IfOk result (λ v. v ≡ numbered_value gaps.now value.now) }
{
    match value {
        RawValue::Fixed(text) => Ok(AttrValue::Fixed(text.copy()?)),
        RawValue::Hole(name) => Ok(AttrValue::Hole(gaps.number(name.as_str()))),
    }
}

/// An attribute with its gap by number.
fn attr_of(attr: &RawAttr, gaps: &GapNames) -> Result<Attr, Memory>
    ensures { IfOk result (λ a. a ≡ numbered gaps.now attr.now) }
{
    let name = attr.name.copy()?;
    match value_of(&attr.value, gaps) {
        Ok(value) => Ok(Attr { name, value }),
        Err(Memory) => {
            drop(name);
            Err(Memory)
        }
    }
}

/// The attributes of a tag with their gaps by number.
fn attrs_of(alloc: Global, attrs: &RawAttrs, gaps: &GapNames) -> Result<Attrs, Memory>
    ensures { IfOk result (λ a. a ≡ map (numbered gaps.now) attrs.now) }
{
    let mut made = Attrs::new(alloc);
    match add_numbered(&mut made, attrs, gaps) {
        Ok(()) => Ok(made),
        Err(Memory) => {
            drop(made);
            Err(Memory)
        }
    }
}

/// Adds the attributes of a tag with their gaps by number.
fn add_numbered(made: &mut Attrs, attrs: &RawAttrs, gaps: &GapNames) -> Result<(), Memory>
    ensures { OnOk result (made.new ≡ made.old ++ map (numbered gaps.now) attrs.now) }
{
    for attr in attrs.as_slice() {
        made.push(attr_of(attr, gaps)?)?;
    }
    Ok(())
}

/// One item alone, with room for no other: most elements have one.
fn one_item(alloc: Global, item: Item) -> Result<Items, Memory>
    ensures { IfOk result (λ items. items ≡ before item none) }
{
    let Ok(list) = Vec::with_capacity(alloc, 1) else {
        drop(item);
        return Err(Memory);
    };
    let mut items = Items::from_vec(list);
    match items.push(item) {
        Ok(()) => Ok(items),
        Err(Memory) => {
            drop(items);
            Err(Memory)
        }
    }
}

impl Draft {
    /// No items, and no element is open.
    pub fn new(alloc: Global) -> Draft
        ensures { result ≡ nothing_built }
    {
        Draft {
            items: Items::new(alloc),
            parents: OpenElements::new(alloc),
        }
    }

    /// One item more.
    fn add(&mut self, item: Item) -> Result<(), Memory>
        ensures { OnOk result (self.new ≡ with_items self.old (before item none)) }
    {
        if self.items.as_slice().is_empty() {
            let items = one_item(self.items.alloc(), item)?;
            drop(mem::replace(&mut self.items, items));
            Ok(())
        } else {
            self.items.push(item)
        }
    }

    /// An element begins, with these attributes.
    fn open(&mut self, tag: Name, attrs: Attrs) -> Result<(), Memory>
        ensures { OnOk result (self.new ≡ begun_by self.old tag attrs) }
    {
        let alloc = self.items.alloc();
        let front = mem::replace(&mut self.items, Items::new(alloc));
        self.parents.push(OpenElement { tag, attrs, front })
    }

    /// An element without items, with these attributes.
    fn add_empty(&mut self, tag: Name, attrs: Attrs) -> Result<(), Memory>
        ensures { OnOk result (self.new ≡ with_items self.old (element tag attrs none none)) }
    {
        let items = Items::new(self.items.alloc());
        self.add(Item::Element(Element { tag, attrs, items }))
    }

    /// A start tag that an end tag is to follow.
    fn begin(&mut self, tag: &Tag, gaps: &GapNames) -> Result<(), Memory>
        ensures { OnOk result (self.new ≡ element_begun gaps.now self.old tag.now) }
    {
        let name = tag.name.copy()?;
        match attrs_of(self.items.alloc(), &tag.attrs, gaps) {
            Ok(attrs) => self.open(name, attrs),
            Err(Memory) => {
                drop(name);
                Err(Memory)
            }
        }
    }

    /// An element without items.
    fn alone(&mut self, tag: &Tag, gaps: &GapNames) -> Result<(), Memory>
        ensures { OnOk result (self.new ≡ with_items self.old (empty_element gaps.now tag.now)) }
    {
        let name = tag.name.copy()?;
        match attrs_of(self.items.alloc(), &tag.attrs, gaps) {
            Ok(attrs) => self.add_empty(name, attrs),
            Err(Memory) => {
                drop(name);
                Err(Memory)
            }
        }
    }

    /// An end tag.
    fn end(&mut self, name: &Name) -> Result<(), TmplFault>
        ensures { Builds (λ _. self.new) result (element_ended self.old.items self.old.parents name.now) }
    {
        let Some(innermost) = self.parents.pop() else {
            return Err(TmplFault::Mismatched);
        };
        if innermost.tag == *name {
            self.close(innermost)?;
            Ok(())
        } else {
            drop(innermost);
            Err(TmplFault::Mismatched)
        }
    }

    /// The innermost open element, which is this one, ends with the items in it.
    fn close(&mut self, innermost: OpenElement) -> Result<(), Memory>
        ensures items { OnOk result (self.new.items ≡ append innermost.front (element innermost.tag innermost.attrs self.old.items none)) }
        ensures parents { OnOk result (self.new.parents ≡ self.old.parents) }
    {
        let OpenElement { tag, attrs, front } = innermost;
        let items = mem::replace(&mut self.items, front);
        self.add(Item::Element(Element { tag, attrs, items }))
    }

    /// The next piece.
    fn take(&mut self, piece: &Piece, gaps: &GapNames) -> Result<(), TmplFault>
        ensures { Builds (λ _. self.new) result (draft_after gaps.now self.old piece.now) }
    {
        match piece {
            Piece::Text(text) => self.add(Item::Text(text.copy()?))?,
            Piece::Gap(name) => self.add(Item::Gap(gaps.number(name.as_str())))?,
            Piece::Whole(tag) => self.alone(tag, gaps)?,
            Piece::Start(tag) => {
                if is_void(&tag.name) {
                    self.alone(tag, gaps)?
                } else {
                    self.begin(tag, gaps)?
                }
            }
            Piece::End(name) => return self.end(name),
        }
        Ok(())
    }

    /// A start tag or a whole tag, which is used up.
    fn take_tag(&mut self, tag: Tag, is_alone: bool, gaps: &GapNames) -> Result<(), Memory>
        ensures { OnOk result (self.new ≡ tag_taken is_alone gaps.now self.old tag) }
    {
        let Tag { name, attrs } = tag;
        let numbered = attrs_of(self.items.alloc(), &attrs, gaps);
        drop(attrs);
        let Ok(attrs) = numbered else {
            drop(name);
            return Err(Memory);
        };
        if is_alone {
            self.add_empty(name, attrs)
        } else {
            self.open(name, attrs)
        }
    }

    /// The next piece, which is used up: its text and its name are moved, and not copied.
    pub fn take_whole(&mut self, piece: Piece, gaps: &GapNames) -> Result<(), TmplFault>
        ensures { Builds (λ _. self.new) result (draft_after gaps.now self.old piece) }
    {
        match piece {
            Piece::Text(text) => self.add(Item::Text(text))?,
            Piece::Gap(name) => {
                let gap = gaps.number(name.as_str());
                drop(name);
                self.add(Item::Gap(gap))?
            }
            Piece::Whole(tag) => self.take_tag(tag, true, gaps)?,
            Piece::Start(tag) => {
                let is_alone = is_void(&tag.name);
                self.take_tag(tag, is_alone, gaps)?
            }
            Piece::End(name) => {
                let ended = self.end(&name);
                drop(name);
                return ended;
            }
        }
        Ok(())
    }

    /// The next pieces.
    fn take_all(&mut self, pieces: &[Piece], gaps: &GapNames) -> Result<(), TmplFault>
        ensures { Builds (λ _. self.new) result (draft_after_all gaps.now (Some self.old) pieces.now) }
    {
        for piece in pieces {
            self.take(piece, gaps)?;
        }
        Ok(())
    }

    /// The items, if no element is open.
    pub fn finish(self) -> Option<Items>
        ensures { MatchOption result (if_none_open self.items self.parents ≡ None) (λ f. if_none_open self.items self.parents ≡ Some f) }
    {
        let Draft { items, parents } = self;
        let is_whole = parents.is_empty();
        drop(parents);
        if is_whole {
            Some(items)
        } else {
            drop(items);
            None
        }
    }
}

/// The items that the pieces read as. `Mismatched`: the tags don't pair.
pub fn items_of(alloc: Global, pieces: &[Piece], gaps: &GapNames) -> Result<Items, TmplFault>
    ensures { Builds (λ f. f) result (built gaps.now pieces.now) }
{
    let mut draft = Draft::new(alloc);
    match draft.take_all(pieces, gaps) {
        Ok(()) => draft.finish().ok_or(TmplFault::Mismatched),
        Err(fault) => {
            drop(draft);
            Err(fault)
        }
    }
}
