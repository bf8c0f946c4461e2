//! Where the gaps of a constant are open.
ghost use Rattle.std.specs.Prelude.{◌≡◌, ◌^◌, ◌+◌, ◌++◌, ◌<◌, IfOk, OnOk};
ghost use Rattle.bw_lang.specs.Document.Documents.{elements, open_gaps};
ghost use Rattle.bw_lang.specs.Document.Forest.{none};
ghost use Rattle.bw_lang.specs.Document.View.{before};
ghost use Rattle.bw_doc.specs.Notes as spec;
ghost use Rattle.bw_doc.specs.Spots.{IsTable, IsTableOf};

use crate::spots::{Open, Openings};
use bw_lang::{AttrValue, Attrs, GapId, Item, Items, Memory};
use std::alloc::Global;

/// An open gap, and where it stands.
#[derive(Clone, Copy)]
pub struct Note {
    pub gap: GapId,
    pub says: Open,
}

/// Where each gap of the items is open, by one walk over them.
pub(crate) fn openings(items: &Items) -> Result<Openings, Memory>
    requires elements { elements items.now < 2 ^ 32 }
    requires gaps { open_gaps items.now < 2 ^ 32 }
    ensures { IfOk result (λ t. IsTable t items.now) }
{
    let mut notes = Vec::new(items.alloc());
    note_items(items, 0, &mut notes)?;
    let table = table_of(items.alloc(), &notes)?;
    Ok(table)
}

/// The table of these notes.
fn table_of(alloc: Global, notes: &[Note]) -> Result<Openings, Memory>
    requires { spec.AreFew notes.now }
    ensures { IfOk result (IsTableOf (λ g. spec.all_noted g notes.now)) }
{
    let mut table = Openings::from_vec(Vec::new(alloc));
    for note in notes {
        table.add(note.gap, note.says)?;
    }
    Ok(table)
}

/// Notes the open gaps of items that have so many elements around them.
#[tactic(auto, using(crate::proofs::NoteLaws::note_steps))]
#[cycle(notes)]
fn note_items(items: &Items, around: u32, notes: &mut Vec<Note>) -> Result<(), Memory>
    requires { around + elements items.now < 2 ^ 32 }
    ensures { OnOk result (notes.new.items ≡ notes.old.items ++ spec.notes around items.now) }
{
    for item in items.as_slice() {
        note_item(item, around, notes)?;
    }
    Ok(())
}

#[tactic(auto, using(crate::proofs::NoteLaws::note_steps))]
#[cycle(notes)]
fn note_item(item: &Item, around: u32, notes: &mut Vec<Note>) -> Result<(), Memory>
    requires { around + elements (before item.now none) < 2 ^ 32 }
    ensures { OnOk result (notes.new.items ≡ notes.old.items ++ spec.notes around (before item.now none)) }
{
    match item {
        Item::Text(_) => {}
        Item::Element(element) => {
            note_attrs(&element.attrs, around + 1, notes)?;
            note_items(&element.items, around + 1, notes)?;
        }
        Item::Gap(gap) => {
            let says = Open::content(around);
            notes.push(Note { gap: *gap, says })?;
        }
    }
    Ok(())
}

/// Notes the open gaps among the attributes of an element, which is one of the elements around them.
#[tactic(auto, using(crate::proofs::NoteLaws::note_steps))]
fn note_attrs(attrs: &Attrs, around: u32, notes: &mut Vec<Note>) -> Result<(), Memory>
    ensures { OnOk result (notes.new.items ≡ notes.old.items ++ spec.attr_notes around attrs.now) }
{
    for attr in attrs.as_slice() {
        note_value(&attr.value, around, notes)?;
    }
    Ok(())
}

fn note_value(value: &AttrValue, around: u32, notes: &mut Vec<Note>) -> Result<(), Memory>
    ensures { OnOk result (notes.new.items ≡ notes.old.items ++ spec.value_notes around value.now) }
{
    match value {
        AttrValue::Fixed(_) => {}
        AttrValue::Hole(gap) => {
            let says = Open::hole(around);
            notes.push(Note { gap: *gap, says })?;
        }
    }
    Ok(())
}
