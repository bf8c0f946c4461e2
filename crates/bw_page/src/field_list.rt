//! The fields of a page: what a client sends when it submits the page's form.
ghost use Rattle.std.specs.Prelude.{◌≡◌, ◌++◌, ◌∷◌, [], map, IfOk, OnOk, OnErr};
ghost use Rattle.bw_lang.specs.Document.Forest.{none};
ghost use Rattle.bw_lang.specs.Document.View.{before};
ghost use Rattle.bw_lang.specs.Template.Controls as spec;
ghost use Rattle.bw_page.specs.Fields.{name_and_kind};

use bw_lang::{Element, FieldKind, Item, Items, Memory, Text, Tree};
use std::alloc::Global;
use std::marker::Model;

/// A control that has a field: the field's name, and how many values it may have.
pub struct FieldUse {
    pub name: Text,
    pub kind: FieldKind,
}

impl Drop for FieldUse {
    fn drop(self) {
        let FieldUse { name: _, kind: _ } = self;
    }
}

/// The controls of a page that have a field, in the order of the page. Contracts see the list of their names and
/// kinds.
pub struct FieldList {
    list: Vec<FieldUse>,
}

impl Drop for FieldList {
    fn drop(self) {
        let FieldList { list: _ } = self;
    }
}

impl Model for FieldList {
    ghost use Rattle.std.specs.Prelude.{ℕ, List, map};
    ghost use Rattle.bw_lang.specs.declared.controls.FieldKind.{FieldKind};

    ghost Value = { List (List ℕ × FieldKind) };

    ghost use Rattle.bw_page.specs.Fields.{name_and_kind};

    ghost view = { λ l. map name_and_kind l.list.items };
}

impl FieldList {
    fn new(alloc: Global) -> FieldList
        ensures { result ≡ [] }
    {
        FieldList {
            list: Vec::new(alloc),
        }
    }

    fn push(&mut self, field: FieldUse) -> Result<(), Memory>
        ensures ok { OnOk result (self.new ≡ self.old ++ name_and_kind field ∷ []) }
        ensures err { OnErr result (self.new ≡ self.old) }
    {
        self.list.push(field)?;
        Ok(())
    }

    pub fn as_slice(&self) -> &[FieldUse]
        ensures { map name_and_kind result.now ≡ self.now }
    {
        self.list.as_slice()
    }
}

/// The fields of a document, in the order of its controls: one for each control that has a field, so that a name may
/// come several times.
pub fn fields(tree: &Tree) -> Result<FieldList, Memory>
    ensures { IfOk result (λ list. list ≡ spec.fields tree.now.items) }
{
    let mut out = FieldList::new(tree.items.alloc());
    put_items(&tree.items, &mut out)?;
    Ok(out)
}

/// Puts the fields of the items behind the others.
#[tactic(auto, using(crate::proofs::Listed::field_steps))]
#[cycle(fields)]
fn put_items(items: &Items, out: &mut FieldList) -> Result<(), Memory>
    ensures { OnOk result (out.new ≡ out.old ++ spec.fields items.now) }
{
    for item in items.as_slice() {
        put_item(item, out)?;
    }
    Ok(())
}

/// Puts the fields of the item behind the others.
#[tactic(auto, using(crate::proofs::Listed::field_steps))]
#[cycle(fields)]
fn put_item(item: &Item, out: &mut FieldList) -> Result<(), Memory>
    ensures { OnOk result (out.new ≡ out.old ++ spec.fields (before item.now none)) }
{
    match item {
        Item::Element(element) => {
            put_control(element, out)?;
            put_items(&element.items, out)
        }
        Item::Text(_) | Item::Gap(_) => Ok(()),
    }
}

/// Puts the field of a control behind the others, where the element is a control with a field.
fn put_control(element: &Element, out: &mut FieldList) -> Result<(), Memory>
    ensures { OnOk result (out.new ≡ out.old ++ spec.field_of element.now.tag element.now.attrs) }
{
    match (element.control_name(), element.field_kind()) {
        (Some(name), Some(kind)) => out.push(FieldUse {
            name: name.copy()?,
            kind,
        }),
        _ => Ok(()),
    }
}
