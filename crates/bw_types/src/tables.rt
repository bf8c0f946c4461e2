//! Tables of names and gaps, with the kinds that they were first given.
ghost use Rattle.std.specs.Prelude.{◌≡◌, ◌∷◌, ◌<◌, ◌^◌, IfOk, OnOk, [], length, map, position};
ghost use Rattle.bw_lang.specs.Template.Controls.{fields, field_of};
ghost use Rattle.bw_lang.specs.Document.Forest.{none};
ghost use Rattle.bw_lang.specs.Table.Names.{same, beside, with_names};
ghost use Rattle.bw_lang.specs.Document.View.{before};
ghost use Rattle.bw_types.specs.Fields.{template_fields};
ghost use Rattle.bw_types.specs.Gaps.{gap_kind, value_use, attr_uses, gap_uses, template_uses};
ghost use Rattle.bw_types.specs.Scopes.{is_among};
ghost use Rattle.bw_types.specs.Tables.{with_kind, with_kinds, with_use, with_uses};

use crate::fault::GapKind;
use bw_lang::{
    AttrValue, Attrs, Element, FieldKind, GapId, Item, Items, Kind, Memory, NameTable, Service,
    Session, Shared, Template,
};
use std::alloc::Global;
use std::collections::HashMap;
use std::marker::Model;

/// Names with a kind each, which is the kind that the name was first given and stands at the name's number. Contracts
/// see the names with their kinds in the order in which they came.
#[derive(Drop)]
pub struct Kinds<K> {
    names: NameTable,
    kinds: Vec<K>,
}

/// Gaps with a kind each, which is the kind that the gap was first given. Contracts see the gaps with their kinds in
/// the order in which they came, which is that of the list.
pub struct GapKinds {
    list: Vec<(u32, GapKind)>,
    kinds: HashMap<u32, GapKind>,
}

impl Drop for GapKinds {
    fn drop(self) {
        let GapKinds { list: _, kinds: _ } = self;
    }
}

/// What the names of a service stand for: the names of its templates and of its sessions, and the kinds of its shared
/// variables, of the gaps of its templates, and of the fields of their controls.
#[derive(Drop)]
pub struct Tables {
    pub templates: NameTable,
    pub sessions: NameTable,
    pub shared: Kinds<Kind>,
    pub gaps: GapKinds,
    pub fields: Kinds<FieldKind>,
}

impl<K> Model for Kinds<K> {
    ghost use Rattle.std.specs.Prelude.{◌≡◌, ℕ, List, length};
    ghost use Rattle.std.specs.List.{zip};

    ghost Value = { List (List ℕ × K) };

    ghost view = { λ t. zip t.names t.kinds.items };

    ghost invariant = { λ t. length t.names ≡ length t.kinds.items };
}

impl Model for GapKinds {
    ghost use Rattle.std.specs.Prelude.{ℕ, List};
    ghost use Rattle.bw_types.specs.Tables.{AreKinds};
    ghost use Rattle.bw_types.specs.declared.fault.GapKind.{GapKind};

    ghost Value = { List (ℕ × GapKind) };

    ghost view = { λ t. t.list.items };

    ghost invariant = { λ t. AreKinds t.list.items t.kinds };
}

impl<K: Copy> Kinds<K> {
    /// No name yet.
    pub fn new(alloc: Global) -> Kinds<K>
        ensures { result ≡ [] }
    {
        Kinds {
            names: NameTable::new(alloc),
            kinds: Vec::new(alloc),
        }
    }

    /// The kind of a name, if it is there.
    pub fn get(&self, name: &str) -> Option<K>
        ensures { result ≡ beside name.now self.now }
    {
        match self.kinds.get(self.names.number(name)) {
            Some(kind) => Some(*kind),
            None => None,
        }
    }

    /// Takes a name in with its kind, unless it is there.
    pub fn note(&mut self, name: &str, kind: K) -> Result<(), Memory>
        ensures { OnOk result (self.new ≡ with_kind self.old (name.now, kind)) }
    {
        if self.get(name).is_none() {
            self.kinds.push(kind)?;
            let Ok(_) = self.names.add(name) else {
                self.kinds.pop();
                return Err(Memory);
            };
        }
        Ok(())
    }
}

impl GapKinds {
    /// No gap yet.
    pub fn new(alloc: Global) -> GapKinds
        ensures { result ≡ [] }
    {
        GapKinds {
            list: Vec::new(alloc),
            kinds: HashMap::new(alloc),
        }
    }

    /// The kind of a gap, if it is there.
    pub fn get(&self, gap: GapId) -> Option<GapKind>
        ensures { result ≡ gap_kind self.now gap }
    {
        self.kinds.get(&gap.number()).copied()
    }

    /// Takes a gap in with its kind, unless it is there.
    pub fn note(&mut self, gap: GapId, kind: GapKind) -> Result<(), Memory>
        ensures { OnOk result (self.new ≡ with_use self.old (gap, kind)) }
    {
        if self.get(gap).is_none() {
            self.list.push((gap.number(), kind))?;
            let Ok(_) = self.kinds.insert(gap.number(), kind) else {
                self.list.pop();
                return Err(Memory);
            };
        }
        Ok(())
    }
}

/// Whether a name is in the table.
pub fn has(table: &NameTable, name: &str) -> bool
    ensures { result ≡ is_among name.now table.now }
{
    table.number(name) < table.len()
}

/// The place of a name in the table, counted from 0, if it is there.
pub fn place(table: &NameTable, name: &str) -> Option<u32>
    requires { length table.now < 2 ^ 32 }
    ensures { result ≡ position (same name.now) table.now }
{
    let place = table.number(name);
    if place < table.len() {
        Some(place as u32)
    } else {
        None
    }
}

impl Tables {
    ghost use Rattle.bw_types.specs.Known.{IsKnown};

    /// The tables of a service.
    pub fn of(alloc: Global, service: &Service) -> Result<Tables, Memory>
        ensures { IfOk result (IsKnown service.now) }
    {
        let mut tables = Tables {
            templates: NameTable::new(alloc),
            sessions: NameTable::new(alloc),
            shared: Kinds::new(alloc),
            gaps: GapKinds::new(alloc),
            fields: Kinds::new(alloc),
        };
        match tables.take_in(service) {
            Ok(()) => Ok(tables),
            Err(Memory) => {
                drop(tables);
                Err(Memory)
            }
        }
    }

    /// Takes in the names of a service, where the tables are empty.
    fn take_in(&mut self, service: &Service) -> Result<(), Memory>
        requires templates { self.old.templates ≡ [] }
        requires sessions { self.old.sessions ≡ [] }
        requires shared { self.old.shared ≡ [] }
        requires gaps { self.old.gaps ≡ [] }
        requires fields { self.old.fields ≡ [] }
        ensures { OnOk result (IsKnown service.now self.new) }
    {
        note_templates(
            &mut self.gaps,
            &mut self.fields,
            service.templates.as_slice(),
        )?;
        add_templates(&mut self.templates, service.templates.as_slice())?;
        add_sessions(&mut self.sessions, service.sessions.as_slice())?;
        note_shared(&mut self.shared, service.shared.as_slice())
    }
}

/// Takes in the names of templates.
fn add_templates(names: &mut NameTable, templates: &[Template]) -> Result<(), Memory>
    ensures { OnOk result (names.new ≡ with_names names.old (map (λ t. t.name) templates.now)) }
{
    for template in templates {
        names.add(template.name.as_str())?;
    }
    Ok(())
}

/// Takes in the names of sessions.
fn add_sessions(names: &mut NameTable, sessions: &[Session]) -> Result<(), Memory>
    ensures { OnOk result (names.new ≡ with_names names.old (map (λ s. s.name) sessions.now)) }
{
    for session in sessions {
        names.add(session.name.as_str())?;
    }
    Ok(())
}

/// Takes in shared variables with their kinds.
fn note_shared(kinds: &mut Kinds<Kind>, shared: &[Shared]) -> Result<(), Memory>
    ensures { OnOk result (kinds.new ≡ with_kinds kinds.old (map (λ v. (v.name, v.kind)) shared.now)) }
{
    for variable in shared {
        kinds.note(variable.name.as_str(), variable.kind)?;
    }
    Ok(())
}

/// Takes in the gaps of templates and the fields of their controls.
#[tactic(auto, using(crate::proofs::Notes::note_steps))]
fn note_templates(
    gaps: &mut GapKinds,
    controls: &mut Kinds<FieldKind>,
    templates: &[Template],
) -> Result<(), Memory>
    ensures gaps { OnOk result (gaps.new ≡ with_uses gaps.old (template_uses templates.now)) }
    ensures controls { OnOk result (controls.new ≡ with_kinds controls.old (template_fields templates.now)) }
{
    for template in templates {
        note_items(gaps, controls, &template.items)?;
    }
    Ok(())
}

/// Takes in the gaps of items and the fields of their controls, at all levels.
#[tactic(auto, using(crate::proofs::Notes::note_steps, bw_lang::proofs::Sizes::size_steps))]
#[cycle(items)]
fn note_items(
    gaps: &mut GapKinds,
    controls: &mut Kinds<FieldKind>,
    items: &Items,
) -> Result<(), Memory>
    ensures gaps { OnOk result (gaps.new ≡ with_uses gaps.old (gap_uses items.now)) }
    ensures controls { OnOk result (controls.new ≡ with_kinds controls.old (fields items.now)) }
{
    for item in items.as_slice() {
        note_item(gaps, controls, item)?;
    }
    Ok(())
}

#[tactic(auto, using(crate::proofs::Notes::note_steps))]
#[cycle(items)]
fn note_item(
    gaps: &mut GapKinds,
    controls: &mut Kinds<FieldKind>,
    item: &Item,
) -> Result<(), Memory>
    ensures gaps { OnOk result (gaps.new ≡ with_uses gaps.old (gap_uses (before item.now none))) }
    ensures controls { OnOk result (controls.new ≡ with_kinds controls.old (fields (before item.now none))) }
{
    match item {
        Item::Text(_) => Ok(()),
        Item::Gap(gap) => gaps.note(*gap, GapKind::Content),
        Item::Element(element) => {
            note_attrs(gaps, &element.attrs)?;
            note_control(controls, element)?;
            note_items(gaps, controls, &element.items)
        }
    }
}

/// Takes in the gaps of attributes.
#[tactic(auto, using(crate::proofs::Notes::note_steps))]
fn note_attrs(gaps: &mut GapKinds, attrs: &Attrs) -> Result<(), Memory>
    ensures { OnOk result (gaps.new ≡ with_uses gaps.old (attr_uses attrs.now)) }
{
    for attr in attrs.as_slice() {
        note_value(gaps, &attr.value)?;
    }
    Ok(())
}

fn note_value(gaps: &mut GapKinds, value: &AttrValue) -> Result<(), Memory>
    ensures { OnOk result (gaps.new ≡ with_uses gaps.old (value_use value.now)) }
{
    match value {
        AttrValue::Fixed(_) => Ok(()),
        AttrValue::Hole(gap) => gaps.note(*gap, GapKind::Attribute),
    }
}

/// Takes in the field of a control.
fn note_control(controls: &mut Kinds<FieldKind>, element: &Element) -> Result<(), Memory>
    ensures { OnOk result (controls.new ≡ with_kinds controls.old (field_of element.now.tag element.now.attrs)) }
{
    match (element.control_name(), element.field_kind()) {
        (Some(name), Some(kind)) => controls.note(name.as_str(), kind),
        _ => Ok(()),
    }
}
