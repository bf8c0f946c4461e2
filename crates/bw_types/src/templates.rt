//! The tests of templates.
ghost use Rattle.std.specs.Prelude.{◌≡◌, IfOk, IfErr, OnOk, [], ◌∷◌, flat_map, option_copied};
ghost use Rattle.std.specs.List.{list_any};
ghost use Rattle.bw_lang.specs.Document.Forest.{none};
ghost use Rattle.bw_lang.specs.Document.View.{before};
ghost use Rattle.bw_lang.specs.Template.Controls.{field_of};
ghost use Rattle.bw_types.specs.First.{IsFirst};
ghost use Rattle.bw_types.specs.Gaps.{gap_name};
ghost use Rattle.bw_types.specs.TemplateFaults as spec;

use crate::fault::{GapKind, TypeFault};
use crate::names::Names;
use bw_lang::controls::is_control;
use bw_lang::{Attr, AttrValue, Attrs, Element, FieldKind, GapId, Item, Items, Memory, Name, Text};

impl Names<'_> {
    /// The tests of a template's items, in source order.
    #[tactic(auto, using(bw_lang::proofs::Sizes::size_steps))]
    #[cycle(items)]
    pub fn items(&self, template: &Name, items: &Items) -> Result<(), TypeFault>
        ensures none { OnOk result (spec.items_faults self.now.service.now template.now items.now ≡ []) }
        ensures first { IfErr result (λ e. IsFirst e (spec.items_faults self.now.service.now template.now items.now)) }
    {
        for item in items.as_slice() {
            self.item(template, item)?;
        }
        Ok(())
    }

    #[cycle(items)]
    fn item(&self, template: &Name, item: &Item) -> Result<(), TypeFault>
        ensures none { OnOk result (spec.items_faults self.now.service.now template.now (before item.now none) ≡ []) }
        ensures first { IfErr result (λ e. IsFirst e (spec.items_faults self.now.service.now template.now (before item.now none))) }
    {
        match item {
            Item::Text(_) => Ok(()),
            Item::Gap(gap) => self.open_gap(*gap, GapKind::Content),
            Item::Element(element) => {
                self.element(template, element)?;
                self.items(template, &element.items)
            }
        }
    }

    /// The tests of an element, in front of its items: of its tag and its control, of its field, and of its gaps.
    pub fn element(&self, template: &Name, element: &Element) -> Result<(), TypeFault>
        ensures none { OnOk result (spec.element_faults self.now.service.now template.now element.now.tag element.now.attrs ≡ []) }
        ensures first { IfErr result (λ e. IsFirst e (spec.element_faults self.now.service.now template.now element.now.tag element.now.attrs)) }
    {
        if is_reserved(&element.tag) {
            return Err(TypeFault::ReservedTag(element.tag.copy()?));
        }
        if is_file_input(element) {
            return Err(TypeFault::FileInput(template.copy()?));
        }
        if is_bad_control(element) {
            return Err(TypeFault::BadControl(template.copy()?));
        }
        self.control(element)?;
        self.attrs(&element.attrs)
    }

    /// The test of a control's field: `FieldKinds` where the first control of that name has a field of another kind.
    fn control(&self, element: &Element) -> Result<(), TypeFault>
        ensures none { OnOk result (flat_map (spec.field_fault self.now.service.now) (field_of element.now.tag element.now.attrs) ≡ []) }
        ensures first { IfErr result (λ e. IsFirst e (flat_map (spec.field_fault self.now.service.now) (field_of element.now.tag element.now.attrs))) }
    {
        match (element.control_name(), element.field_kind()) {
            (Some(name), Some(kind)) => self.field(name, kind),
            _ => Ok(()),
        }
    }

    fn field(&self, name: &Text, kind: FieldKind) -> Result<(), TypeFault>
        ensures none { OnOk result (spec.field_fault self.now.service.now (name.now, kind) ≡ []) }
        ensures first { IfErr result (λ e. IsFirst e (spec.field_fault self.now.service.now (name.now, kind))) }
    {
        if is_other_field_kind(self.field_kind(name.as_str()), kind) {
            return Err(TypeFault::FieldKinds(name.copy()?));
        }
        Ok(())
    }

    /// The tests of the gaps of attributes, in their order.
    fn attrs(&self, attrs: &Attrs) -> Result<(), TypeFault>
        ensures none { OnOk result (spec.attr_faults self.now.service.now attrs.now ≡ []) }
        ensures first { IfErr result (λ e. IsFirst e (spec.attr_faults self.now.service.now attrs.now)) }
    {
        for attr in attrs.as_slice() {
            self.value(&attr.value)?;
        }
        Ok(())
    }

    fn value(&self, value: &AttrValue) -> Result<(), TypeFault>
        ensures none { OnOk result (spec.value_fault self.now.service.now value.now ≡ []) }
        ensures first { IfErr result (λ e. IsFirst e (spec.value_fault self.now.service.now value.now)) }
    {
        match value {
            AttrValue::Fixed(_) => Ok(()),
            AttrValue::Hole(gap) => self.open_gap(*gap, GapKind::Attribute),
        }
    }

    /// The test of a gap: `GapKinds` where its first place has another kind.
    pub fn open_gap(&self, gap: GapId, kind: GapKind) -> Result<(), TypeFault>
        ensures none { OnOk result (spec.gap_fault self.now.service.now gap kind ≡ []) }
        ensures first { IfErr result (λ e. IsFirst e (spec.gap_fault self.now.service.now gap kind)) }
    {
        if is_other_gap_kind(self.kind_of_number(gap), kind) {
            return Err(TypeFault::GapKinds(self.gap_name(gap)?));
        }
        Ok(())
    }

    /// The name of a gap.
    fn gap_name(&self, gap: GapId) -> Result<Name, Memory>
        ensures { IfOk result (λ n. n ≡ gap_name self.now.service.now.gaps gap) }
    {
        match self.service.gaps.name(gap) {
            Some(name) => Name::of(self.alloc, name),
            None => Name::of(self.alloc, ""),
        }
    }
}

/// There is a kind, and it is another one.
fn is_other_gap_kind(known: Option<GapKind>, kind: GapKind) -> bool
    ensures { result ≡ spec.is_other_gap_kind known kind }
{
    match known {
        Some(known) => known != kind,
        None => false,
    }
}

/// There is a kind, and it is another one.
fn is_other_field_kind(known: Option<FieldKind>, kind: FieldKind) -> bool
    ensures { result ≡ spec.is_other_field_kind known kind }
{
    match known {
        Some(known) => known != kind,
        None => false,
    }
}

/// The elements that only the page around a template may have.
fn is_reserved(tag: &Name) -> bool
    ensures { result ≡ spec.is_reserved tag.now }
{
    matches!(tag.as_str(), "html" | "head" | "body" | "form")
}

/// An input whose fixed type is `file`.
fn is_file_input(element: &Element) -> bool
    ensures { result ≡ spec.is_file_input element.now.tag element.now.attrs }
{
    element.tag.as_str() == "input" && is_file(element.attrs.fixed("type"))
}

fn is_file(kind: Option<&Text>) -> bool
    ensures { result ≡ spec.is_file (option_copied kind.entry) }
{
    match kind {
        Some(kind) => kind.as_str() == "file",
        None => false,
    }
}

/// A control with an attribute that it may not have, or that may be no gap, or an input of another type than the eight
/// that HTML 4.01 has for fields and buttons of a form.
fn is_bad_control(element: &Element) -> bool
    ensures { result ≡ spec.is_bad_control element.now.tag element.now.attrs }
{
    is_control(&element.tag) && (has_bad_attr(&element.attrs) || has_other_type(element))
}

/// An attribute that may be no gap in a control, or that no control may have, among these.
fn has_bad_attr(attrs: &Attrs) -> bool
    ensures { result ≡ list_any spec.is_bad_attr attrs.now }
{
    attrs.as_slice().iter().any(|attr| is_bad_attr(attr))
}

/// An attribute that may be no gap in a control, or that no control may have.
fn is_bad_attr(attr: &Attr) -> bool
    ensures { result ≡ spec.is_bad_attr attr.now }
{
    match &attr.value {
        AttrValue::Hole(_) => matches!(
            attr.name.as_str(),
            "name" | "type" | "multiple" | "disabled"
        ),
        AttrValue::Fixed(_) => attr.name.as_str() == "disabled",
    }
}

/// An input whose fixed type isn't one of the eight.
fn has_other_type(element: &Element) -> bool
    ensures { result ≡ spec.has_other_type element.now.tag element.now.attrs }
{
    element.tag.as_str() == "input" && is_other_type(element.attrs.fixed("type"))
}

fn is_other_type(kind: Option<&Text>) -> bool
    ensures { result ≡ spec.is_none_of (option_copied kind.entry) spec.input_types }
{
    match kind {
        None => false,
        Some(kind) => !matches!(
            kind.as_str(),
            "text" | "password" | "hidden" | "radio" | "submit" | "checkbox" | "reset" | "button"
        ),
    }
}
