//! What the names of a service stand for.
ghost use Rattle.std.specs.Prelude.{◌≡◌, ◌||◌};
ghost use Rattle.bw_lang.specs.Service.Reads.{IsReadable};
ghost use Rattle.bw_types.specs.Fields.{kind_of_field};
ghost use Rattle.bw_types.specs.Gaps.{kind_of_gap, kind_of_number};
ghost use Rattle.bw_types.specs.Known.{IsKnown};
ghost use Rattle.bw_types.specs.Scopes as spec;

use crate::fault::GapKind;
use crate::locals::Locals;
use crate::tables::{Tables, has};
use bw_lang::{FieldKind, GapId, Kind, Service};
use std::alloc::Global;

/// A service that is walked, with its tables.
#[derive(Drop)]
pub struct Names<'a> {
    pub alloc: Global,
    pub service: &'a Service,
    pub tables: &'a Tables,
    pub ghost readable: { ∥ IsReadable service.now ∥₁ },
    pub ghost known: { IsKnown service.now tables.now },
}

impl Names<'_> {
    /// Whether a declaration of the service or a local has the name.
    pub fn is_taken(&self, locals: &Locals, name: &str) -> bool
        ensures { result ≡ (spec.is_among name.now (spec.declared_names self.now.service.now) || spec.is_among name.now locals.now.taken) }
    {
        self.is_declared(name) || locals.has(name)
    }

    /// Whether a declaration of the service has the name.
    fn is_declared(&self, name: &str) -> bool
        ensures { result ≡ spec.is_among name.now (spec.declared_names self.now.service.now) }
    {
        has(&self.tables.templates, name)
            || (self.tables.shared.get(name).is_some() || has(&self.tables.sessions, name))
    }

    /// Html, where the name is a template's.
    pub fn template_kind(&self, name: &str) -> Option<Kind>
        ensures { result ≡ spec.template_kind self.now.service.now name.now }
    {
        if has(&self.tables.templates, name) {
            Some(Kind::Html)
        } else {
            None
        }
    }

    /// The kind of the local in scope, or else of the shared variable, of that name.
    pub fn variable_kind(&self, locals: &Locals, name: &str) -> Option<Kind>
        ensures { result ≡ spec.variable_kind self.now.service.now locals.now name.now }
    {
        match locals.kind(name) {
            Some(kind) => Some(kind),
            None => self.tables.shared.get(name),
        }
    }

    /// The kind of what the name stands for in an expression: a variable or a template.
    pub fn name_kind(&self, locals: &Locals, name: &str) -> Option<Kind>
        ensures { result ≡ spec.name_kind self.now.service.now locals.now name.now }
    {
        match self.variable_kind(locals, name) {
            Some(kind) => Some(kind),
            None => self.template_kind(name),
        }
    }

    /// The kind of the gap of that name, where a template has it.
    pub fn gap_kind(&self, name: &str) -> Option<GapKind>
        ensures { result ≡ kind_of_gap self.now.service.now name.now }
    {
        self.kind_of_number(self.service.gaps.number(name))
    }

    /// The kind of the gap of that number, where a template has it.
    pub fn kind_of_number(&self, gap: GapId) -> Option<GapKind>
        ensures { result ≡ kind_of_number self.now.service.now gap }
    {
        self.tables.gaps.get(gap)
    }

    /// The kind of the field of that name, where a template has a control of it.
    pub fn field_kind(&self, name: &str) -> Option<FieldKind>
        ensures { result ≡ kind_of_field self.now.service.now name.now }
    {
        self.tables.fields.get(name)
    }
}
