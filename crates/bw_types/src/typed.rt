//! Services that are well typed.
ghost use Rattle.std.specs.Prelude.{◌≡◌, ◌⊎◌, [], Some, None, IfOk, IfErr, OnOk, MatchOption, slice_get, map, flat_map};
ghost use Rattle.bw_lang.specs.Service.Limits.{declared_fields};
ghost use Rattle.bw_lang.specs.Service.Order.{seen};
ghost use Rattle.bw_lang.specs.Service.Reads.{IsReadable};
ghost use Rattle.bw_lang.specs.Table.Names.{with_names};
ghost use Rattle.bw_types.specs.declared.fault.TypeFault.TheVariants as faults;
ghost use Rattle.bw_types.specs.Faults.{IsWellTyped, first_fault};
ghost use Rattle.bw_types.specs.Fields.{field_names, field_number, kind_of_field};
ghost use Rattle.bw_types.specs.Gaps.{gap_number, kind_of_number};
ghost use Rattle.bw_types.specs.Known.{IsKnown};
ghost use Rattle.bw_types.specs.Scopes.{session_of, shared_kind, template_of};

use crate::declarations::check;
use crate::fault::{GapKind, TypeFault};
use crate::tables::{Tables, place};
use bw_lang::{
    Declared, FieldId, FieldKind, FieldNames, GapId, Kind, Memory, NameTable, Service, Session,
    SessionId, Template, TemplateId,
};
use std::alloc::Global;

/// A service that is well typed and that some text reads as, with what its names stand for.
pub struct Typed {
    service: Service,
    fields: FieldNames,
    tables: Tables,
    pub ghost well_typed: { IsWellTyped service },
    pub ghost readable: { ∥ IsReadable service ∥₁ },
    pub ghost named: { fields ≡ with_names [] (field_names service) },
    pub ghost known: { IsKnown service tables },
}

impl Drop for Typed {
    fn drop(self) {
        let Typed {
            service: _,
            fields: _,
            tables: _,
        } = self;
    }
}

/// The service, which some text reads as, if it is well typed. Else the fault of the first test that fails, in one walk
/// over its declarations in source order; or `Memory`.
pub fn resolve(alloc: Global, service: Service) -> Result<Typed, TypeFault>
    requires { IsReadable service }
    ensures ok { IfOk result (λ t. (t.service ≡ service) × IsWellTyped service) }
    ensures fault { IfErr result (λ e. (e ≡ faults.Memory) ⊎ (first_fault service ≡ Some e)) }
{
    let Ok(tables) = Tables::of(alloc, &service) else {
        drop(service);
        return Err(TypeFault::Memory);
    };
    match fields_of(alloc, &service, &tables) {
        Ok(fields) => Ok(Typed {
            service,
            fields,
            tables,
        }),
        Err(fault) => {
            drop(tables);
            drop(service);
            Err(fault)
        }
    }
}

/// The names of the fields of a service, if it is well typed. Else the fault of the first test that fails; or `Memory`.
fn fields_of(alloc: Global, service: &Service, tables: &Tables) -> Result<FieldNames, TypeFault>
    requires readable { ∥ IsReadable service.now ∥₁ }
    requires known { IsKnown service.now tables.now }
    ensures well_typed { OnOk result (IsWellTyped service.now) }
    ensures names { IfOk result (λ fields. fields ≡ with_names [] (field_names service.now)) }
    ensures fault { IfErr result (λ e. (e ≡ faults.Memory) ⊎ (first_fault service.now ≡ Some e)) }
{
    check(alloc, service, tables)?;
    let names = names_of_fields(alloc, service)?;
    Ok(FieldNames::of(names))
}

/// The names of the controls and the fields of the receives of a service, each once, in source order.
fn names_of_fields(alloc: Global, service: &Service) -> Result<NameTable, Memory>
    ensures { IfOk result (λ names. names ≡ with_names [] (field_names service.now)) }
{
    let declarations = service.declarations(alloc)?;
    let mut names = NameTable::new(alloc);
    match add_fields(&mut names, declarations.as_slice()) {
        Ok(()) => Ok(names),
        Err(Memory) => {
            drop(names);
            Err(Memory)
        }
    }
}

/// Takes in the names of the controls and the fields of the receives of declarations.
fn add_fields(names: &mut NameTable, declarations: &[Declared]) -> Result<(), Memory>
    ensures { OnOk result (names.new ≡ with_names names.old (flat_map declared_fields (map seen declarations.now))) }
{
    for declaration in declarations {
        match declaration {
            Declared::Template(template) => names.add_controls(&template.items)?,
            Declared::Session(session) => names.add_received(&session.body)?,
            Declared::Shared(_) => {}
        }
    }
    Ok(())
}

impl Typed {
    pub fn service(&self) -> &Service
        ensures { result.now ≡ self.now.service }
    {
        &self.service
    }

    /// The names of controls and the fields of receives, each once, in source order, with their numbers.
    pub fn fields(&self) -> &FieldNames
        ensures { result.now ≡ with_names [] (field_names self.now.service) }
    {
        &self.fields
    }

    /// The kind of the shared variable of that name, if there is one.
    pub fn shared(&self, name: &str) -> Option<Kind>
        ensures { result ≡ shared_kind self.now.service name.now }
    {
        self.tables.shared.get(name)
    }

    /// The number of the template of that name, if there is one.
    pub fn template(&self, name: &str) -> Option<TemplateId>
        ensures { result ≡ template_of self.now.service name.now }
    {
        let number = place(&self.tables.templates, name)?;
        Some(TemplateId::of(number))
    }

    /// The template of that number, or none where there are no more than so many.
    pub fn template_at(&self, template: TemplateId) -> Option<&Template>
        ensures { MatchOption result (slice_get self.now.service.templates template ≡ None) (λ t. slice_get self.now.service.templates template ≡ Some t.now) }
    {
        self.service
            .templates
            .as_slice()
            .get(template.number() as usize)
    }

    /// The number of the session of that name, if there is one.
    pub fn session(&self, name: &str) -> Option<SessionId>
        ensures { result ≡ session_of self.now.service name.now }
    {
        let number = place(&self.tables.sessions, name)?;
        Some(SessionId::of(number))
    }

    /// The session of that number, or none where there are no more than so many.
    pub fn session_at(&self, session: SessionId) -> Option<&Session>
        ensures { MatchOption result (slice_get self.now.service.sessions session ≡ None) (λ s. slice_get self.now.service.sessions session ≡ Some s.now) }
    {
        self.service
            .sessions
            .as_slice()
            .get(session.number() as usize)
    }

    /// The number of the gap of that name, if there is one.
    pub fn gap(&self, name: &str) -> Option<GapId>
        ensures { result ≡ gap_number self.now.service name.now }
    {
        let gap = self.service.gaps.number(name);
        if (gap.number() as usize) < self.service.gaps.len() {
            Some(gap)
        } else {
            None
        }
    }

    /// The kind of the gap of that number, if a template has it.
    pub fn gap_kind(&self, gap: GapId) -> Option<GapKind>
        ensures { result ≡ kind_of_number self.now.service gap }
    {
        self.tables.gaps.get(gap)
    }

    /// The number of the field of that name, if a template has a control of it or a session receives it.
    pub fn field(&self, name: &str) -> Option<FieldId>
        ensures { result ≡ field_number self.now.service name.now }
    {
        let field = self.fields.number(name);
        if (field.number() as usize) < self.fields.len() {
            Some(field)
        } else {
            None
        }
    }

    /// The kind of the field of that name, if a template has a control of it.
    pub fn field_kind(&self, name: &str) -> Option<FieldKind>
        ensures { result ≡ kind_of_field self.now.service name.now }
    {
        self.tables.fields.get(name)
    }
}
