//! The tests of a service, in one walk over its declarations.
ghost use Rattle.std.specs.Prelude.{◌≡◌, Some, IfOk, IfErr, OnOk, [], ◌∷◌, ◌++◌, map};
ghost use Rattle.bw_lang.specs.Service.Order.{seen};
ghost use Rattle.bw_lang.specs.Service.Reads.{IsReadable};
ghost use Rattle.bw_lang.specs.declared.declaration.Declaration.TheVariants as declarations;
ghost use Rattle.bw_types.specs.declared.fault.TypeFault.TheVariants.{Repeated};
ghost use Rattle.bw_types.specs.Faults as spec;
ghost use Rattle.bw_types.specs.First.{IsFirst};
ghost use Rattle.bw_types.specs.Known.{IsKnown};
ghost use Rattle.bw_types.specs.Scopes.{is_among, name_of};
ghost use Rattle.bw_types.specs.TemplateFaults.{fault_if};

use crate::fault::TypeFault;
use crate::kinds::demand;
use crate::locals::Locals;
use crate::names::Names;
use crate::statements::ends_in_exit;
use crate::tables::{Tables, has};
use bw_lang::{Declared, Kind, Literal, Name, NameTable, Service, Session, Shared};
use std::alloc::Global;

/// The tests of a service, in source order, by its tables.
pub fn check(alloc: Global, service: &Service, tables: &Tables) -> Result<(), TypeFault>
    requires readable { ∥ IsReadable service.now ∥₁ }
    requires known { IsKnown service.now tables.now }
    ensures none { OnOk result (spec.faults_of service.now ≡ []) }
    ensures first { IfErr result (λ e. IsFirst e (spec.faults_of service.now)) }
{
    let names = Names {
        alloc,
        service,
        tables,
    };
    let declarations = service.declarations(alloc)?;
    names.declarations(declarations.as_slice())
}

/// The test of a declaration's name: `Repeated` where an earlier one has it. Then it is taken.
fn take_name(earlier: &mut NameTable, name: &Name) -> Result<(), TypeFault>
    ensures none { OnOk result (fault_if (is_among name.now earlier.old) (Repeated name.now) ≡ []) }
    ensures named { OnOk result (earlier.new ≡ earlier.old ++ name.now ∷ []) }
    ensures first { IfErr result (λ e. IsFirst e (fault_if (is_among name.now earlier.old) (Repeated name.now))) }
{
    if has(earlier, name.as_str()) {
        return Err(TypeFault::Repeated(name.copy()?));
    }
    earlier.add(name.as_str())?;
    Ok(())
}

/// The name of a declaration.
fn name<'a>(declaration: &Declared<'a>) -> &'a Name
    ensures { result.now ≡ name_of (seen declaration.now) }
{
    match declaration {
        Declared::Template(template) => &template.name,
        Declared::Shared(variable) => &variable.name,
        Declared::Session(session) => &session.name,
    }
}

impl Names<'_> {
    /// The tests of declarations: of each its name, and then its own.
    fn declarations(&self, declarations: &[Declared]) -> Result<(), TypeFault>
        ensures none { OnOk result (spec.faults_behind self.now.service.now [] (map seen declarations.now) ≡ []) }
        ensures first { IfErr result (λ e. IsFirst e (spec.faults_behind self.now.service.now [] (map seen declarations.now))) }
    {
        let mut earlier = NameTable::new(self.alloc);
        let status = self.declarations_behind(&mut earlier, declarations);
        drop(earlier);
        status
    }

    /// The tests of declarations that stand behind those of these names.
    fn declarations_behind(
        &self,
        earlier: &mut NameTable,
        declarations: &[Declared],
    ) -> Result<(), TypeFault>
        ensures none { OnOk result (spec.faults_behind self.now.service.now earlier.old (map seen declarations.now) ≡ []) }
        ensures first { IfErr result (λ e. IsFirst e (spec.faults_behind self.now.service.now earlier.old (map seen declarations.now))) }
    {
        for declaration in declarations {
            take_name(earlier, name(declaration))?;
            self.declaration(declaration)?;
        }
        Ok(())
    }

    /// A declaration's own tests.
    fn declaration(&self, declaration: &Declared) -> Result<(), TypeFault>
        ensures none { OnOk result (spec.own_faults self.now.service.now (seen declaration.now) ≡ []) }
        ensures first { IfErr result (λ e. IsFirst e (spec.own_faults self.now.service.now (seen declaration.now))) }
    {
        match declaration {
            Declared::Template(template) => self.items(&template.name, &template.items),
            Declared::Shared(variable) => self.shared(variable),
            Declared::Session(session) => self.session(session),
        }
    }

    /// The tests of a shared variable: its literal, and the literal's kind.
    fn shared(&self, variable: &Shared) -> Result<(), TypeFault>
        ensures none { OnOk result (spec.own_faults self.now.service.now (declarations.Shared variable.now) ≡ []) }
        ensures first { IfErr result (λ e. IsFirst e (spec.own_faults self.now.service.now (declarations.Shared variable.now))) }
    {
        let kind = self.literal(&variable.init)?;
        demand(variable.kind, kind)
    }

    /// The kind of a literal. `Unknown` where it names no template.
    fn literal(&self, literal: &Literal) -> Result<Kind, TypeFault>
        ensures none { OnOk result (spec.literal_unknown self.now.service.now literal.now ≡ []) }
        ensures kind { IfOk result (λ k. spec.literal_kind self.now.service.now literal.now ≡ Some k) }
        ensures first { IfErr result (λ e. IsFirst e (spec.literal_unknown self.now.service.now literal.now)) }
    {
        match literal {
            Literal::Int(_) => Ok(Kind::Int),
            Literal::Bool(_) => Ok(Kind::Bool),
            Literal::Str(_) => Ok(Kind::Str),
            Literal::Tmpl(name) => match self.template_kind(name.as_str()) {
                Some(kind) => Ok(kind),
                None => Err(TypeFault::Unknown(name.copy()?)),
            },
        }
    }

    /// The tests of a session: its statements, and its last one.
    fn session(&self, session: &Session) -> Result<(), TypeFault>
        ensures none { OnOk result (spec.own_faults self.now.service.now (declarations.Session session.now) ≡ []) }
        ensures first { IfErr result (λ e. IsFirst e (spec.own_faults self.now.service.now (declarations.Session session.now))) }
    {
        let mut locals = Locals::new(self.alloc);
        let status = self.block(&mut locals, &session.body);
        drop(locals);
        status?;
        if !ends_in_exit(&session.body) {
            return Err(TypeFault::NoExit(session.name.copy()?));
        }
        Ok(())
    }
}
