//! Where the first test of a service fails.
ghost use Rattle.std.specs.Prelude.{◌≡◌, ◌<◌, ◌+◌, ◌++◌, ◌^◌, Some, IfOk, IfErr, OnOk, [], ◌∷◌, map};
ghost use Rattle.bw_lang.specs.Service.Order.{seen, declarations_of};
ghost use Rattle.bw_lang.specs.Service.Reads.{IsReadable};
ghost use Rattle.bw_lang.specs.declared.declaration.Declaration.TheVariants as sorts;
ghost use Rattle.bw_types.specs.ExpressionFaults.{demand};
ghost use Rattle.bw_types.specs.Scopes.{name_of};
ghost use Rattle.bw_blame.specs.Blames as spec;

use crate::site::{Blamed, Missed, Site};
use crate::statements::block;
use crate::templates::{Passed, items};
use bw_lang::{
    Declared, Kind, Literal, Memory, Name, NameTable, Service, Session, Shared, Template,
};
use bw_types::kinds::demand;
use bw_types::locals::Locals;
use bw_types::names::Names;
use bw_types::statements::ends_in_exit;
use bw_types::tables::{Tables, has};
use std::alloc::Global;

/// The name of a declaration.
fn name_at<'a>(declaration: &Declared<'a>) -> &'a Name
    ensures { result.now ≡ name_of (seen declaration.now) }
{
    match declaration {
        Declared::Template(template) => &template.name,
        Declared::Shared(variable) => &variable.name,
        Declared::Session(session) => &session.name,
    }
}

/// Where its name stands.
fn name_site(declaration: &Declared) -> Site
    ensures { result ≡ spec.name_site (seen declaration.now) }
{
    match declaration {
        Declared::Template(_) | Declared::Session(_) => Site::Tokens(1, 2),
        Declared::Shared(_) => Site::Tokens(2, 3),
    }
}

/// The tests of a shared variable.
#[tactic(auto, using(crate::proofs::Sites::site_steps))]
fn shared(names: &Names<'_>, d: usize, variable: &Shared) -> Result<(), Missed>
    ensures none { OnOk result (spec.own_blames names.now.service.now d (sorts.Shared variable.now) ≡ []) }
    ensures first { IfErr result (λ e. spec.IsFirst e (spec.own_blames names.now.service.now d (sorts.Shared variable.now))) }
{
    match &variable.init {
        Literal::Int(_) => literal(d, variable.kind, Kind::Int),
        Literal::Bool(_) => literal(d, variable.kind, Kind::Bool),
        Literal::Str(_) => literal(d, variable.kind, Kind::Str),
        Literal::Tmpl(name) => match names.template_kind(name.as_str()) {
            Some(kind) => literal(d, variable.kind, kind),
            None => Err(Missed::At(Site::Literal)),
        },
    }
}

/// A literal of this kind is demanded.
#[tactic(auto, using(crate::proofs::Sites::site_steps))]
fn literal(d: usize, kind: Kind, found: Kind) -> Result<(), Missed>
    ensures none { OnOk result (spec.about d Site.Literal (demand kind (Some found)) ≡ []) }
    ensures first { IfErr result (λ e. spec.IsFirst e (spec.about d Site.Literal (demand kind (Some found)))) }
{
    match demand(kind, found) {
        Ok(()) => Ok(()),
        Err(fault) => {
            drop(fault);
            Err(Missed::At(Site::Literal))
        }
    }
}

/// The tests of a session.
#[tactic(auto, using(crate::proofs::Sites::site_steps))]
fn session(names: &Names<'_>, d: usize, session: &Session) -> Result<(), Missed>
    requires { spec.IsShort (sorts.Session session.now) }
    ensures none { OnOk result (spec.own_blames names.now.service.now d (sorts.Session session.now) ≡ []) }
    ensures first { IfErr result (λ e. spec.IsFirst e (spec.own_blames names.now.service.now d (sorts.Session session.now))) }
{
    let mut locals = Locals::new(names.alloc);
    let status = block(names, &mut locals, d, 5, &session.body);
    drop(locals);
    status?;
    if !ends_in_exit(&session.body) {
        return Err(Missed::At(Site::Tokens(1, 2)));
    }
    Ok(())
}

/// The tests of a template.
fn template(names: &Names<'_>, d: usize, template: &Template) -> Result<(), Missed>
    ensures none { OnOk result (spec.own_blames names.now.service.now d (sorts.Template template.now) ≡ []) }
    ensures first { IfErr result (λ e. spec.IsFirst e (spec.own_blames names.now.service.now d (sorts.Template template.now))) }
{
    let none = Passed { tags: 0, holes: 0 };
    match items(names, &template.name, d, none, &template.items) {
        Ok(_) => Ok(()),
        Err(missed) => Err(missed),
    }
}

/// A declaration's own tests.
fn own(names: &Names<'_>, d: usize, declaration: &Declared) -> Result<(), Missed>
    requires { spec.IsShort (seen declaration.now) }
    ensures none { OnOk result (spec.own_blames names.now.service.now d (seen declaration.now) ≡ []) }
    ensures first { IfErr result (λ e. spec.IsFirst e (spec.own_blames names.now.service.now d (seen declaration.now))) }
{
    match declaration {
        Declared::Template(one) => template(names, d, one),
        Declared::Shared(variable) => shared(names, d, variable),
        Declared::Session(one) => session(names, d, one),
    }
}

/// The tests of a declaration, behind those of these names. Then its name is taken.
#[tactic(auto, using(crate::proofs::Sites::site_steps))]
fn declared(
    names: &Names<'_>,
    earlier: &mut NameTable,
    d: usize,
    declaration: &Declared,
) -> Result<(), Missed>
    requires { spec.IsShort (seen declaration.now) }
    ensures none { OnOk result (spec.declared_blames names.now.service.now earlier.old d (seen declaration.now) ≡ []) }
    ensures named { OnOk result (earlier.new ≡ earlier.old ++ name_of (seen declaration.now) ∷ []) }
    ensures first { IfErr result (λ e. spec.IsFirst e (spec.declared_blames names.now.service.now earlier.old d (seen declaration.now))) }
{
    let name = name_at(declaration);
    if has(earlier, name.as_str()) {
        return Err(Missed::At(name_site(declaration)));
    }
    own(names, d, declaration)?;
    match earlier.add(name.as_str()) {
        Ok(_) => Ok(()),
        Err(Memory) => Err(Missed::Memory),
    }
}

/// The first of these declarations with a test that fails, and what its first one is about.
fn first_of(
    names: &Names<'_>,
    earlier: &mut NameTable,
    declarations: &[Declared],
) -> Result<Option<Blamed>, Memory>
    requires { spec.AreShort (map seen declarations.now) }
    ensures { IfOk result (λ o. o ≡ spec.first_blamed names.now.service.now earlier.old 0 (map seen declarations.now)) }
{
    for (index, declaration) in declarations.iter().enumerate() {
        match declared(names, earlier, index, declaration) {
            Ok(()) => {}
            Err(Missed::At(site)) => {
                return Ok(Some(Blamed {
                    declaration: index,
                    site,
                }));
            }
            Err(Missed::Memory) => return Err(Memory),
        }
    }
    Ok(None)
}

/// The first declaration of a service with a test of names and kinds that fails, and what its first one is about. There is
/// none exactly where the service is well typed.
pub fn blame(alloc: Global, service: &Service) -> Result<Option<Blamed>, Memory>
    requires readable { ∥ IsReadable service.now ∥₁ }
    requires short { spec.AreShort (declarations_of service.now) }
    ensures { IfOk result (λ o. o ≡ spec.first_blamed service.now [] 0 (declarations_of service.now)) }
{
    let tables = Tables::of(alloc, service)?;
    let declarations = service.declarations(alloc)?;
    let mut earlier = NameTable::new(alloc);
    let names = Names {
        alloc,
        service,
        tables: &tables,
    };
    let found = first_of(&names, &mut earlier, declarations.as_slice());
    drop(earlier);
    drop(declarations);
    drop(tables);
    found
}
