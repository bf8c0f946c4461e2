//! The pages around documents.
ghost use Rattle.std.specs.Prelude.{◌+◌, ◌<◌, length};

use bw_lang::laws::readable_is_small;
use bw_lang::{Memory, TemplateId};
use bw_solve::Set;
use bw_strings::{Literals, StrSet};
use bw_sum::Summary;
use bw_types::Typed;
use std::alloc::{AllocError, Global};

/// The page of a show, with the service's name as its title and any target.
pub fn show_page(
    alloc: Global,
    typed: &Typed,
    literals: &Literals,
    document: &Summary,
) -> Result<Summary, Memory> {
    readable_is_small();
    let service = typed.service();
    let wrapper = TemplateId::show_wrapper(service.templates.as_slice().len());
    let titled = titled(alloc, typed, literals, wrapper)?;
    let targeted = titled.plug_text(alloc, service.gaps.target(), &StrSet::Any);
    drop(titled);
    let targeted = targeted?;
    let page = targeted.plug(alloc, service.gaps.document(), document);
    drop(targeted);
    page
}

/// The page of an exit, with the service's name as its title.
pub fn exit_page(
    alloc: Global,
    typed: &Typed,
    literals: &Literals,
    document: &Summary,
) -> Result<Summary, Memory> {
    readable_is_small();
    let service = typed.service();
    let wrapper = TemplateId::exit_wrapper(service.templates.as_slice().len());
    let titled = titled(alloc, typed, literals, wrapper)?;
    let page = titled.plug(alloc, service.gaps.document(), document);
    drop(titled);
    page
}

/// A wrapper with the service's name as its title.
fn titled(
    alloc: Global,
    typed: &Typed,
    literals: &Literals,
    wrapper: TemplateId,
) -> Result<Summary, Memory>
    requires { wrapper < length typed.now.service.templates + 2 }
{
    let name = title_of(alloc, typed, literals)?;
    let titled = named(alloc, typed, wrapper, &name);
    drop(name);
    titled
}

/// A wrapper with this name as its title.
fn named(
    alloc: Global,
    typed: &Typed,
    wrapper: TemplateId,
    name: &StrSet,
) -> Result<Summary, Memory>
    requires { wrapper < length typed.now.service.templates + 2 }
{
    readable_is_small();
    let title = typed.service().gaps.title();
    let page = Summary::constant(alloc, typed, wrapper)?;
    let named = page.plug_text(alloc, title, name);
    drop(page);
    named
}

/// The service's name, as a set of its one literal.
fn title_of(alloc: Global, typed: &Typed, literals: &Literals) -> Result<StrSet, AllocError> {
    let name = typed.service().name.as_str();
    Ok(StrSet::Of(Set::of(alloc, literals.number(name))?))
}
