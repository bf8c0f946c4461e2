//! The graphs of pages.
ghost use Rattle.std.specs.Prelude.{◌≡◌, ◌<◌, IfOk, length, slice_get, Some};
ghost use Rattle.bw_flow.specs.Steps.{Step};
ghost use Rattle.bw_flow.specs.Layout.{plan_of};
ghost use Rattle.bw_analyse.specs.Facts.{AreFacts};
ghost use Rattle.bw_analyse.specs.Pages.{HasPage, page_graph, shown_page, exited_page};

use crate::facts::Facts;
use bw_flow::{Flow, PointId, What};
use bw_lang::laws::readable_is_small;
use bw_lang::{Memory, TemplateId};
use bw_solve::Set;
use bw_strings::StrSet;
use bw_sum::Summary;
use bw_types::Typed;
use std::alloc::Global;

/// The page of a show: its wrapper with this name at the title, any string at the target, and the document.
fn shown(alloc: Global, typed: &Typed, name: &StrSet, document: &Summary) -> Result<Summary, Memory>
    ensures { IfOk result (λ s. s ≡ shown_page typed.now.service name.now document.now) }
{
    readable_is_small();
    let service = typed.service();
    let wrapper = TemplateId::show_wrapper(service.templates.as_slice().len());
    let (title, target, doc) = (
        service.gaps.title(),
        service.gaps.target(),
        service.gaps.document(),
    );
    let bare = Summary::constant(alloc, typed, wrapper)?;
    let titled = bare.plug_text(alloc, title, name);
    drop(bare);
    let titled = titled?;
    let aimed = titled.plug_text(alloc, target, &StrSet::Any);
    drop(titled);
    let aimed = aimed?;
    let page = aimed.plug(alloc, doc, document);
    drop(aimed);
    page
}

/// The page of an exit: its wrapper with this name at the title, and the document.
fn exited(
    alloc: Global,
    typed: &Typed,
    name: &StrSet,
    document: &Summary,
) -> Result<Summary, Memory>
    ensures { IfOk result (λ s. s ≡ exited_page typed.now.service name.now document.now) }
{
    readable_is_small();
    let service = typed.service();
    let wrapper = TemplateId::exit_wrapper(service.templates.as_slice().len());
    let bare = Summary::constant(alloc, typed, wrapper)?;
    let titled = bare.plug_text(alloc, service.gaps.title(), name);
    drop(bare);
    let titled = titled?;
    let page = titled.plug(alloc, service.gaps.document(), document);
    drop(titled);
    page
}

/// The graph of the page of a show or an exit: of its wrapper with the service's name at the title, for a show any string
/// at the target, and the documents that it may show.
pub fn page_graph(
    alloc: Global,
    typed: &Typed,
    flow: &Flow,
    facts: &Facts,
    point: PointId,
) -> Result<Summary, Memory>
    requires flow { flow.now ≡ plan_of typed.now.service }
    requires facts { AreFacts typed.now.service facts.now }
    requires point { HasPage typed.now.service point }
    ensures { IfOk result (λ s. s ≡ page_graph typed.now.service facts.now point) }
{
    let name = StrSet::Of(Set::of(alloc, facts.title())?);
    let Some(place) = flow.point(point) else {
        unreachable!()
    };
    let Some(document) = facts.shown(point) else {
        unreachable!()
    };
    match &place.what {
        What::Exit { .. } => exited(alloc, typed, &name, document),
        _ => shown(alloc, typed, &name, document),
    }
}
