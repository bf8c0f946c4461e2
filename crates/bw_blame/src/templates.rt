//! Where the first test of a template fails.
ghost use Rattle.std.specs.Prelude.{◌≡◌, ◌+◌, IfOk, IfErr, OnOk, [], length};
ghost use Rattle.bw_lang.specs.Document.Forest.{none};
ghost use Rattle.bw_lang.specs.Document.View.{before};
ghost use Rattle.bw_places.specs.Tags.{tags};
ghost use Rattle.bw_types.specs.TemplateFaults.{gap_fault, element_faults};
ghost use Rattle.bw_types.specs.declared.fault.GapKind.TheVariants.{Content};
ghost use Rattle.bw_blame.specs.Blames as spec;

use crate::site::{Missed, Site};
use bw_lang::{Element, GapId, Item, Items, Name};
use bw_types::names::Names;
use bw_types::{GapKind, TypeFault};

/// How many start tags and how many gaps stand in front.
#[derive(Clone, Copy)]
pub struct Passed {
    pub tags: usize,
    pub holes: usize,
}

/// One more, where it is a number.
fn next(count: usize) -> Result<usize, Missed>
    ensures ok { IfOk result (λ n. n ≡ count + 1) }
    ensures memory { IfErr result (λ e. e ≡ Missed.Memory) }
{
    match count.checked_add(1) {
        Some(next) => Ok(next),
        None => Err(Missed::Memory),
    }
}

/// What stands behind items; or what the first test that fails is about.
#[tactic(auto, using(bw_lang::proofs::Sizes::size_steps))]
#[cycle(items)]
pub fn items(
    names: &Names<'_>,
    template: &Name,
    d: usize,
    passed: Passed,
    items: &Items,
) -> Result<Passed, Missed>
    ensures none { OnOk result (spec.blames_items names.now.service.now template.now d passed.tags passed.holes items.now ≡ []) }
    ensures tags { IfOk result (λ r. r.tags ≡ passed.tags + length (tags items.now)) }
    ensures holes { IfOk result (λ r. r.holes ≡ passed.holes + spec.holes items.now) }
    ensures first { IfErr result (λ e. spec.IsFirst e (spec.blames_items names.now.service.now template.now d passed.tags passed.holes items.now)) }
{
    let mut at = passed;
    for item in items.as_slice() {
        at = item_of(names, template, d, at, item)?;
    }
    Ok(at)
}

/// The same of one item.
#[tactic(auto, using(crate::proofs::Sites::site_steps))]
#[cycle(items)]
fn item_of(
    names: &Names<'_>,
    template: &Name,
    d: usize,
    passed: Passed,
    item: &Item,
) -> Result<Passed, Missed>
    ensures none { OnOk result (spec.blames_items names.now.service.now template.now d passed.tags passed.holes (before item.now none) ≡ []) }
    ensures tags { IfOk result (λ r. r.tags ≡ passed.tags + length (tags (before item.now none))) }
    ensures holes { IfOk result (λ r. r.holes ≡ passed.holes + spec.holes (before item.now none)) }
    ensures first { IfErr result (λ e. spec.IsFirst e
        (spec.blames_items names.now.service.now template.now d passed.tags passed.holes (before item.now none))) }
{
    match item {
        Item::Text(_) => Ok(passed),
        Item::Gap(gap) => {
            hole(names, d, passed.holes, *gap)?;
            Ok(Passed {
                tags: passed.tags,
                holes: next(passed.holes)?,
            })
        }
        Item::Element(element) => {
            start_tag(names, template, d, passed.tags, element)?;
            let inner = Passed {
                tags: next(passed.tags)?,
                holes: passed.holes,
            };
            items(names, template, d, inner, &element.items)
        }
    }
}

/// The gap of this number.
#[tactic(auto, using(crate::proofs::Sites::site_steps))]
fn hole(names: &Names<'_>, d: usize, number: usize, gap: GapId) -> Result<(), Missed>
    ensures none { OnOk result (spec.about d (Site.Hole number) (gap_fault names.now.service.now gap Content) ≡ []) }
    ensures first { IfErr result (λ e. spec.IsFirst e (spec.about d (Site.Hole number) (gap_fault names.now.service.now gap Content))) }
{
    match names.open_gap(gap, GapKind::Content) {
        Ok(()) => Ok(()),
        Err(fault) => {
            let missed = missed_at(&fault, Site::Hole(number));
            drop(fault);
            Err(missed)
        }
    }
}

/// The start tag of this number.
#[tactic(auto, using(crate::proofs::Sites::site_steps))]
fn start_tag(
    names: &Names<'_>,
    template: &Name,
    d: usize,
    number: usize,
    element: &Element,
) -> Result<(), Missed>
    ensures none { OnOk result (spec.about d (Site.StartTag number)
        (element_faults names.now.service.now template.now element.now.tag element.now.attrs) ≡ []) }
    ensures first { IfErr result (λ e. spec.IsFirst e (spec.about d (Site.StartTag number)
        (element_faults names.now.service.now template.now element.now.tag element.now.attrs))) }
{
    match names.element(template, element) {
        Ok(()) => Ok(()),
        Err(fault) => {
            let missed = missed_at(&fault, Site::StartTag(number));
            drop(fault);
            Err(missed)
        }
    }
}

/// That a test of this site fails, or that there was no memory.
fn missed_at(fault: &TypeFault, site: Site) -> Missed
    ensures { result ≡ spec.missed_at fault.now site }
{
    match fault {
        TypeFault::Memory => Missed::Memory,
        _ => Missed::At(site),
    }
}
