//! The faults of the pages of shows and exits.
ghost use Rattle.std.specs.Prelude.{◌≡◌};
ghost use Rattle.std.specs.List.{All};
ghost use Rattle.bw_fields.specs.Received.{IsReceived};
ghost use Rattle.bw_shape.specs.Outlines.{IsPageGraph, IsShape};
ghost use Rattle.bw_strings.specs.Literals.{literals_of};

use crate::pages::known::{are_received, is_page_graph};
use crate::pages::wrapped::{exit_page, show_page};
use bw_faults::Faults;
use bw_fields::judge_fields;
use bw_flow::{Flow, Receiveds, What};
use bw_judge::judge;
use bw_lang::Memory;
use bw_schema::Schema;
use bw_shape::{Outline, shape};
use bw_strings::Literals;
use bw_sum::Summary;
use bw_types::Typed;
use case_files::{Fault, flow_of};
use std::alloc::Global;

/// The faults of the page around a document, at the show or the exit of this number.
pub fn faults_of(
    alloc: Global,
    typed: &Typed,
    literals: &Literals,
    schema: &Schema,
    document: &Summary,
    number: u32,
) -> Result<Faults, Fault>
    requires { literals.now ≡ literals_of typed.now.service }
{
    let flow = flow_of(alloc, typed)?;
    let faults = faults_in(alloc, typed, literals, schema, document, &flow, number);
    drop(flow);
    faults
}

/// The same, where the service has this flow.
fn faults_in(
    alloc: Global,
    typed: &Typed,
    literals: &Literals,
    schema: &Schema,
    document: &Summary,
    flow: &Flow,
    number: u32,
) -> Result<Faults, Fault>
    requires { literals.now ≡ literals_of typed.now.service }
{
    match statement(flow, number) {
        Some(What::Show { receives, .. }) => {
            faults_of_show(alloc, typed, literals, schema, document, receives, number)
        }
        Some(What::Exit { .. }) => {
            faults_of_exit(alloc, typed, literals, schema, document, number)
        }
        _ => Err(Fault::Malformed),
    }
}

/// What the statement of this number does.
pub fn statement(flow: &Flow, number: u32) -> Option<&What> {
    let point = flow.point(flow.find(number)?)?;
    Some(&point.what)
}

/// The faults of the page of a show that receives these fields.
fn faults_of_show(
    alloc: Global,
    typed: &Typed,
    literals: &Literals,
    schema: &Schema,
    document: &Summary,
    receives: &Receiveds,
    number: u32,
) -> Result<Faults, Fault>
    requires { literals.now ≡ literals_of typed.now.service }
{
    if !are_received(typed, receives) {
        return Err(Fault::Malformed);
    }
    let page = show_page(alloc, typed, literals, document)?;
    let faults = if is_page_graph(typed, literals, &page) {
        judged_show(alloc, typed, literals, schema, &page, receives, number).map_err(Fault::from)
    } else {
        Err(Fault::Malformed)
    };
    drop(page);
    faults
}

/// The faults of the page of an exit.
fn faults_of_exit(
    alloc: Global,
    typed: &Typed,
    literals: &Literals,
    schema: &Schema,
    document: &Summary,
    number: u32,
) -> Result<Faults, Fault>
    requires { literals.now ≡ literals_of typed.now.service }
{
    let page = exit_page(alloc, typed, literals, document)?;
    let faults = if is_page_graph(typed, literals, &page) {
        judged_exit(alloc, typed, literals, schema, &page, number).map_err(Fault::from)
    } else {
        Err(Fault::Malformed)
    };
    drop(page);
    faults
}

/// The faults of the elements and of the received fields of a page.
fn judged_show(
    alloc: Global,
    typed: &Typed,
    literals: &Literals,
    schema: &Schema,
    page: &Summary,
    receives: &Receiveds,
    number: u32,
) -> Result<Faults, Memory>
    requires page { IsPageGraph typed.now.service page.now }
    requires literals { literals.now ≡ literals_of typed.now.service }
    requires received { All (IsReceived typed.now.service) receives.now }
{
    let outline = shape(alloc, page, typed, literals, schema)?;
    let faults = judged(
        alloc, typed, literals, schema, page, &outline, receives, number,
    );
    drop(outline);
    faults
}

/// The same, where this is the page's outline.
fn judged(
    alloc: Global,
    typed: &Typed,
    literals: &Literals,
    schema: &Schema,
    page: &Summary,
    outline: &Outline,
    receives: &Receiveds,
    number: u32,
) -> Result<Faults, Memory>
    requires page { IsPageGraph typed.now.service page.now }
    requires literals { literals.now ≡ literals_of typed.now.service }
    requires shape { IsShape typed.now.service page.now schema.now outline.now }
    requires received { All (IsReceived typed.now.service) receives.now }
{
    let faults = judge(outline, page, typed, literals, schema, number)?;
    match judge_fields(alloc, outline, typed, receives, number) {
        Ok(more) => joined(faults, more),
        Err(Memory) => {
            drop(faults);
            Err(Memory)
        }
    }
}

/// All faults of both.
fn joined(faults: Faults, more: Faults) -> Result<Faults, Memory> {
    let mut all = faults;
    match all.join(more) {
        Ok(()) => Ok(all),
        Err(Memory) => {
            drop(all);
            Err(Memory)
        }
    }
}

/// The faults of the elements of a page.
fn judged_exit(
    alloc: Global,
    typed: &Typed,
    literals: &Literals,
    schema: &Schema,
    page: &Summary,
    number: u32,
) -> Result<Faults, Memory>
    requires page { IsPageGraph typed.now.service page.now }
    requires literals { literals.now ≡ literals_of typed.now.service }
{
    let outline = shape(alloc, page, typed, literals, schema)?;
    let faults = judge(&outline, page, typed, literals, schema, number);
    drop(outline);
    faults
}
