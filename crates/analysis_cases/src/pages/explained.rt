//! A page that shows each of the faults of a page graph.
ghost use Rattle.std.specs.Prelude.{◌≡◌, ◌<◌, ◌^◌};
ghost use Rattle.std.specs.List.{All};
ghost use Rattle.bw_explain.specs.declared.explained.Explained.TheVariants as answers;
ghost use Rattle.bw_judge.specs.Faults.{IsFault};
ghost use Rattle.bw_lang.specs.Document.Documents.{elements};
ghost use Rattle.bw_lang.specs.declared.tree.Tree.{Tree};
ghost use Rattle.bw_shape.specs.Outlines.{IsPageGraph, root_of};
ghost use Rattle.bw_strings.specs.Literals.{literals_of};
ghost use Rattle.bw_sum.specs.Graph.{graph};
ghost use Rattle.bw_sum.specs.Templates.{template_items};

use crate::pages::judging::statement;
use crate::pages::known::is_page_graph;
use crate::pages::wrapped::{exit_page, show_page};
use bw_explain::{Explained, explain};
use bw_faults::Fault as PageFault;
use bw_flow::{Flow, What};
use bw_judge::judge_by;
use bw_lang::Tree;
use bw_page::Sheet;
use bw_schema::Schema;
use bw_shape::{Basis, Wrappers, shape_by};
use bw_strings::Literals;
use bw_sum::Summary;
use bw_types::Typed;
use bw_valid::valid;
use case_files::{Fault, begin_line, flow_of};
use std::alloc::Global;

/// The page around a document, at the show or the exit of this number.
fn page_of(
    alloc: Global,
    typed: &Typed,
    literals: &Literals,
    document: &Summary,
    number: u32,
) -> Result<Summary, Fault> {
    let flow = flow_of(alloc, typed)?;
    let page = page_in(alloc, typed, literals, document, &flow, number);
    drop(flow);
    page
}

/// The same, where the service has this flow.
fn page_in(
    alloc: Global,
    typed: &Typed,
    literals: &Literals,
    document: &Summary,
    flow: &Flow,
    number: u32,
) -> Result<Summary, Fault> {
    match statement(flow, number) {
        Some(What::Show { .. }) => Ok(show_page(alloc, typed, literals, document)?),
        Some(What::Exit { .. }) => Ok(exit_page(alloc, typed, literals, document)?),
        _ => Err(Fault::Malformed),
    }
}

/// The most bytes of a page that are put as they are.
const MAX_SHOWN: usize = 400;

/// Puts the line of a page's bytes behind others.
fn put_bytes(bytes: &[u8], shown: &mut String) -> Result<(), Fault> {
    match str::from_utf8(bytes) {
        Ok(text) if bytes.len() <= MAX_SHOWN => write!(shown, "shows {text}")?,
        _ => write!(shown, "shows a page of {} bytes", bytes.len())?,
    }
    Ok(())
}

/// Puts the line of a page behind others.
fn put_page(alloc: Global, schema: &Schema, page: &Tree, shown: &mut String) -> Result<(), Fault>
    requires few { elements page.now.items < 2 ^ 32 }
{
    let sheet = Sheet::of(alloc, page)?;
    let put = put_bytes(sheet.as_bytes(), shown);
    drop(sheet);
    put?;
    if valid(schema, page).is_ok() {
        shown.push_str(" which is valid")?;
    }
    Ok(())
}

/// Puts the line of an answer behind others.
fn put_explained(
    alloc: Global,
    schema: &Schema,
    explained: &Explained,
    shown: &mut String,
) -> Result<(), Fault>
    requires few { (t : Tree) → explained.now ≡ answers.Page t → elements t.items < 2 ^ 32 }
{
    begin_line(shown)?;
    match explained {
        Explained::Page(page) => put_page(alloc, schema, page, shown)?,
        Explained::NoUnfolding => shown.push_str("no unfolding")?,
        Explained::TooBig => shown.push_str("too big")?,
        Explained::Disjunction => shown.push_str("disjunction")?,
    }
    Ok(())
}

/// Puts behind others what explains each of these faults of a page graph.
fn put_each(
    alloc: Global,
    typed: &Typed,
    schema: &Schema,
    page: &Summary,
    faults: &[PageFault],
    shown: &mut String,
) -> Result<(), Fault>
    requires page { IsPageGraph typed.now.service page.now }
    requires faults { All (λ f. IsFault (template_items typed.now.service) (graph (literals_of typed.now.service) page.now)
        (root_of page.now) schema.now f.point f) faults.now }
{
    for fault in faults {
        let explained = explain(alloc, page, typed, schema, fault)?;
        let put = put_explained(alloc, schema, &explained, shown);
        drop(explained);
        put?;
    }
    Ok(())
}

/// Puts behind others what explains each fault that judging a page graph answers.
fn put_judged(
    alloc: Global,
    basis: &Basis<'_>,
    page: &Summary,
    number: u32,
    shown: &mut String,
) -> Result<(), Fault>
    requires { IsPageGraph basis.now.typed.now.service page.now }
{
    let outline = shape_by(alloc, page, basis)?;
    let faults = judge_by(alloc, basis, &outline, page, number);
    drop(outline);
    let faults = faults?;
    let (typed, schema) = (basis.typed, basis.schema);
    let put = put_each(alloc, typed, schema, page, faults.as_slice(), shown);
    drop(faults);
    put
}

/// Puts behind others what explains each fault of a page graph.
fn put_page_faults(
    alloc: Global,
    typed: &Typed,
    literals: &Literals,
    schema: &Schema,
    page: &Summary,
    number: u32,
    shown: &mut String,
) -> Result<(), Fault>
    requires { literals.now ≡ literals_of typed.now.service }
{
    if !is_page_graph(typed, literals, page) {
        return Err(Fault::Malformed);
    }
    let wrappers = Wrappers::of(alloc, typed)?;
    let templates = wrappers.behind(typed);
    let basis = Basis {
        typed,
        literals,
        templates: &templates,
        schema,
    };
    put_judged(alloc, &basis, page, number, shown)
}

/// Puts behind the lines of faults what explains each of the faults 1 to 7.
pub fn put_all(
    alloc: Global,
    typed: &Typed,
    literals: &Literals,
    schema: &Schema,
    document: &Summary,
    number: u32,
    shown: &mut String,
) -> Result<(), Fault>
    requires { literals.now ≡ literals_of typed.now.service }
{
    let page = page_of(alloc, typed, literals, document, number)?;
    let put = put_page_faults(alloc, typed, literals, schema, &page, number, shown);
    drop(page);
    put
}
