//! Whether saved values are below their cells.
ghost use Rattle.std.specs.Prelude.{◌≡◌, IfOk};
ghost use Rattle.std.specs.List.{list_all};
ghost use Rattle.bw_analyse.specs.Facts.{local_fact, shared_fact};
ghost use Rattle.bw_lang.specs.Table.Names.{beside};
ghost use Rattle.bw_load.specs.Cells as spec;
ghost use Rattle.bw_load.specs.Sums.{sum_of as sum};
ghost use Rattle.bw_saved.specs.Documents.Demands.{IsBuilt};
ghost use Rattle.bw_strings.specs.Literals.{literals_of};
ghost use Rattle.bw_strings.specs.Strings as strings;
ghost use Rattle.bw_sum.specs.Summaries as summaries;

use crate::sums::{string_of, sum_of};
use bw_analyse::{Abstract, Facts};
use bw_doc::Doc;
use bw_eval::{Value, Values};
use bw_flow::{Local, PointId};
use bw_lang::{Memory, Shared};
use bw_solve::Lattice;
use bw_strings::{Literals, StrSet};
use bw_sum::Summary;
use bw_types::Typed;
use std::alloc::Global;

/// For the proof alone: the parts of a summary are sets.
fn are_sets(sum: &Summary)
    ensures { summaries.AreAlike sum.now sum.now }
{
    let _roots = sum.roots.as_slice();
    let _edges = sum.edges.as_slice();
    let _texts = sum.texts.as_slice();
    let _tracks = sum.tracks.as_slice();
    let _lacks = sum.lacks.as_slice();
}

/// Whether the one summary is below the other.
fn is_sum_below(a: &Summary, b: &Summary) -> bool
    ensures { result ≡ summaries.is_below a.now b.now }
{
    are_sets(a);
    are_sets(b);
    a.below(b)
}

/// Whether the one set of strings is below the other.
fn is_set_below(a: &StrSet, b: &StrSet) -> bool
    ensures { result ≡ strings.is_below a.now b.now }
{
    let _first = a.is_none();
    let _second = b.is_none();
    a.below(b)
}

/// Whether nothing is known, as of numbers, truth values and lists.
fn is_nothing(cell: &Abstract) -> bool
    ensures { result ≡ spec.is_nothing cell.now }
{
    matches!(cell, Abstract::Nothing)
}

/// Whether the strings that a text may be are below the cell.
fn is_text_below(
    alloc: Global,
    literals: &Literals,
    text: &str,
    cell: &Abstract,
) -> Result<bool, Memory>
    ensures { IfOk result (λ b. b ≡ spec.is_text_below literals.now text.now cell.now) }
{
    match cell {
        Abstract::Str(strings) => {
            let one = string_of(alloc, literals, text)?;
            Ok(is_set_below(&one, strings))
        }
        Abstract::Nothing => Ok(false),
        Abstract::Html(_) => Ok(false),
    }
}

/// Whether the summary of a document is below another.
pub(crate) fn is_page_below(
    alloc: Global,
    typed: &Typed,
    literals: &Literals,
    doc: &Doc,
    cell: &Summary,
) -> Result<bool, Memory>
    requires built { IsBuilt typed.now.service doc.now }
    requires literals { literals.now ≡ literals_of typed.now.service }
    ensures { IfOk result (λ b. b ≡ summaries.is_below (sum typed.now.service doc.now) cell.now) }
{
    let one = sum_of(alloc, typed, literals, doc)?;
    Ok(is_sum_below(&one, cell))
}

/// Whether the summary of a document is below the cell.
fn is_document_below(
    alloc: Global,
    typed: &Typed,
    literals: &Literals,
    doc: &Doc,
    cell: &Abstract,
) -> Result<bool, Memory>
    requires built { IsBuilt typed.now.service doc.now }
    requires literals { literals.now ≡ literals_of typed.now.service }
    ensures { IfOk result (λ b. b ≡ spec.is_document_below typed.now.service doc.now cell.now) }
{
    match cell {
        Abstract::Html(sum) => is_page_below(alloc, typed, literals, doc, sum),
        Abstract::Nothing => Ok(false),
        Abstract::Str(_) => Ok(false),
    }
}

/// Whether what is known of a value is below the cell.
fn is_value_below(
    alloc: Global,
    typed: &Typed,
    literals: &Literals,
    value: &Value,
    cell: &Abstract,
) -> Result<bool, Memory>
    requires built { spec.IsBuiltValue typed.now.service value.now }
    requires literals { literals.now ≡ literals_of typed.now.service }
    ensures { IfOk result (λ b. b ≡ spec.is_value_below typed.now.service value.now cell.now) }
{
    match value {
        Value::Int(_) => Ok(is_nothing(cell)),
        Value::Bool(_) => Ok(is_nothing(cell)),
        Value::Strs(_) => Ok(is_nothing(cell)),
        Value::Str(text) => is_text_below(alloc, literals, text.as_str(), cell),
        Value::Html(doc) => is_document_below(alloc, typed, literals, doc, cell),
    }
}

/// Whether each local in scope at the point is below its cell.
pub(crate) fn are_locals_below(
    alloc: Global,
    typed: &Typed,
    literals: &Literals,
    facts: &Facts,
    point: PointId,
    scope: &[Local],
    locals: &Values,
) -> Result<bool, Memory>
    requires built { spec.AreBuilt typed.now.service locals.now }
    requires literals { literals.now ≡ literals_of typed.now.service }
    ensures { IfOk result (λ b. b ≡
        list_all (λ l. spec.is_cell_below typed.now.service (beside l.name locals.now) (local_fact facts.now point l.name)) scope.now) }
{
    for local in scope {
        let Some(value) = locals.get(&local.name) else {
            return Ok(false);
        };
        let Some(cell) = facts.local(point, local.name.as_str()) else {
            return Ok(false);
        };
        if !is_value_below(alloc, typed, literals, value, cell)? {
            return Ok(false);
        }
    }
    Ok(true)
}

/// Whether each shared variable is below its cell.
pub(crate) fn are_shared_below(
    alloc: Global,
    typed: &Typed,
    literals: &Literals,
    facts: &Facts,
    all: &[Shared],
    shared: &Values,
) -> Result<bool, Memory>
    requires built { spec.AreBuilt typed.now.service shared.now }
    requires literals { literals.now ≡ literals_of typed.now.service }
    ensures { IfOk result (λ b. b ≡
        list_all (λ v. spec.is_cell_below typed.now.service (beside v.name shared.now) (shared_fact facts.now v.name)) all.now) }
{
    for variable in all {
        let Some(value) = shared.get(&variable.name) else {
            return Ok(false);
        };
        let Some(cell) = facts.shared(variable.name.as_str()) else {
            return Ok(false);
        };
        if !is_value_below(alloc, typed, literals, value, cell)? {
            return Ok(false);
        }
    }
    Ok(true)
}
