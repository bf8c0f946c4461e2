//! What is known of values, as text: `nothing`, `any`, `strings "TEXT" ..`, or the parts of a summary that have members:
//! `roots TEMPLATE ..`, `edges TEMPLATE.GAP.TEMPLATE ..`, `texts TEMPLATE.GAP STRINGS ..`, `tracks GAP.TEMPLATE ..`,
//! `lacks GAP ..`, and `members` and their number. Templates go by their numbers and gaps by their names.

use bw_analyse::Abstract;
use bw_lang::GapId;
use bw_lang::laws::readable_is_small;
use bw_solve::Lattice;
use bw_strings::{Literals, StrSet};
use bw_sum::{Label, Summary};
use bw_types::Typed;
use std::alloc::AllocError;

/// What the numbers of gaps and of literals stand for.
#[derive(Clone, Copy)]
pub struct Names<'a> {
    pub typed: &'a Typed,
    pub literals: &'a Literals,
}

/// What is known of a value.
pub fn put_value(text: &mut String, names: &Names<'_>, value: &Abstract) -> Result<(), AllocError> {
    match value {
        Abstract::Nothing => text.push_str(" nothing"),
        Abstract::Str(strings) => {
            if matches!(strings, StrSet::Of(_)) {
                text.push_str(" strings")?;
            }
            put_strings(text, names, strings)
        }
        Abstract::Html(summary) => put_summary(text, names, summary),
    }
}

/// Some strings, behind a blank each.
fn put_strings(text: &mut String, names: &Names<'_>, strings: &StrSet) -> Result<(), AllocError> {
    match strings {
        StrSet::Any => text.push_str(" any"),
        StrSet::Of(numbers) => {
            for number in numbers.as_slice() {
                write!(text, " \"{}\"", literal(names, *number))?;
            }
            Ok(())
        }
    }
}

/// The string of this number, or a question mark where there is none.
fn literal<'a>(names: &Names<'a>, number: u32) -> &'a str {
    if (number as usize) < names.literals.len() {
        names.literals.text(number)
    } else {
        "?"
    }
}

/// The parts of a summary that have members, and the number of these.
pub fn put_summary(
    text: &mut String,
    names: &Names<'_>,
    summary: &Summary,
) -> Result<(), AllocError> {
    put_roots(text, summary)?;
    put_edges(text, names, summary)?;
    put_texts(text, names, summary.texts.as_slice())?;
    put_tracks(text, names, summary)?;
    put_lacks(text, names, summary)?;
    write!(text, " members {}", summary.size())
}

/// The templates that a document may begin as.
fn put_roots(text: &mut String, summary: &Summary) -> Result<(), AllocError> {
    text.push_str(" roots")?;
    for root in summary.roots.as_slice() {
        write!(text, " {}", root.number())?;
    }
    Ok(())
}

/// Which template may be plugged at which gap of which.
fn put_edges(text: &mut String, names: &Names<'_>, summary: &Summary) -> Result<(), AllocError> {
    if summary.edges.len() > 0 {
        text.push_str(" edges")?;
    }
    for edge in summary.edges.as_slice() {
        write!(
            text,
            " {}.{}.{}",
            edge.0.number(),
            gap_name(names.typed, edge.1),
            edge.2.number()
        )?;
    }
    Ok(())
}

/// Which strings may stand at which gap of which template.
fn put_texts(text: &mut String, names: &Names<'_>, labels: &[Label]) -> Result<(), AllocError> {
    if !labels.is_empty() {
        text.push_str(" texts")?;
    }
    for label in labels {
        write!(text, " {}.{}", label.0.0.number(), gap_name(names.typed, label.0.1))?;
        put_strings(text, names, &label.1)?;
    }
    Ok(())
}

/// Which gap of which template may still be open.
fn put_tracks(text: &mut String, names: &Names<'_>, summary: &Summary) -> Result<(), AllocError> {
    if summary.tracks.len() > 0 {
        text.push_str(" tracks")?;
    }
    for track in summary.tracks.as_slice() {
        write!(
            text,
            " {}.{}",
            gap_name(names.typed, track.0),
            track.1.number()
        )?;
    }
    Ok(())
}

/// The gaps that may not be there at all.
fn put_lacks(text: &mut String, names: &Names<'_>, summary: &Summary) -> Result<(), AllocError> {
    if summary.lacks.len() > 0 {
        text.push_str(" lacks")?;
    }
    for gap in summary.lacks.as_slice() {
        write!(text, " {}", gap_name(names.typed, *gap))?;
    }
    Ok(())
}

/// The name of a gap of the service, or of a page wrapper's.
fn gap_name(typed: &Typed, gap: GapId) -> &str {
    readable_is_small();
    let gaps = &typed.service().gaps;
    match gaps.name(gap) {
        Some(name) => name,
        None if gap == gaps.title() => "(title)",
        None if gap == gaps.target() => "(target)",
        None => "(doc)",
    }
}
