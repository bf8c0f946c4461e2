//! What is shown behind the line of a refusal, where the text of the service is shown.
ghost use Rattle.std.specs.Prelude.{◌≡◌, ◌++◌, ◌+◌, Some, take, is_some, IfOk, IfSome, OnOk};
ghost use Rattle.bw_diagnose.specs.Known.{IsLent};
ghost use Rattle.bw_lang.specs.Service.Reads.{Reads};
ghost use Rattle.bw_lang.specs.declared.limits.TheConstants.{MAX_FILE_BYTES};
ghost use Rattle.bw_syntax.specs.Told.{IsTold};
ghost use Rattle.bw_questions.specs.Behind as spec;

use crate::seen::{Aimed, Seen, Sight};
use bw_blame::blame;
use bw_diagnose::{
    Aim, Paper, aim_at, marks_of, no_aim, push_facts_block, push_fault_block, push_points_block,
    push_syntax_block, push_type_block, read_known, with_tokens,
};
use bw_faults::Fault;
use bw_lang::limits::MAX_FILE_BYTES;
use bw_lang::{Memory, Service};
use bw_syntax::{SyntaxFault, Told};
use bw_types::TypeFault;
use std::alloc::Global;

/// The tokens of a text, where it is asked for that it is shown; else nobody needs them any more.
pub fn kept(told: Told, source: bool) -> Option<Told>
    ensures { result ≡ spec.told_if source told }
{
    if source {
        Some(told)
    } else {
        drop(told);
        None
    }
}

/// The file, where the tokens of its text are kept.
pub fn seen_as<'a>(name: &'a str, text: &'a [u8], told: &'a Option<Told>) -> Option<Seen<'a>>
    requires { IfSome told.now (IsTold text.now) }
    ensures { spec.shown_of result ≡ spec.shown_if (is_some told.entry.now) name.entry.now text.entry.now }
{
    match told {
        Some(told) => Some(Seen {
            name: name.as_bytes(),
            told: with_tokens(text, told),
        }),
        None => None,
    }
}

/// What is known of the first test of a service that fails, where its text is shown.
pub fn aim_if<'a>(
    alloc: Global,
    service: &Service,
    how: Option<Seen<'a>>,
) -> Result<Option<Aimed<'a>>, Memory>
    requires { IfSome (spec.shown_of how) (λ shown. Reads shown.text service.now) }
    ensures { IfOk result (spec.IsAimed (spec.shown_of how.entry) service.now) }
{
    match how {
        Some(seen) => {
            let aim = aim_of(alloc, service, seen)?;
            Ok(Some(Aimed { seen, aim }))
        }
        None => Ok(None),
    }
}

/// The same of a text that is shown.
fn aim_of(alloc: Global, service: &Service, seen: Seen<'_>) -> Result<Aim, Memory>
    requires { Reads seen.told.text.now service.now }
    ensures { IfOk result (spec.IsAimAt seen.entry.told.text.now service.now) }
{
    match blame(alloc, service)? {
        Some(blamed) => {
            let known = read_known(alloc, seen.told, service)?;
            aim_at(alloc, &known, blamed)
        }
        None => Ok(no_aim(alloc, &seen.told)),
    }
}

/// Where the statements and templates of a service stand, where its text is shown.
pub fn sight_if<'a>(
    alloc: Global,
    service: &Service,
    how: Option<Seen<'a>>,
) -> Result<Option<Sight<'a>>, Memory>
    requires { IfSome (spec.shown_of how) (λ shown. Reads shown.text service.now) }
    ensures shown { IfOk result (λ sight. spec.shown_in sight ≡ spec.shown_of how.entry) }
    ensures marked { IfOk result (spec.AreMarked (spec.shown_of how.entry)) }
{
    match how {
        Some(seen) => Ok(Some(sight_of(alloc, service, seen)?)),
        None => Ok(None),
    }
}

/// The same of a text that is shown.
fn sight_of<'a>(alloc: Global, service: &Service, seen: Seen<'a>) -> Result<Sight<'a>, Memory>
    requires { Reads seen.told.text.now service.now }
    ensures shown { IfOk result (λ sight. spec.shown_in (Some sight) ≡ spec.shown_of (Some seen.entry)) }
    ensures marked { IfOk result (λ sight. spec.AreMarked (spec.shown_of (Some seen.entry)) (Some sight)) }
{
    let known = read_known(alloc, seen.told, service)?;
    let marks = marks_of(alloc, &known)?;
    Ok(Sight { seen, marks })
}

/// The front of a file, which tells what all of it is.
fn front_of(paper: Paper<'_>) -> Paper<'_>
    ensures name { result.name.now ≡ paper.entry.name.now }
    ensures text { result.text.now ≡ take (MAX_FILE_BYTES + 1) paper.entry.text.now }
{
    Paper {
        name: paper.name,
        text: &paper.text[..(MAX_FILE_BYTES + 1).min(paper.text.len())],
    }
}

/// What is shown of a text that is read as no service.
pub fn push_behind_syntax(
    text: &mut Vec<u8>,
    alloc: Global,
    paper: Paper<'_>,
    told: &Told,
    fault: &SyntaxFault,
) -> Result<(), Memory>
    requires { IsLent paper.text.now told.now fault.now }
    ensures { OnOk result (text.new.items ≡ text.old.items
        ++ spec.behind_syntax (Some (spec.shown_paper paper.entry)) fault.now) }
{
    push_syntax_block(text, alloc, front_of(paper), told, fault)
}

/// What is shown of a service that isn't well typed, of whose first test that fails this is known.
pub fn push_behind_type(
    text: &mut Vec<u8>,
    alloc: Global,
    aimed: &Option<Aimed<'_>>,
    fault: &TypeFault,
) -> Result<(), Memory>
    ensures { OnOk result (text.new.items ≡ text.old.items ++ spec.behind_aim aimed.now fault.now) }
{
    match aimed {
        Some(aimed) => {
            let paper = Paper {
                name: aimed.seen.name,
                text: aimed.seen.told.text,
            };
            push_type_block(text, alloc, paper, &aimed.aim, fault)
        }
        None => Ok(()),
    }
}

/// What is shown of a fault of a service.
pub fn push_behind_fault(
    text: &mut Vec<u8>,
    alloc: Global,
    sight: &Option<Sight<'_>>,
    fault: &Fault,
) -> Result<(), Memory>
    ensures { OnOk result (text.new.items ≡ text.old.items
        ++ spec.behind_marks sight.now fault.now) }
{
    match sight {
        Some(sight) => {
            let seen = sight.seen;
            push_fault_block(text, alloc, seen.name, &seen.told, &sight.marks, fault)
        }
        None => Ok(()),
    }
}

/// What is shown of a service that has too many points.
pub fn push_behind_points(text: &mut Vec<u8>, sight: &Option<Sight<'_>>) -> Result<(), Memory>
    ensures { OnOk result (text.new.items ≡ text.old.items ++ spec.behind_points (spec.shown_in sight.now)) }
{
    match sight {
        Some(sight) => {
            let seen = sight.seen;
            push_points_block(text, seen.name, &seen.told)
        }
        None => Ok(()),
    }
}

/// What is shown of a service whose analysis has too many facts.
pub fn push_behind_facts(text: &mut Vec<u8>, sight: &Option<Sight<'_>>) -> Result<(), Memory>
    ensures { OnOk result (text.new.items ≡ text.old.items ++ spec.behind_facts (spec.shown_in sight.now)) }
{
    match sight {
        Some(sight) => {
            let seen = sight.seen;
            push_facts_block(text, seen.name, &seen.told)
        }
        None => Ok(()),
    }
}
