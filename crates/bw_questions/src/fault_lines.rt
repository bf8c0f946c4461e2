//! The lines that tell why a service isn't accepted.
ghost use Rattle.std.specs.Prelude.{◌≡◌, ◌≢◌, ◌++◌, [], map, decimal, slice_get, unwrap_or, IfOk, OnOk};
ghost use Rattle.bw_check.specs.declared.fault.CheckFault.TheVariants as checks;
ghost use Rattle.bw_questions.specs.Behind.{behind_facts, behind_marks, behind_points, shown_in};
ghost use Rattle.bw_questions.specs.FaultLines as spec;
ghost use Rattle.bw_questions.specs.Lines as lines;
ghost use Rattle.bw_questions.specs.Questions.{line};
ghost use Rattle.bw_questions.specs.Reports.{SaysWhy};

use crate::lines::{points_line, shown};
use crate::seen::Sight;
use crate::sight::{push_behind_facts, push_behind_fault, push_behind_points};
use crate::stop::Stop;
use bw_check::CheckFault;
use bw_command::Refusal;
use bw_faults::{Fault, Faults};
use bw_lang::{Memory, TemplateId, Text};
use itoa::Buffer;
use std::alloc::Global;

/// Why the service isn't accepted, whose templates have these names. Where its text is shown, it is shown so. Want of memory
/// has no line.
pub fn check_stop(
    alloc: Global,
    names: &[Text],
    fault: &CheckFault,
    sight: &Option<Sight<'_>>,
) -> Stop
    ensures { SaysWhy (shown_in sight.now) (behind_marks sight.now) names.now fault.now result }
{
    match check_lines(alloc, names, fault, sight) {
        Ok(text) => Stop::Says(Refusal::Service, text),
        Err(Memory) => Stop::Memory,
    }
}

/// The lines that say so, with the text that is shown.
fn check_lines(
    alloc: Global,
    names: &[Text],
    fault: &CheckFault,
    sight: &Option<Sight<'_>>,
) -> Result<Vec<u8>, Memory>
    ensures text { IfOk result (λ text. text.items ≡ spec.check_text (shown_in sight.now) (behind_marks sight.now) names.now fault.now) }
    ensures reason { IfOk result (λ text. fault.now ≢ checks.Memory) }
{
    match fault {
        CheckFault::Refused(faults) => fault_lines(alloc, names, faults, sight),
        CheckFault::TooLarge(_) => facts_text(alloc, sight),
        CheckFault::TooMany(points) => points_text(alloc, *points, sight),
        CheckFault::Memory => Err(Memory),
    }
}

/// There are too many facts.
fn facts_text(alloc: Global, sight: &Option<Sight<'_>>) -> Result<Vec<u8>, Memory>
    ensures { IfOk result (λ text. text.items ≡ line spec.facts_line ++ behind_facts (shown_in sight.now)) }
{
    let mut text = b"too many facts\n".to_vec(alloc)?;
    push_behind_facts(&mut text, sight)?;
    Ok(text)
}

/// There are too many points.
fn points_text(alloc: Global, points: u64, sight: &Option<Sight<'_>>) -> Result<Vec<u8>, Memory>
    ensures { IfOk result (λ text. text.items ≡ line (lines.points_line points) ++ behind_points (shown_in sight.now)) }
{
    let mut text = points_line(alloc, points)?;
    text.push(b'\n')?;
    push_behind_points(&mut text, sight)?;
    Ok(text)
}

/// A line for each fault, and what is shown behind it.
pub fn fault_lines(
    alloc: Global,
    names: &[Text],
    faults: &Faults,
    sight: &Option<Sight<'_>>,
) -> Result<Vec<u8>, Memory>
    ensures { IfOk result (λ text. text.items ≡ spec.fault_lines (behind_marks sight.now) names.now faults.now) }
{
    let mut text = Vec::new(alloc);
    for fault in faults.as_slice() {
        push_shown_fault(&mut text, alloc, names, fault, sight)?;
    }
    Ok(text)
}

/// One line more, of a fault, and what is shown behind it.
fn push_shown_fault(
    text: &mut Vec<u8>,
    alloc: Global,
    names: &[Text],
    fault: &Fault,
    sight: &Option<Sight<'_>>,
) -> Result<(), Memory>
    ensures { OnOk result (text.new.items ≡ text.old.items ++ spec.fault_text (behind_marks sight.now) names.now fault.now) }
{
    push_fault(text, names, fault)?;
    push_behind_fault(text, alloc, sight, fault)
}

/// One line more, of a fault.
fn push_fault(text: &mut Vec<u8>, names: &[Text], fault: &Fault) -> Result<(), Memory>
    ensures { OnOk result (text.new.items ≡ text.old.items ++ line (spec.fault_line names.now fault.now)) }
{
    push_number(text, b"fault ", u32::from(fault.number))?;
    push_number(text, b" point ", fault.point)?;
    push_place(text, names, fault)?;
    push_shown(text, fault.detail.as_bytes())?;
    text.push(b'\n')?;
    Ok(())
}

/// What a fault is about: an element, or else a field or a gap.
fn push_place(text: &mut Vec<u8>, names: &[Text], fault: &Fault) -> Result<(), Memory>
    ensures { OnOk result (text.new.items ≡ text.old.items ++ spec.fault_place names.now fault.now fault.now.template) }
{
    match fault.template {
        Some(template) => push_element(text, names, template, fault.place),
        None => {
            text.extend_from_slice(if fault.number == 11 {
                b" gap "
            } else {
                b" field "
            })?;
            Ok(())
        }
    }
}

/// Words, and a number.
fn push_number(text: &mut Vec<u8>, words: &[u8], number: u32) -> Result<(), Memory>
    ensures { OnOk result (text.new.items ≡ text.old.items ++ (words.now ++ decimal number)) }
{
    text.extend_from_slice(words)?;
    text.extend_from_slice(Buffer::new().format(number).as_bytes())?;
    Ok(())
}

/// The place of an element: its template, and its number there.
fn push_element(
    text: &mut Vec<u8>,
    names: &[Text],
    template: TemplateId,
    place: u32,
) -> Result<(), Memory>
    ensures { OnOk result (text.new.items ≡ text.old.items ++ spec.element_place names.now template place) }
{
    text.extend_from_slice(b" template ")?;
    push_name(text, names, template)?;
    push_number(text, b" place ", place)?;
    text.push(b' ')?;
    Ok(())
}

/// The name of a template, if there is one of its number.
fn push_name(text: &mut Vec<u8>, names: &[Text], template: TemplateId) -> Result<(), Memory>
    ensures { OnOk result (text.new.items ≡ text.old.items ++ unwrap_or (slice_get names.now template) []) }
{
    if let Some(name) = names.get(template.number() as usize) {
        text.extend_from_slice(name.as_bytes())?;
    }
    Ok(())
}

/// The bytes of a name, the ends of lines as spaces.
pub fn push_shown(text: &mut Vec<u8>, name: &[u8]) -> Result<(), Memory>
    ensures { OnOk result (text.new.items ≡ text.old.items ++ map lines.shown name.now) }
{
    for &byte in name {
        text.push(shown(byte))?;
    }
    Ok(())
}
