//! Talks: the turns of a case, each over what those before it left.
ghost use Rattle.std.specs.Prelude.{◌≡◌, ◌<◌, IfOk, OnOk};
ghost use Rattle.bw_flow.specs.Layout.{plan_of};
ghost use Rattle.bw_run.specs.Fit.{IsFitTurn};
ghost use Rattle.document_cases.specs.Fit.{IsFit};

use crate::said::{say_doc, say_fault, say_missing, say_shared};
use bw_flow::Flow;
use bw_lang::{Memory, Submission, Text, TurnFault};
use bw_out::Steps;
use bw_run::{Frame, SharedValues, Turn, first_values, missing, resume, start};
use bw_types::Typed;
use case_files::{Case, Fault, Texts};
use std::alloc::Global;
use std::sync::ledger::{Blank, Ledger};
use std::{mem, str};

/// The shared variables of now, where sessions wait, and what was said of the turns so far.
#[derive(Drop)]
pub struct Talk {
    pub shared: SharedValues,
    pub waiting: Vec<Frame>,
    said: String,
}

impl Talk {
    /// What was said, where all turns were taken.
    fn over(self, taken: Result<(), Fault>) -> Result<String, Fault> {
        let Talk {
            shared,
            waiting,
            said,
        } = self;
        drop(shared);
        drop(waiting);
        taken?;
        Ok(said)
    }
}

/// Gives the turns of a case, with a count of steps that nobody reads, and answers what is to be said of them.
#[tactic(auto, using(crate::proofs::Waiting::waiting_rules))]
pub fn counted<L: Ledger>(
    alloc: Global,
    texts: &Texts<'_>,
    case: &Case<'_>,
    typed: &Typed,
    flow: &Flow,
    blank: Blank,
) -> Result<String, Fault>
    requires flow { flow.now ≡ plan_of typed.now.service }
    requires name { blank.name ≡ L.name }
    requires parts { blank.parts ≡ L.parts }
    requires some { 0 < blank.parts }
{
    let mut steps: Steps<L> = Steps::new(blank);
    let mut talk = Talk {
        shared: first_values(alloc, typed)?,
        waiting: Vec::new(alloc),
        said: String::new(alloc),
    };
    let held = hold(alloc, texts, case, typed, flow, &mut talk, &mut steps);
    talk.over(held)
}

/// Gives the turns of a case.
fn hold<L: Ledger>(
    alloc: Global,
    texts: &Texts<'_>,
    case: &Case<'_>,
    typed: &Typed,
    flow: &Flow,
    talk: &mut Talk,
    steps: &mut Steps<L>,
) -> Result<(), Fault>
    requires flow { flow.now ≡ plan_of typed.now.service }
    requires fit { IsFit typed.now.service flow.now.steps talk.old }
{
    let mut form = Submission::new(alloc);
    let taken = take_lines(alloc, texts, case, typed, flow, &mut form, talk, steps);
    drop(form);
    taken
}

/// The same, where these fields were put into the form.
fn take_lines<L: Ledger>(
    alloc: Global,
    texts: &Texts<'_>,
    case: &Case<'_>,
    typed: &Typed,
    flow: &Flow,
    form: &mut Submission,
    talk: &mut Talk,
    steps: &mut Steps<L>,
) -> Result<(), Fault>
    requires flow { flow.now ≡ plan_of typed.now.service }
    requires fit { IsFit typed.now.service flow.now.steps talk.old }
{
    for line in &case.lines {
        match line.key {
            "start" => begin(alloc, typed, flow, line.value, talk, steps)?,
            "field" => add_field(alloc, texts, line.value, form)?,
            "answer" => {
                answer(typed, flow, line.value, form, talk, steps)?;
                drop(mem::replace(form, Submission::new(alloc)));
            }
            _ => {}
        }
    }
    Ok(())
}

/// Puts `NAME PARTS` into a form.
fn add_field(
    alloc: Global,
    texts: &Texts<'_>,
    field: &str,
    form: &mut Submission,
) -> Result<(), Fault> {
    let (name, parts) = field.split_once(' ').ok_or(Fault::Malformed)?;
    let bytes = texts.join(alloc, parts)?;
    let value = str::from_utf8(&bytes).map_err(|_| Fault::Malformed)?;
    Ok(push_field(alloc, name, value, form)?)
}

/// Puts a field of this value into a form.
fn push_field(alloc: Global, name: &str, value: &str, form: &mut Submission) -> Result<(), Memory> {
    let name = Text::of(alloc, name)?;
    match Text::of(alloc, value) {
        Ok(value) => form.push(name, value),
        Err(memory) => {
            drop(name);
            Err(memory)
        }
    }
}

/// The first turn of the session of that name.
fn begin<L: Ledger>(
    alloc: Global,
    typed: &Typed,
    flow: &Flow,
    name: &str,
    talk: &mut Talk,
    steps: &mut Steps<L>,
) -> Result<(), Fault>
    requires flow { flow.now ≡ plan_of typed.now.service }
    requires fit { IsFit typed.now.service flow.now.steps talk.old }
    ensures { OnOk result (IsFit typed.now.service flow.now.steps talk.new) }
{
    let session = typed.session(name).ok_or(Fault::Malformed)?;
    if session.number() as usize >= typed.service().sessions.as_slice().len() {
        return Err(Fault::Malformed);
    }
    let turn = start(alloc, typed, flow, session, &talk.shared, steps);
    end(typed, flow, turn, talk)
}

/// The turn over this form from where the turn of that number waits.
#[tactic(auto, using(crate::proofs::Waiting::waiting_rules))]
fn answer<L: Ledger>(
    typed: &Typed,
    flow: &Flow,
    number: &str,
    form: &Submission,
    talk: &mut Talk,
    steps: &mut Steps<L>,
) -> Result<(), Fault>
    requires flow { flow.now ≡ plan_of typed.now.service }
    requires fit { IsFit typed.now.service flow.now.steps talk.old }
    ensures { OnOk result (IsFit typed.now.service flow.now.steps talk.new) }
{
    let place = number.parse::<usize>()?.saturating_sub(1);
    let Some(frame) = talk.waiting.get(place) else {
        return Err(Fault::Malformed);
    };
    if let Some(fault) = missing(flow, frame, form) {
        say_missing(&mut talk.said, typed, fault)?;
        return Ok(());
    }
    let turn = resume(typed, flow, frame, form, &talk.shared, steps);
    end(typed, flow, turn, talk)
}

/// Says what a turn comes to, and takes it.
#[tactic(auto, using(crate::proofs::Waiting::waiting_rules))]
fn end(
    typed: &Typed,
    flow: &Flow,
    turn: Result<Turn, TurnFault>,
    talk: &mut Talk,
) -> Result<(), Fault>
    requires turn { IfOk turn (IsFitTurn typed.now.service flow.now.steps) }
    requires fit { IsFit typed.now.service flow.now.steps talk.old }
    ensures { OnOk result (IsFit typed.now.service flow.now.steps talk.new) }
{
    match turn {
        Err(fault) => say_fault(&mut talk.said, fault)?,
        Ok(Turn::Shown(frame, doc, shared)) => {
            if let Err(fault) = say_doc(&mut talk.said, "shown", typed, doc) {
                drop(frame);
                drop(shared);
                return Err(fault);
            }
            drop(mem::replace(&mut talk.shared, shared));
            talk.waiting.push(frame)?;
        }
        Ok(Turn::Exited(doc, shared)) => {
            if let Err(fault) = say_doc(&mut talk.said, "ended", typed, doc) {
                drop(shared);
                return Err(fault);
            }
            drop(mem::replace(&mut talk.shared, shared));
        }
    }
    say_shared(&mut talk.said, typed, &talk.shared)?;
    Ok(())
}
