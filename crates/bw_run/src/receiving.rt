//! What shows receive.
ghost use Rattle.std.specs.Prelude.{◌≡◌, IfOk, OnOk, List, map, option_map};
ghost use Rattle.std.specs.List.{All};
ghost use Rattle.bw_eval.specs.Sound.{IsSound as IsKept};
ghost use Rattle.bw_eval.specs.View.{value};
ghost use Rattle.bw_flow.specs.declared.point.Received.{Received};
ghost use Rattle.bw_run.specs.Follow.Runs.{plain};
ghost use Rattle.bw_lang.specs.declared.service.Template.{Template};
ghost use Rattle.bw_lang.specs.Service.Submissions.{values_of};
ghost use Rattle.bw_meaning.specs.Forms as forms;
ghost use Rattle.bw_meaning.specs.Statements as spec;
ghost use Rattle.bw_run.specs.Code.{state, AreShort, IsSound};

use crate::standing::Standing;
use bw_eval::Value;
use bw_flow::Received;
use bw_lang::{Memory, Name, Submission, Text, Words};
use std::alloc::Global;

/// All values of a field, in the order in which they came.
fn values(alloc: Global, form: &Submission, field: &Name) -> Result<Words, Memory>
    ensures { IfOk result (λ w. w ≡ values_of field.now form.now) }
{
    let mut values = Words::new(alloc);
    for (name, value) in form.as_slice() {
        if field.as_str() == name.as_str() {
            values.push(value.copy()?)?;
        }
    }
    Ok(values)
}

impl Standing {
    /// The value of the local, or else of the shared variable, of that name.
    fn variable(&self, name: &Name) -> Option<&Value>
        ensures { option_map (λ v. value v.now) result ≡ spec.variable name.now (state self.now) }
    {
        match self.locals.get(name) {
            Some(found) => Some(found),
            None => self.shared.get(name),
        }
    }
}

/// What a variable receives: all values where it holds a list, and else the first one.
fn received_value(alloc: Global, old: Option<&Value>, mut values: Words) -> Result<Value, Memory>
    ensures value { IfOk result (λ v. value v ≡ forms.received_value (option_map (λ v. value v.now) old.entry) values) }
    ensures sound { (templates : List Template) → AreShort values → IfOk result (IsKept templates) }
{
    if let Some(old) = old {
        if old.is_list() {
            return Ok(Value::Strs(values));
        }
    }
    match values.take_first() {
        Some(first) => Ok(Value::Str(first)),
        None => Ok(Value::Str(Text::of(alloc, "")?)),
    }
}

/// Stores what one variable receives.
fn receive(
    alloc: Global,
    received: &Received,
    form: &Submission,
    standing: &mut Standing,
) -> Result<(), Memory>
    ensures state { OnOk result (state standing.new ≡
        spec.store received.now.target
        (forms.received_value (spec.variable received.now.target (state standing.old)) (values_of received.now.field form.now))
        (state standing.old)) }
    ensures rests { standing.new.rests ≡ standing.old.rests }
    ensures units { standing.new.units ≡ standing.old.units }
    ensures sound { (templates : List Template) → IsSound templates standing.old → AreShort (values_of received.now.field form.now) →
        OnOk result (IsSound templates standing.new) }
{
    let values = values(alloc, form, &received.field)?;
    let new = received_value(alloc, standing.variable(&received.target), values)?;
    standing.store(&received.target, new);
    Ok(())
}

/// Stores what a show receives, in source order.
pub fn receive_all(
    alloc: Global,
    receives: &[Received],
    form: &Submission,
    standing: &mut Standing,
) -> Result<(), Memory>
    ensures state { OnOk result (state standing.new ≡ spec.received (map plain receives.now) form.now (state standing.old)) }
    ensures rests { standing.new.rests ≡ standing.old.rests }
    ensures units { standing.new.units ≡ standing.old.units }
    ensures sound { (templates : List Template) → IsSound templates standing.old → All (λ r. AreShort (values_of r.field form.now)) receives.now →
        OnOk result (IsSound templates standing.new) }
{
    for received in receives {
        receive(alloc, received, form, standing)?;
    }
    Ok(())
}
