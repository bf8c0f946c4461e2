//! A form is filled in.
ghost use Rattle.std.specs.Prelude.{◌≡◌, ◌++◌, [], if◌then◌else◌, IfOk, OnOk, None, Some, MatchOption, slice_get};
ghost use Rattle.bw_lang.specs.Table.Names.{same};
ghost use Rattle.bw_lang.specs.Service.Submissions.{values_of};
ghost use Rattle.bw_agent.specs.Filled as spec;

use crate::control::{Control, Controls, Offer};
use crate::names::is_known;
use crate::pairs::{put_many, put_pair};
use bw_lang::{FieldKind, Memory, NameTable, Submission};
use std::alloc::Global;
use std::slice;

/// What is sent by a form with these controls: for each control in order what it sends by the answers and the page.
pub fn filled(
    alloc: Global,
    controls: &Controls,
    answers: &Submission,
) -> Result<Submission, Memory>
    ensures { IfOk result (λ f. f ≡ spec.filled controls.now answers.now) }
{
    let all = controls.as_slice();
    let mut seen = NameTable::new(alloc);
    let mut pairs = Submission::new(alloc);
    for control in all {
        let is_first = !is_known(&seen, control.name.as_str());
        put_pairs(alloc, answers, all, is_first, control, &mut pairs)?;
        seen.add(control.name.as_str())?;
    }
    Ok(pairs)
}

/// Puts the pairs that are sent at a control behind the others. Whether it is the first of its name is told.
#[tactic(auto, using(crate::proofs::Offered::own_steps))]
fn put_pairs(
    alloc: Global,
    answers: &Submission,
    controls: &[Control],
    is_first: bool,
    control: &Control,
    pairs: &mut Submission,
) -> Result<(), Memory>
    ensures { OnOk result (pairs.new ≡ pairs.old ++ spec.pairs_at answers.now controls.now is_first control.now) }
{
    let name = control.name.as_str();
    match control.kind {
        FieldKind::Single => {
            let own = slice::from_ref(control);
            put_pair(alloc, name, one_of(answers, name, own), pairs)
        }
        FieldKind::Choice if is_first => {
            put_pair(alloc, name, one_of(answers, name, controls), pairs)
        }
        FieldKind::Many if is_first => put_many(alloc, answers, name, controls, pairs),
        FieldKind::Choice | FieldKind::Many => Ok(()),
    }
}

/// The one value that is sent for the controls of a name: the first answer, else the first value that the page chose,
/// else the first value, else the empty text.
fn one_of<'a>(answers: &'a Submission, name: &str, controls: &'a [Control]) -> &'a str
    ensures { result.now ≡ spec.one_of (values_of name.now answers.now) (spec.offers_for name.now controls.now) }
{
    if let Some(value) = answers.value(name, 0) {
        return value;
    }
    if let Some(value) = chosen_for(name, controls) {
        return value;
    }
    match offered_for(name, controls) {
        Some(value) => value,
        None => "",
    }
}

/// The first value that the page chose among those of the controls of a name.
fn chosen_for<'a>(name: &str, controls: &'a [Control]) -> Option<&'a str>
    ensures { MatchOption result (slice_get (spec.chosen (spec.offers_for name.now controls.now)) 0 ≡ None)
        (λ v. slice_get (spec.chosen (spec.offers_for name.now controls.now)) 0 ≡ Some v.now) }
{
    for control in controls {
        if let Some(value) = chosen_at(name, control) {
            return Some(value);
        }
    }
    None
}

/// The first value that the page chose at a control, where it has that name.
fn chosen_at<'a>(name: &str, control: &'a Control) -> Option<&'a str>
    ensures { MatchOption result (slice_get (if same name.now control.now.name then spec.chosen control.now.offers else []) 0 ≡ None)
        (λ v. slice_get (if same name.now control.now.name then spec.chosen control.now.offers else []) 0 ≡ Some v.now) }
{
    if name == control.name.as_str() {
        return chosen_in(control.offers.as_slice());
    }
    None
}

/// The first value that the page chose.
#[tactic(auto, using(crate::proofs::Offered::offer_steps))]
fn chosen_in(offers: &[Offer]) -> Option<&str>
    ensures { MatchOption result (slice_get (spec.chosen offers.now) 0 ≡ None) (λ v. slice_get (spec.chosen offers.now) 0 ≡ Some v.now) }
{
    for offer in offers {
        if offer.chosen {
            return Some(offer.value.as_str());
        }
    }
    None
}

/// The first value among those of the controls of a name.
#[tactic(auto, using(crate::proofs::Offered::offer_steps))]
fn offered_for<'a>(name: &str, controls: &'a [Control]) -> Option<&'a str>
    ensures { MatchOption result (slice_get (spec.offered (spec.offers_for name.now controls.now)) 0 ≡ None)
        (λ v. slice_get (spec.offered (spec.offers_for name.now controls.now)) 0 ≡ Some v.now) }
{
    for control in controls {
        if name == control.name.as_str() {
            if let [offer, ..] = control.offers.as_slice() {
                return Some(offer.value.as_str());
            }
        }
    }
    None
}
