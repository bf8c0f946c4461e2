//! The pairs that a form sends, and the body that sends them.
ghost use Rattle.std.specs.Prelude.{◌≡◌, ◌++◌, ◌∷◌, [], if◌then◌else◌, IfOk, OnOk};
ghost use Rattle.bw_lang.specs.Service.Submissions.{values_of};
ghost use Rattle.bw_lang.specs.Table.Names.{same};
ghost use Rattle.bw_agent.specs.Filled as spec;

use crate::control::{Control, Offer};
use bw_lang::{Memory, Submission, Text};
use form_urlencoded::Serializer;
use std::alloc::Global;

/// Puts a pair behind the others.
pub fn put_pair(
    alloc: Global,
    name: &str,
    value: &str,
    pairs: &mut Submission,
) -> Result<(), Memory>
    ensures { OnOk result (pairs.new ≡ pairs.old ++ spec.pairs_of name.now (value.now ∷ [])) }
{
    pairs.push(Text::of(alloc, name)?, Text::of(alloc, value)?)
}

/// Puts any number of values for the controls of a name behind the others: all answers, or where there is none what the
/// page chose.
pub fn put_many(
    alloc: Global,
    answers: &Submission,
    name: &str,
    controls: &[Control],
    pairs: &mut Submission,
) -> Result<(), Memory>
    ensures { OnOk result (pairs.new ≡ pairs.old
        ++ spec.pairs_of name.now (spec.many_of (values_of name.now answers.now) (spec.offers_for name.now controls.now))) }
{
    if answers.value(name, 0).is_some() {
        put_answers(alloc, answers, name, pairs)
    } else {
        put_chosen_for(alloc, name, controls, pairs)
    }
}

/// Puts all answers of a name behind the others.
#[tactic(auto, using(crate::proofs::Offered::offer_steps))]
fn put_answers(
    alloc: Global,
    answers: &Submission,
    name: &str,
    pairs: &mut Submission,
) -> Result<(), Memory>
    ensures { OnOk result (pairs.new ≡ pairs.old ++ spec.pairs_of name.now (values_of name.now answers.now)) }
{
    for (asked, value) in answers.as_slice() {
        if name == asked.as_str() {
            put_pair(alloc, name, value.as_str(), pairs)?;
        }
    }
    Ok(())
}

/// Puts what the page chose for the controls of a name behind the others.
#[tactic(auto, using(crate::proofs::Offered::pair_steps))]
fn put_chosen_for(
    alloc: Global,
    name: &str,
    controls: &[Control],
    pairs: &mut Submission,
) -> Result<(), Memory>
    ensures { OnOk result (pairs.new ≡ pairs.old ++ spec.pairs_of name.now (spec.chosen (spec.offers_for name.now controls.now))) }
{
    for control in controls {
        put_chosen_at(alloc, name, control, pairs)?;
    }
    Ok(())
}

/// Puts what the page chose at a control behind the others, where it has that name.
fn put_chosen_at(
    alloc: Global,
    name: &str,
    control: &Control,
    pairs: &mut Submission,
) -> Result<(), Memory>
    ensures { OnOk result (pairs.new ≡ pairs.old ++ (if same name.now control.now.name then spec.pairs_of name.now (spec.chosen control.now.offers) else [])) }
{
    if name == control.name.as_str() {
        return put_chosen_in(alloc, name, control.offers.as_slice(), pairs);
    }
    Ok(())
}

/// Puts what the page chose behind the others.
#[tactic(auto, using(crate::proofs::Offered::offer_steps))]
fn put_chosen_in(
    alloc: Global,
    name: &str,
    offers: &[Offer],
    pairs: &mut Submission,
) -> Result<(), Memory>
    ensures { OnOk result (pairs.new ≡ pairs.old ++ spec.pairs_of name.now (spec.chosen offers.now)) }
{
    for offer in offers {
        if offer.chosen {
            put_pair(alloc, name, offer.value.as_str(), pairs)?;
        }
    }
    Ok(())
}

/// The body that sends the pairs (HTML 4.01, section 17.13.4.1).
pub fn body_of(alloc: Global, pairs: &Submission) -> Result<Text, Memory>
    ensures { IfOk result (λ t. t ≡ spec.body_of pairs.now) }
{
    let mut form = Serializer::new(String::new(alloc));
    for (name, value) in pairs.as_slice() {
        form.append_pair(name.as_str(), value.as_str())?;
    }
    Ok(Text::from_string(form.finish()))
}
