//! The tests at the end of a turn.
ghost use Rattle.std.specs.Prelude.{◌≡◌, ◌+◌, ◌≤◌, ◌^◌, None, IfSome};
ghost use Rattle.bw_meaning.specs.Pages as spec;
ghost use Rattle.bw_meaning.specs.Values.{weights};
ghost use Rattle.bw_lang.specs.declared.turn.TurnFault.TheVariants.{PageTooLong, SessionHeavy, SharedHeavy};
ghost use Rattle.bw_doc.specs.Made.{measure};
ghost use Rattle.bw_eval.specs.Evaluations.{HasMemory};
ghost use Rattle.bw_eval.specs.View.{document, values};
ghost use Rattle.bw_run.specs.Code.{tested};
ghost use Rattle.bw_run.specs.Follow.Runs.{rests_weight};
ghost use Rattle.bw_lang.specs.declared.turn.TheConstants.{MAX_DOCUMENT_BYTES, MAX_SESSION_WEIGHT, MAX_SHARED_WEIGHT};

use crate::rests::Rests;
use crate::standing::Standing;
use bw_doc::Doc;
use bw_eval::Values;
use bw_lang::TurnFault;
use bw_lang::turn::{MAX_DOCUMENT_BYTES, MAX_SESSION_WEIGHT, MAX_SHARED_WEIGHT};

/// The closed document prints to at most 4,194,304 bytes.
fn page_test(doc: &Doc) -> Result<(), TurnFault>
    ensures { HasMemory result → tested result ≡ spec.over MAX_DOCUMENT_BYTES PageTooLong (spec.page_length (document doc.now)) }
{
    let length = doc.length()?;
    if length > MAX_DOCUMENT_BYTES {
        return Err(TurnFault::PageTooLong(length));
    }
    Ok(())
}

/// The shared variables together weigh at most 8,388,608.
fn shared_test(shared: &Values) -> Result<(), TurnFault>
    ensures { HasMemory result → tested result ≡ spec.over MAX_SHARED_WEIGHT SharedHeavy (weights (values shared.now)) }
{
    let weight = match shared.weight() {
        Some(weight) => weight,
        None => return Err(TurnFault::Memory),
    };
    if weight > MAX_SHARED_WEIGHT {
        return Err(TurnFault::SharedHeavy(weight));
    }
    Ok(())
}

/// What a session carries weighs, unless that is too great for a number of 64 bits.
fn carried(doc: &Doc, locals: &Values, rests: &Rests) -> Option<u64>
    ensures some { IfSome result (λ w. w ≡ weights (values locals.now) + rests_weight rests.now + (measure doc.now).weight) }
    ensures none { result ≡ None → 2 ^ 64 ≤ weights (values locals.now) + rests_weight rests.now + (measure doc.now).weight }
{
    let values = locals.weight()?.checked_add(rests.weight()?)?;
    values.checked_add(doc.measure().weight)
}

/// The locals, the rests and the document together weigh at most 1,048,576.
fn session_test(doc: &Doc, locals: &Values, rests: &Rests) -> Result<(), TurnFault>
    ensures { HasMemory result →
        tested result ≡ spec.over MAX_SESSION_WEIGHT SessionHeavy (weights (values locals.now) + rests_weight rests.now + (measure doc.now).weight) }
{
    let weight = match carried(doc, locals, rests) {
        Some(weight) => weight,
        None => return Err(TurnFault::Memory),
    };
    if weight > MAX_SESSION_WEIGHT {
        return Err(TurnFault::SessionHeavy(weight));
    }
    Ok(())
}

/// The tests at an exit.
pub fn exit_test(doc: &Doc, shared: &Values) -> Result<(), TurnFault>
    ensures { HasMemory result → tested result ≡ spec.exit_fault (document doc.now) (values shared.now) }
{
    page_test(doc)?;
    shared_test(shared)
}

/// The tests at a show.
pub fn show_test(doc: &Doc, standing: &Standing) -> Result<(), TurnFault>
    ensures { HasMemory result →
        tested result ≡ spec.show_fault (document doc.now) (values standing.now.locals) (rests_weight standing.now.rests) (values standing.now.shared) }
{
    page_test(doc)?;
    session_test(doc, &standing.locals, &standing.rests)?;
    shared_test(&standing.shared)
}
