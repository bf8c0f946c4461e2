//! What weighs how much of all that is saved.
ghost use Rattle.std.specs.Prelude.{◌≡◌, ◌≤◌, ◌^◌, sum_by, None, IfSome};
ghost use Rattle.bw_save.specs.Saves.{told};
ghost use Rattle.bw_saved.specs.Sessions.Weights as weights;

use bw_saved::{Record, Saved};

/// What a session carries weighs, unless that is too great for a number of 64 bits.
fn session_weight(one: &Record) -> Option<u64>
    ensures some { IfSome result (λ w. w ≡ weights.session_weight one.now) }
    ensures none { result ≡ None → 2 ^ 64 ≤ weights.session_weight one.now }
{
    let locals = one.frame.locals.weight()?;
    let rests = one.frame.rests.weight()?;
    let sum = locals.checked_add(rests)?;
    sum.checked_add(one.page.measure().weight)
}

/// What all sessions carry weighs, unless that is too great for a number of 64 bits.
fn all_weigh(records: &[Record]) -> Option<u64>
    ensures some { IfSome result (λ w. w ≡ sum_by weights.session_weight records.now) }
    ensures none { result ≡ None → 2 ^ 64 ≤ sum_by weights.session_weight records.now }
{
    let mut total: u64 = 0;
    for record in records {
        total = total.checked_add(session_weight(record)?)?;
    }
    Some(total)
}

/// What all that is saved weighs, unless that is too great for a number of 64 bits.
fn exact_weight(saved: &Saved) -> Option<u64>
    ensures some { IfSome result (λ w. w ≡ weights.total_weight saved.now) }
    ensures none { result ≡ None → 2 ^ 64 ≤ weights.total_weight saved.now }
{
    let shared = saved.shared.weight()?;
    shared.checked_add(all_weigh(saved.records.as_slice())?)
}

/// What all that is saved weighs, as far as 64 bits go.
pub(crate) fn total_weight(saved: &Saved) -> u64
    ensures { result ≡ told (weights.total_weight saved.now) }
{
    match exact_weight(saved) {
        Some(weight) => weight,
        None => u64::MAX,
    }
}
