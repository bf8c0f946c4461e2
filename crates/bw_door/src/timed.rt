//! Those whose time is over are let go.
ghost use Rattle.std.specs.Prelude.{◌≡◌, ◌≢◌, ℕ, ◌+◌, Bool, false, IfSome, if◌then◌else◌};
ghost use Rattle.slab.specs.Slab.{get, slab_len};
ghost use Rattle.bw_door.specs.declared.limits.Limits.{Limits};
ghost use Rattle.bw_door.specs.Places.{NoneIs};

use crate::limits::Limits;
use slab::Slab;

/// One whose time ends.
pub(crate) trait Timed {
    /// Its time is over.
    ghost late: { Limits → ℕ → Self → Bool };

    /// Whether its time is over now.
    fn is_late(&self, limits: Limits, now: u64) -> bool
        ensures { result ≡ late limits now self.now };
}

/// Lets each one go whose time is over, and says how many went.
pub(crate) fn weed<T: Timed + Drop>(slab: &mut Slab<T>, limits: Limits, now: u64) -> u64
    ensures none { NoneIs (T.late limits now) slab.new }
    ensures count { slab_len slab.new + result ≡ slab_len slab.old }
{
    let mut gone = 0;
    let mut place = 0;
    'places: while place < slab.capacity() {
        if weed_place(slab, place, limits, now) {
            gone += 1;
        }
        place += 1;
    }
    gone
}

/// Lets the one of a place go, if its time is over, and says whether it went.
fn weed_place<T: Timed + Drop>(slab: &mut Slab<T>, place: usize, limits: Limits, now: u64) -> bool
    ensures here { IfSome (get slab.new place) (λ one. T.late limits now one ≡ false) }
    ensures others { (other : ℕ) → other ≢ place → get slab.new other ≡ get slab.old other }
    ensures count { slab_len slab.new + (if result then 1 else 0) ≡ slab_len slab.old }
    ensures capacity { slab.new.capacity ≡ slab.old.capacity }
{
    match slab.get(place) {
        Some(one) if one.is_late(limits, now) => {}
        _ => return false,
    }
    match slab.try_remove(place) {
        Some(one) => {
            drop(one);
            true
        }
        None => false,
    }
}
