//! Worlds that are put together of kept sessions, and taken apart again.
ghost use Rattle.std.specs.Prelude.{◌≡◌, ◌≤◌, ℕ, length, reverse, IfOk};
ghost use Rattle.bw_model.specs.declared.limits.TheConstants.{MAX_LIVE};
ghost use Rattle.bw_world.specs.Kept.{AreApart, IsKept};
ghost use Rattle.bw_world.specs.Restored.{by_number, seen_of, AreNumbered};

use crate::state::State;
use crate::suspended::{Suspended, Suspendeds};
use bw_check::Checked;
use bw_lang::Memory;
use bw_model::limits::MAX_LIVE;
use bw_run::SharedValues;
use lru::LruCache;
use std::alloc::Global;
use std::num::NonZeroUsize;

/// What a world is made of.
#[derive(Drop)]
pub struct Parts {
    /// The service.
    pub checked: Checked,
    /// The number that the next session gets.
    pub next: u64,
    /// The number of a session's first turn.
    pub first: u32,
    /// The shared variables.
    pub shared: SharedValues,
    /// The live sessions, the most recently used first.
    pub live: Suspendeds,
}

/// The sessions by their numbers. They are put in from that which wasn't used for the longest time on.
fn cache_of(alloc: Global, live: Suspendeds) -> Result<LruCache<u32, Suspended>, Memory>
    requires few { length live ≤ MAX_LIVE }
    requires apart { (next : ℕ) × AreApart next (by_number live) }
    ensures entries { IfOk result (λ c. c.entries ≡ by_number live) }
    ensures capacity { IfOk result (λ c. c.cap ≡ MAX_LIVE) }
{
    let Some(most) = NonZeroUsize::new(MAX_LIVE) else {
        unreachable!()
    };
    let mut left = turned_round(alloc, live)?;
    let Ok(mut cache) = LruCache::new(alloc, most) else {
        drop(left);
        return Err(Memory);
    };
    while let Some(one) = left.pop() {
        let number = one.number;
        cache.put(number, one)?;
    }
    Ok(cache)
}

/// The sessions in the other order.
fn turned_round(alloc: Global, live: Suspendeds) -> Result<Suspendeds, Memory>
    ensures { IfOk result (λ l. l ≡ reverse live) }
{
    let mut left = live;
    let mut list = Suspendeds::new(alloc);
    while let Some(one) = left.pop() {
        list.push(one)?;
    }
    Ok(list)
}

/// The sessions of a cache, that which wasn't used for the longest time taken out first.
fn sessions_of(alloc: Global, cache: LruCache<u32, Suspended>) -> Result<Suspendeds, Memory>
    requires { AreNumbered cache.entries }
    ensures { IfOk result (λ l. by_number l ≡ cache.entries) }
{
    let mut left = cache;
    let mut list = Suspendeds::new(alloc);
    while let Some((_, one)) = left.pop_lru() {
        list.push(one)?;
    }
    Ok(list)
}

impl State {
    /// That of these parts.
    pub(crate) fn restore(alloc: Global, parts: Parts) -> Result<State, Memory>
        requires { IsKept (seen_of parts) }
        ensures { IfOk result (λ w. w ≡ seen_of parts) }
    {
        let Parts {
            checked,
            next,
            first,
            shared,
            live,
        } = parts;
        let Ok(live) = cache_of(alloc, live) else {
            drop(checked);
            drop(shared);
            return Err(Memory);
        };
        Ok(State {
            checked,
            next,
            first,
            shared,
            live,
        })
    }

    /// Its parts.
    pub(crate) fn dismantle(self, alloc: Global) -> Result<Parts, Memory>
        ensures same { IfOk result (λ p. seen_of p ≡ self) }
        ensures kept { IfOk result (λ p. IsKept (seen_of p)) }
    {
        let State {
            checked,
            next,
            first,
            shared,
            live,
        } = self;
        let Ok(live) = sessions_of(alloc, live) else {
            drop(checked);
            drop(shared);
            return Err(Memory);
        };
        Ok(Parts {
            checked,
            next,
            first,
            shared,
            live,
        })
    }
}
