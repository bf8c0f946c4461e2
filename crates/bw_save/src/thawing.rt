//! Files become worlds.
ghost use Rattle.std.specs.Prelude.{◌≡◌, ◌++◌, map, Ok, Err, IfOk, IfErr};
ghost use Rattle.bw_save.specs.Frozen as spec;
ghost use Rattle.bw_save.specs.Thawed.{Gives, IsSoundLoaded};
ghost use Rattle.bw_saved.specs.FileLaws.{IsFile};
ghost use Rattle.bw_world.specs.Kept.{IsKept};
ghost use Rattle.bw_world.specs.Stands.{StandsFor};

use bw_check::Checked;
use bw_lang::Memory;
use bw_load::laws::{loaded_is_sound, saved_is_fit};
use bw_load::{LoadFault, load};
use bw_saved::{Record, Records, Saved};
use bw_world::{Parts, Suspended, Suspendeds, World};
use std::alloc::Global;

/// The session that goes on from what was saved of it.
fn suspended_of(one: Record) -> Suspended
    ensures { result ≡ spec.suspended_of one }
{
    let Record {
        number,
        key,
        session,
        turn,
        frame,
        page,
    } = one;
    Suspended {
        number,
        key,
        session,
        turn,
        frame,
        page,
    }
}

/// The sessions that go on, in their order.
fn suspendeds_of(alloc: Global, records: Records) -> Result<Suspendeds, Memory>
    ensures { IfOk result (λ live. live ≡ map spec.suspended_of records) }
{
    let mut left = records;
    let mut live = Suspendeds::new(alloc);
    while let Some(one) = left.pop() {
        live.push(suspended_of(one))?;
    }
    Ok(live)
}

/// The parts of the world that goes on from what was saved.
pub(crate) fn parts_of(alloc: Global, checked: Checked, saved: Saved) -> Result<Parts, Memory>
    ensures { IfOk result (λ p. p ≡ spec.parts_of checked saved) }
{
    let Saved {
        next,
        first,
        shared,
        records,
    } = saved;
    let live = suspendeds_of(alloc, records)?;
    Ok(Parts {
        checked,
        next,
        first,
        shared,
        live,
    })
}

/// The world that goes on from a file, for a service of that text, or the first refusal of the file. What the file holds is
/// what waits in it; and it stands for the world of the meaning in which this was loaded, which is sound, whatever the bytes
/// were.
pub fn thaw(alloc: Global, bytes: &[u8], text: &[u8], checked: Checked) -> Result<World, LoadFault>
    ensures service { IfOk result (λ w. w.service ≡ checked.typed.service) }
    ensures kept { IfOk result (λ w. IsKept w) }
    ensures loaded { IfOk result (λ w. Gives checked.typed.service text.now bytes.now (Ok (spec.saved_of w))) }
    ensures file { IfOk result (λ w. IsFile w.service text.now bytes.now (spec.saved_of w)) }
    ensures stands { IfOk result (λ w. StandsFor w (spec.loaded_of w)) }
    ensures sound { IfOk result IsSoundLoaded }
    ensures fault { IfErr result (λ f. Gives checked.typed.service text.now bytes.now (Err f)) }
{
    saved_is_fit();
    loaded_is_sound();
    let saved = match load(alloc, bytes, text, &checked) {
        Ok(saved) => saved,
        Err(fault) => {
            drop(checked);
            return Err(fault);
        }
    };
    let parts = parts_of(alloc, checked, saved)?;
    let world = World::restore(alloc, parts)?;
    Ok(world)
}
