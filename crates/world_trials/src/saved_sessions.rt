//! Files of saved sessions, and what they hold.
ghost use Rattle.std.specs.Prelude.{◌≡◌, ◌++◌, ◌∷◌, [], OnErr, OnOk};
ghost use Rattle.bw_saved.specs.Files as files;

use bw_flow::Flow;
use bw_lang::Memory;
use bw_saved::{FileFault, Record, Records, Saved, read_file};
use bw_types::Typed;
use std::alloc::Global;

/// `Records::push`: the order of sessions.
pub fn push(records: &mut Records, one: Record) -> Result<(), Memory>
    ensures ok { OnOk result (records.new ≡ records.old ++ one ∷ []) }
    ensures err { OnErr result (records.new ≡ records.old) }
{
    records.push(one)
}

/// `read_file`: a page whose last plug is turned round.
pub fn read(
    alloc: Global,
    typed: &Typed,
    flow: &Flow,
    text: &[u8],
    bytes: &[u8],
) -> Result<Saved, FileFault>
    ensures { files.IsDecided result (files.decided typed.now.service flow.now text.now bytes.now) }
{
    read_file(alloc, typed, flow, text, bytes)
}
