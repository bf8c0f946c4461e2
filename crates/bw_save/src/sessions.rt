//! Writing of sessions.
ghost use Rattle.std.specs.Prelude.{◌≡◌, ◌<◌, ◌^◌, ◌++◌, OnOk};
ghost use Rattle.std.specs.List.{All, flat_map};
ghost use Rattle.bw_run.specs.Walks.{number_at};
ghost use Rattle.bw_save.specs.Fitting.{FitsList, FitsRecord};
ghost use Rattle.bw_save.specs.Saves.{front_bytes};
ghost use Rattle.bw_saved.specs.Fields.Spelling.{strings};
ghost use Rattle.bw_saved.specs.Sessions.Layout as layout;

use crate::documents::put_document;
use crate::fields::{put_strings, put_u16, put_u32, put_u64};
use crate::values::put_variables;
use bw_flow::{Flow, PointId};
use bw_lang::Memory;
use bw_run::Rest;
use bw_saved::Record;
use std::alloc::Global;

/// What is still to come of foreachs, the outermost first.
fn put_rests(out: &mut Vec<u8>, rests: &[Rest]) -> Result<(), Memory>
    requires { All FitsList rests.now }
    ensures { OnOk result (out.new.items ≡ out.old.items ++ flat_map strings rests.now) }
{
    for rest in rests {
        put_strings(out, rest.as_slice())?;
    }
    Ok(())
}

/// The number of the statement of a point.
fn number_of(flow: &Flow, point: PointId) -> u32
    ensures { result ≡ number_at flow.now.steps point }
{
    match flow.point(point) {
        Some(point) => point.number,
        None => 0,
    }
}

/// The number of a session, its key, which session of the service it is, its turn, and the number of its show.
fn put_front(flow: &Flow, out: &mut Vec<u8>, one: &Record) -> Result<(), Memory>
    requires { one.now.session < 2 ^ 16 }
    ensures { OnOk result (out.new.items ≡ out.old.items ++ front_bytes flow.now.steps one.now) }
{
    put_u32(out, one.number)?;
    put_u64(out, one.key)?;
    put_u16(out, one.session.number())?;
    put_u32(out, one.turn)?;
    put_u32(out, number_of(flow, one.frame.point))?;
    Ok(())
}

/// A session.
fn put_session(alloc: Global, flow: &Flow, out: &mut Vec<u8>, one: &Record) -> Result<(), Memory>
    requires { FitsRecord one.now }
    ensures { OnOk result (out.new.items ≡ out.old.items ++ layout.session flow.now.steps one.now) }
{
    put_front(flow, out, one)?;
    put_variables(alloc, out, &one.frame.locals)?;
    put_rests(out, one.frame.rests.as_slice())?;
    put_document(alloc, out, &one.page)?;
    Ok(())
}

/// Sessions, in their order.
pub(crate) fn put_sessions(
    alloc: Global,
    flow: &Flow,
    out: &mut Vec<u8>,
    records: &[Record],
) -> Result<(), Memory>
    requires { All FitsRecord records.now }
    ensures { OnOk result (out.new.items ≡ out.old.items ++ flat_map (layout.session flow.now.steps) records.now) }
{
    for record in records {
        put_session(alloc, flow, out, record)?;
    }
    Ok(())
}
