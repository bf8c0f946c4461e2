//! Reading of sessions that wait.
ghost use Rattle.std.specs.Prelude.{◌≡◌, nat_le, nat_eq, Some};
ghost use Rattle.std.specs.List.{list_any};
ghost use Rattle.bw_flow.specs.Flows.{is_show};
ghost use Rattle.bw_flow.specs.View.{act};
ghost use Rattle.bw_lang.specs.declared.turn.TheConstants.{MAX_SESSION_WEIGHT};
ghost use Rattle.bw_saved.specs.declared.saved.Record.{Record};
ghost use Rattle.bw_saved.specs.Fields.Reading.{Gives, repeated, strings_at as texts_at};
ghost use Rattle.bw_saved.specs.Sessions.Reading as spec;
ghost use Rattle.bw_saved.specs.Sessions.Weights as weights;

use crate::documents::document_at;
use crate::fault::ReadError;
use crate::fields::{strings_at, u16_at, u32_at, u64_at};
use crate::saved::{Record, Records, Saved};
use crate::values::{locals_at, shared_at};
use bw_doc::Doc;
use bw_eval::Values;
use bw_flow::{Flow, Point, PointId, What};
use bw_lang::SessionId;
use bw_lang::turn::{MAX_DOCUMENT_BYTES, MAX_SESSION_WEIGHT, MAX_SHARED_WEIGHT};
use bw_model::limits::{MAX_LIVE, MAX_NUMBER};
use bw_run::{Frame, Rest, Rests};
use bw_types::Typed;
use std::alloc::Global;

/// The number of the first statement of a session, or of none behind the last one.
fn first_number(flow: &Flow, session: u32) -> Option<u32>
    ensures { result ≡ spec.number_of_first flow.now session }
{
    let first = flow.first(SessionId::of(session))?;
    let point = flow.point(first)?;
    Some(point.number)
}

/// Whether the statement of that number is one of the session's.
fn is_own(flow: &Flow, session: u16, number: u32) -> bool
    ensures { result ≡ spec.is_own flow.now session number }
{
    let session = u32::from(session);
    let Some(first) = first_number(flow, session) else {
        return false;
    };
    if number < first {
        return false;
    }
    match first_number(flow, session + 1) {
        Some(behind) => number < behind,
        None => true,
    }
}

/// Whether it is a show.
fn is_show_point(what: &What) -> bool
    ensures { result ≡ is_show (act what.now) }
{
    matches!(what, What::Show { .. })
}

/// The place of the show of that number, if it is one of the session's.
fn show_at(flow: &Flow, session: u16, number: u32) -> Result<PointId, ReadError>
    ensures { Gives (λ p. p) result (spec.show_at flow.now session number) }
{
    if !is_own(flow, session, number) {
        return Err(ReadError::Malformed);
    }
    let Some(place) = flow.find(number) else {
        return Err(ReadError::Malformed);
    };
    let Some(point) = flow.point(place) else {
        return Err(ReadError::Malformed);
    };
    if is_show_point(&point.what) {
        Ok(place)
    } else {
        Err(ReadError::Malformed)
    }
}

/// So many lists of strings.
fn rests_at(alloc: Global, count: u32, bytes: &[u8]) -> Result<(Rests, &[u8]), ReadError>
    ensures { Gives (λ x. (x.0, x.1.now)) result (repeated texts_at count bytes.now) }
{
    let mut rests = Rests::new(alloc);
    let mut rest = bytes;
    for _ in 0..count {
        let (strings, after) = strings_at(alloc, rest)?;
        rests.push(Rest::of(strings))?;
        rest = after;
    }
    Ok((rests, rest))
}

/// The locals in scope at the place, and the rests of the foreachs around it.
#[tactic(auto, unfolding(crate::specs::Sessions::Reading::frame_at, crate::specs::Sessions::Reading::frame_of))]
fn frame_at<'a>(
    alloc: Global,
    typed: &Typed,
    flow: &Flow,
    place: PointId,
    bytes: &'a [u8],
) -> Result<(Frame, &'a [u8]), ReadError>
    ensures { Gives (λ x. (x.0, x.1.now)) result (spec.frame_at typed.now.service flow.now.steps place bytes.now) }
{
    let Some(point) = flow.point(place) else {
        return Err(ReadError::Malformed);
    };
    let (locals, rest) = locals_at(alloc, typed, point.scope.as_slice(), bytes)?;
    let (rests, rest) = rests_at(alloc, point.inside, rest)?;
    Ok((
        Frame {
            point: place,
            locals,
            rests,
        },
        rest,
    ))
}

/// Whether the session carries no more than it may, and its document prints to no more bytes than a page may have.
fn is_light(one: &Record) -> Result<bool, ReadError>
    ensures { Gives (λ b. b) result (Some (spec.is_light one.now)) }
{
    if !carries_little(one) {
        return Ok(false);
    }
    Ok(one.page.length()? <= MAX_DOCUMENT_BYTES)
}

/// Whether its locals, its rests and its document weigh no more than a session may carry.
fn carries_little(one: &Record) -> bool
    ensures { result ≡ nat_le (weights.session_weight one.now) MAX_SESSION_WEIGHT }
{
    let Some(locals) = one.frame.locals.weight() else {
        return false;
    };
    let Some(rests) = one.frame.rests.weight() else {
        return false;
    };
    let Some(sum) = locals.checked_add(rests) else {
        return false;
    };
    let Some(sum) = sum.checked_add(one.page.measure().weight) else {
        return false;
    };
    sum <= MAX_SESSION_WEIGHT
}

/// Whether a session may have this number and this turn.
fn may_be(next: u64, number: u32, turn: u32) -> bool
    ensures { result ≡ spec.may_be next number turn }
{
    0 < number && u64::from(number) < next && 0 < turn
}

/// A session, where this is the next number.
#[tactic(auto, unfolding(crate::specs::Sessions::Reading::session_at))]
fn session_at<'a>(
    alloc: Global,
    typed: &Typed,
    flow: &Flow,
    next: u64,
    bytes: &'a [u8],
) -> Result<(Record, &'a [u8]), ReadError>
    ensures { Gives (λ x. (x.0, x.1.now)) result (spec.session_at typed.now.service flow.now next bytes.now) }
{
    let (number, rest) = u32_at(bytes)?;
    let (key, rest) = u64_at(rest)?;
    let (session, rest) = u16_at(rest)?;
    let (turn, rest) = u32_at(rest)?;
    let (at, rest) = u32_at(rest)?;
    let place = show_at(flow, session, at)?;
    let (frame, rest) = frame_at(alloc, typed, flow, place, rest)?;
    let (page, rest) = document_at(alloc, typed, rest)?;
    let record = Record {
        number,
        key,
        session: SessionId::of(u32::from(session)),
        turn,
        frame,
        page,
    };
    if !may_be(next, number, turn) {
        return Err(ReadError::Malformed);
    }
    if is_light(&record)? {
        Ok((record, rest))
    } else {
        Err(ReadError::Malformed)
    }
}

/// So many sessions, where this is the next number.
fn sessions_at<'a>(
    alloc: Global,
    typed: &Typed,
    flow: &Flow,
    next: u64,
    count: u32,
    bytes: &'a [u8],
) -> Result<(Records, &'a [u8]), ReadError>
    ensures { Gives (λ x. (x.0, x.1.now)) result (repeated (spec.session_at typed.now.service flow.now next) count bytes.now) }
{
    let mut records = Records::new(alloc);
    let mut rest = bytes;
    for _ in 0..count {
        let (record, after) = session_at(alloc, typed, flow, next, rest)?;
        records.push(record)?;
        rest = after;
    }
    Ok((records, rest))
}

/// Whether no two sessions have one number.
fn are_apart(records: &[Record]) -> bool
    ensures { result ≡ weights.are_apart records.now }
{
    let mut rest = records;
    while let Some((first, after)) = rest.split_first() {
        if has_number(after, first.number) {
            return false;
        }
        rest = after;
    }
    true
}

/// Whether one of the sessions has this number.
fn has_number(records: &[Record], number: u32) -> bool
    ensures { result ≡ list_any (λ (s : Record). nat_eq s.number number) records.now }
{
    records.iter().any(|other| other.number == number)
}

/// Whether the numbers, the weight of the shared variables and the number of sessions are as they may be.
fn begins_well(next: u64, first: u32, shared: &Values, count: u32) -> bool
    ensures { result ≡ spec.begins_well next first shared.now count }
{
    if next == 0 || next > u64::from(MAX_NUMBER) + 1 || first == 0 || count > MAX_LIVE as u32 {
        return false;
    }
    match shared.weight() {
        Some(weight) => weight <= MAX_SHARED_WEIGHT,
        None => false,
    }
}

/// All that waits, and the bytes behind it.
#[tactic(auto, unfolding(crate::specs::Sessions::Reading::waiting_at, crate::specs::Sessions::Reading::sessions_at))]
pub(crate) fn waiting_at<'a>(
    alloc: Global,
    typed: &Typed,
    flow: &Flow,
    bytes: &'a [u8],
) -> Result<(Saved, &'a [u8]), ReadError>
    ensures { Gives (λ x. (x.0, x.1.now)) result (spec.waiting_at typed.now.service flow.now bytes.now) }
{
    let (next, rest) = u64_at(bytes)?;
    let (first, rest) = u32_at(rest)?;
    let (shared, rest) = shared_at(alloc, typed, rest)?;
    let (count, rest) = u32_at(rest)?;
    if !begins_well(next, first, &shared, count) {
        return Err(ReadError::Malformed);
    }
    let (records, rest) = sessions_at(alloc, typed, flow, next, count, rest)?;
    if !are_apart(records.as_slice()) {
        return Err(ReadError::Malformed);
    }
    Ok((
        Saved {
            next,
            first,
            shared,
            records,
        },
        rest,
    ))
}
