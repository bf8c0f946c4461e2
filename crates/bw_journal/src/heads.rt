//! The head of a journal: that it is one, and the service that it is of.
ghost use Rattle.std.specs.Prelude.{◌≡◌, ◌<◌, ◌≤◌, ◌+◌, ◌^◌, ◌++◌, ◌↔◌, length, vec_len, vec_capacity, ℕ, List, IsTrue, MatchOption, OnOk, OnErr, IfSome};
ghost use Rattle.bw_journal.specs.Heads.{BeginsText, BeginsVersion, IsForeign, IsHead, IsVersioned, front_of, head_of, saved_front};
ghost use Rattle.bw_journal.specs.Heads.{start_sum as start_sum_of};
ghost use Rattle.bw_journal.specs.Layout.{sum_of};
ghost use Rattle.bw_journal.specs.Reading.{IsPassed};

use crate::passing::{Passed, pass, pass_next};
use crate::putting::put;
use crate::sums::sum_over;
use crate::words::{four_from, four_of};
use std::alloc::AllocError;

/// What bytes begin with, as a journal of a service.
#[derive(Clone, Copy)]
pub enum Head<'a> {
    /// A first part of the head, and less than all of it: nothing was kept yet.
    Begun,
    /// The head of a journal that begins at the world in which nothing was requested yet, and this follows.
    Whole(&'a [u8]),
    /// What stands in front of the saved world that a journal begins at, and this follows.
    Saved(&'a [u8]),
    /// The head of another version.
    Version(u8),
    /// The head of another service.
    Other,
    /// None of these.
    Damaged,
}

/// The bytes of a head beside those of the service's file.
pub(crate) const FIXED_BYTES: usize = 16;

/// How many bytes the head of a journal of the service has whose file is the text.
pub fn head_bytes(text: &[u8]) -> usize
    requires { length text.now < 2 ^ 32 }
    ensures { result ≡ length (head_of text.now) }
{
    FIXED_BYTES + text.len()
}

/// What the bytes begin with, as a journal of the service whose file is the text.
///
/// Another service's journal is known once its head is whole.
pub fn read_head<'a>(bytes: &'a [u8], text: &[u8]) -> Head<'a>
    requires { length text.now < 2 ^ 32 }
    ensures { IsHead text.now bytes.now result }
{
    match pass_front(bytes, text, 0) {
        Passed::Behind(rest) => Head::Whole(rest),
        Passed::Cut => Head::Begun,
        Passed::Differs => match behind_saved_front(bytes, text) {
            Some(rest) => Head::Saved(rest),
            None => read_foreign(bytes),
        },
    }
}

/// What follows what stands in front of a saved world, if the bytes begin with it.
fn behind_saved_front<'a>(bytes: &'a [u8], text: &[u8]) -> Option<&'a [u8]>
    requires { length text.now < 2 ^ 32 }
    ensures { MatchOption result ((more : List ℕ) → bytes.now ≡ saved_front text.now ++ more → ⊥) (λ rest. bytes.now ≡ saved_front text.now ++ rest.now) }
{
    match pass_front(bytes, text, 1) {
        Passed::Behind(rest) => Some(rest),
        Passed::Cut => None,
        Passed::Differs => None,
    }
}

/// Passes the head of a journal of the service whose file is the text, as far as the byte that says where it begins.
fn pass_front<'a>(bytes: &'a [u8], text: &[u8], origin: u8) -> Passed<'a>
    requires { length text.now < 2 ^ 32 }
    ensures { IsPassed (front_of origin text.now) bytes.now result }
{
    let behind_name = pass(bytes, b"BWJOURNAL");
    let behind_version = pass_next(behind_name, b"1\n");
    let behind_length = pass_next(behind_version, &four_of(text.len() as u32));
    let behind_text = pass_next(behind_length, text);
    pass_next(behind_text, &[origin])
}

/// What the bytes begin with, where it is no head of this service.
fn read_foreign(bytes: &[u8]) -> Head<'_>
    ensures { IsForeign bytes.now result }
{
    match pass(bytes, b"BWJOURNAL") {
        Passed::Behind(rest) => read_version(rest),
        Passed::Cut => Head::Damaged,
        Passed::Differs => Head::Damaged,
    }
}

/// The same behind the name.
fn read_version(bytes: &[u8]) -> Head<'_>
    ensures { IsVersioned bytes.now result }
{
    match pass(bytes, b"1\n") {
        Passed::Behind(rest) => {
            if begins_with_text(rest) {
                Head::Other
            } else {
                Head::Damaged
            }
        }
        Passed::Cut => Head::Damaged,
        Passed::Differs => match version_of(bytes) {
            Some(version) => Head::Version(version),
            None => Head::Damaged,
        },
    }
}

/// The version, from 2 to 9, that the bytes begin with.
fn version_of(bytes: &[u8]) -> Option<u8>
    ensures { IfSome result (λ version. BeginsVersion bytes.now version) }
{
    if bytes.is_empty() {
        return None;
    }
    let digit = bytes[0];
    if digit < b'2' {
        return None;
    }
    if digit > b'9' {
        return None;
    }
    Some(digit - b'0')
}

/// Whether the bytes begin with those of some service's file and with where its journal begins.
fn begins_with_text(bytes: &[u8]) -> bool
    ensures { IsTrue result ↔ BeginsText bytes.now }
{
    if bytes.len() < 4 {
        return false;
    }
    let (_, rest) = bytes.split_at(4);
    let len = four_from(bytes) as usize;
    if rest.len() <= len {
        return false;
    }
    if rest[len] > 1 {
        return false;
    }
    true
}

/// Puts the head of a journal of the service whose file is the text behind the bytes.
///
/// It fails only where the memory at hand isn't enough, and the bytes are then as they were.
pub fn put_head(out: &mut Vec<u8>, text: &[u8]) -> Result<(), AllocError>
    requires { length text.now < 2 ^ 32 }
    ensures bytes { OnOk result (out.new.items ≡ out.old.items ++ head_of text.now) }
    ensures kept { OnErr result (out.new.items ≡ out.old.items) }
    ensures full { OnErr result (vec_capacity out.old < vec_len out.old + length (head_of text.now)) }
    ensures capacity { vec_capacity out.old ≤ vec_capacity out.new }
{
    out.reserve(FIXED_BYTES + text.len())?;
    put_front(out, text, 0);
    Ok(())
}

/// Puts the head as far as the byte that says where the journal begins behind the bytes, in room that was taken.
pub(crate) fn put_front(out: &mut Vec<u8>, text: &[u8], origin: u8)
    requires text { length text.now < 2 ^ 32 }
    requires room { vec_len out.old + (16 + length text.now) ≤ vec_capacity out.old }
    ensures items { out.new.items ≡ out.old.items ++ front_of origin text.now }
    ensures len { vec_len out.new ≡ vec_len out.old + (16 + length text.now) }
    ensures capacity { vec_capacity out.old ≤ vec_capacity out.new }
{
    put(out, b"BWJOURNAL1\n");
    put(out, &four_of(text.len() as u32));
    put(out, text);
    put(out, &[origin]);
}

/// The check behind the head of a journal of the service whose file is the text.
pub fn start_sum(text: &[u8]) -> u64
    requires { length text.now < 2 ^ 32 }
    ensures { result ≡ start_sum_of text.now }
{
    front_sum(text, 0)
}

/// The check behind the byte that says where a journal begins.
pub(crate) fn front_sum(text: &[u8], origin: u8) -> u64
    requires { length text.now < 2 ^ 32 }
    ensures { result ≡ sum_of 0 (front_of origin text.now) }
{
    let of_version = sum_over(0, b"BWJOURNAL1\n");
    let of_length = sum_over(of_version, &four_of(text.len() as u32));
    let of_text = sum_over(of_length, text);
    sum_over(of_text, &[origin])
}
