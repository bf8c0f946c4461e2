//! The saved world that a journal may begin at.
ghost use Rattle.std.specs.Prelude.{◌≡◌, ◌<◌, ◌≤◌, ◌+◌, ◌^◌, ◌++◌, ℕ, List, length, vec_len, vec_capacity, IfOk, MatchOption, OnErr};
ghost use Rattle.std.specs.Int.{w64, from_be_bytes};
ghost use Rattle.bw_journal.specs.Layout.{eight};
ghost use Rattle.bw_journal.specs.Saved.{IsSavedNext, IsSavedSize, front_check as front_check_of, saved_head, saved_start};

use crate::heads::{FIXED_BYTES, front_sum, put_front};
use crate::limits::MAX_SAVED_BYTES;
use crate::passing::{Passed, pass};
use crate::putting::put;
use crate::sums::sum_over;
use crate::words::{eight_from, eight_of};
use std::alloc::AllocError;

/// A saved world that was found, what follows it, and the check from there on.
#[derive(Clone, Copy)]
pub struct FoundSaved<'a> {
    pub saved: &'a [u8],
    pub rest: &'a [u8],
    pub sum: u64,
}

/// The bytes of a saved world's length and of its check.
const FRAME_BYTES: usize = 16;

/// How many bytes a saved world has with its length and its check, of which these are the first; none where they are fewer
/// than eight, or where it is too long.
pub fn saved_size(bytes: &[u8]) -> Option<usize>
    ensures { IsSavedSize bytes.now result }
{
    if bytes.len() < 8 {
        return None;
    }
    let len = eight_from(bytes);
    if len > MAX_SAVED_BYTES as u64 {
        return None;
    }
    Some(FRAME_BYTES + len as usize)
}

/// The saved world that the bytes begin with, where this is the check of all that stands before. There is none where a part
/// of it is missing or its check doesn't fit.
pub fn next_saved(bytes: &[u8], sum: u64) -> Option<FoundSaved<'_>>
    ensures { IsSavedNext sum bytes.now result }
{
    match saved_size(bytes) {
        None => None,
        Some(size) => {
            if bytes.len() < size {
                return None;
            }
            read_saved(bytes, sum, size - FRAME_BYTES)
        }
    }
}

/// The same where the saved world is to have so many bytes, and there are as many.
fn read_saved(bytes: &[u8], sum: u64, len: usize) -> Option<FoundSaved<'_>>
    requires few { len ≤ MAX_SAVED_BYTES }
    requires len { len ≡ from_be_bytes w64 bytes.now }
    requires enough { 16 + len ≤ length bytes.now }
    ensures { IsSavedNext sum bytes.now result }
{
    let (front, behind) = bytes.split_at(8);
    let (saved, behind) = behind.split_at(len);
    let sum = sum_over(sum_over(sum, front), saved);
    match behind_check(behind, sum) {
        None => None,
        Some(rest) => Some(FoundSaved { saved, rest, sum }),
    }
}

/// What follows this check, if the bytes begin with it.
fn behind_check(bytes: &[u8], sum: u64) -> Option<&[u8]>
    ensures { MatchOption result ((rest : List ℕ) → bytes.now ≡ eight sum ++ rest → ⊥) (λ rest. bytes.now ≡ eight sum ++ rest.now) }
{
    match pass(bytes, &eight_of(sum)) {
        Passed::Behind(rest) => Some(rest),
        Passed::Cut => None,
        Passed::Differs => None,
    }
}

/// The check of what stands in front of the saved world in the head of a journal of the service whose file is the text.
pub fn front_check(text: &[u8]) -> u64
    requires { length text.now < 2 ^ 32 }
    ensures { result ≡ front_check_of text.now }
{
    front_sum(text, 1)
}

/// Puts the head of a journal of the service whose file is the text, which begins at a saved world, behind the bytes, and
/// gives the check from there on.
///
/// It fails only where the memory at hand isn't enough, and the bytes are then as they were.
pub fn put_saved_head(out: &mut Vec<u8>, text: &[u8], saved: &[u8]) -> Result<u64, AllocError>
    requires text { length text.now < 2 ^ 32 }
    requires saved { length saved.now ≤ MAX_SAVED_BYTES }
    ensures bytes { IfOk result (λ after. out.new.items ≡ out.old.items ++ saved_head text.now saved.now) }
    ensures sum { IfOk result (λ after. after ≡ saved_start text.now saved.now) }
    ensures kept { OnErr result (out.new.items ≡ out.old.items) }
    ensures full { OnErr result (vec_capacity out.old < vec_len out.old + length (saved_head text.now saved.now)) }
    ensures capacity { vec_capacity out.old ≤ vec_capacity out.new }
{
    out.reserve(FIXED_BYTES + text.len() + FRAME_BYTES + saved.len())?;
    let len = eight_of(saved.len() as u64);
    let after = sum_over(sum_over(front_check(text), &len), saved);
    put_front(out, text, 1);
    put(out, &len);
    put(out, saved);
    put(out, &eight_of(after));
    Ok(after)
}
