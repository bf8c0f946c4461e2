//! Entries, one after another.
ghost use Rattle.std.specs.Prelude.{◌≡◌, ◌<◌, ◌≤◌, ◌+◌, ◌++◌, length, vec_len, vec_capacity, IfOk, OnErr};
ghost use Rattle.std.specs.Int.{w32, from_be_bytes};
ghost use Rattle.bw_journal.specs.Layout.{entry_bytes, sum_after};
ghost use Rattle.bw_journal.specs.Reading.{IsNext, IsMessageNext, entry};

use crate::fronts::read_front;
use crate::limits::{MAX_ENTRY_BYTES, MAX_MESSAGE_BYTES};
use crate::passing::{Passed, pass};
use crate::putting::put;
use crate::sums::sum_over;
use crate::words::{eight_of, four_from, four_of};
use std::alloc::AllocError;

/// An entry that was found: its key and its message, what follows it, and the check from there on.
#[derive(Clone, Copy)]
pub struct Found<'a> {
    pub key: u64,
    pub message: &'a [u8],
    pub rest: &'a [u8],
    pub sum: u64,
}

/// What bytes begin with.
#[derive(Clone, Copy)]
pub enum Next<'a> {
    /// They are a first part of an entry, and less than all of it.
    Short,
    /// They don't begin as an entry does, however they go on.
    Unsound,
    /// An entry.
    Whole(Found<'a>),
}

/// What the bytes begin with, where this is the check of all that stands before.
pub fn next_entry(bytes: &[u8], sum: u64) -> Next<'_>
    ensures next { IsNext sum bytes.now result }

    // So many bytes are an entry or begin as none does.
    ensures short { result ≡ Next.Short → length bytes.now < MAX_ENTRY_BYTES }
{
    let len = four_from(bytes) as usize;
    if len > MAX_MESSAGE_BYTES {
        return Next::Unsound;
    }
    read_entry(bytes, sum)
}

/// The same, where the length of a message need not be too great.
fn read_entry(bytes: &[u8], sum: u64) -> Next<'_>
    requires { from_be_bytes w32 bytes.now ≤ MAX_MESSAGE_BYTES }
    ensures { IsNext sum bytes.now result }
{
    match read_front(bytes) {
        None => Next::Short,
        Some(front) => {
            let front_sum = sum_over(sum, front.bytes);
            match pass(front.rest, &eight_of(front_sum)) {
                Passed::Differs => Next::Unsound,
                Passed::Cut => Next::Short,
                Passed::Behind(rest) => next_message(rest, front.len, front.key, front_sum),
            }
        }
    }
}

/// The same behind the front of an entry and its check.
fn next_message(bytes: &[u8], len: u32, key: u64, sum: u64) -> Next<'_>
    ensures { IsMessageNext len key sum bytes.now result }
{
    let len = len as usize;
    if bytes.len() < len {
        return Next::Short;
    }
    let (message, rest) = bytes.split_at(len);
    let sum = sum_over(sum, message);
    match pass(rest, &eight_of(sum)) {
        Passed::Differs => Next::Unsound,
        Passed::Cut => Next::Short,
        Passed::Behind(rest) => Next::Whole(Found {
            key,
            message,
            rest,
            sum,
        }),
    }
}

/// Puts an entry behind the bytes, where this is the check of all that stands before, and gives the check from there on.
///
/// It fails only where the memory at hand isn't enough, and the bytes are then as they were.
pub fn put_entry(out: &mut Vec<u8>, key: u64, message: &[u8], sum: u64) -> Result<u64, AllocError>
    requires { length message.now ≤ MAX_MESSAGE_BYTES }
    ensures bytes { IfOk result (λ after. out.new.items ≡ out.old.items ++ entry_bytes sum (entry key message.now)) }
    ensures sum { IfOk result (λ after. after ≡ sum_after sum (entry key message.now)) }
    ensures kept { OnErr result (out.new.items ≡ out.old.items) }
    ensures full { OnErr result (vec_capacity out.old < vec_len out.old + (28 + length message.now)) }
    ensures capacity { vec_capacity out.old ≤ vec_capacity out.new }
{
    let len = four_of(message.len() as u32);
    let key = eight_of(key);
    let front_sum = sum_over(sum_over(sum, &len), &key);
    let after = sum_over(front_sum, message);
    out.reserve(28 + message.len())?;
    put(out, &len);
    put(out, &key);
    put(out, &eight_of(front_sum));
    put(out, message);
    put(out, &eight_of(after));
    Ok(after)
}
