//! The bytes of a stream that were taken and not yet handled.
ghost use Rattle.std.specs.Prelude.{◌≡◌, ◌≤◌, ◌<◌, ◌+◌, ◌-◌, [], length, take, drop, vec_len, OnOk, OnErr, IfOk, IsErr};
ghost use Rattle.std.specs.Io.KnownBytes.{IsAtEnd, Keeps};
ghost use Rattle.bw_out.specs.Sends.{Takes};
ghost use Rattle.bw_http.specs.Taken.{IsFilled};
ghost use Rattle.bw_http.specs.declared.intake.TheConstants.{ROOM};

use bw_lang::Memory;
use bw_out::{Failed, Source};
use std::alloc::Global;
use std::marker::Model;

/// How many bytes an intake has room for: the longest head and the longest body.
pub const ROOM: usize = 81_920;

/// The bytes that a source gave and that no message has used yet, at most 81,920 of them. Contracts see the list of
/// these bytes.
#[derive(Drop)]
pub struct Intake {
    buffer: Vec<u8>,
    // The bytes are those from `start` up to `end`. They move to the front of the buffer only when more are read, so
    // that a message is moved once at most, however many are taken at once.
    start: usize,
    end: usize,
}

impl Model for Intake {
    ghost use Rattle.std.specs.Prelude.{◌≡◌, ◌≤◌, ℕ, List, vec_len, take, drop};
    ghost use Rattle.bw_http.specs.declared.intake.TheConstants.{ROOM};

    ghost Value = { List ℕ };

    ghost view = { λ a. drop a.start (take a.end a.buffer.items) };

    ghost invariant = { λ a. (vec_len a.buffer ≡ ROOM) × (a.start ≤ a.end) × (a.end ≤ ROOM) };
}

impl Intake {
    /// No bytes yet. The room is taken here, and no other call takes memory.
    pub fn new(alloc: Global) -> Result<Intake, Memory>
        ensures { IfOk result (λ intake. intake ≡ []) }
    {
        let buffer = vec![in alloc; 0u8; ROOM]?;
        Ok(Intake {
            buffer,
            start: 0,
            end: 0,
        })
    }

    /// Lets all bytes go, as is due between two streams.
    pub fn clear(&mut self)
        ensures { self.new ≡ [] }
    {
        self.start = 0;
        self.end = 0;
    }

    /// The bytes.
    pub fn bytes(&self) -> &[u8]
        ensures value { result.now ≡ self.now }
        ensures room { length self.now ≤ ROOM }
    {
        &self.buffer[self.start..self.end]
    }

    /// Takes bytes from a source, as many as one read gives, and says how many: none only where the source has ended.
    ///
    /// `Failed` comes only where the count of the source rose. No byte was then taken.
    pub fn fill<S: Source>(&mut self, source: &mut S) -> Result<usize, Failed>
        requires { length self.old < ROOM }
        ensures taken { OnOk result (IsFilled (S.left source.old) (S.left source.new) self.old self.new) }
        ensures count { IfOk result (λ n. length self.new ≡ length self.old + n) }
        ensures end { IfOk result (λ n. n ≡ 0 → IsAtEnd (S.left source.new)) }
        ensures unchanged { OnErr result (self.new ≡ self.old) }
        ensures kept { OnErr result (Keeps (S.left source.old) (S.left source.new)) }
        ensures takes { Takes S.Channel source.old source.new (IsErr result) }
    {
        self.end = settle(&mut self.buffer, self.start, self.end);
        self.start = 0;
        let count = source.read(&mut self.buffer[self.end..])?;
        self.end += count;
        Ok(count)
    }

    /// Lets the first bytes go, so many.
    pub fn consume(&mut self, count: usize)
        requires { count ≤ length self.old }
        ensures { self.new ≡ drop count self.old }
    {
        self.start += count;
    }
}

/// Moves the bytes between two places to the front of a buffer, and says how many they are.
fn settle(buffer: &mut Vec<u8>, start: usize, end: usize) -> usize
    requires ordered { start ≤ end }
    requires fits { end ≤ vec_len buffer.old }
    ensures size { result ≡ end - start }
    ensures bytes { take result buffer.new.items ≡ drop start (take end buffer.old.items) }
    ensures room { vec_len buffer.new ≡ vec_len buffer.old }
{
    if start > 0 {
        buffer.copy_within(start..end, 0);
    }
    end - start
}
