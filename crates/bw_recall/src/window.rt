//! A part of a source that is at hand.
ghost use Rattle.std.specs.Prelude.{◌≡◌, ◌≤◌, ◌<◌, ◌+◌, ◌-◌, ◌==◌, false, length, take, drop, vec_len, IfOk, IsErr, OnOk};
ghost use Rattle.std.specs.Io.KnownBytes.{IsAtEnd};
ghost use Rattle.bw_out.specs.Sends.{Takes};
ghost use Rattle.bw_http.specs.Taken.{IsFilled};
ghost use Rattle.bw_recall.specs.Windows.{Holds, KnowsEnd, fresh};

use bw_lang::Memory;
use bw_out::{Failed, Source};
use std::alloc::Global;
use std::marker::Model;

/// The bytes that a service's file has at most.
pub const MAX_TEXT_BYTES: usize = 1_048_576;

/// The bytes that a source gave and that were not used yet. Contracts see them, whether the source has ended behind them,
/// and how many there is room for.
#[derive(Drop)]
pub(crate) struct Window {
    buffer: Vec<u8>,
    // The bytes are those from `start` up to `end`. They move to the front of the buffer only when more are read, and then
    // the whole room is filled: so each byte is moved about once, however many entries there are.
    start: usize,
    end: usize,
    ended: bool,
}

impl Model for Window {
    ghost use Rattle.std.specs.Prelude.{◌≤◌, vec_len, take, drop};
    ghost use Rattle.bw_recall.specs.Windows.{Hand};

    ghost Value = { Hand };

    ghost view = { λ w. record { bytes = drop w.start (take w.end w.buffer.items); ended = w.ended; size = vec_len w.buffer } };

    ghost invariant = { λ w. (w.start ≤ w.end) × (w.end ≤ vec_len w.buffer) };
}

impl Window {
    /// No bytes yet, and room for so many. It is taken here, and no other call takes memory.
    pub fn new(alloc: Global, size: usize) -> Result<Window, Memory>
        ensures { IfOk result (λ window. window ≡ fresh size) }
    {
        let buffer = vec![in alloc; 0u8; size]?;
        Ok(Window {
            buffer,
            start: 0,
            end: 0,
            ended: false,
        })
    }

    /// The bytes.
    pub fn bytes(&self) -> &[u8]
        ensures value { result.now ≡ self.now.bytes }
        ensures room { length self.now.bytes ≤ self.now.size }
    {
        &self.buffer[self.start..self.end]
    }

    /// Lets the first bytes go, so many.
    pub fn consume(&mut self, count: usize)
        requires { count ≤ length self.old.bytes }
        ensures bytes { self.new.bytes ≡ drop count self.old.bytes }
        ensures ended { self.new.ended ≡ self.old.ended }
        ensures size { self.new.size ≡ self.old.size }
    {
        self.start += count;
    }

    /// Makes room for so many bytes, if there is less. Where there is no memory for it, nothing has changed.
    pub fn grow(&mut self, size: usize) -> Result<(), Memory>
        ensures bytes { self.new.bytes ≡ self.old.bytes }
        ensures ended { self.new.ended ≡ self.old.ended }
        ensures room { OnOk result (size ≤ self.new.size) }
        ensures size { self.old.size ≤ self.new.size }
    {
        if self.buffer.len() < size {
            self.buffer.resize(size, 0)?;
        }
        Ok(())
    }

    /// Takes bytes from the source, where fewer than so many are at hand and it hasn't ended: until the room is full or it
    /// has. `Failed` comes only where the count of the source rose.
    pub fn hold<S: Source>(&mut self, source: &mut S, need: usize) -> Result<(), Failed>
        requires { need ≤ self.old.size }
        ensures holds { OnOk result (Holds self.new need) }
        ensures filled { OnOk result (IsFilled (S.left source.old) (S.left source.new) self.old.bytes self.new.bytes) }
        ensures ended { OnOk result (KnowsEnd self.old (S.left source.old) → KnowsEnd self.new (S.left source.new)) }
        ensures size { self.new.size ≡ self.old.size }
        ensures takes { Takes S.Channel source.old source.new (IsErr result) }
    {
        if self.ended || self.end - self.start >= need {
            return Ok(());
        }
        self.fill(source)
    }

    /// Takes bytes until the room is full or the source has ended.
    fn fill<S: Source>(&mut self, source: &mut S) -> Result<(), Failed>
        requires { self.old.ended ≡ false }
        ensures holds { OnOk result (Holds self.new self.old.size) }
        ensures filled { OnOk result (IsFilled (S.left source.old) (S.left source.new) self.old.bytes self.new.bytes) }
        ensures ended { OnOk result (KnowsEnd self.new (S.left source.new)) }
        ensures size { self.new.size ≡ self.old.size }
        ensures takes { Takes S.Channel source.old source.new (IsErr result) }
    {
        'more: while self.bytes().len() < self.buffer.len() {
            if self.read(source)? == 0 {
                return Ok(());
            }
        }
        Ok(())
    }

    /// Takes bytes, as many as one read gives, and says how many: none only where the source has ended.
    fn read<S: Source>(&mut self, source: &mut S) -> Result<usize, Failed>
        requires { length self.old.bytes < self.old.size }
        ensures filled { OnOk result (IsFilled (S.left source.old) (S.left source.new) self.old.bytes self.new.bytes) }
        ensures count { IfOk result (λ n. length self.new.bytes ≡ length self.old.bytes + n) }
        ensures end { IfOk result (λ n. n ≡ 0 → IsAtEnd (S.left source.new)) }
        ensures ended { IfOk result (λ n. self.new.ended ≡ (n == 0)) }
        ensures size { self.new.size ≡ self.old.size }
        ensures takes { Takes S.Channel source.old source.new (IsErr result) }
    {
        self.end = settle(&mut self.buffer, self.start, self.end);
        self.start = 0;
        let count = source.read(&mut self.buffer[self.end..])?;
        self.end += count;
        self.ended = count == 0;
        Ok(count)
    }
}

/// Moves the bytes between two places to the front of a buffer, and says how many they are.
fn settle(buffer: &mut Vec<u8>, start: usize, end: usize) -> usize
    requires ordered { start ≤ end }
    requires fits { end ≤ vec_len buffer.old }
    ensures size { result ≡ end - start }
    ensures bytes { take result buffer.new.items ≡ drop start (take end buffer.old.items) }
    ensures room { vec_len buffer.new ≡ vec_len buffer.old }
{
    if start > 0 {
        buffer.copy_within(start..end, 0);
    }
    end - start
}
