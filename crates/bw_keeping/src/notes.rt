//! The bytes of a link, noted as they are read.
ghost use Rattle.std.specs.Prelude.{◌≡◌, ◌≤◌, ◌++◌, [], true, false, length, IfOk, IsErrOf};
ghost use Rattle.std.proofs.Common.{refl, ◌∙◌};
ghost use Rattle.bw_out.specs.Sends.{Takes};
ghost use Rattle.bw_http.specs.Cuts.{Tells};
ghost use Rattle.bw_http.specs.Messages.{ComesOf};
ghost use Rattle.bw_http.specs.Taken.{IsFilled};
ghost use Rattle.bw_keeping.specs.Noting.{Goes, goes_refl, goes_trans};

use bw_http::{Intake, ReadOutcome, Request, read_request};
use bw_journal::MAX_MESSAGE_BYTES;
use bw_lang::Memory;
use bw_out::{Channel, Failed, Source};
use std::alloc::Global;
use std::marker::Model;

/// The bytes of a link from one message on, with the memory for the longest message. Contracts see the bytes.
#[derive(Drop)]
pub struct Notes {
    bytes: Vec<u8>,
}

impl Model for Notes {
    ghost use Rattle.std.specs.Prelude.{◌≤◌, ℕ, List, vec_len};
    ghost use Rattle.bw_journal.specs.declared.limits.TheConstants.{MAX_MESSAGE_BYTES};

    ghost Value = { List ℕ };

    ghost view = { λ n. n.bytes.items };

    ghost invariant = { λ n. vec_len n.bytes ≤ MAX_MESSAGE_BYTES };
}

impl Notes {
    /// Nothing is noted. The memory is taken here.
    pub fn new(alloc: Global) -> Result<Notes, Memory>
        ensures { IfOk result (λ notes. notes ≡ []) }
    {
        let bytes = Vec::with_capacity(alloc, MAX_MESSAGE_BYTES)?;
        Ok(Notes { bytes })
    }

    /// The bytes.
    pub(crate) fn bytes(&self) -> &[u8]
        ensures value { result.now ≡ self.now }
        ensures few { length self.now ≤ MAX_MESSAGE_BYTES }
    {
        &self.bytes
    }

    /// Lets all bytes go.
    fn clear(&mut self)
        ensures { self.new ≡ [] }
    {
        self.bytes.clear();
    }

    /// Notes these bytes alone, unless there is no room for them. It says whether they are noted.
    fn begin(&mut self, bytes: &[u8]) -> bool
        ensures { result ≡ true → self.new ≡ bytes.now }
    {
        self.clear();
        self.note(bytes)
    }

    /// Notes bytes behind the others, unless there is no room for them. It says whether they are noted.
    fn note(&mut self, bytes: &[u8]) -> bool
        ensures { result ≡ true → self.new ≡ self.old ++ bytes.now }
    {
        bytes.len() <= MAX_MESSAGE_BYTES - self.bytes.len()
            && self.bytes.extend_from_slice(bytes).is_ok()
    }
}

/// A link that was lent, and the notes of what was read of it, unless some of it was lost.
#[derive(Drop)]
struct Noting<'a, C> {
    link: &'a mut C,
    notes: &'a mut Notes,
    lost: bool,
}

impl<C: Source> Channel for Noting<'_, C> {
    ghost left = { λ n. C.left n.link.now };

    ghost held = { λ n. C.held n.link.now };

    ghost read_faults = { λ n. C.read_faults n.link.now };

    ghost write_faults = { λ n. C.write_faults n.link.now };

    ghost same = { λ p q. (p.link.ghost_name ≡ q.link.ghost_name) × (p.notes.ghost_name ≡ q.notes.ghost_name) × C.same p.link.now q.link.now
        × Goes p.lost q.lost (C.left p.link.now) (C.left q.link.now) p.notes.now q.notes.now };
}

impl<C: Source> Source for Noting<'_, C> {
    ghost same_refl = { λ a. (refl, refl, C.same_refl a.link.now, goes_refl a.lost (C.left a.link.now) a.notes.now) };

    ghost same_trans = { λ a b c p q. (
      p.0 ∙ q.0,
      p.1 ∙ q.1,
      C.same_trans a.link.now b.link.now c.link.now p.2 q.2,
      goes_trans a.lost b.lost c.lost (C.left a.link.now) (C.left b.link.now) (C.left c.link.now) a.notes.now b.notes.now c.notes.now p.3 q.3,
    ) };

    fn read(&mut self, buf: &mut [u8]) -> Result<usize, Failed> {
        let count = self.link.read(buf)?;
        if !self.notes.note(&buf[..count]) {
            self.lost = true;
        }
        Ok(count)
    }
}

/// Reads a request, and notes the bytes that the intake held and those that were read. It says whether some were lost for
/// want of room.
pub(crate) fn read_noted<C: Source>(
    alloc: Global,
    intake: &mut Intake,
    notes: &mut Notes,
    link: &mut C,
) -> (Result<Request, ReadOutcome>, bool)
    ensures taken { ComesOf (C.left link.old) (C.left link.new) intake.old result.0 intake.new }
    ensures stream { Tells (C.left link.old) (C.left link.new) intake.old result.0 intake.new }
    ensures noted { result.1 ≡ false → IsFilled (C.left link.old) (C.left link.new) intake.old notes.new }
    ensures takes { Takes C.Channel link.old link.new (IsErrOf result.0 ReadOutcome.ReadFault) }
{
    let lost = !notes.begin(intake.bytes());
    let mut noting = Noting { link, notes, lost };
    let outcome = read_request(alloc, intake, &mut noting);
    let lost = noting.lost;
    (outcome, lost)
}
