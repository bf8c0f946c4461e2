//! Adapters to the outside.
ghost use Rattle.std.specs.Prelude.{◌≤◌, Some, IfOk, length};
ghost use Rattle.std.specs.Io.KnownBytes.{WriteAppends};
ghost use Rattle.bw_out.specs.Adapters.{write_faults_of, words_of};
ghost use Rattle.bw_out.specs.Causes.{HasCause};
ghost use Rattle.bw_out.specs.Told.{Draws};

use bw_out::{Failed, Keys, RandomKeys, Sink, Writing};
use rand_core::Rng;
use std::io::Write;

/// Bytes are written: a fault.
pub fn write<W: Write>(sink: &mut Writing<W>, bytes: &[u8]) -> Result<usize, Failed>
    ensures bound { IfOk result (λ n. n ≤ length bytes.now) }
    ensures cause { HasCause (write_faults_of sink.old) (write_faults_of sink.new) result }
    ensures inner { WriteAppends (W.contents sink.old.inner) (W.contents sink.new.inner) result bytes.now }
{
    sink.write(bytes)
}

/// A key is drawn.
pub fn draw<G: Rng>(keys: &mut RandomKeys<G>) -> u64
    ensures { Draws (Some (words_of (G.stream keys.old.generator))) (Some (words_of (G.stream keys.new.generator))) result }
{
    keys.draw()
}
