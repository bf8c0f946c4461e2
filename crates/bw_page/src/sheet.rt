//! Bodies ready to be sent.
ghost use Rattle.std.specs.Prelude.{◌≡◌, [], Some, IfOk, length};
ghost use Rattle.bw_lang.specs.Document.Print.{print};
ghost use Rattle.bw_out.specs.Sends.{Sends};

use crate::printing::print;
use bw_lang::{Memory, Text, Tree};
use bw_out::{Channel, Failed, Sink, WriteFault, write_all};
use std::alloc::{AllocError, Global};
use std::marker::Model;

/// The body of a reply, a page or plain text, ready to be sent. Contracts see its bytes. All the memory that sending
/// it takes was taken as it was made.
#[derive(Drop)]
pub struct Sheet {
    bytes: Vec<u8>,
}

impl Model for Sheet {
    ghost use Rattle.std.specs.Prelude.{ℕ, List};

    ghost Value = { List ℕ };

    ghost view = { λ s. s.bytes.items };
}

impl Sheet {
    /// These bytes as they stand.
    pub fn from_bytes(bytes: Vec<u8>) -> Sheet
        ensures { result ≡ bytes.items }
    {
        Sheet { bytes }
    }

    /// The page that this tree prints to, open gaps left out.
    pub fn of(alloc: Global, page: &Tree) -> Result<Sheet, Memory>
        ensures { IfOk result (λ sheet. sheet ≡ print page.now.items) }
    {
        let mut sink = Growing {
            bytes: Vec::new(alloc),
            faults: 0,
        };
        match print(page, &mut sink) {
            Ok(()) => {
                let Growing { bytes, faults: _ } = sink;
                Ok(Sheet::from_bytes(bytes))
            }
            Err(WriteFault) => Err(Memory),
        }
    }

    /// This text as it stands.
    pub fn plain(alloc: Global, text: &Text) -> Result<Sheet, Memory>
        ensures { IfOk result (λ sheet. sheet ≡ text.now) }
    {
        let mut bytes = Vec::new(alloc);
        bytes.extend_from_slice(text.as_bytes())?;
        Ok(Sheet::from_bytes(bytes))
    }

    /// The number of its bytes.
    pub fn length(&self) -> u64
        ensures { result ≡ length self.now }
    {
        self.bytes.len() as u64
    }

    /// Writes its bytes. It takes no memory. After a fault, which comes only where the sink's count rose, a first part
    /// of them is written.
    pub fn write<W: Sink>(self, sink: &mut W) -> Result<(), WriteFault>
        ensures { Sends W.Channel sink.old sink.new self result }
    {
        write_all(sink, self.bytes.as_slice())
    }

    pub fn as_bytes(&self) -> &[u8]
        ensures { result.now ≡ self.now }
    {
        self.bytes.as_slice()
    }
}

/// A sink that takes memory as it grows, and fails where there is none.
#[derive(Drop)]
struct Growing {
    bytes: Vec<u8>,
    faults: u64,
}

impl Channel for Growing {
    ghost held = { λ s. Some s.bytes.items };

    ghost write_faults = { λ s. s.faults };
}

impl Sink for Growing {
    ghost same_refl = { λ a. tt };

    ghost same_trans = { λ a b c p q. tt };

    fn write(&mut self, bytes: &[u8]) -> Result<usize, Failed> {
        match self.bytes.extend_from_slice(bytes) {
            Ok(()) => Ok(bytes.len()),
            Err(AllocError) => {
                self.faults = self.faults.saturating_add(1);
                Err(Failed)
            }
        }
    }
}
