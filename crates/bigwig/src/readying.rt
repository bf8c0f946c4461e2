//! What is to be done to a journal that was read, before the task.
ghost use Rattle.std.specs.Prelude.{◌≡◌, ◌≤◌, ◌<◌, ◌↔◌, ℕ, List, Option, length, IfOk, IsTrue, Some};
ghost use Rattle.bw_lang.specs.declared.limits.TheConstants.{MAX_FILE_BYTES};
ghost use Rattle.bw_model.specs.Sessions as model;
ghost use Rattle.bw_questions.specs.Asked.{Ruled};
ghost use Rattle.bw_questions.specs.Checks.{IsRuled};
ghost use Rattle.bw_save.specs.Frozen.{saved_of};
ghost use Rattle.bw_save.specs.Onward.{IsFileAgain};
ghost use Rattle.bw_saved.specs.declared.limits.TheConstants.{MAX_SAVED_BYTES};
ghost use Rattle.bw_world.specs.Stands.{StandsFor};
ghost use Rattle.bigwig.specs.Finding.{IsFoundIn, IsRead, sum_of};
ghost use Rattle.bigwig.specs.Keeping.{IsLonger};
ghost use Rattle.bigwig.specs.declared.bringing.Found.TheVariants as finds;

use crate::bringing::{Brought, Found};
use crate::server::Server;
use bw_journal::{put_head, put_saved_head, start_sum};
use bw_lang::Memory;
use bw_save::{Frozen, freeze_on};
use std::alloc::Global;

/// What is done to a journal before any link or request.
#[derive(Drop)]
pub enum Opening {
    /// This head is put there, and this is the check behind it.
    Head { head: Vec<u8>, sum: u64 },
    /// It is cut behind so many bytes, and this is the check there.
    Cut { len: u64, sum: u64 },
    /// A new file comes into its place, with this head, and this is the check behind it.
    Anew { head: Vec<u8>, sum: u64 },
}

impl Opening {
    /// The check behind what the journal then holds.
    pub fn sum(&self) -> u64
        ensures { result ≡ sum_of self.now }
    {
        match self {
            Opening::Head { sum, .. } => *sum,
            Opening::Cut { sum, .. } => *sum,
            Opening::Anew { sum, .. } => *sum,
        }
    }
}

/// A server in the world that a journal brings about, and what is to be done to the journal.
#[derive(Drop)]
pub struct Ready {
    pub server: Server,
    pub opening: Opening,
}

/// What is to be done to a journal in which this was found. It is begun anew if it is longer than that, unless what waits in its
/// world can't be loaded again.
pub fn ready_for(brought: Brought, text: &[u8], rotate: Option<u32>) -> Result<Ready, Memory>
    requires text { length text.now ≤ MAX_FILE_BYTES }
    ensures read { IfOk result (λ r. (ruled : Ruled) (content : List ℕ) → IsRuled brought.server.world.service brought.server.formats ruled
        → IsFoundIn ruled text.now content brought.server.world brought.found → IsRead ruled text.now content rotate r.server.world r.opening) }
    ensures service { IfOk result (λ r. r.server.world.service ≡ brought.server.world.service) }
    ensures formats { IfOk result (λ r. r.server.formats ≡ brought.server.formats) }
{
    let Brought { server, found } = brought;
    match found {
        Found::Nothing => headed(server, text),
        Found::Entries { len, sum } => {
            if is_longer(rotate, len) {
                renewed(server, text, len, sum)
            } else {
                Ok(Ready {
                    server,
                    opening: Opening::Cut { len, sum },
                })
            }
        }
    }
}

/// Whether a journal of so many bytes is longer.
fn is_longer(rotate: Option<u32>, len: u64) -> bool
    ensures { IsTrue result ↔ IsLonger rotate len }
{
    match rotate {
        None => false,
        Some(limit) => u64::from(limit) < len,
    }
}

/// A head is put where there is none.
fn headed(server: Server, text: &[u8]) -> Result<Ready, Memory>
    requires text { length text.now ≤ MAX_FILE_BYTES }
    ensures read { IfOk result (λ r. (ruled : Ruled) (content : List ℕ) (rotate : Option ℕ)
        → IsFoundIn ruled text.now content server.world finds.Nothing → IsRead ruled text.now content rotate r.server.world r.opening) }
    ensures server { IfOk result (λ r. r.server ≡ server) }
{
    let mut head = Vec::new(server.alloc);
    match put_head(&mut head, text) {
        Ok(()) => Ok(Ready {
            server,
            opening: Opening::Head {
                head,
                sum: start_sum(text),
            },
        }),
        Err(_) => {
            drop(server);
            drop(head);
            Err(Memory)
        }
    }
}

/// It is begun anew at the file of what waits in the server's world, if there is one that is loaded again.
fn renewed(server: Server, text: &[u8], len: u64, sum: u64) -> Result<Ready, Memory>
    requires text { length text.now ≤ MAX_FILE_BYTES }
    ensures read { IfOk result (λ r. (ruled : Ruled) (content : List ℕ) (rotate : Option ℕ) → IsRuled server.world.service server.formats ruled
        → IsFoundIn ruled text.now content server.world (finds.Entries len sum) → IsLonger rotate len
        → IsRead ruled text.now content rotate r.server.world r.opening) }
    ensures world { IfOk result (λ r. r.server.world ≡ server.world) }
    ensures formats { IfOk result (λ r. r.server.formats ≡ server.formats) }
{
    let Server {
        alloc,
        world,
        formats,
        intake,
    } = server;
    match freeze_on(alloc, text, world) {
        Err(Memory) => {
            drop(formats);
            drop(intake);
            Err(Memory)
        }
        Ok(frozen) => {
            let Frozen { world, file } = frozen;
            let server = Server {
                alloc,
                world,
                formats,
                intake,
            };
            match file {
                None => Ok(Ready {
                    server,
                    opening: Opening::Cut { len, sum },
                }),
                Some(saved) => anew(server, text, &saved),
            }
        }
    }
}

/// It is begun anew at these saved bytes.
fn anew(server: Server, text: &[u8], saved: &[u8]) -> Result<Ready, Memory>
    requires text { length text.now ≤ MAX_FILE_BYTES }
    requires saved { length saved.now ≤ MAX_SAVED_BYTES }
    ensures read { IfOk result (λ r. (ruled : Ruled) (content : List ℕ) (rotate : Option ℕ) (len sum : ℕ)
        → IsRuled server.world.service server.formats ruled → IsFoundIn ruled text.now content server.world (finds.Entries len sum)
        → IsLonger rotate len → IsFileAgain server.world.service text.now (saved_of server.world) saved.now
        → IsRead ruled text.now content rotate r.server.world r.opening) }
    ensures server { IfOk result (λ r. r.server ≡ server) }
{
    let mut head = Vec::new(server.alloc);
    match put_saved_head(&mut head, text, saved) {
        Ok(sum) => Ok(Ready {
            server,
            opening: Opening::Anew { head, sum },
        }),
        Err(_) => {
            drop(server);
            drop(head);
            Err(Memory)
        }
    }
}
