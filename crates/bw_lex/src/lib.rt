//! The text of a service becomes tokens.
//!
//! The text is UTF-8. Spaces, tabs, carriage returns and line feeds part tokens, and so do comments: `//` and the bytes
//! behind it up to the next line feed or the end of the text. At each place the longest token is taken. It is
//!
//! - a word: a letter `A` to `Z`, `a` to `z` or `_`, and then letters, digits and `_`;
//! - a number: decimal digits, with a value of at most 9,223,372,036,854,775,807;
//! - a string between two `"`: characters other than `"`, `\` and line feed, and the escapes `\"`, `\\` and `\n`;
//! - a template: `<html>`, and all bytes up to the first `</html>`, which is part of it;
//! - or a sign: `{ } ( ) [ ] <[ ; , = == != ! < <= > >= + - * / % && ||`.
#![tactic(auto)]

pub mod laws;
mod pieces;

ghost use Rattle.std.specs.Prelude.{◌≡◌, ◌⊎◌, List, All, IfOk, IfErr, Ok, Err};
ghost use Rattle.std.specs.Str.{IsUtf8};
ghost use Rattle.bw_lang.specs.declared.token.Token.{Token};
ghost use Rattle.bw_lang.specs.Text.Cuts.{AreTokens, StandsIn};
ghost use Rattle.bw_lex.specs.Refusals.{IsTextRefused};
ghost use Rattle.bw_lex.specs.Tokens.{scan, tokens_of, fault_at};
ghost use Rattle.bw_lex.specs.declared.LexFault.{LexFault};
ghost use Rattle.bw_lex.specs.declared.LexFault.TheVariants.{Memory as OutOfMemory};

use crate::pieces::{FaultKind, Piece, read_piece};
use bw_lang::{Memory, Token, Tokens};
use std::alloc::{AllocFailed, Global};
use thiserror::Error;

/// Why a text is no list of tokens. A place is the number of bytes in front of it.
#[derive(Clone, Copy, Debug, Error)]
pub enum LexFault {
    /// At this place stands a byte that isn't part of valid UTF-8, a byte at which no token begins, or in a string a
    /// backslash that begins none of the escapes `\"`, `\\` and `\n`.
    #[error("byte {0} belongs to no token")]
    BadByte(usize),
    /// The line or the text ends before the string that begins at this place.
    #[error("the string that begins at byte {0} has no end on its line")]
    OpenString(usize),
    /// No `</html>` follows the `<html>` at this place.
    #[error("the template that begins at byte {0} has no end")]
    OpenTemplate(usize),
    /// The number that begins at this place is above 9,223,372,036,854,775,807.
    #[error("the number that begins at byte {0} is too big")]
    NumberTooBig(usize),
    /// There was no memory.
    #[error("out of memory")]
    Memory,
}

impl From<Memory> for LexFault {
    ghost from_gives = { λ _ fault. fault ≡ OutOfMemory };

    fn from(_error: Memory) -> LexFault {
        LexFault::Memory
    }
}

impl<T: Drop> From<AllocFailed<T>> for LexFault {
    ghost from_gives = { λ _ fault. fault ≡ OutOfMemory };

    fn from(_error: AllocFailed<T>) -> LexFault {
        LexFault::Memory
    }
}

fn fault_at(kind: FaultKind, at: usize) -> LexFault
    ensures { result ≡ fault_at kind at }
{
    match kind {
        FaultKind::BadByte => LexFault::BadByte(at),
        FaultKind::OpenString => LexFault::OpenString(at),
        FaultKind::OpenTemplate => LexFault::OpenTemplate(at),
        FaultKind::NumberTooBig => LexFault::NumberTooBig(at),
    }
}

/// The tokens of a text in UTF-8, behind which a bad byte follows or not.
fn scan(alloc: Global, bad: bool, bytes: &[u8]) -> Result<Tokens, LexFault>
    requires { IsUtf8 bytes.now }
    ensures ok { IfOk result (λ tokens. scan bad 0 0 bytes.now ≡ Ok tokens) }
    ensures fault { IfErr result (λ fault. (fault ≡ OutOfMemory) ⊎ (scan bad 0 0 bytes.now ≡ Err fault)) }
{
    let mut tokens = Vec::new(alloc);
    let mut at = 0;
    while at < bytes.len() {
        match read_piece(alloc, bad, &bytes[at..])? {
            Piece::Gap(len) => at += len,
            Piece::Token(what, len) => {
                tokens.push(Token {
                    what,
                    start: at,
                    end: at + len,
                })?;
                at += len;
            }
            Piece::Fault(kind, len) => return Err(fault_at(kind, at + len)),
        }
    }
    if bad {
        Err(LexFault::BadByte(at))
    } else {
        Ok(Tokens::from_vec(tokens))
    }
}

/// The tokens of the text of a service.
///
/// They are returned exactly where the bytes are UTF-8 and are cut into blanks, comments and tokens, each the longest
/// that begins at its place; a text is cut in one way at most. Otherwise the error is the first fault in the text:
/// the fault that stands behind the blanks, comments and tokens that come before it. [`LexFault`] says what each fault
/// is. Only want of memory comes at any text. It takes time that grows with the number of the bytes.
pub fn lex(alloc: Global, bytes: &[u8]) -> Result<Tokens, LexFault>
    // The tokens, and the first fault, as a relation that says what stands where.
    ensures tokens { IfOk result (λ tokens. AreTokens bytes.now tokens) }
    ensures only_tokens { (tokens : List Token) → AreTokens bytes.now tokens → (result ≡ Err OutOfMemory) ⊎ (result ≡ Ok tokens) }
    ensures refused { IfErr result (λ fault. (fault ≡ OutOfMemory) ⊎ IsTextRefused bytes.now fault) }
    ensures only_refused { (fault : LexFault) → IsTextRefused bytes.now fault → (result ≡ Err OutOfMemory) ⊎ (result ≡ Err fault) }

    // The same as a function of the bytes.
    ensures ok { IfOk result (λ tokens. tokens_of bytes.now ≡ Ok tokens) }
    ensures fault { IfErr result (λ fault. (fault ≡ OutOfMemory) ⊎ (tokens_of bytes.now ≡ Err fault)) }

    ensures spans { IfOk result (λ tokens. All (StandsIn bytes.now) tokens) }
{
    match str::from_utf8(bytes) {
        Ok(_) => scan(alloc, false, bytes),
        Err(error) => scan(alloc, true, &bytes[..error.valid_up_to()]),
    }
}
