//! The tokens of a text.
ghost use Rattle.std.specs.Prelude.{◌≡◌, [], IfOk, IfErr};
ghost use Rattle.bw_syntax.specs.Told.{IsTold, IsUntold};

use crate::fault::SyntaxFault;
use crate::lexemes::lexemes_of;
use bw_lang::limits::MAX_FILE_BYTES;
use bw_lang::{Lexeme, Tokens};
use bw_lex::{LexFault, lex};
use std::alloc::Global;

/// The tokens of a text, and what they say.
pub struct Told {
    pub tokens: Tokens,
    pub lexemes: Vec<Lexeme>,
}

impl Drop for Told {
    fn drop(self) {
        let Told {
            tokens: _,
            lexemes: _,
        } = self;
    }
}

impl Told {
    /// No tokens.
    pub fn none(alloc: Global) -> Told
        ensures tokens { result.tokens ≡ [] }
        ensures lexemes { result.lexemes.items ≡ [] }
    {
        Told {
            tokens: Tokens::from_vec(Vec::new(alloc)),
            lexemes: Vec::new(alloc),
        }
    }
}

/// The tokens of the bytes of a file, where it isn't too long and has any: the first step of reading it. What shows a
/// refusal takes them too.
pub fn tell(alloc: Global, bytes: &[u8]) -> Result<Told, SyntaxFault>
    ensures told { IfOk result (IsTold bytes.now) }
    ensures untold { IfErr result (IsUntold bytes.now) }
{
    if bytes.len() > MAX_FILE_BYTES {
        return Err(SyntaxFault::TooLong);
    }
    match lex(alloc, bytes) {
        Ok(tokens) => match lexemes_of(alloc, bytes, tokens.as_slice()) {
            Ok(lexemes) => Ok(Told { tokens, lexemes }),
            Err(_) => Err(SyntaxFault::Memory),
        },
        Err(LexFault::Memory) => Err(SyntaxFault::Memory),
        Err(fault) => Err(SyntaxFault::Lex(fault)),
    }
}
