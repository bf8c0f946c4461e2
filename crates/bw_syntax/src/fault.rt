//! Why a service's text isn't read.
ghost use Rattle.std.specs.Prelude.{◌≡◌};

use bw_lang::{Limit, Memory, Name};
use bw_lex::LexFault;
use bw_tmpl::TmplFault;
use std::alloc::AllocFailed;

/// Why the bytes of a file aren't read as a service. They are decided in this order, but for `TooMany`, which is
/// decided twice: on the tokens alone (`Nesting`, then `Stretch`) behind `Lex`, and for all other limits last.
#[derive(Drop)]
pub enum SyntaxFault {
    /// There are more than 1,048,576 bytes.
    TooLong,
    /// The bytes have no tokens.
    Lex(LexFault),
    /// This limit is passed. The number is the whole count of templates, sessions, shared variables, gap names or field
    /// names, the greatest depth of open brackets, or the first number in source order that passes the limit: of tokens
    /// in a row, of a session's locals, of bytes of a name or a string, or the weight of a template.
    TooMany(Limit, u64),
    /// The tokens are those of no service. The place is that of the token where the parser gave up, by the number of
    /// bytes in front of it; contracts say only that it is at most the number of all bytes.
    Syntax(usize),
    /// The template of this name is the first in source order that is refused, for this reason.
    Template(Name, TmplFault),
    /// There was no memory. It may come anywhere.
    Memory,
}

impl From<Memory> for SyntaxFault {
    ghost use Rattle.bw_syntax.specs.declared.fault.SyntaxFault.TheVariants as fault;

    ghost from_gives = { λ _ e. e ≡ fault.Memory };

    fn from(_error: Memory) -> SyntaxFault {
        SyntaxFault::Memory
    }
}

impl<T: Drop> From<AllocFailed<T>> for SyntaxFault {
    ghost use Rattle.bw_syntax.specs.declared.fault.SyntaxFault.TheVariants as fault;

    ghost from_gives = { λ _ e. e ≡ fault.Memory };

    fn from(_error: AllocFailed<T>) -> SyntaxFault {
        SyntaxFault::Memory
    }
}
