//! What is known of a text whose refusal is shown.
ghost use Rattle.std.specs.Prelude.{◌≡◌, ◌<◌, ◌+◌, ◌^◌, IfOk};
ghost use Rattle.bw_lang.specs.Service.Reads.{Reads};
ghost use Rattle.bw_places.specs.Counts.{drafts_tokens};
ghost use Rattle.bw_places.specs.Drafted.{drafts_of};
ghost use Rattle.bw_syntax.specs.Told.{IsTold};
ghost use Rattle.bw_diagnose.specs.Known as spec;

use crate::spelling::spelled_all;
use bw_lang::{Lexeme, Memory, Service, Token};
use bw_places::Spelled;
use bw_syntax::Told;
use std::alloc::Global;

/// A text with its tokens and what they say, which are lent: they were told as it was read.
#[derive(Clone, Copy)]
pub struct Tokened<'a> {
    pub text: &'a [u8],
    pub tokens: &'a [Token],
    pub lexemes: &'a [Lexeme],
    pub ghost cut: { tokens.now ≡ spec.tokens_in text.now },
    pub ghost says: { lexemes.now ≡ spec.lexemes_in text.now },
}

/// The same, with the declarations that the text is written for.
#[derive(Drop)]
pub struct Known<'a> {
    pub told: Tokened<'a>,
    pub declarations: Vec<Spelled<'a>>,
    pub ghost few: { 3 + drafts_tokens (drafts_of declarations.items) < 2 ^ 63 },
}

/// A text with its tokens.
pub fn with_tokens<'a>(text: &'a [u8], told: &'a Told) -> Tokened<'a>
    requires { IsTold text.now told.now }
    ensures { result.text.now ≡ text.entry.now }
{
    Tokened {
        text,
        tokens: told.tokens.as_slice(),
        lexemes: told.lexemes.as_slice(),
    }
}

/// A text that reads as this service, with its tokens and declarations: those of the service, as the tokens spell them.
pub fn read_known<'a>(
    alloc: Global,
    told: Tokened<'a>,
    service: &'a Service,
) -> Result<Known<'a>, Memory>
    requires { Reads told.text.now service.now }
    ensures text { IfOk result (λ known. known.told.text.now ≡ told.entry.text.now) }
    ensures drafts { IfOk result (λ known. spec.AreDrafts told.entry.text.now (drafts_of known.declarations.items)) }
{
    let declared = service.declarations(alloc)?;
    let declarations = spelled_all(alloc, told.lexemes, &declared)?;
    drop(declared);
    Ok(Known { told, declarations })
}
