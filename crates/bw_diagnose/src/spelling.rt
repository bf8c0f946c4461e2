//! Declarations of a service, as the tokens of its text spell them.
ghost use Rattle.std.specs.Prelude.{◌≡◌, ◌<◌, ◌+◌, ◌^◌, IfOk, map};
ghost use Rattle.bw_lang.specs.Service.Order.{seen};
ghost use Rattle.bw_places.specs.Counts.{drafts_tokens};
ghost use Rattle.bw_places.specs.Drafted.{draft_of, drafts_of};
ghost use Rattle.bw_diagnose.specs.Spelling as spec;

use crate::finding::sign_at;
use crate::tags::inside_of;
use bw_lang::{Declared, Lexeme, Memory};
use bw_places::{Spelled, declaration_tokens};
use std::alloc::Global;

/// The declaration whose first token is this one.
fn spelled_at<'a>(lexemes: &'a [Lexeme], at: usize, declared: Declared<'a>) -> Spelled<'a>
    requires { at < 2 ^ 63 }
    ensures { draft_of result ≡ spec.drafted lexemes.entry.now at (seen declared.entry) }
{
    match declared {
        Declared::Template(template) => Spelled::Template {
            name: &template.name,
            inside: inside_of(lexemes, at + 3),
        },
        Declared::Shared(variable) => Spelled::Shared {
            variable,
            minus: sign_at(lexemes, at + 4, b"-"),
        },
        Declared::Session(session) => Spelled::Session(session),
    }
}

/// Declarations one after the other, the first behind `service NAME {`.
pub fn spelled_all<'a>(
    alloc: Global,
    lexemes: &'a [Lexeme],
    declared: &[Declared<'a>],
) -> Result<Vec<Spelled<'a>>, Memory>
    requires { 3 + drafts_tokens (spec.drafted_all lexemes.now 3 (map seen declared.now)) < 2 ^ 63 }
    ensures { IfOk result (λ list. drafts_of list.items ≡ spec.drafted_all lexemes.entry.now 3 (map seen declared.now)) }
{
    let mut list = Vec::new(alloc);
    let mut at = 3;
    for one in declared {
        let declaration = spelled_at(lexemes, at, *one);
        at += declaration_tokens(&declaration);
        list.push(declaration)?;
    }
    Ok(list)
}
