//! Declarations and services are parsed.
ghost use Rattle.std.specs.Prelude.{◌≡◌, ◌<◌, ◌≤◌, ◌++◌, [], List, ℕ, Some, length, IfOk, IfSome};
ghost use Rattle.bw_lang.specs.declared.declaration.Draft.{Draft as Draft_};
ghost use Rattle.bw_lang.specs.Service.Drafts.{AreFormed, spell_service};
ghost use Rattle.bw_lang.specs.Text.Words.{IsName};
ghost use Rattle.bw_parse.specs.Gives.{Gives, Finds};
ghost use Rattle.bw_parse.specs.Steps.Services as spec;

use crate::fault::ParseFault;
use crate::lexemes::{Meaning, after, keyword, meaning_of, name, shared_kind};
use crate::statements::block;
use bw_lang::{Bytes, Draft, Lexeme, Memory, Name, Session, Written};
use std::alloc::Global;

/// A service as it is written, whose templates aren't read yet: its name, and its declarations in source order.
#[derive(Drop)]
pub struct ServiceDraft {
    pub name: Name,
    pub drafts: Vec<Draft>,
}

/// The inside of a template, and what follows it.
#[tactic(auto, unfolding(crate::specs::Steps::Services::template_token))]
fn template_at(lexemes: &[Lexeme]) -> Option<(&Bytes, &[Lexeme])>
    ensures value { Finds (λ x. (x.0.now, x.1.now)) result (spec.template_token lexemes.now) }
    ensures shorter { IfSome result (λ x. length x.1.now < length lexemes.now) }
{
    match lexemes {
        [Lexeme::Template(inside), rest @ ..] => Some((inside, rest)),
        _ => None,
    }
}

/// A number, which is below 2^63 in every text, and what follows it.
#[tactic(auto, unfolding(crate::specs::Steps::Services::number_token))]
fn number_at(lexemes: &[Lexeme]) -> Option<(u64, &[Lexeme])>
    ensures value { Finds (λ x. (x.0, x.1.now)) result (spec.number_token lexemes.now) }
    ensures shorter { IfSome result (λ x. length x.1.now < length lexemes.now) }
{
    match lexemes {
        [Lexeme::Number(number), rest @ ..] => {
            if *number < 9_223_372_036_854_775_808 {
                Some((*number, rest))
            } else {
                None
            }
        }
        _ => None,
    }
}

/// The literal that a word is, where it is one.
fn word_literal(word: &Name) -> Result<Option<Written>, Memory>
    ensures { IfOk result (λ l. l ≡ spec.word_literal word.now (spec.meaning word.now)) }
{
    match meaning_of(word.as_str()) {
        Meaning::Truth(truth) => Ok(Some(Written::Bool(truth))),
        Meaning::Function(_) | Meaning::Nothing | Meaning::Other => Ok(None),
        Meaning::Free => Ok(Some(Written::Name(word.copy()?))),
    }
}

/// A literal without `-` in front, and what follows it.
#[tactic(auto, unfolding(crate::specs::Steps::Services::plain_literal))]
fn plain_literal(lexemes: &[Lexeme]) -> Result<(Written, &[Lexeme]), ParseFault>
    ensures value { Gives (λ x. (x.0, x.1.now)) result (spec.plain_literal lexemes.now) }
    ensures shorter { IfOk result (λ x. length x.1.now < length lexemes.now) }
{
    match lexemes {
        [Lexeme::Number(number), rest @ ..] => {
            if *number < 9_223_372_036_854_775_808 {
                Ok((Written::Plus(*number), rest))
            } else {
                Err(ParseFault::Syntax(lexemes.len()))
            }
        }
        [Lexeme::Str(text), rest @ ..] => Ok((Written::Str(text.copy()?), rest)),
        [Lexeme::Word(word), rest @ ..] => match word_literal(word)? {
            Some(literal) => Ok((literal, rest)),
            None => Err(ParseFault::Syntax(lexemes.len())),
        },
        _ => Err(ParseFault::Syntax(lexemes.len())),
    }
}

/// A literal, and what follows it.
#[tactic(auto, unfolding(crate::specs::Steps::Services::literal))]
fn literal(lexemes: &[Lexeme]) -> Result<(Written, &[Lexeme]), ParseFault>
    ensures value { Gives (λ x. (x.0, x.1.now)) result (spec.literal lexemes.now) }
    ensures shorter { IfOk result (λ x. length x.1.now < length lexemes.now) }
{
    match after(b"-", lexemes) {
        None => plain_literal(lexemes),
        Some(rest) => match number_at(rest) {
            None => Err(ParseFault::Syntax(rest.len())),
            Some((number, rest)) => Ok((Written::Minus(number), rest)),
        },
    }
}

/// Behind `html`.
#[tactic(auto, unfolding(crate::specs::Steps::Services::parse_template))]
fn template(lexemes: &[Lexeme]) -> Result<(Draft, &[Lexeme]), ParseFault>
    ensures value { Gives (λ x. (x.0, x.1.now)) result (spec.parse_template lexemes.now) }
    ensures shorter { IfOk result (λ x. length x.1.now < length lexemes.now) }
{
    let Some((name, rest)) = name(lexemes) else {
        return Err(ParseFault::Syntax(lexemes.len()));
    };
    let Some(rest) = after(b"=", rest) else {
        return Err(ParseFault::Syntax(rest.len()));
    };
    let Some((inside, rest)) = template_at(rest) else {
        return Err(ParseFault::Syntax(rest.len()));
    };
    let Some(rest) = after(b";", rest) else {
        return Err(ParseFault::Syntax(rest.len()));
    };
    let name = name.copy()?;
    let inside = inside.copy()?;
    Ok((Draft::Template { name, inside }, rest))
}

/// Behind `shared`.
#[tactic(auto, unfolding(crate::specs::Steps::Services::parse_shared))]
fn shared(lexemes: &[Lexeme]) -> Result<(Draft, &[Lexeme]), ParseFault>
    ensures value { Gives (λ x. (x.0, x.1.now)) result (spec.parse_shared lexemes.now) }
    ensures shorter { IfOk result (λ x. length x.1.now < length lexemes.now) }
{
    let Some((kind, rest)) = shared_kind(lexemes) else {
        return Err(ParseFault::Syntax(lexemes.len()));
    };
    let Some((name, rest)) = name(rest) else {
        return Err(ParseFault::Syntax(rest.len()));
    };
    let Some(rest) = after(b"=", rest) else {
        return Err(ParseFault::Syntax(rest.len()));
    };
    let (init, rest) = literal(rest)?;
    let Some(rest) = after(b";", rest) else {
        return Err(ParseFault::Syntax(rest.len()));
    };
    let name = name.copy()?;
    Ok((Draft::Shared { kind, name, init }, rest))
}

/// Behind `session`.
#[tactic(auto, unfolding(crate::specs::Steps::Services::parse_session))]
fn session(alloc: Global, lexemes: &[Lexeme]) -> Result<(Draft, &[Lexeme]), ParseFault>
    ensures value { Gives (λ x. (x.0, x.1.now)) result (spec.parse_session lexemes.now) }
    ensures shorter { IfOk result (λ x. length x.1.now < length lexemes.now) }
{
    let Some((name, rest)) = name(lexemes) else {
        return Err(ParseFault::Syntax(lexemes.len()));
    };
    let Some(rest) = after(b"(", rest) else {
        return Err(ParseFault::Syntax(rest.len()));
    };
    let Some(rest) = after(b")", rest) else {
        return Err(ParseFault::Syntax(rest.len()));
    };
    let Some(rest) = after(b"{", rest) else {
        return Err(ParseFault::Syntax(rest.len()));
    };
    let (body, rest) = block(alloc, rest)?;
    let name = name.copy()?;
    Ok((Draft::Session(Session { name, body }), rest))
}

/// A declaration, and what follows it.
#[tactic(auto, unfolding(crate::specs::Steps::Services::draft))]
fn draft(alloc: Global, lexemes: &[Lexeme]) -> Result<(Draft, &[Lexeme]), ParseFault>
    ensures value { Gives (λ x. (x.0, x.1.now)) result (spec.draft lexemes.now) }
    ensures shorter { IfOk result (λ x. length x.1.now < length lexemes.now) }
{
    if let Some(rest) = keyword("html", lexemes) {
        template(rest)
    } else if let Some(rest) = keyword("shared", lexemes) {
        shared(rest)
    } else if let Some(rest) = keyword("session", lexemes) {
        session(alloc, rest)
    } else {
        Err(ParseFault::Syntax(lexemes.len()))
    }
}

/// The declarations up to the closing brace, and what follows it.
#[tactic(auto, using(crate::proofs::DraftSteps::draft_equations))]
fn drafts(alloc: Global, lexemes: &[Lexeme]) -> Result<(Vec<Draft>, &[Lexeme]), ParseFault>
    ensures value { Gives (λ x. (x.0.items, x.1.now)) result (spec.parse_drafts [] lexemes.now) }
{
    let mut list = Vec::new(alloc);
    let mut rest = lexemes;
    'drafts: loop {
        match after(b"}", rest) {
            Some(next) => return Ok((list, next)),
            None => {
                let (draft, next) = draft(alloc, rest)?;
                list.push(draft)?;
                rest = next;
            }
        }
    }
}

#[tactic(auto, unfolding(crate::specs::Steps::Services::parse_service))]
fn whole_service(alloc: Global, lexemes: &[Lexeme]) -> Result<ServiceDraft, ParseFault>
    ensures { Gives (λ d. (d.name, d.drafts.items)) result (spec.parse_service lexemes.now) }
{
    let Some(rest) = keyword("service", lexemes) else {
        return Err(ParseFault::Syntax(lexemes.len()));
    };
    let Some((name, rest)) = name(rest) else {
        return Err(ParseFault::Syntax(rest.len()));
    };
    let Some(rest) = after(b"{", rest) else {
        return Err(ParseFault::Syntax(rest.len()));
    };
    let (drafts, rest) = drafts(alloc, rest)?;
    match rest {
        [] => {
            let name = name.copy()?;
            Ok(ServiceDraft { name, drafts })
        }
        [_, ..] => Err(ParseFault::Syntax(rest.len())),
    }
}

/// The service that the lexemes are written for. `Syntax` comes exactly where they are written for none, and says how
/// many lexemes were left where the parser gave up; `Memory` may come anywhere. It goes as
/// deep as brackets stand inside one another, and within them as lexemes stand in a row without `;`, `{` or `}`.
pub fn parse_service(alloc: Global, lexemes: &[Lexeme]) -> Result<ServiceDraft, ParseFault>
    // What is read is formed, and spells the lexemes.
    ensures found { IfOk result (λ d. IsName d.name × AreFormed d.drafts.items × (lexemes.now ≡ spell_service d.name d.drafts.items)) }
    // What is formed and spells the lexemes is read, unless memory runs out.
    ensures only { (name : List ℕ) (drafts : List Draft_) → IsName name → AreFormed drafts → lexemes.now ≡ spell_service name drafts
        → Gives {Y = List ℕ × List Draft_} (λ d. (d.name, d.drafts.items)) result (Some (name, drafts)) }
{
    whole_service(alloc, lexemes)
}
