//! What tokens say, and what stands at the front of a list of them.
ghost use Rattle.std.specs.Prelude.{◌≡◌, ◌<◌, ◌∷◌, [], length, IfSome, MatchOption};
ghost use Rattle.bw_lang.specs.Text.Words.{op_sign};
ghost use Rattle.bw_lang.specs.Text.Levels.{op_level};
ghost use Rattle.bw_parse.specs.Steps.Fronts as front;
ghost use Rattle.bw_parse.specs.Gives.{Finds};

use bw_lang::{Fun, Kind, Lexeme, Name, Op, is_keyword};

/// What a word means where an expression may stand.
#[derive(Clone, Copy, PartialEq, Eq)]
pub enum Meaning {
    Truth(bool),
    Function(Fun),
    /// The list of no strings.
    Nothing,
    /// Another keyword.
    Other,
    /// A name.
    Free,
}

fn op_of(sign: &[u8]) -> Option<Op>
    ensures { result ≡ front.op_of sign.now }
{
    match sign {
        b"||" => Some(Op::Or),
        b"&&" => Some(Op::And),
        b"==" => Some(Op::Eq),
        b"!=" => Some(Op::Ne),
        b"<" => Some(Op::Lt),
        b"<=" => Some(Op::Le),
        b">" => Some(Op::Gt),
        b">=" => Some(Op::Ge),
        b"+" => Some(Op::Add),
        b"-" => Some(Op::Sub),
        b"*" => Some(Op::Mul),
        b"/" => Some(Op::Div),
        b"%" => Some(Op::Rem),
        _ => None,
    }
}

fn level_of(op: Op) -> u8
    ensures { result ≡ op_level op }
{
    match op {
        Op::Or => 1,
        Op::And => 2,
        Op::Eq | Op::Ne => 3,
        Op::Lt | Op::Le | Op::Gt | Op::Ge => 4,
        Op::Add | Op::Sub => 5,
        Op::Mul | Op::Div | Op::Rem => 6,
    }
}

#[tactic(auto, unfolding(crate::specs::Steps::Fronts::meaning))]
pub(crate) fn meaning_of(word: &str) -> Meaning
    ensures { result ≡ front.meaning word.now }
{
    match word {
        "true" => Meaning::Truth(true),
        "false" => Meaning::Truth(false),
        "text" => Meaning::Function(Fun::Text),
        "number" => Meaning::Function(Fun::Number),
        "isnumber" => Meaning::Function(Fun::IsNumber),
        "count" => Meaning::Function(Fun::Count),
        "none" => Meaning::Nothing,
        _ => {
            if is_keyword(word) {
                Meaning::Other
            } else {
                Meaning::Free
            }
        }
    }
}

fn kind_of(word: &str) -> Option<Kind>
    ensures { result ≡ front.kind_of word.now }
{
    match word {
        "int" => Some(Kind::Int),
        "bool" => Some(Kind::Bool),
        "string" => Some(Kind::Str),
        "html" => Some(Kind::Html),
        "strings" => Some(Kind::Strs),
        _ => None,
    }
}

/// The first lexeme, and those that follow it.
pub(crate) fn first(lexemes: &[Lexeme]) -> Option<(&Lexeme, &[Lexeme])>
    ensures { MatchOption result (lexemes.now ≡ []) (λ x. lexemes.now ≡ x.0.now ∷ x.1.now) }
{
    match lexemes {
        [] => None,
        [lexeme, rest @ ..] => Some((lexeme, rest)),
    }
}

/// What follows this sign.
#[tactic(auto, unfolding(crate::specs::Steps::Fronts::behind))]
pub(crate) fn after<'a>(sign: &[u8], lexemes: &'a [Lexeme]) -> Option<&'a [Lexeme]>
    ensures value { Finds (λ k. k.now) result (front.behind sign.now lexemes.now) }
    ensures shorter { IfSome result (λ k. length k.now < length lexemes.now) }
{
    match lexemes {
        [Lexeme::Sign(other), rest @ ..] => {
            if other.as_slice() == sign {
                Some(rest)
            } else {
                None
            }
        }
        _ => None,
    }
}

/// What follows this keyword.
#[tactic(auto, unfolding(crate::specs::Steps::Fronts::keyword))]
pub(crate) fn keyword<'a>(word: &str, lexemes: &'a [Lexeme]) -> Option<&'a [Lexeme]>
    ensures value { Finds (λ k. k.now) result (front.keyword word.now lexemes.now) }
    ensures shorter { IfSome result (λ k. length k.now < length lexemes.now) }
{
    match lexemes {
        [Lexeme::Word(other), rest @ ..] => {
            if other.as_str() == word {
                Some(rest)
            } else {
                None
            }
        }
        _ => None,
    }
}

/// A word, and what follows it.
#[tactic(auto, unfolding(crate::specs::Steps::Fronts::word))]
pub(crate) fn word(lexemes: &[Lexeme]) -> Option<(&Name, &[Lexeme])>
    ensures value { Finds (λ x. (x.0.now, x.1.now)) result (front.word lexemes.now) }
    ensures shorter { IfSome result (λ x. length x.1.now < length lexemes.now) }
{
    match lexemes {
        [Lexeme::Word(word), rest @ ..] => Some((word, rest)),
        _ => None,
    }
}

/// A word that is no keyword, and what follows it.
#[tactic(auto, unfolding(crate::specs::Steps::Fronts::named))]
pub(crate) fn name(lexemes: &[Lexeme]) -> Option<(&Name, &[Lexeme])>
    ensures value { Finds (λ x. (x.0.now, x.1.now)) result (front.named lexemes.now) }
    ensures shorter { IfSome result (λ x. length x.1.now < length lexemes.now) }
{
    let (word, rest) = word(lexemes)?;
    if is_keyword(word.as_str()) {
        None
    } else {
        Some((word, rest))
    }
}

/// A kind, and what follows it.
#[tactic(auto, unfolding(crate::specs::Steps::Fronts::kind))]
pub(crate) fn kind(lexemes: &[Lexeme]) -> Option<(Kind, &[Lexeme])>
    ensures value { Finds (λ x. (x.0, x.1.now)) result (front.kind lexemes.now) }
    ensures shorter { IfSome result (λ x. length x.1.now < length lexemes.now) }
{
    let (word, rest) = word(lexemes)?;
    let kind = kind_of(word.as_str())?;
    Some((kind, rest))
}

/// A kind that a shared variable may have, and what follows it.
#[tactic(auto, unfolding(crate::specs::Steps::Fronts::shared_kind))]
pub(crate) fn shared_kind(lexemes: &[Lexeme]) -> Option<(Kind, &[Lexeme])>
    ensures value { Finds (λ x. (x.0, x.1.now)) result (front.shared_kind lexemes.now) }
    ensures shorter { IfSome result (λ x. length x.1.now < length lexemes.now) }
{
    let (kind, rest) = kind(lexemes)?;
    match kind {
        Kind::Strs => None,
        Kind::Int | Kind::Bool | Kind::Str | Kind::Html => Some((kind, rest)),
    }
}

/// An operator of this level, and what follows it.
#[tactic(auto, unfolding(crate::specs::Steps::Fronts::operator))]
pub(crate) fn operator(level: u8, lexemes: &[Lexeme]) -> Option<(Op, &[Lexeme])>
    ensures value { Finds (λ x. (x.0, x.1.now)) result (front.operator level lexemes.now) }
    ensures shorter { IfSome result (λ x. length x.1.now < length lexemes.now) }
{
    match lexemes {
        [Lexeme::Sign(sign), rest @ ..] => match op_of(sign.as_slice()) {
            Some(op) => {
                if level_of(op) == level {
                    Some((op, rest))
                } else {
                    None
                }
            }
            None => None,
        },
        _ => None,
    }
}
