//! Expressions are parsed.
ghost use Rattle.std.specs.Prelude.{◌≡◌, ◌==◌, ◌+◌, ◌<◌, ◌≤◌, ◌^◌, pos, length, IfOk};
ghost use Rattle.bw_lang.specs.Text.Levels.{left_level};
ghost use Rattle.bw_lang.specs.Service.TermView.{term};
ghost use Rattle.bw_parse.specs.Steps.Expressions.{parse, parse_more, parse_prefix, parse_plugs, parse_pairs, parse_atom, parse_inside, parse_word, number_at};
ghost use Rattle.bw_parse.specs.Gives.{Gives};

use crate::fault::ParseFault;
use crate::lexemes::{Meaning, after, first, meaning_of, operator, word};
use bw_lang::{Expr, Lexeme, Name, Pair, Pairs, Part};
use std::alloc::Global;

/// An expression of the level or of a tighter one, and what follows it. The levels are those of docs/LANGUAGE.md;
/// here 8 stands for 9 too.
#[cycle(expression)]
#[tactic(auto, using(crate::proofs::Steps::equations))]
pub(crate) fn expr(
    alloc: Global,
    level: u8,
    lexemes: &[Lexeme],
) -> Result<(Expr, &[Lexeme]), ParseFault>
    requires { level ≤ 8 }
    ensures value { Gives (λ x. (term x.0, x.1.now)) result (parse level lexemes.now) }
    ensures shorter { IfOk result (λ x. length x.1.now < length lexemes.now) }
{
    if level < 7 {
        let (left, rest) = expr(alloc, level + 1, lexemes)?;
        more(alloc, level, left, rest)
    } else if level == 7 {
        prefix(alloc, lexemes)
    } else {
        let (base, rest) = atom(alloc, lexemes)?;
        plugs(alloc, base, rest)
    }
}

/// The operators of the level behind a left operand, with their right operands.
#[cycle(expression)]
#[tactic(auto, using(crate::proofs::Steps::equations))]
fn more(
    alloc: Global,
    level: u8,
    left: Expr,
    lexemes: &[Lexeme],
) -> Result<(Expr, &[Lexeme]), ParseFault>
    requires { level < 7 }
    ensures value { Gives (λ x. (term x.0, x.1.now)) result (parse_more level (term left) lexemes.now) }
    ensures shorter { IfOk result (λ x. length x.1.now ≤ length lexemes.now) }
{
    match operator(level, lexemes) {
        None => Ok((left, lexemes)),
        Some((op, rest)) => {
            let (right, rest) = expr(alloc, level + 1, rest)?;
            let all = Expr::Binary {
                op,
                left: Part::of(alloc, left)?,
                right: Part::of(alloc, right)?,
            };
            if groups(level) {
                more(alloc, level, all, rest)
            } else {
                Ok((all, rest))
            }
        }
    }
}

/// Whether operators of the level group to the left; those that compare don't.
fn groups(level: u8) -> bool
    ensures { result ≡ (left_level level == level) }
{
    level != 3 && level != 4
}

/// `!` or `-` and its operand, or an expression that binds tighter.
#[cycle(expression)]
#[tactic(auto, using(crate::proofs::Steps::equations))]
fn prefix(alloc: Global, lexemes: &[Lexeme]) -> Result<(Expr, &[Lexeme]), ParseFault>
    ensures value { Gives (λ x. (term x.0, x.1.now)) result (parse_prefix lexemes.now) }
    ensures shorter { IfOk result (λ x. length x.1.now < length lexemes.now) }
{
    if let Some(rest) = after(b"!", lexemes) {
        let (inner, rest) = expr(alloc, 7, rest)?;
        Ok((Expr::Not(Part::of(alloc, inner)?), rest))
    } else if let Some(rest) = after(b"-", lexemes) {
        let (inner, rest) = expr(alloc, 7, rest)?;
        Ok((Expr::Neg(Part::of(alloc, inner)?), rest))
    } else {
        expr(alloc, 8, lexemes)
    }
}

/// The plugs behind a base.
#[cycle(expression)]
#[tactic(auto, using(crate::proofs::Steps::equations))]
fn plugs(alloc: Global, base: Expr, lexemes: &[Lexeme]) -> Result<(Expr, &[Lexeme]), ParseFault>
    ensures value { Gives (λ x. (term x.0, x.1.now)) result (parse_plugs (term base) lexemes.now) }
    ensures shorter { IfOk result (λ x. length x.1.now ≤ length lexemes.now) }
{
    match after(b"<[", lexemes) {
        None => Ok((base, lexemes)),
        Some(rest) => {
            let (list, rest) = pairs(alloc, Pairs::new(alloc), rest)?;
            match after(b"]", rest) {
                None => Err(ParseFault::Syntax(rest.len())),
                Some(rest) => {
                    let all = Expr::Plug {
                        base: Part::of(alloc, base)?,
                        pairs: list,
                    };
                    plugs(alloc, all, rest)
                }
            }
        }
    }
}

/// Pairs with commas between them, behind those that are there.
#[cycle(expression)]
#[tactic(auto, using(crate::proofs::Steps::equations))]
fn pairs(
    alloc: Global,
    mut front: Pairs,
    lexemes: &[Lexeme],
) -> Result<(Pairs, &[Lexeme]), ParseFault>
    ensures value { Gives (λ x. (x.0, x.1.now)) result (parse_pairs front lexemes.now) }
    ensures shorter { IfOk result (λ x. length x.1.now < length lexemes.now) }
{
    let Some((gap, rest)) = word(lexemes) else {
        return Err(ParseFault::Syntax(lexemes.len()));
    };
    let Some(rest) = after(b"=", rest) else {
        return Err(ParseFault::Syntax(rest.len()));
    };
    let (value, rest) = expr(alloc, 1, rest)?;
    let gap = gap.copy()?;
    front.push(Pair { gap, value })?;
    match after(b",", rest) {
        Some(rest) => pairs(alloc, front, rest),
        None => Ok((front, rest)),
    }
}

/// An expression that no operator opens.
#[cycle(expression)]
#[tactic(auto, using(crate::proofs::Steps::equations))]
fn atom(alloc: Global, lexemes: &[Lexeme]) -> Result<(Expr, &[Lexeme]), ParseFault>
    ensures value { Gives (λ x. (term x.0, x.1.now)) result (parse_atom lexemes.now) }
    ensures shorter { IfOk result (λ x. length x.1.now < length lexemes.now) }
{
    let Some((lexeme, rest)) = first(lexemes) else {
        return Err(ParseFault::Syntax(0));
    };
    match lexeme {
        Lexeme::Number(number) => whole(*number, lexemes.len(), rest),
        Lexeme::Str(text) => Ok((Expr::Str(text.copy()?), rest)),
        Lexeme::Word(word) => {
            let meaning = meaning_of(word.as_str());
            by_meaning(alloc, word, meaning, lexemes.len(), rest)
        }
        Lexeme::Template(_) => Err(ParseFault::Syntax(lexemes.len())),
        Lexeme::Sign(_) => match after(b"(", lexemes) {
            None => Err(ParseFault::Syntax(lexemes.len())),
            Some(rest) => {
                let (inner, rest) = inside(alloc, rest)?;
                Ok((Expr::Paren(Part::of(alloc, inner)?), rest))
            }
        },
    }
}

/// A number, which is below 2^63 in every text, where so many lexemes are left at it.
fn whole(number: u64, left: usize, rest: &[Lexeme]) -> Result<(Expr, &[Lexeme]), ParseFault>
    ensures value { Gives (λ x. (term x.0, x.1.now)) result (number_at number rest.now) }
    ensures rest { IfOk result (λ x. x.1.now ≡ rest.now) }
{
    if number < 9_223_372_036_854_775_808 {
        Ok((Expr::Int(number as i64), rest))
    } else {
        Err(ParseFault::Syntax(left))
    }
}

/// An expression and the closing parenthesis.
#[cycle(expression)]
#[tactic(auto, using(crate::proofs::Steps::equations))]
pub(crate) fn inside(alloc: Global, lexemes: &[Lexeme]) -> Result<(Expr, &[Lexeme]), ParseFault>
    ensures value { Gives (λ x. (term x.0, x.1.now)) result (parse_inside lexemes.now) }
    ensures shorter { IfOk result (λ x. length x.1.now < length lexemes.now) }
{
    let (inner, rest) = expr(alloc, 1, lexemes)?;
    match after(b")", rest) {
        None => Err(ParseFault::Syntax(rest.len())),
        Some(rest) => Ok((inner, rest)),
    }
}

/// What a word of this meaning begins, where so many lexemes are left at it.
#[cycle(expression)]
#[tactic(auto, using(crate::proofs::Steps::equations))]
fn by_meaning<'a>(
    alloc: Global,
    word: &Name,
    meaning: Meaning,
    left: usize,
    rest: &'a [Lexeme],
) -> Result<(Expr, &'a [Lexeme]), ParseFault>
    ensures value { Gives (λ x. (term x.0, x.1.now)) result (parse_word word.now meaning rest.now) }
    ensures shorter { IfOk result (λ x. length x.1.now ≤ length rest.now) }
{
    match meaning {
        Meaning::Truth(truth) => Ok((Expr::Bool(truth), rest)),
        Meaning::Nothing => Ok((Expr::Nothing, rest)),
        Meaning::Other => Err(ParseFault::Syntax(left)),
        Meaning::Free => Ok((Expr::Name(word.copy()?), rest)),
        Meaning::Function(fun) => match after(b"(", rest) {
            None => Err(ParseFault::Syntax(rest.len())),
            Some(rest) => {
                let (inner, rest) = inside(alloc, rest)?;
                let arg = Part::of(alloc, inner)?;
                Ok((Expr::Call { fun, arg }, rest))
            }
        },
    }
}
