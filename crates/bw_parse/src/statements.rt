//! Statements are parsed.
ghost use Rattle.std.specs.Prelude.{◌≡◌, ◌<◌, ◌≤◌, [], length, IfOk};
ghost use Rattle.bw_lang.specs.Service.Code.{done};
ghost use Rattle.bw_lang.specs.Service.CodeView.{before};
ghost use Rattle.bw_lang.specs.Service.TermView.{term};
ghost use Rattle.bw_parse.specs.Gives.{Gives};
ghost use Rattle.bw_parse.specs.Steps.Statements as spec;

use crate::expressions::{expr, inside};
use crate::fault::ParseFault;
use crate::lexemes::{after, keyword, kind, name, word};
use bw_lang::{Block, Expr, Kind, Lexeme, Name, Receive, Receives, Stmt};
use std::alloc::Global;

/// A statement list between two braces.
#[cycle(statement)]
#[tactic(auto, using(crate::proofs::CodeSteps::code_equations))]
fn braces(alloc: Global, lexemes: &[Lexeme]) -> Result<(Block, &[Lexeme]), ParseFault>
    ensures value { Gives (λ x. (x.0, x.1.now)) result (spec.parse_braces lexemes.now) }
    ensures shorter { IfOk result (λ x. length x.1.now < length lexemes.now) }
{
    match after(b"{", lexemes) {
        None => Err(ParseFault::Syntax(lexemes.len())),
        Some(rest) => block(alloc, rest),
    }
}

/// The statements up to the closing brace.
#[cycle(statement)]
#[tactic(auto, using(crate::proofs::CodeSteps::code_equations))]
pub(crate) fn block(alloc: Global, lexemes: &[Lexeme]) -> Result<(Block, &[Lexeme]), ParseFault>
    ensures value { Gives (λ x. (x.0, x.1.now)) result (spec.parse_code lexemes.now) }
    ensures shorter { IfOk result (λ x. length x.1.now < length lexemes.now) }
{
    let mut list = Vec::new(alloc);
    let mut rest = lexemes;
    'statements: loop {
        match after(b"}", rest) {
            Some(next) => return Ok((Block::from_vec(list), next)),
            None => {
                let (stmt, next) = statement(alloc, rest)?;
                list.push(stmt)?;
                rest = next;
            }
        }
    }
}

#[cycle(statement)]
#[tactic(auto, using(crate::proofs::CodeSteps::code_equations))]
fn statement(alloc: Global, lexemes: &[Lexeme]) -> Result<(Stmt, &[Lexeme]), ParseFault>
    ensures value { Gives (λ x. (before x.0 done, x.1.now)) result (spec.parse_one lexemes.now) }
    ensures shorter { IfOk result (λ x. length x.1.now < length lexemes.now) }
{
    if let Some(rest) = keyword("if", lexemes) {
        if_statement(alloc, rest)
    } else if let Some(rest) = keyword("while", lexemes) {
        while_statement(alloc, rest)
    } else if let Some(rest) = keyword("foreach", lexemes) {
        each_statement(alloc, rest)
    } else if let Some(rest) = after(b"{", lexemes) {
        let (body, rest) = block(alloc, rest)?;
        Ok((Stmt::Block(body), rest))
    } else {
        simple(alloc, lexemes)
    }
}

/// Behind `if`.
#[cycle(statement)]
#[tactic(auto, unfolding(crate::specs::Steps::Statements::parse_if))]
fn if_statement(alloc: Global, lexemes: &[Lexeme]) -> Result<(Stmt, &[Lexeme]), ParseFault>
    ensures value { Gives (λ x. (before x.0 done, x.1.now)) result (spec.parse_if lexemes.now) }
    ensures shorter { IfOk result (λ x. length x.1.now < length lexemes.now) }
{
    let (test, rest) = condition(alloc, lexemes)?;
    let (yes, rest) = braces(alloc, rest)?;
    match keyword("else", rest) {
        None => Ok((
            Stmt::If {
                test,
                yes,
                no: None,
            },
            rest,
        )),
        Some(rest) => {
            let (other, rest) = braces(alloc, rest)?;
            let no = Some(other);
            Ok((Stmt::If { test, yes, no }, rest))
        }
    }
}

/// Behind `while`.
#[cycle(statement)]
#[tactic(auto, unfolding(crate::specs::Steps::Statements::parse_while))]
fn while_statement(alloc: Global, lexemes: &[Lexeme]) -> Result<(Stmt, &[Lexeme]), ParseFault>
    ensures value { Gives (λ x. (before x.0 done, x.1.now)) result (spec.parse_while lexemes.now) }
    ensures shorter { IfOk result (λ x. length x.1.now < length lexemes.now) }
{
    let (test, rest) = condition(alloc, lexemes)?;
    let (body, rest) = braces(alloc, rest)?;
    Ok((Stmt::While { test, body }, rest))
}

/// Behind `foreach`.
#[cycle(statement)]
#[tactic(auto, unfolding(crate::specs::Steps::Statements::parse_each))]
fn each_statement(alloc: Global, lexemes: &[Lexeme]) -> Result<(Stmt, &[Lexeme]), ParseFault>
    ensures value { Gives (λ x. (before x.0 done, x.1.now)) result (spec.parse_each lexemes.now) }
    ensures shorter { IfOk result (λ x. length x.1.now < length lexemes.now) }
{
    let (name, value, rest) = each_head(alloc, lexemes)?;
    let (body, rest) = braces(alloc, rest)?;
    Ok((Stmt::Each { name, value, body }, rest))
}

/// `(NAME in LIST)`
#[tactic(auto, unfolding(crate::specs::Steps::Statements::each_head))]
fn each_head(alloc: Global, lexemes: &[Lexeme]) -> Result<(Name, Expr, &[Lexeme]), ParseFault>
    ensures value { Gives (λ x. ((x.0, term x.1), x.2.now)) result (spec.each_head lexemes.now) }
    ensures shorter { IfOk result (λ x. length x.2.now < length lexemes.now) }
{
    let Some(rest) = after(b"(", lexemes) else {
        return Err(ParseFault::Syntax(lexemes.len()));
    };
    let Some((name, rest)) = name(rest) else {
        return Err(ParseFault::Syntax(rest.len()));
    };
    let Some(rest) = keyword("in", rest) else {
        return Err(ParseFault::Syntax(rest.len()));
    };
    let (list, rest) = inside(alloc, rest)?;
    Ok((name.copy()?, list, rest))
}

/// A test in parentheses.
#[tactic(auto, unfolding(crate::specs::Steps::Statements::condition))]
fn condition(alloc: Global, lexemes: &[Lexeme]) -> Result<(Expr, &[Lexeme]), ParseFault>
    ensures value { Gives (λ x. (term x.0, x.1.now)) result (spec.condition lexemes.now) }
    ensures shorter { IfOk result (λ x. length x.1.now < length lexemes.now) }
{
    match after(b"(", lexemes) {
        None => Err(ParseFault::Syntax(lexemes.len())),
        Some(rest) => inside(alloc, rest),
    }
}

/// A statement without statements in it.
#[tactic(auto, unfolding(crate::specs::Steps::Statements::simple))]
fn simple(alloc: Global, lexemes: &[Lexeme]) -> Result<(Stmt, &[Lexeme]), ParseFault>
    ensures value { Gives (λ x. (before x.0 done, x.1.now)) result (spec.simple lexemes.now) }
    ensures shorter { IfOk result (λ x. length x.1.now < length lexemes.now) }
{
    if let Some(rest) = keyword("show", lexemes) {
        show_statement(alloc, rest)
    } else if let Some(rest) = keyword("exit", lexemes) {
        exit_statement(alloc, rest)
    } else if let Some((kind, rest)) = kind(lexemes) {
        declaration(alloc, kind, rest)
    } else {
        assignment(alloc, lexemes)
    }
}

/// Behind `show`.
#[tactic(auto, unfolding(crate::specs::Steps::Statements::parse_show))]
fn show_statement(alloc: Global, lexemes: &[Lexeme]) -> Result<(Stmt, &[Lexeme]), ParseFault>
    ensures value { Gives (λ x. (before x.0 done, x.1.now)) result (spec.parse_show lexemes.now) }
    ensures shorter { IfOk result (λ x. length x.1.now < length lexemes.now) }
{
    let (page, rest) = expr(alloc, 1, lexemes)?;
    let (receives, rest) = receives(alloc, rest)?;
    match after(b";", rest) {
        None => Err(ParseFault::Syntax(rest.len())),
        Some(rest) => Ok((Stmt::Show { page, receives }, rest)),
    }
}

/// Behind `exit`.
#[tactic(auto, unfolding(crate::specs::Steps::Statements::parse_exit))]
fn exit_statement(alloc: Global, lexemes: &[Lexeme]) -> Result<(Stmt, &[Lexeme]), ParseFault>
    ensures value { Gives (λ x. (before x.0 done, x.1.now)) result (spec.parse_exit lexemes.now) }
    ensures shorter { IfOk result (λ x. length x.1.now < length lexemes.now) }
{
    let (page, rest) = expr(alloc, 1, lexemes)?;
    match after(b";", rest) {
        None => Err(ParseFault::Syntax(rest.len())),
        Some(rest) => Ok((Stmt::Exit { page }, rest)),
    }
}

/// Behind a kind.
#[tactic(auto, unfolding(crate::specs::Steps::Statements::parse_declare))]
fn declaration(
    alloc: Global,
    kind: Kind,
    lexemes: &[Lexeme],
) -> Result<(Stmt, &[Lexeme]), ParseFault>
    ensures value { Gives (λ x. (before x.0 done, x.1.now)) result (spec.parse_declare kind lexemes.now) }
    ensures shorter { IfOk result (λ x. length x.1.now < length lexemes.now) }
{
    let (name, value, rest) = valued(alloc, lexemes)?;
    Ok((Stmt::Declare { kind, name, value }, rest))
}

#[tactic(auto, unfolding(crate::specs::Steps::Statements::parse_assign))]
fn assignment(alloc: Global, lexemes: &[Lexeme]) -> Result<(Stmt, &[Lexeme]), ParseFault>
    ensures value { Gives (λ x. (before x.0 done, x.1.now)) result (spec.parse_assign lexemes.now) }
    ensures shorter { IfOk result (λ x. length x.1.now < length lexemes.now) }
{
    let (name, value, rest) = valued(alloc, lexemes)?;
    Ok((Stmt::Assign { name, value }, rest))
}

/// `NAME = VALUE;`
#[tactic(auto, unfolding(crate::specs::Steps::Statements::valued))]
fn valued(alloc: Global, lexemes: &[Lexeme]) -> Result<(Name, Expr, &[Lexeme]), ParseFault>
    ensures value { Gives (λ x. ((x.0, term x.1), x.2.now)) result (spec.valued lexemes.now) }
    ensures shorter { IfOk result (λ x. length x.2.now < length lexemes.now) }
{
    let Some((name, rest)) = name(lexemes) else {
        return Err(ParseFault::Syntax(lexemes.len()));
    };
    let Some(rest) = after(b"=", rest) else {
        return Err(ParseFault::Syntax(rest.len()));
    };
    let (value, rest) = expr(alloc, 1, rest)?;
    let Some(rest) = after(b";", rest) else {
        return Err(ParseFault::Syntax(rest.len()));
    };
    Ok((name.copy()?, value, rest))
}

/// `receive [..]`, or nothing.
#[tactic(auto, unfolding(crate::specs::Steps::Statements::parse_receives))]
fn receives(alloc: Global, lexemes: &[Lexeme]) -> Result<(Receives, &[Lexeme]), ParseFault>
    ensures value { Gives (λ x. (x.0, x.1.now)) result (spec.parse_receives lexemes.now) }
    ensures shorter { IfOk result (λ x. length x.1.now ≤ length lexemes.now) }
{
    let Some(rest) = keyword("receive", lexemes) else {
        return Ok((Receives::from_vec(Vec::new(alloc)), lexemes));
    };
    let Some(rest) = after(b"[", rest) else {
        return Err(ParseFault::Syntax(rest.len()));
    };
    let (all, rest) = receive_list(alloc, rest)?;
    match after(b"]", rest) {
        None => Err(ParseFault::Syntax(rest.len())),
        Some(rest) => Ok((all, rest)),
    }
}

/// Receives with commas between them.
#[tactic(auto, using(crate::proofs::ReceiveSteps::receive_equations))]
fn receive_list(alloc: Global, lexemes: &[Lexeme]) -> Result<(Receives, &[Lexeme]), ParseFault>
    ensures value { Gives (λ x. (x.0, x.1.now)) result (spec.parse_list [] lexemes.now) }
    ensures shorter { IfOk result (λ x. length x.1.now < length lexemes.now) }
{
    let mut list = Vec::new(alloc);
    let mut rest = lexemes;
    'receives: loop {
        let (receive, next) = receive(rest)?;
        list.push(receive)?;
        match after(b",", next) {
            None => return Ok((Receives::from_vec(list), next)),
            Some(next) => rest = next,
        }
    }
}

/// `TARGET = FIELD`
#[tactic(auto, unfolding(crate::specs::Steps::Statements::receive))]
fn receive(lexemes: &[Lexeme]) -> Result<(Receive, &[Lexeme]), ParseFault>
    ensures value { Gives (λ x. (x.0, x.1.now)) result (spec.receive lexemes.now) }
    ensures shorter { IfOk result (λ x. length x.1.now < length lexemes.now) }
{
    let Some((target, rest)) = name(lexemes) else {
        return Err(ParseFault::Syntax(lexemes.len()));
    };
    let Some(rest) = after(b"=", rest) else {
        return Err(ParseFault::Syntax(rest.len()));
    };
    let Some((field, rest)) = word(rest) else {
        return Err(ParseFault::Syntax(rest.len()));
    };
    let target = target.copy()?;
    let field = field.copy()?;
    Ok((Receive { target, field }, rest))
}
