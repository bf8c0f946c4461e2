//! How many tokens things are written with.
ghost use Rattle.std.specs.Prelude.{◌≡◌, ◌<◌, ◌+◌, ◌^◌};
ghost use Rattle.bw_lang.specs.Service.Code.{done};
ghost use Rattle.bw_lang.specs.Service.CodeView.{before};
ghost use Rattle.bw_lang.specs.Service.TermView.{term};
ghost use Rattle.bw_places.specs.Counts as spec;
ghost use Rattle.bw_places.specs.Drafted.{draft_of, written_as};

use crate::spelled::Spelled;
use bw_lang::{Block, Expr, Literal, Pairs, Part, Receive, Stmt};

/// The tokens of an expression.
#[cycle(expr)]
pub fn expr_tokens(expr: &Expr) -> usize
    requires { spec.term_tokens (term expr.now) < 2 ^ 63 }
    ensures { result ≡ spec.term_tokens (term expr.now) }
{
    match expr {
        Expr::Int(_) | Expr::Bool(_) | Expr::Str(_) | Expr::Name(_) | Expr::Nothing => 1,
        Expr::Paren(part) => 2 + part_tokens(part),
        Expr::Not(part) | Expr::Neg(part) => 1 + part_tokens(part),
        Expr::Binary { left, right, .. } => 1 + part_tokens(left) + part_tokens(right),
        Expr::Call { arg, .. } => 3 + part_tokens(arg),
        Expr::Plug { base, pairs } => 1 + part_tokens(base) + pair_tokens(pairs),
    }
}

/// The tokens of a part of an expression.
#[cycle(expr)]
fn part_tokens(part: &Part) -> usize
    requires { spec.term_tokens part.now < 2 ^ 63 }
    ensures { result ≡ spec.term_tokens part.now }
{
    expr_tokens(part.expr())
}

/// The tokens of the pairs of a plug, each with the sign in front of it.
#[tactic(auto, using(bw_lang::proofs::Sizes::size_steps))]
#[cycle(expr)]
fn pair_tokens(pairs: &Pairs) -> usize
    requires { spec.pair_tokens pairs.now < 2 ^ 63 }
    ensures { result ≡ spec.pair_tokens pairs.now }
{
    let mut total = 0;
    for pair in pairs.as_slice() {
        total += 3 + expr_tokens(&pair.value);
    }
    total
}

/// The tokens of what is received.
pub fn receive_tokens(receives: &[Receive]) -> usize
    requires { spec.receive_tokens receives.now < 2 ^ 63 }
    ensures { result ≡ spec.receive_tokens receives.now }
{
    if receives.is_empty() {
        0
    } else {
        2 + 4 * receives.len()
    }
}

/// The tokens of the statements of a block.
#[tactic(auto, using(bw_lang::proofs::Sizes::size_steps))]
#[cycle(block)]
pub fn block_tokens(block: &Block) -> usize
    requires { spec.code_tokens block.now < 2 ^ 63 }
    ensures { result ≡ spec.code_tokens block.now }
{
    let mut total = 0;
    for stmt in block.as_slice() {
        total += stmt_tokens(stmt);
    }
    total
}

/// The tokens of a statement.
#[cycle(block)]
pub fn stmt_tokens(stmt: &Stmt) -> usize
    requires { spec.code_tokens (before stmt.now done) < 2 ^ 63 }
    ensures { result ≡ spec.code_tokens (before stmt.now done) }
{
    match stmt {
        Stmt::Declare { value, .. } => 4 + expr_tokens(value),
        Stmt::Assign { value, .. } => 3 + expr_tokens(value),
        Stmt::If { test, yes, no } => match no {
            Some(no) => 8 + expr_tokens(test) + block_tokens(yes) + block_tokens(no),
            None => 5 + expr_tokens(test) + block_tokens(yes),
        },
        Stmt::While { test, body } => 5 + expr_tokens(test) + block_tokens(body),
        Stmt::Block(block) => 2 + block_tokens(block),
        Stmt::Each { value, body, .. } => 7 + expr_tokens(value) + block_tokens(body),
        Stmt::Show { page, receives } => 2
            + expr_tokens(page)
            + receive_tokens(receives.as_slice()),
        Stmt::Exit { page } => 2 + expr_tokens(page),
    }
}

/// The tokens of a literal; of a number one more where `-` stands in front of it.
fn literal_tokens(literal: &Literal, minus: bool) -> usize
    ensures { result ≡ spec.literal_tokens (written_as minus literal.now) }
{
    match literal {
        Literal::Int(_) => { if minus { 2 } else { 1 } }
        Literal::Bool(_) | Literal::Str(_) | Literal::Tmpl(_) => 1,
    }
}

/// The tokens of a declaration.
pub fn declaration_tokens(declaration: &Spelled<'_>) -> usize
    requires { spec.draft_tokens (draft_of declaration.now) < 2 ^ 63 }
    ensures { result ≡ spec.draft_tokens (draft_of declaration.now) }
{
    match declaration {
        Spelled::Template { .. } => 5,
        Spelled::Shared { variable, minus } => 5 + literal_tokens(&variable.init, *minus),
        Spelled::Session(session) => 6 + block_tokens(&session.body),
    }
}
