//! The walk over a service that finds its string literals.
ghost use Rattle.std.specs.Prelude.{◌≡◌, OnOk, flat_map};
ghost use Rattle.bw_lang.specs.Service.Code.{done};
ghost use Rattle.bw_lang.specs.Service.CodeView as code;
ghost use Rattle.bw_lang.specs.Table.Names.{with_names};
ghost use Rattle.bw_lang.specs.Service.Order.{declarations_of, seen};
ghost use Rattle.bw_lang.specs.Service.TermView.{term};
ghost use Rattle.bw_strings.specs.Literals as spec;
ghost use Rattle.bw_strings.specs.Literals.{term_strings, filling_strings, code_strings};

use bw_lang::declaration::Declared;
use bw_lang::{Block, Expr, Literal, Memory, NameTable, Pairs, Service, Stmt};
use std::alloc::Global;

/// Takes in the string literals of a service, in source order.
pub(crate) fn add_strings(
    alloc: Global,
    texts: &mut NameTable,
    service: &Service,
) -> Result<(), Memory>
    ensures { OnOk result (texts.new ≡
        with_names texts.old (flat_map spec.declaration_strings (declarations_of service.now))) }
{
    let declarations = service.declarations(alloc)?;
    for declaration in &declarations {
        note_declaration(texts, declaration)?;
    }
    Ok(())
}

fn note_declaration(texts: &mut NameTable, declaration: &Declared<'_>) -> Result<(), Memory>
    ensures { OnOk result (texts.new ≡ with_names texts.old (spec.declaration_strings (seen declaration.now))) }
{
    match declaration {
        Declared::Template(_) => Ok(()),
        Declared::Shared(variable) => note_literal(texts, &variable.init),
        Declared::Session(session) => note_block(texts, &session.body),
    }
}

/// Takes in the string literal that a shared variable's first value is.
fn note_literal(texts: &mut NameTable, literal: &Literal) -> Result<(), Memory>
    ensures { OnOk result (texts.new ≡ with_names texts.old (spec.literal_strings literal.now)) }
{
    if let Literal::Str(text) = literal {
        texts.add(text.as_str())?;
    }
    Ok(())
}

/// Takes in the string literals of the statements of a block.
#[tactic(auto, using(crate::proofs::Walks::walk_steps, bw_lang::proofs::Sizes::size_steps))]
#[cycle(statements)]
fn note_block(texts: &mut NameTable, block: &Block) -> Result<(), Memory>
    ensures { OnOk result (texts.new ≡ with_names texts.old (code_strings block.now)) }
{
    for stmt in block.as_slice() {
        note_stmt(texts, stmt)?;
    }
    Ok(())
}

#[tactic(auto, using(crate::proofs::Walks::walk_steps, bw_lang::proofs::Sizes::size_steps))]
#[cycle(statements)]
fn note_stmt(texts: &mut NameTable, stmt: &Stmt) -> Result<(), Memory>
    ensures { OnOk result (texts.new ≡ with_names texts.old (code_strings (code.before stmt.now done))) }
{
    match stmt {
        Stmt::Declare { value, .. } | Stmt::Assign { value, .. } => note_expr(texts, value),
        Stmt::If { test, yes, no } => {
            note_expr(texts, test)?;
            note_block(texts, yes)?;
            match no {
                Some(no) => note_block(texts, no),
                None => Ok(()),
            }
        }
        Stmt::While { test, body } => {
            note_expr(texts, test)?;
            note_block(texts, body)
        }
        Stmt::Block(block) => note_block(texts, block),
        Stmt::Each { value, body, .. } => {
            note_expr(texts, value)?;
            note_block(texts, body)
        }
        Stmt::Show { page, .. } | Stmt::Exit { page } => note_expr(texts, page),
    }
}

/// Takes in the string literals of an expression.
#[tactic(auto, using(crate::proofs::Walks::walk_steps, bw_lang::proofs::Sizes::size_steps))]
#[cycle(expression)]
fn note_expr(texts: &mut NameTable, expr: &Expr) -> Result<(), Memory>
    ensures { OnOk result (texts.new ≡ with_names texts.old (term_strings (term expr.now))) }
{
    match expr {
        Expr::Int(_) | Expr::Bool(_) | Expr::Name(_) | Expr::Nothing => Ok(()),
        Expr::Str(text) => {
            texts.add(text.as_str())?;
            Ok(())
        }
        Expr::Paren(part) | Expr::Not(part) | Expr::Neg(part) => note_expr(texts, part.expr()),
        Expr::Binary { left, right, .. } => {
            note_expr(texts, left.expr())?;
            note_expr(texts, right.expr())
        }
        Expr::Call { arg, .. } => note_expr(texts, arg.expr()),
        Expr::Plug { base, pairs } => {
            note_expr(texts, base.expr())?;
            note_pairs(texts, pairs)
        }
    }
}

#[tactic(auto, using(crate::proofs::Walks::walk_steps, bw_lang::proofs::Sizes::size_steps))]
#[cycle(expression)]
fn note_pairs(texts: &mut NameTable, pairs: &Pairs) -> Result<(), Memory>
    ensures { OnOk result (texts.new ≡ with_names texts.old (filling_strings pairs.now)) }
{
    for pair in pairs.as_slice() {
        note_expr(texts, &pair.value)?;
    }
    Ok(())
}
