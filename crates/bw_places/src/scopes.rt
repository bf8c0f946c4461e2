//! Which locals are in scope at a token of a session.
ghost use Rattle.std.specs.Prelude.{◌≡◌, ◌<◌, ◌+◌, ◌^◌, ◌++◌, [], ◌∷◌, OnOk};
ghost use Rattle.bw_lang.specs.Service.Code.{done};
ghost use Rattle.bw_lang.specs.Service.CodeView.{before};
ghost use Rattle.bw_places.specs.Counts as counts;
ghost use Rattle.bw_places.specs.Scopes as spec;

use crate::counting::{block_tokens, expr_tokens, stmt_tokens};
use bw_lang::{Block, Memory, Name, Stmt, Text, Words};
use std::alloc::Global;

/// One name more.
fn push_name(alloc: Global, names: &mut Words, name: &Name) -> Result<(), Memory>
    ensures { OnOk result (names.new ≡ names.old ++ name.now ∷ []) }
{
    names.push(Text::of(alloc, name.as_str())?)
}

/// The local that a statement declares behind itself.
fn push_declared(alloc: Global, names: &mut Words, stmt: &Stmt) -> Result<(), Memory>
    ensures { OnOk result (names.new ≡ spec.behind_stmt stmt.now names.old) }
{
    match stmt {
        Stmt::Declare { name, .. } => push_name(alloc, names, name),
        _ => Ok(()),
    }
}

/// The locals in scope at the token `to` of a block whose first token is `at`, behind those around it.
#[tactic(auto, using(bw_lang::proofs::Sizes::size_steps))]
#[cycle(scope)]
pub fn locals_at(
    alloc: Global,
    block: &Block,
    at: usize,
    to: usize,
    names: &mut Words,
) -> Result<(), Memory>
    requires { at + counts.code_tokens block.now < 2 ^ 63 }
    ensures { OnOk result (names.new ≡ spec.locals_at block.now at to names.old) }
{
    let mut place = at;
    for stmt in block.as_slice() {
        let behind = place + stmt_tokens(stmt);
        if to < behind {
            return locals_in(alloc, stmt, place, to, names);
        }
        push_declared(alloc, names, stmt)?;
        place = behind;
    }
    Ok(())
}

/// The same at a token of a statement.
#[cycle(scope)]
fn locals_in(
    alloc: Global,
    stmt: &Stmt,
    at: usize,
    to: usize,
    names: &mut Words,
) -> Result<(), Memory>
    requires few { at + counts.code_tokens (before stmt.now done) < 2 ^ 63 }
    requires inside { to < at + counts.code_tokens (before stmt.now done) }
    ensures { OnOk result (names.new ≡ spec.locals_at (before stmt.now done) at to names.old) }
{
    match stmt {
        Stmt::If { test, yes, no } => {
            let first = at + 4 + expr_tokens(test);
            let end = first + block_tokens(yes);
            match no {
                Some(no) if end < to => locals_at(alloc, no, end + 3, to, names),
                _ => locals_at(alloc, yes, first, to, names),
            }
        }
        Stmt::While { test, body } => {
            locals_at(alloc, body, at + 4 + expr_tokens(test), to, names)
        }
        Stmt::Block(block) => locals_at(alloc, block, at + 1, to, names),
        Stmt::Each { name, value, body } => {
            let first = at + 6 + expr_tokens(value);
            if to < first {
                return Ok(());
            }
            push_name(alloc, names, name)?;
            locals_at(alloc, body, first, to, names)
        }
        Stmt::Declare { .. } | Stmt::Assign { .. } | Stmt::Show { .. } | Stmt::Exit { .. } => {
            Ok(())
        }
    }
}
