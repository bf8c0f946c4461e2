//! The locals that a session declares.
ghost use Rattle.std.specs.Prelude.{◌≡◌, ◌<◌, ◌^◌, length};
ghost use Rattle.bw_lang.specs.Service.Code.{done};
ghost use Rattle.bw_lang.specs.Service.CodeView.{before};
ghost use Rattle.bw_lang.specs.Service.CodeNames.{local_names};

use bw_lang::{Block, Stmt};

/// How many locals the statements of a block declare at all levels.
#[tactic(auto, using(crate::proofs::LocalSteps::local_steps, bw_lang::proofs::Sizes::size_steps))]
#[cycle(locals)]
pub(crate) fn in_block(block: &Block) -> u64
    requires { length (local_names block.now) < 2 ^ 64 }
    ensures { result ≡ length (local_names block.now) }
{
    let mut total = 0;
    for stmt in block.as_slice() {
        total += in_statement(stmt);
    }
    total
}

#[tactic(auto, using(crate::proofs::LocalSteps::local_steps, bw_lang::proofs::Sizes::size_steps))]
#[cycle(locals)]
fn in_statement(stmt: &Stmt) -> u64
    requires { length (local_names (before stmt.now done)) < 2 ^ 64 }
    ensures { result ≡ length (local_names (before stmt.now done)) }
{
    match stmt {
        Stmt::Declare { .. } => 1,
        Stmt::Each { body, .. } => 1 + in_block(body),
        Stmt::If {
            yes,
            no: Some(no),
            ..
        } => in_block(yes) + in_block(no),
        Stmt::If {
            yes: body,
            no: None,
            ..
        }
        | Stmt::While { body, .. }
        | Stmt::Block(body) => in_block(body),
        Stmt::Assign { .. } | Stmt::Show { .. } | Stmt::Exit { .. } => 0,
    }
}
