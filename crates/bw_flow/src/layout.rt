//! The points of sessions, blocks and statements, one behind the other.
ghost use Rattle.std.specs.Prelude.{◌≡◌, ◌+◌, ◌≤◌, ◌++◌, IfOk, OnOk, [], length};
ghost use Rattle.bw_lang.specs.Service.Code.{done};
ghost use Rattle.bw_lang.specs.Service.CodeView.{before};
ghost use Rattle.bw_flow.specs.Layout.{count, points, session_firsts, session_steps};
ghost use Rattle.bw_flow.specs.Drawing.{with_code, with_block};
ghost use Rattle.bw_flow.specs.declared.lowering.TheConstants.{MAX_POINTS};

use crate::counting::{begins, block_points, stmt_points};
use crate::draft::Draft;
use crate::point::PointId;
use bw_lang::{Block, Memory, Session, Stmt};
use bw_types::Typed;

impl Draft {
    /// The points of sessions, one session after the other, with the places where they begin. Behind the end of a body,
    /// which ends in `exit`, would be the place `out`.
    pub fn sessions(
        &mut self,
        typed: &Typed,
        sessions: &[Session],
        out: PointId,
    ) -> Result<Vec<PointId>, Memory>
        requires scope { self.old.scope ≡ [] }
        requires room { length self.old.steps + points sessions.now ≤ MAX_POINTS }
        ensures firsts { IfOk result (λ f. f.items ≡ session_firsts sessions.now (length self.old.steps) out) }
        ensures steps { OnOk result (self.new.steps ≡ self.old.steps
            ++ session_steps typed.now.service sessions.now self.old.number (length self.old.steps) out) }
    {
        let mut firsts = Vec::new(self.alloc());
        for session in sessions {
            let first = begins(block_points(&session.body), self.len(), out);
            self.block(typed, &session.body, 0, out)?;
            firsts.push(first)?;
        }
        Ok(firsts)
    }

    /// The points of a block, whose locals are out of scope behind it.
    #[tactic(auto, using(crate::proofs::Codes::stmt_size_at_read))]
    #[cycle(block)]
    fn block(
        &mut self,
        typed: &Typed,
        block: &Block,
        inside: u32,
        next: PointId,
    ) -> Result<(), Memory>
        requires room { length self.old.steps + count block.now ≤ MAX_POINTS }
        requires inside { inside ≤ length self.old.steps }
        ensures { OnOk result (self.new ≡ with_block typed.now.service self.old block.now inside next) }
    {
        let depth = self.depth();
        let end = self.len() + block_points(block);
        for stmt in block.as_slice() {
            let behind = self.len() + stmt_points(stmt);
            let later = end.saturating_sub(behind);
            self.statement(typed, stmt, inside, begins(later, behind, next))?;
        }
        self.leave(depth);
        Ok(())
    }

    /// The points of one statement. A declaration's local is in scope behind it.
    #[cycle(block)]
    fn statement(
        &mut self,
        typed: &Typed,
        stmt: &Stmt,
        inside: u32,
        next: PointId,
    ) -> Result<(), Memory>
        requires room { length self.old.steps + count (before stmt.now done) ≤ MAX_POINTS }
        requires inside { inside ≤ length self.old.steps }
        ensures { OnOk result (self.new ≡ with_code typed.now.service self.old (before stmt.now done) inside next) }
    {
        match stmt {
            Stmt::Declare { kind, name, value } => {
                self.declaration(*kind, name, value, inside, next)
            }
            Stmt::Assign { name, value } => self.assign(name, value, inside, next),
            Stmt::If { test, yes, no } => match no {
                None => {
                    let fork = self.if_head(test, yes, inside)?;
                    self.block(typed, yes, inside, fork.join)?;
                    self.join(fork.number, inside, next)
                }
                Some(no) => {
                    let fork = self.if_else_head(test, yes, no, inside)?;
                    self.block(typed, yes, inside, fork.join)?;
                    self.block(typed, no, inside, fork.join)?;
                    self.join(fork.number, inside, next)
                }
            },
            Stmt::While { test, body } => {
                let head = self.while_head(test, body, inside, next)?;
                self.block(typed, body, inside, head)
            }
            Stmt::Each { name, value, body } => {
                let outside = self.depth();
                let foreach = self.foreach_head(name, value, body, inside, next)?;
                self.block(typed, body, foreach.inside, foreach.head)?;
                self.leave(outside);
                Ok(())
            }
            Stmt::Block(block) => self.block(typed, block, inside, next),
            Stmt::Show { page, receives } => self.show(typed, page, receives, inside, next),
            Stmt::Exit { page } => self.exit(page, inside),
        }
    }
}
