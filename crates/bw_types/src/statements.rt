//! The tests of statements.
ghost use Rattle.std.specs.Prelude.{◌≡◌, ◌++◌, Some, IfOk, IfErr, OnOk, [], ◌∷◌, flat_map};
ghost use Rattle.bw_lang.specs.Service.Code.{done, assign};
ghost use Rattle.bw_lang.specs.Service.CodeView.{before};
ghost use Rattle.bw_lang.specs.Service.TermView.{term};
ghost use Rattle.bw_types.specs.ExpressionFaults.{name_unknown};
ghost use Rattle.bw_types.specs.Faults as spec;
ghost use Rattle.bw_types.specs.First.{IsFirst};
ghost use Rattle.bw_types.specs.Places.{after};
ghost use Rattle.bw_types.specs.Scopes.{variable_kind, with_local, scope_behind};

use crate::fault::TypeFault;
use crate::kinds::demand_of_target;
use crate::locals::Locals;
use crate::names::Names;
use bw_lang::{Block, Expr, Kind, Name, Receive, Stmt};

impl Names<'_> {
    /// The tests of the statements of a block. Behind it its locals are out of scope again, and their names are taken.
    #[tactic(auto, using(bw_lang::proofs::Sizes::size_steps))]
    #[cycle(block)]
    pub fn block(&self, locals: &mut Locals, block: &Block) -> Result<(), TypeFault>
        ensures none { OnOk result (spec.code_faults self.now.service.now locals.old block.now ≡ []) }
        ensures left { OnOk result (locals.new ≡ scope_behind locals.old block.now) }
        ensures first { IfErr result (λ e. IsFirst e (spec.code_faults self.now.service.now locals.old block.now)) }
    {
        let depth = locals.depth();
        for stmt in block.as_slice() {
            self.statement(locals, stmt)?;
        }
        locals.leave(depth);
        Ok(())
    }

    /// The tests of one statement. A declaration's local is in scope behind it.
    #[cycle(block)]
    fn statement(&self, locals: &mut Locals, stmt: &Stmt) -> Result<(), TypeFault>
        ensures none { OnOk result (spec.code_faults self.now.service.now locals.old (before stmt.now done) ≡ []) }
        ensures left { OnOk result (locals.new ≡ after locals.old (before stmt.now done)) }
        ensures first { IfErr result (λ e. IsFirst e (spec.code_faults self.now.service.now locals.old (before stmt.now done))) }
    {
        match stmt {
            Stmt::Declare { kind, name, value } => self.local(locals, name, *kind, value, *kind),
            Stmt::Assign { name, value } => self.assign(locals, name, value),
            Stmt::If { test, yes, no } => {
                self.wanted(locals, Kind::Bool, test)?;
                self.block(locals, yes)?;
                match no {
                    Some(no) => self.block(locals, no),
                    None => Ok(()),
                }
            }
            Stmt::While { test, body } => {
                self.wanted(locals, Kind::Bool, test)?;
                self.block(locals, body)
            }
            Stmt::Block(block) => self.block(locals, block),
            Stmt::Each { name, value, body } => {
                let depth = locals.depth();
                self.local(locals, name, Kind::Str, value, Kind::Strs)?;
                self.block(locals, body)?;
                locals.leave(depth);
                Ok(())
            }
            Stmt::Show { page, receives } => {
                self.wanted(locals, Kind::Html, page)?;
                self.receives(locals, receives.as_slice())
            }
            Stmt::Exit { page } => self.wanted(locals, Kind::Html, page),
        }
    }

    /// The tests of a local of this kind: `Repeated` where its name is taken, and then those of its value, of which a
    /// kind is demanded, and which doesn't see the local.
    fn local(
        &self,
        locals: &mut Locals,
        name: &Name,
        kind: Kind,
        value: &Expr,
        demanded: Kind,
    ) -> Result<(), TypeFault>
        ensures none { OnOk result (spec.local_faults self.now.service.now locals.old name.now demanded (term value.now) ≡ []) }
        ensures left { OnOk result (locals.new ≡ with_local locals.old name.now kind) }
        ensures first { IfErr result (λ e. IsFirst e (spec.local_faults self.now.service.now locals.old name.now demanded (term value.now))) }
    {
        if self.is_taken(locals, name.as_str()) {
            return Err(TypeFault::Repeated(name.copy()?));
        }
        self.wanted(locals, demanded, value)?;
        locals.declare(name, kind)?;
        Ok(())
    }

    /// The tests of an assignment: `Unknown` for a name that is no variable, and then those of the value.
    fn assign(&self, locals: &Locals, name: &Name, value: &Expr) -> Result<(), TypeFault>
        ensures none { OnOk result (spec.code_faults self.now.service.now locals.now (assign name.now (term value.now) done) ≡ []) }
        ensures first { IfErr result (λ e. IsFirst e (spec.code_faults self.now.service.now locals.now (assign name.now (term value.now) done))) }
    {
        let kind = self.variable(locals, name)?;
        self.wanted(locals, kind, value)
    }

    /// The tests of receives: each target is a variable for a string or for a list.
    fn receives(&self, locals: &Locals, receives: &[Receive]) -> Result<(), TypeFault>
        ensures none { OnOk result (flat_map (spec.receive_fault self.now.service.now locals.now) receives.now ≡ []) }
        ensures first { IfErr result (λ e. IsFirst e (flat_map (spec.receive_fault self.now.service.now locals.now) receives.now)) }
    {
        for receive in receives {
            self.receive(locals, receive)?;
        }
        Ok(())
    }

    fn receive(&self, locals: &Locals, receive: &Receive) -> Result<(), TypeFault>
        ensures none { OnOk result (spec.receive_fault self.now.service.now locals.now receive.now ≡ []) }
        ensures first { IfErr result (λ e. IsFirst e (spec.receive_fault self.now.service.now locals.now receive.now)) }
    {
        let kind = self.variable(locals, &receive.target)?;
        demand_of_target(kind)
    }

    /// The kind of a variable. `Unknown` where there is none of that name.
    fn variable(&self, locals: &Locals, name: &Name) -> Result<Kind, TypeFault>
        ensures none { OnOk result (name_unknown name.now (variable_kind self.now.service.now locals.now name.now) ≡ []) }
        ensures kind { IfOk result (λ k. variable_kind self.now.service.now locals.now name.now ≡ Some k) }
        ensures first { IfErr result (λ e. IsFirst e (name_unknown name.now (variable_kind self.now.service.now locals.now name.now))) }
    {
        match self.variable_kind(locals, name.as_str()) {
            Some(kind) => Ok(kind),
            None => Err(TypeFault::Unknown(name.copy()?)),
        }
    }
}

/// Whether the last statement is `exit`.
pub fn ends_in_exit(block: &Block) -> bool
    ensures { result ≡ spec.ends_in_exit block.now }
{
    match block.as_slice().last() {
        Some(stmt) => is_exit(stmt),
        None => false,
    }
}

fn is_exit(stmt: &Stmt) -> bool
    ensures { result ≡ spec.ends_in_exit (before stmt.now done) }
{
    matches!(stmt, Stmt::Exit { .. })
}
