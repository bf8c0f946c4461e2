//! The turns of a world's sessions, in the world's own words.
ghost use Rattle.std.specs.Prelude.{◌≡◌, ◌<◌, [], IfOk, None, Some, length, nat_lt};
ghost use Rattle.bw_eval.specs.Evaluations.{HasMemory};
ghost use Rattle.bw_eval.specs.View.{values};
ghost use Rattle.bw_run.specs.Follow.Laws as follow;
ghost use Rattle.bw_meaning.specs.GoOn as meaning;
ghost use Rattle.bw_run.specs.Fit.{IsFitTurn};
ghost use Rattle.bw_run.specs.Missing.{first_missing};
ghost use Rattle.bw_run.specs.Turns.{IsTurn, receives_of, answered_frame};
ghost use Rattle.bw_types.specs.Scopes.{session_of};
ghost use Rattle.bw_world.specs.declared.suspended.Suspended.{Suspended};
ghost use Rattle.bw_world.specs.Kept.{IsKept, IsOwn, IsSuspended};
ghost use Rattle.bw_flow.specs.Layout.{flow_of};
ghost use Rattle.bw_world.specs.Seen.{found};
ghost use Rattle.bw_world.specs.Stands.{Rises};
ghost use Rattle.bw_model.specs.declared.limits.TheConstants.{MAX_NUMBER};

use crate::state::State;
use crate::suspended::Suspended;
use bw_lang::{Name, SessionId, Submission, TurnFault};
use bw_model::limits::MAX_NUMBER;
use bw_out::Steps as Counter;
use bw_run::{FieldFault, Turn, missing, resume, start};
use std::alloc::Global;
use std::sync::ledger::Ledger;

impl State {
    /// The session of this number and key, which is live.
    pub(crate) fn one(&self, number: u32, key: u64) -> &Suspended
        requires { (s : Suspended) × (found number key self.now.live ≡ Some s) }
        ensures found { found number key self.now.live ≡ Some result.now }
        ensures fit { IsSuspended self.now.service result.now }
        ensures kept { IsKept self.now }
    {
        let Some(one) = self.get(number, key) else {
            unreachable!()
        };
        one
    }

    /// The number of the session of this name in the service.
    pub(crate) fn session(&self, name: &Name) -> Option<SessionId>
        ensures { result ≡ session_of self.now.service name.now }
    {
        self.checked.typed().session(name.as_str())
    }

    /// Whether all numbers of sessions were given.
    pub(crate) fn is_spent(&self) -> bool
        ensures { result ≡ nat_lt MAX_NUMBER self.now.next }
    {
        self.next > u64::from(MAX_NUMBER)
    }

    /// Why a session doesn't take this form.
    pub(crate) fn missing(&self, one: &Suspended, form: &Submission) -> Option<FieldFault>
        ensures { result ≡ first_missing (receives_of (flow_of self.now.service) one.now.frame) form.now }
    {
        missing(self.checked.flow(), &one.frame, form)
    }

    /// The first turn of a session.
    pub(crate) fn first_turn<L: Ledger>(
        &self,
        alloc: Global,
        session: SessionId,
        steps: &mut Counter<L>,
    ) -> Result<Turn, TurnFault>
        requires { session < length self.now.service.sessions }
        ensures turn { HasMemory result → IsTurn (flow_of self.now.service) result steps.old steps.new
            (meaning.turn self.now.service session (values self.now.shared) []) }
        ensures rises { Rises steps.old steps.new }
        ensures fit { IfOk result (IsFitTurn self.now.service (flow_of self.now.service)) }
        ensures own { IfOk result (IsOwn self.now.service session) }
    {
        start(
            alloc,
            self.checked.typed(),
            self.checked.flow(),
            session,
            &self.shared,
            steps,
        )
    }

    /// A session's next turn, over a form that it takes.
    pub(crate) fn next_turn<L: Ledger>(
        &self,
        one: &Suspended,
        form: &Submission,
        steps: &mut Counter<L>,
    ) -> Result<Turn, TurnFault>
        requires fit { IsSuspended self.now.service one.now }
        requires missing { first_missing (receives_of (flow_of self.now.service) one.now.frame) form.now ≡ None }
        ensures turn { HasMemory result → IsTurn (flow_of self.now.service) result steps.old steps.new
            (meaning.go_on self.now.service one.now.session
            (answered_frame (flow_of self.now.service) one.now.frame form.now self.now.shared)) }
        ensures rises { Rises steps.old steps.new }
        ensures fit { IfOk result (IsFitTurn self.now.service (flow_of self.now.service)) }
        ensures own { IfOk result (IsOwn self.now.service one.now.session) }
    {
        resume(
            self.checked.typed(),
            self.checked.flow(),
            &one.frame,
            form,
            &self.shared,
            steps,
        )
    }
}
