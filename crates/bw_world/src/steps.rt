//! One request is one step.
ghost use Rattle.std.specs.Prelude.{◌≡◌, ◌≢◌, ◌<◌, ◌^◌, ◌⊎◌, ℕ, Some, length, true};
ghost use Rattle.bw_http.specs.declared.request.Method.TheVariants as methods;
ghost use Rattle.bw_model.specs.Answers.{turned};
ghost use Rattle.bw_model.specs.Sessions.{now};
ghost use Rattle.bw_model.specs.Steps as model;
ghost use Rattle.bw_types.specs.Scopes.{session_of};
ghost use Rattle.bw_world.specs.declared.suspended.Suspended.{Suspended};
ghost use Rattle.bw_world.specs.Changes.{failure, refused};
ghost use Rattle.bw_run.specs.Missing.{first_missing};
ghost use Rattle.bw_run.specs.Turns.{receives_of};
ghost use Rattle.bw_world.specs.Plain.{is_plain, is_plain_start, is_plain_visit, takes_no_turn};
ghost use Rattle.bw_flow.specs.Layout.{flow_of};
ghost use Rattle.bw_world.specs.Seen.{found};
ghost use Rattle.bw_world.specs.Stands.{Steps, Stays};

use crate::pages::index;
use crate::state::State;
use bw_http::{Allow, Method, Path, Reply, Request};
use bw_lang::{Name, SessionId, Submission, TurnFault};
use bw_model::limits::MAX_NUMBER;
use bw_out::Steps as Counter;
use bw_run::{FieldFault, Turn};
use std::alloc::Global;
use std::sync::ledger::Ledger;

/// The reply to a turn that failed.
fn failed(fault: TurnFault) -> Reply
    ensures { result ≡ failure fault }
{
    match fault {
        TurnFault::Memory => Reply::Memory,
        TurnFault::Spent
        | TurnFault::DivideByZero
        | TurnFault::Overflow
        | TurnFault::StringTooLong(_)
        | TurnFault::Heavy(_)
        | TurnFault::Deep(_)
        | TurnFault::Nested(_)
        | TurnFault::PageTooLong(_)
        | TurnFault::SessionHeavy(_)
        | TurnFault::SharedHeavy(_) => Reply::Failed(fault),
    }
}

/// The reply to a form that isn't taken.
fn refusal(fault: FieldFault) -> Reply
    ensures { result ≡ refused fault }
{
    match fault {
        FieldFault::Lacking(field) => Reply::Lacking(field),
        FieldFault::Repeated(field) => Reply::Repeated(field),
        FieldFault::TooLong(field) => Reply::FieldTooLong(field),
    }
}

impl State {
    /// The first turn of a session.
    fn begin<L: Ledger>(
        &mut self,
        alloc: Global,
        session: SessionId,
        key: u64,
        steps: &mut Counter<L>,
    ) -> Reply
        requires next { self.old.next < 2 ^ 32 }
        requires session { session < length self.old.service.sessions }
        ensures step { Steps self.old self.new result steps.old steps.new (λ m. model.begins self.old.service m key
            (turned m.first (model.beginner m session) (now self.old.service (model.beginner m session)))) }
        ensures stays { Stays self.old self.new result steps.old steps.new }
    {
        match self.first_turn(alloc, session, steps) {
            Err(fault) => failed(fault),
            Ok(Turn::Exited(doc, shared)) => self.pass(&doc, shared),
            Ok(Turn::Shown(frame, page, shared)) => self.found(
                alloc, key, session, frame, page, shared,
            ),
        }
    }

    /// The start of the session of this name.
    fn open<L: Ledger>(
        &mut self,
        alloc: Global,
        name: &Name,
        key: u64,
        steps: &mut Counter<L>,
    ) -> Reply
        ensures step { Steps self.old self.new result steps.old steps.new (λ m. model.starts self.old.service m key (session_of self.old.service name.now)) }
        ensures stays { Stays self.old self.new result steps.old steps.new }
        ensures plain { is_plain_start self.old.next (session_of self.old.service name.now) ≡ true → result ≢ Reply.Memory }
    {
        let Some(session) = self.session(name) else {
            return Reply::NoSuch;
        };
        if self.is_spent() {
            return Reply::NoNumbers;
        }
        self.begin(alloc, session, key, steps)
    }

    /// A form that is sent to the session of this number and key.
    fn post<L: Ledger>(
        &mut self,
        alloc: Global,
        number: u32,
        key: u64,
        form: &Submission,
        steps: &mut Counter<L>,
    ) -> Reply
        requires { (s : Suspended) × (found number key self.old.live ≡ Some s) }
        ensures step { (s : Suspended) → found number key self.old.live ≡ Some s →
            Steps self.old self.new result steps.old steps.new
            (λ m. model.asks self.old.service m methods.Post form.now s.turn (model.taken_out number key m.live)) }
        ensures stays { Stays self.old self.new result steps.old steps.new }
        ensures plain { (s : Suspended) → found number key self.old.live ≡ Some s →
            takes_no_turn (first_missing (receives_of (flow_of self.old.service) s.frame) form.now) s.turn ≡ true → result ≢ Reply.Memory }
    {
        let one = self.one(number, key);
        if let Some(fault) = self.missing(one, form) {
            return refusal(fault);
        }
        let turn = one.turn;
        if turn == MAX_NUMBER {
            return Reply::NoTurns;
        }
        match self.next_turn(one, form, steps) {
            Err(fault) => failed(fault),
            Ok(Turn::Exited(doc, shared)) => self.leave(number, &doc, shared),
            Ok(Turn::Shown(frame, page, shared)) => self.keep(
                alloc, number, key, frame, page, shared,
            ),
        }
    }

    /// A turn of the live session of this number and key.
    fn visit<L: Ledger>(
        &mut self,
        alloc: Global,
        request: &Request,
        number: u32,
        key: u64,
        turn: u32,
        steps: &mut Counter<L>,
    ) -> Reply
        requires { request.now.method ≢ methods.Other }
        ensures step { Steps self.old self.new result steps.old steps.new
            (λ m. model.asks self.old.service m request.now.method request.now.form turn (model.taken_out number key m.live)) }
        ensures stays { Stays self.old self.new result steps.old steps.new }
        ensures plain { is_plain_visit (flow_of self.old.service) request.now.method request.now.form turn (found number key self.old.live) ≡ true
            → result ≢ Reply.Memory }
    {
        let Some(one) = self.get(number, key) else {
            return Reply::NoSuch;
        };
        let current = one.turn;
        if turn != current {
            return Reply::Stale(current);
        }
        match request.method {
            Method::Get => self.again(alloc, number, key),
            _ => self.post(alloc, number, key, &request.form, steps),
        }
    }

    /// The names of the sessions.
    fn index(&self, alloc: Global) -> Reply
        ensures { (result ≡ Reply.Memory) ⊎ (result ≡ Reply.Index (model.index_of self.now.service)) }
    {
        match index(alloc, self.checked.typed()) {
            Ok(sheet) => Reply::Index(sheet),
            Err(_) => Reply::Memory,
        }
    }

    /// A request is answered.
    pub(crate) fn step<L: Ledger>(
        &mut self,
        alloc: Global,
        request: &Request,
        key: u64,
        steps: &mut Counter<L>,
    ) -> Reply
        ensures step { Steps self.old self.new result steps.old steps.new (λ m. model.step self.old.service m request.now key) }
        ensures stays { Stays self.old self.new result steps.old steps.new }
        ensures plain { is_plain self.old request.now ≡ true → result ≢ Reply.Memory }
    {
        match &request.path {
            Path::Other => Reply::NoSuch,
            Path::Index => match request.method {
                Method::Get => self.index(alloc),
                _ => Reply::Method(Allow::Get),
            },
            Path::Start(name) => match request.method {
                Method::Get => self.open(alloc, name, key, steps),
                _ => Reply::Method(Allow::Get),
            },
            Path::Turn {
                number,
                key: of,
                turn,
            } => match request.method {
                Method::Other => Reply::Method(Allow::GetPost),
                _ => self.visit(alloc, request, *number, *of, *turn, steps),
            },
        }
    }
}
