//! What a turn changes. The page is made first, so that nothing has changed where there is no memory for it.
ghost use Rattle.std.specs.Prelude.{◌≡◌, ◌-◌, ◌≢◌, ◌<◌, ◌≤◌, ◌+◌, ◌^◌, ◌⊎◌, ℕ, suc, Some, None, nat_eq, length};
ghost use Rattle.bw_run.specs.Fit.{AreShared};
ghost use Rattle.bw_world.specs.Changes.{shown_page, last_page, begun, went_on, with_new, with_first, without, Either};
ghost use Rattle.bw_world.specs.declared.suspended.Suspended.{Suspended};
ghost use Rattle.bw_world.specs.Kept.{IsSuspended};
ghost use Rattle.bw_world.specs.Seen.{found};

use crate::pages::{last, shown};
use crate::state::State;
use crate::suspended::Suspended;
use bw_doc::Doc;
use bw_http::Reply;
use bw_lang::SessionId;
use bw_run::{Frame, SharedValues};
use std::alloc::Global;

impl State {
    /// A session that ends with its first turn: it gets no number.
    pub(crate) fn pass(&mut self, doc: &Doc, shared: SharedValues) -> Reply
        requires { AreShared self.old.service shared }
        ensures { Either self.old self.new result (Reply.Final (last_page self.old.service doc.now)) (record self.old { shared = shared }) }
    {
        match last(self.checked.typed(), doc) {
            Ok(sheet) => {
                self.shared = shared;
                Reply::Final(sheet)
            }
            Err(_) => Reply::Memory,
        }
    }

    /// A session that waits behind its first turn: it gets the next number and stands in front.
    pub(crate) fn found(
        &mut self,
        alloc: Global,
        key: u64,
        session: SessionId,
        frame: Frame,
        page: Doc,
        shared: SharedValues,
    ) -> Reply
        requires next { self.old.next < 2 ^ 32 }
        requires fit { IsSuspended self.old.service (begun self.old key session frame page) }
        requires shared { AreShared self.old.service shared }
        ensures { Either self.old self.new result (Reply.Page (shown_page self.old.service self.old.next key self.old.first page))
            (with_new self.old (begun self.old key session frame page) shared) }
    {
        let number = self.next as u32;
        let turn = self.first;
        let sheet = match shown(alloc, self.checked.typed(), number, key, turn, &page) {
            Ok(sheet) => sheet,
            Err(_) => return Reply::Memory,
        };
        let one = Suspended {
            number,
            key,
            session,
            turn,
            frame,
            page,
        };
        match self.live.put(number, one) {
            Ok(_) => {
                self.next += 1;
                self.shared = shared;
                Reply::Page(sheet)
            }
            Err(_) => Reply::Memory,
        }
    }

    /// A session that ends with a further turn.
    pub(crate) fn leave(&mut self, number: u32, doc: &Doc, shared: SharedValues) -> Reply
        requires { AreShared self.old.service shared }
        ensures { Either self.old self.new result (Reply.Final (last_page self.old.service doc.now)) (without self.old number shared) }
    {
        match last(self.checked.typed(), doc) {
            Ok(sheet) => {
                let _ = self.live.pop(&number);
                self.shared = shared;
                Reply::Final(sheet)
            }
            Err(_) => Reply::Memory,
        }
    }

    /// A session that waits behind a further turn: it stands in front.
    pub(crate) fn keep(
        &mut self,
        alloc: Global,
        number: u32,
        key: u64,
        frame: Frame,
        page: Doc,
        shared: SharedValues,
    ) -> Reply
        requires fit { (s : Suspended) → found number key self.old.live ≡ Some s →
            (s.turn < 2 ^ 32 - 1) × IsSuspended self.old.service (went_on s frame page) }
        requires there { (s : Suspended) × (found number key self.old.live ≡ Some s) }
        requires shared { AreShared self.old.service shared }
        ensures { (s : Suspended) → found number key self.old.live ≡ Some s →
            Either self.old self.new result (Reply.Page (shown_page self.old.service s.number s.key (suc s.turn) page))
            (with_first self.old (went_on s frame page) shared) }
    {
        let one = self.one(number, key);
        let session = one.session;
        let turn = one.turn + 1;
        let sheet = match shown(alloc, self.checked.typed(), number, key, turn, &page) {
            Ok(sheet) => sheet,
            Err(_) => return Reply::Memory,
        };
        let one = Suspended {
            number,
            key,
            session,
            turn,
            frame,
            page,
        };
        match self.live.put(number, one) {
            Ok(_) => {
                self.shared = shared;
                Reply::Page(sheet)
            }
            Err(_) => Reply::Memory,
        }
    }

    /// The page of a session is sent again, which makes the session the most recently used one.
    pub(crate) fn again(&mut self, alloc: Global, number: u32, key: u64) -> Reply
        requires { (s : Suspended) × (found number key self.old.live ≡ Some s) }
        ensures { (s : Suspended) → found number key self.old.live ≡ Some s →
            Either self.old self.new result (Reply.Page (shown_page self.old.service s.number s.key s.turn s.page)) (with_first self.old s self.old.shared) }
    {
        let one = self.one(number, key);
        let sheet = match shown(
            alloc,
            self.checked.typed(),
            number,
            key,
            one.turn,
            &one.page,
        ) {
            Ok(sheet) => sheet,
            Err(_) => return Reply::Memory,
        };
        let _ = self.live.promote(&number);
        Reply::Page(sheet)
    }
}
