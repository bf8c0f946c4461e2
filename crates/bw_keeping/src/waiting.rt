//! Links that wait.
ghost use Rattle.std.specs.Prelude.{◌≡◌, ◌≤◌, ◌<◌, ◌++◌, ◌↔◌, [], ◌∷◌, length, option_to_list, IfNone, IfOk, IsTrue};
ghost use Rattle.std.specs.VecDeque.{deque_capacity};
ghost use Rattle.bw_keeping.specs.declared.waiting.TheConstants.{MAX_WAITING};

use bw_lang::Memory;
use bw_out::Channel;
use bw_world::Taken;
use std::alloc::Global;
use std::collections::VecDeque;

/// The most links that wait at once.
pub const MAX_WAITING: usize = 32;

/// A link whose message was handled, and what came of it. Its reply isn't begun.
pub struct Waiting<C> {
    pub link: C,
    pub taken: Taken,
}

/// Links that wait, the first first. The memory for all that may wait is there.
pub struct Queue<C> {
    links: VecDeque<Waiting<C>>,
    ghost room: { MAX_WAITING ≤ deque_capacity links },
}

impl<C: Channel> Channel for Queue<C> {
    ghost use Rattle.std.specs.Prelude.{map};
    ghost use Rattle.bw_keeping.specs.Written.{written_on};

    ghost held = { λ queue. written_on C.held (map (λ waiting. waiting.link) queue.links.items) };
}

impl<C> Queue<C> {
    /// No links yet.
    pub fn new(alloc: Global) -> Result<Queue<C>, Memory>
        ensures { IfOk result (λ queue. queue.links.items ≡ []) }
    {
        let links = VecDeque::with_capacity(alloc, MAX_WAITING)?;
        Ok(Queue { links })
    }

    /// Whether as many wait as may be.
    pub fn is_full(&self) -> bool
        ensures { IsTrue result ↔ MAX_WAITING ≤ length self.now.links.items }
    {
        self.links.len() >= MAX_WAITING
    }

    /// Whether none waits.
    pub fn is_empty(&self) -> bool {
        self.links.is_empty()
    }

    /// A link more waits, behind the others.
    pub fn push(&mut self, waiting: Waiting<C>)
        requires { length self.old.links.items < MAX_WAITING }
        ensures { self.new.links.items ≡ self.old.links.items ++ waiting ∷ [] }
    {
        self.links.push_back_reserved(waiting);
    }

    /// The first link waits no more, if there is one.
    pub fn pop(&mut self) -> Option<Waiting<C>>
        ensures items { self.old.links.items ≡ option_to_list result ++ self.new.links.items }
        ensures none { IfNone result (self.old.links.items ≡ []) }
    {
        self.links.pop_front()
    }

    /// Lets the memory go, where none waits.
    pub fn close(self)
        requires { self.links.items ≡ [] }
    {
        let Queue { links } = self;
        links.destroy_empty();
    }
}
