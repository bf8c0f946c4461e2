//! The least sizes in each state of a walk.
ghost use Rattle.std.specs.Prelude.{◌≡◌, ◌≤◌};
ghost use Rattle.bw_explain.specs.declared.sizes.TheConstants.{NONE};
ghost use Rattle.bw_explain.specs.Sizes.{plus as sum};
ghost use Rattle.bw_explain.specs.Walks as spec;

use crate::sizes::{if_so, plus};

/// The least sizes behind a part, in the states 0, 1 and 2.
#[derive(Clone, Copy)]
pub struct Reach {
    pub start: u32,
    pub middle: u32,
    pub last: u32,
}

/// What an item costs, from each state to each.
#[derive(Clone, Copy)]
pub struct Moves {
    pub start: u32,
    pub start_middle: u32,
    pub start_last: u32,
    pub middle: u32,
    pub middle_last: u32,
    pub last: u32,
}

impl Moves {
    /// What a part costs from each state to itself, to the next and to the one behind that.
    pub fn even(stay: u32, next: u32, jump: u32) -> Moves
        ensures { result ≡ record { start = stay; start_middle = next; start_last = jump; middle = stay; middle_last = next; last = stay } }
    {
        Moves {
            start: stay,
            start_middle: next,
            start_last: jump,
            middle: stay,
            middle_last: next,
            last: stay,
        }
    }
}

impl Reach {
    /// Nothing yet, in that state.
    pub fn begin(state: u32) -> Reach
        ensures is { result ≡ spec.from state }
        ensures most { spec.AreSizes result }
    {
        Reach {
            start: if_so(state == 0, 0),
            middle: if_so(state == 1, 0),
            last: if_so(state == 2, 0),
        }
    }

    /// The size in a state.
    pub fn at(self, state: u32) -> u32
        requires { spec.AreSizes self }
        ensures is { result ≡ spec.at self state }
        ensures most { result ≤ NONE }
    {
        if state == 0 {
            self.start
        } else if state == 1 {
            self.middle
        } else {
            self.last
        }
    }

    /// The sizes behind one item more.
    pub fn then(self, moves: Moves) -> Reach
        requires sizes { spec.AreSizes self }
        requires costs { spec.AreCosts moves }
        ensures is { result ≡ spec.next_reach self moves }
        ensures most { spec.AreSizes result }
    {
        let met = plus(self.middle, moves.middle_last).min(plus(self.last, moves.last));
        Reach {
            start: plus(self.start, moves.start),
            middle: plus(self.start, moves.start_middle).min(plus(self.middle, moves.middle)),
            last: plus(self.start, moves.start_last).min(met),
        }
    }

    /// The state from which the least size behind one item more comes.
    pub fn origin(self, moves: Moves, to: u32) -> u32
        requires sizes { spec.AreSizes self }
        requires costs { spec.AreCosts moves }
        requires to { to ≤ 2 }
        ensures from { result ≤ to }
        ensures least { spec.at (spec.next_reach self moves) to ≡ sum (spec.at self result) (spec.move_at moves result to) }
    {
        if to == 0 {
            return 0;
        }
        if to == 1 {
            let fresh = plus(self.start, moves.start_middle);
            return if fresh <= plus(self.middle, moves.middle) {
                0
            } else {
                1
            };
        }
        let met = plus(self.middle, moves.middle_last);
        let kept = plus(self.last, moves.last);
        if plus(self.start, moves.start_last) <= met.min(kept) {
            0
        } else if met <= kept {
            1
        } else {
            2
        }
    }
}
