//! The open groups of a pattern that is read in part.
ghost use Rattle.std.specs.Prelude.{◌≡◌, ◌∷◌, [], length, IfOk, OnOk, MatchOption, None};
ghost use Rattle.bw_format.specs.Frames as spec;
ghost use Rattle.bw_format.specs.View.{pattern};

use crate::limits::MAX_GROUPS;
use crate::pattern::{Class, Node, Pattern};
use bw_lang::Memory;
use std::alloc::Global;
use std::marker::Model;

/// How often a repetition takes what stands in front of it.
#[derive(Clone, Copy, PartialEq, Eq)]
pub enum Times {
    Star,
    Plus,
    Optional,
}

/// What is read of the inside of a group: the alternatives before the last bar, the sequence behind it without its
/// last piece if that may still be repeated, and this piece.
#[derive(Drop)]
pub struct Frame {
    pub earlier: Option<Pattern>,
    pub row: Pattern,
    pub last: Option<Pattern>,
}

/// The groups around, the innermost first.
pub struct Frames {
    list: Vec<Frame>,
}

impl Drop for Frames {
    fn drop(self) {
        let Frames { list: _ } = self;
    }
}

impl Model for Frames {
    ghost use Rattle.std.specs.Prelude.{List, reverse};
    ghost use Rattle.bw_format.specs.declared.frame.Frame.{Frame};
    ghost use Rattle.std.specs.Coded.{codes};
    ghost use Rattle.bw_format.specs.contracts.frame.Frame as frame;

    ghost Value = { List Frame };

    ghost coded = { Prim.hlevel (codes, frame.the_row.coded) };

    ghost view = { λ f. reverse f.list.items };
}

/// What is read of a pattern between two of its pieces: that of the innermost group, and of the groups around it.
#[derive(Drop)]
pub struct Groups {
    pub outer: Frames,
    pub frame: Frame,
}

impl Times {
    fn of(self, piece: Pattern) -> Node
        ensures { pattern result ≡ spec.times self piece }
    {
        match self {
            Times::Star => Node::Star(piece),
            Times::Plus => Node::Plus(piece),
            Times::Optional => Node::Optional(piece),
        }
    }
}

/// The sequence with its last piece.
fn full_row(alloc: Global, row: Pattern, last: Option<Pattern>) -> Result<Pattern, Memory>
    ensures { IfOk result (λ p. p ≡ spec.full_row row last) }
{
    match last {
        None => Ok(row),
        Some(piece) => Pattern::of(alloc, Node::Sequence(row, piece)),
    }
}

impl Frame {
    /// Nothing read yet.
    pub fn new(alloc: Global) -> Result<Frame, Memory>
        ensures { IfOk result (λ f. f ≡ spec.fresh None) }
    {
        Ok(Frame {
            earlier: None,
            row: Pattern::of(alloc, Node::Nothing)?,
            last: None,
        })
    }

    /// All that is read.
    pub fn whole(self, alloc: Global) -> Result<Pattern, Memory>
        ensures { IfOk result (λ p. p ≡ spec.whole self) }
    {
        let Frame { earlier, row, last } = self;
        let row = full_row(alloc, row, last)?;
        match earlier {
            None => Ok(row),
            Some(earlier) => Pattern::of(alloc, Node::Either(earlier, row)),
        }
    }

    /// One piece more, which may still be repeated.
    fn with_atom(self, alloc: Global, atom: Pattern) -> Result<Frame, Memory>
        ensures { IfOk result (λ f. f ≡ spec.with_atom self atom) }
    {
        let Frame { earlier, row, last } = self;
        Ok(Frame {
            earlier,
            row: full_row(alloc, row, last)?,
            last: Some(atom),
        })
    }

    /// The last piece is repeated, if it may.
    fn repeated(self, alloc: Global, times: Times) -> Result<Option<Frame>, Memory>
        ensures { IfOk result (λ f. f ≡ spec.repeated times self) }
    {
        let Frame { earlier, row, last } = self;
        match last {
            None => Ok(None),
            Some(atom) => {
                let piece = Pattern::of(alloc, times.of(atom))?;
                let row = Pattern::of(alloc, Node::Sequence(row, piece))?;
                Ok(Some(Frame {
                    earlier,
                    row,
                    last: None,
                }))
            }
        }
    }

    /// A bar behind it.
    fn barred(self, alloc: Global) -> Result<Frame, Memory>
        ensures { IfOk result (λ f. f ≡ spec.barred self) }
    {
        let whole = self.whole(alloc)?;
        Ok(Frame {
            earlier: Some(whole),
            row: Pattern::of(alloc, Node::Nothing)?,
            last: None,
        })
    }
}

impl Frames {
    pub fn new(alloc: Global) -> Frames
        ensures { result ≡ [] }
    {
        Frames {
            list: Vec::new(alloc),
        }
    }

    pub fn len(&self) -> usize
        ensures { result ≡ length self.now }
    {
        self.list.len()
    }

    fn push(&mut self, frame: Frame) -> Result<(), Memory>
        ensures ok { OnOk result (self.new ≡ frame ∷ self.old) }
    {
        self.list.push(frame)?;
        Ok(())
    }

    fn pop(&mut self) -> Option<Frame>
        ensures { MatchOption result (self.old ≡ []) (λ f. self.old ≡ f ∷ self.new) }
    {
        self.list.pop()
    }
}

impl Groups {
    pub fn new(alloc: Global) -> Result<Groups, Memory>
        ensures { IfOk result (λ g. g ≡ spec.start) }
    {
        Ok(Groups {
            outer: Frames::new(alloc),
            frame: Frame::new(alloc)?,
        })
    }

    /// One class more.
    pub fn with_class(self, alloc: Global, class: Class) -> Result<Groups, Memory>
        ensures { IfOk result (λ g. g ≡ spec.with_class self class) }
    {
        let Groups { outer, frame } = self;
        let atom = Pattern::of(alloc, Node::One(class))?;
        Ok(Groups {
            outer,
            frame: frame.with_atom(alloc, atom)?,
        })
    }

    /// The last piece is repeated, if it may.
    pub fn repeated(self, alloc: Global, times: Times) -> Result<Option<Groups>, Memory>
        ensures { IfOk result (λ g. g ≡ spec.groups_repeated times self) }
    {
        let Groups { outer, frame } = self;
        match frame.repeated(alloc, times)? {
            None => Ok(None),
            Some(frame) => Ok(Some(Groups { outer, frame })),
        }
    }

    /// A bar.
    pub fn barred(self, alloc: Global) -> Result<Groups, Memory>
        ensures { IfOk result (λ g. g ≡ spec.groups_barred self) }
    {
        let Groups { outer, frame } = self;
        Ok(Groups {
            outer,
            frame: frame.barred(alloc)?,
        })
    }

    /// An opening parenthesis, if there may be one more.
    pub fn opened(self, alloc: Global) -> Result<Option<Groups>, Memory>
        ensures { IfOk result (λ g. g ≡ spec.opened self) }
    {
        let Groups { outer, frame } = self;
        if outer.len() >= MAX_GROUPS {
            return Ok(None);
        }
        let mut outer = outer;
        outer.push(frame)?;
        Ok(Some(Groups {
            outer,
            frame: Frame::new(alloc)?,
        }))
    }

    /// A closing parenthesis, if a group is open.
    pub fn closed(self, alloc: Global) -> Result<Option<Groups>, Memory>
        ensures { IfOk result (λ g. g ≡ spec.closed self) }
    {
        let Groups { outer, frame } = self;
        let mut outer = outer;
        match outer.pop() {
            None => Ok(None),
            Some(around) => {
                let inside = frame.whole(alloc)?;
                let group = Pattern::of(alloc, Node::Group(inside))?;
                Ok(Some(Groups {
                    outer,
                    frame: around.with_atom(alloc, group)?,
                }))
            }
        }
    }

    /// All that is read, if no group is open.
    pub fn finished(self, alloc: Global) -> Result<Option<Pattern>, Memory>
        ensures { IfOk result (λ p. p ≡ spec.finished self) }
    {
        let Groups { outer, frame } = self;
        if outer.len() > 0 {
            return Ok(None);
        }
        Ok(Some(frame.whole(alloc)?))
    }
}
