//! Patterns, which contracts see as trees.
ghost use Rattle.std.specs.Prelude.{◌≡◌, ◌&&◌, ◌++◌, ◌∷◌, [], IsTrue, ◌↔◌, IfOk, OnOk, OnErr};
ghost use Rattle.std.specs.Option.{IfSome};
ghost use Rattle.std.specs.List.{list_any};
ghost use Rattle.bw_format.specs.Pattern.{places, repeats};
ghost use Rattle.bw_format.specs.View.{pattern};
ghost use Rattle.bw_format.specs.Classes as spec;

use bw_lang::Memory;
use std::alloc::Global;
use std::marker::Model;

/// What stands between brackets: a character, or all characters from one to another.
#[derive(Clone, Copy, PartialEq, Eq)]
pub enum Member {
    Char(char),
    Range(char, char),
}

/// The members of a bracket, in their order.
pub struct Members {
    list: Vec<Member>,
}

impl Drop for Members {
    fn drop(self) {
        let Members { list: _ } = self;
    }
}

impl Model for Members {
    ghost use Rattle.std.specs.Prelude.{List};
    ghost use Rattle.bw_format.specs.declared.pattern.Member.{Member};

    ghost Value = { List Member };

    ghost view = { λ m. m.list.items };
}

/// The characters that a place of a pattern takes.
#[derive(Drop)]
pub enum Class {
    /// This character.
    Char(char),
    /// This character, written behind a backslash.
    Escaped(char),
    /// Any character.
    Any,
    /// The characters that a member holds.
    OneOf(Members),
}

/// A node of a pattern.
#[cycle(pattern)]
pub enum Node {
    /// The empty sequence.
    Nothing,
    One(Class),
    Sequence(Pattern, Pattern),
    Either(Pattern, Pattern),
    Star(Pattern),
    Plus(Pattern),
    Optional(Pattern),
    /// A pattern in parentheses.
    Group(Pattern),
}

impl Drop for Node {
    #[cycle(pattern_drop)]
    fn drop(self) {
        match self {
            Node::Nothing => {}
            Node::One(_) => {}
            Node::Sequence(_, _) => {}
            Node::Either(_, _) => {}
            Node::Star(_) => {}
            Node::Plus(_) => {}
            Node::Optional(_) => {}
            Node::Group(_) => {}
        }
    }
}

/// A pattern, with the number of its places, the classes in it, and that of its repetitions.
#[cycle(pattern)]
pub struct Pattern {
    node: Box<Node>,
    width: usize,
    stars: usize,
}

impl Drop for Pattern {
    #[cycle(pattern_drop)]
    fn drop(self) {
        let Pattern {
            node: _,
            width: _,
            stars: _,
        } = self;
    }
}

impl Model for Pattern {
    ghost use Rattle.bw_format.specs.Pattern.{Pattern};
    ghost use Rattle.bw_format.specs.PatternCode.{coded_pattern};

    ghost Value = { Pattern };

    ghost coded = { coded_pattern };

    ghost use Rattle.std.specs.Prelude.{◌≡◌};
    ghost use Rattle.bw_format.specs.Pattern.{nodes, places, repeats};
    ghost use Rattle.bw_format.specs.View.{pattern};

    ghost view = { λ p. pattern p.node.value };

    ghost invariant = { λ p. (p.width ≡ places (pattern p.node.value)) × (p.stars ≡ repeats (pattern p.node.value)) };

    ghost size = { nodes };

    ghost use Rattle.std.proofs.Common.{arith};
    ghost use Rattle.bw_format.specs.Falls.{deep_le-nodes};

    ghost size_decreases = { λ a h. omega (arith, deep_le-nodes a.node.value) };
}

impl Member {
    fn holds(&self, c: char) -> bool
        ensures { result ≡ spec.member_holds c self.now }
    {
        match self {
            Member::Char(d) => c == *d,
            Member::Range(low, high) => *low <= c && c <= *high,
        }
    }
}

impl Members {
    /// No member yet.
    pub fn new(alloc: Global) -> Members
        ensures { result ≡ [] }
    {
        Members {
            list: Vec::new(alloc),
        }
    }

    /// One member more, behind the others.
    pub fn push(&mut self, member: Member) -> Result<(), Memory>
        ensures ok { OnOk result (self.new ≡ self.old ++ member ∷ []) }
        ensures err { OnErr result (self.new ≡ self.old) }
    {
        self.list.push(member)?;
        Ok(())
    }

    pub fn is_empty(&self) -> bool
        ensures { IsTrue result ↔ (self.now ≡ []) }
    {
        self.list.is_empty()
    }

    /// Whether a member holds the character.
    fn hold(&self, c: char) -> bool
        ensures { result ≡ list_any (spec.member_holds c) self.now }
    {
        self.list.iter().any(|member| member.holds(c))
    }
}

impl Class {
    /// Whether the place takes the character.
    pub fn holds(&self, c: char) -> bool
        ensures { result ≡ spec.holds self.now c }
    {
        match self {
            Class::Char(d) | Class::Escaped(d) => c == *d,
            Class::Any => true,
            Class::OneOf(members) => members.hold(c),
        }
    }

    /// Whether the place takes the character, where the pattern may begin in front of it.
    pub(crate) fn takes(&self, enter: bool, c: char) -> bool
        ensures { result ≡ (enter && spec.holds self.now c) }
    {
        enter && self.holds(c)
    }
}

impl Node {
    /// The number of its places, if it fits.
    fn places(&self) -> Option<usize>
        ensures { IfSome result (λ n. n ≡ places (pattern self.now)) }
    {
        match self {
            Node::Nothing => Some(0),
            Node::One(_) => Some(1),
            Node::Sequence(left, right) | Node::Either(left, right) => {
                left.width.checked_add(right.width)
            }
            Node::Star(inner) | Node::Plus(inner) | Node::Optional(inner) | Node::Group(inner) => {
                Some(inner.width)
            }
        }
    }

    /// The number of its repetitions, if it fits.
    fn repeats(&self) -> Option<usize>
        ensures { IfSome result (λ n. n ≡ repeats (pattern self.now)) }
    {
        match self {
            Node::Nothing | Node::One(_) => Some(0),
            Node::Sequence(left, right) | Node::Either(left, right) => {
                left.stars.checked_add(right.stars)
            }
            Node::Star(inner) | Node::Plus(inner) => inner.stars.checked_add(1),
            Node::Optional(inner) | Node::Group(inner) => Some(inner.stars),
        }
    }
}

impl Pattern {
    /// The pattern of a node. `Memory` also says that it has 2^64 places or repetitions, or more.
    pub fn of(alloc: Global, node: Node) -> Result<Pattern, Memory>
        ensures { IfOk result (λ p. p ≡ pattern node) }
    {
        match node.places() {
            Some(width) => match node.repeats() {
                Some(stars) => Ok(Pattern {
                    node: Box::new(alloc, node)?,
                    width,
                    stars,
                }),
                None => Err(Memory),
            },
            None => Err(Memory),
        }
    }

    pub fn node(&self) -> &Node
        ensures { pattern result.now ≡ self.now }
    {
        &self.node
    }

    /// The number of its places.
    pub fn places(&self) -> usize
        ensures { result ≡ places self.now }
    {
        self.width
    }

    /// The number of its repetitions.
    pub fn repeats(&self) -> usize
        ensures { result ≡ repeats self.now }
    {
        self.stars
    }
}
