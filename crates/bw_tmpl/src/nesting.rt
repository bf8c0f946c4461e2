//! How deep elements stand inside one another, found from the tags alone, before an item is built.
ghost use Rattle.std.specs.Prelude.{◌≡◌, ◌≢◌, ◌<◌, ◌^◌, Some, length, OnOk, [], ◌∷◌, MatchOption};
ghost use Rattle.std.specs.Bool.{MatchBool};
ghost use Rattle.bw_tmpl.specs.Building.{Builds};
ghost use Rattle.bw_tmpl.specs.Nesting.{no_tags, one_deeper, tag_opened, tag_closed, tags_after, tags_after_all, deepest_if_closed, depth};

use crate::fault::TmplFault;
use bw_lang::pieces::Piece;
use bw_lang::{Memory, Name, is_void};
use std::alloc::Global;
use std::marker::Model;

/// Names, the last that was pushed first.
pub struct NameStack {
    list: Vec<Name>,
}

impl Drop for NameStack {
    fn drop(self) {
        let NameStack { list: _ } = self;
    }
}

impl Model for NameStack {
    ghost use Rattle.std.specs.Prelude.{ℕ, List, reverse};

    ghost Value = { List (List ℕ) };

    ghost view = { λ a. reverse a.list.items };
}

impl NameStack {
    pub fn new(alloc: Global) -> NameStack
        ensures { result ≡ [] }
    {
        NameStack {
            list: Vec::new(alloc),
        }
    }

    pub fn push(&mut self, name: Name) -> Result<(), Memory>
        ensures ok { OnOk result (self.new ≡ name ∷ self.old) }
    {
        self.list.push(name)?;
        Ok(())
    }

    pub fn pop(&mut self) -> Option<Name>
        ensures { MatchOption result ((self.old ≡ []) × (self.new ≡ [])) (λ l. self.old ≡ l ∷ self.new) }
    {
        self.list.pop()
    }

    pub fn len(&self) -> usize
        ensures len { result ≡ length self.now }
        ensures few { result < 2 ^ 63 }
    {
        self.list.len()
    }

    pub fn is_empty(&self) -> bool
        ensures { MatchBool result (self.now ≡ []) (self.now ≢ []) }
    {
        self.list.is_empty()
    }
}

/// The names of the open elements, and how many were open at once at most.
#[derive(Drop)]
pub struct OpenTags {
    pub names: NameStack,
    pub deepest: usize,
}

impl OpenTags {
    fn new(alloc: Global) -> OpenTags
        ensures { result ≡ no_tags }
    {
        OpenTags {
            names: NameStack::new(alloc),
            deepest: 0,
        }
    }

    /// One more element, for a moment.
    fn count_element(&mut self)
        ensures { self.new ≡ one_deeper self.old }
    {
        let depth = self.names.len() + 1;
        if self.deepest < depth {
            self.deepest = depth;
        }
    }

    /// A start tag that an end tag is to follow.
    fn begin(&mut self, name: &Name) -> Result<(), Memory>
        ensures { OnOk result (self.new ≡ tag_opened name.now (one_deeper self.old)) }
    {
        let name = name.copy()?;
        self.count_element();
        self.names.push(name)
    }

    /// An end tag.
    fn end(&mut self, name: &Name) -> Result<(), TmplFault>
        ensures { Builds (λ _. self.new) result (tag_closed self.old.names self.old.deepest name.now) }
    {
        let Some(innermost) = self.names.pop() else {
            return Err(TmplFault::Mismatched);
        };
        let is_same = innermost == *name;
        drop(innermost);
        if is_same {
            Ok(())
        } else {
            Err(TmplFault::Mismatched)
        }
    }

    /// The next piece.
    fn take(&mut self, piece: &Piece) -> Result<(), TmplFault>
        ensures { Builds (λ _. self.new) result (tags_after self.old piece.now) }
    {
        match piece {
            Piece::Text(_) | Piece::Gap(_) => {}
            Piece::Whole(_) => self.count_element(),
            Piece::Start(tag) => {
                if is_void(&tag.name) {
                    self.count_element()
                } else {
                    self.begin(&tag.name)?
                }
            }
            Piece::End(name) => return self.end(name),
        }
        Ok(())
    }

    /// How many elements stand inside one another at most, once these pieces are taken in.
    fn depth_behind(&mut self, pieces: &[Piece]) -> Result<usize, TmplFault>
        ensures { Builds (λ n. n) result (deepest_if_closed (tags_after_all (Some self.old) pieces.now)) }
    {
        for piece in pieces {
            self.take(piece)?;
        }
        if self.names.is_empty() {
            Ok(self.deepest)
        } else {
            Err(TmplFault::Mismatched)
        }
    }
}

/// How many elements stand inside one another at most. `Mismatched`: the tags don't pair.
pub fn depth_of(alloc: Global, pieces: &[Piece]) -> Result<usize, TmplFault>
    ensures { Builds (λ n. n) result (depth pieces.now) }
{
    let mut tags = OpenTags::new(alloc);
    let depth = tags.depth_behind(pieces);
    drop(tags);
    depth
}
