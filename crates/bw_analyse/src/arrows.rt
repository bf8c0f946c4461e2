//! Which points lead to a point.
ghost use Rattle.std.specs.Prelude.{◌≡◌, ◌++◌, ◌∷◌, [], ℕ, ◌<◌, IfOk, OnOk, length, map, true, slice_index_or, vec_len};
ghost use Rattle.bw_flow.specs.View.{seen};
ghost use Rattle.bw_analyse.specs.Rounds.{arrows_from, arrows_to};
ghost use Rattle.bw_analyse.specs.declared.arrows.Arrow.{Arrow};

use bw_flow::{Point, PointId};
use bw_lang::Memory;
use std::alloc::Global;
use std::marker::Model;

/// A point that leads to another one: its place, and whether the other is the first one that it leads to.
#[derive(Clone, Copy, PartialEq, Eq)]
pub struct Arrow {
    pub from: usize,
    pub is_first: bool,
}

/// The arrows to a point, in the order of the places from which they come.
#[derive(Drop)]
pub struct Arrows {
    list: Vec<Arrow>,
}

impl Model for Arrows {
    ghost use Rattle.std.specs.Prelude.{List};
    ghost use Rattle.bw_analyse.specs.declared.arrows.Arrow.{Arrow};

    ghost Value = { List Arrow };

    ghost view = { λ a. a.list.items };
}

impl Arrows {
    /// No arrow yet.
    pub fn new(alloc: Global) -> Arrows
        ensures { result ≡ [] }
    {
        Arrows {
            list: Vec::new(alloc),
        }
    }

    /// One arrow more.
    pub fn push(&mut self, arrow: Arrow) -> Result<(), Memory>
        ensures { OnOk result (self.new ≡ self.old ++ arrow ∷ []) }
    {
        self.list.push(arrow)?;
        Ok(())
    }

    pub fn as_slice(&self) -> &[Arrow]
        ensures { result.now ≡ self.now }
    {
        self.list.as_slice()
    }
}

/// So many points to which nothing leads.
fn nowhere(alloc: Global, count: usize) -> Result<Vec<Arrows>, Memory>
    ensures len { IfOk result (λ v. vec_len v ≡ count) }
    ensures each { IfOk result (λ v. (q : ℕ) → slice_index_or v.items q [] ≡ []) }
{
    let mut all = Vec::new(alloc);
    for i in 0..count {
        all.push(Arrows::new(alloc))?;
    }
    Ok(all)
}

/// Notes the arrows from the point at a place, which leads to these.
fn note(all: &mut Vec<Arrows>, place: usize, next: &[PointId]) -> Result<(), Memory>
    ensures len { vec_len all.new ≡ vec_len all.old }
    ensures each { OnOk result ((q : ℕ) → q < vec_len all.old →
        slice_index_or all.new.items q [] ≡ slice_index_or all.old.items q [] ++ arrows_from q place true next.now) }
{
    for (i, id) in next.iter().enumerate() {
        if id.place() < all.len() {
            all[id.place()].push(Arrow {
                from: place,
                is_first: i == 0,
            })?;
        }
    }
    Ok(())
}

/// For each point the arrows to it, in one pass over all points.
pub fn arrows_of(alloc: Global, points: &[Point]) -> Result<Vec<Arrows>, Memory>
    ensures len { IfOk result (λ v. vec_len v ≡ length points.now) }
    ensures each { IfOk result (λ v. (q : ℕ) → q < length points.now → slice_index_or v.items q [] ≡ arrows_to q 0 (map seen points.now)) }
{
    let mut all = nowhere(alloc, points.len())?;
    for (place, point) in points.iter().enumerate() {
        note(&mut all, place, point.next.as_slice())?;
    }
    Ok(all)
}
