//! Sets.
ghost use Rattle.std.specs.Prelude.{◌≡◌, ℕ, ◌<◌, ◌≤◌, Bool, true, List, [], ◌∷◌, length, take, IfOk, OnOk, OnErr};
ghost use Rattle.std.specs.List.{AllByRecursion};
ghost use Rattle.std.specs.declared.cmp.Ordering.TheVariants.{Less};
ghost use Rattle.bw_solve.specs.Sets.{IsSet, has, is_within, merge};

use crate::lattice::Lattice;
use std::alloc::{AllocError, Global};
use std::cmp::Ordering;
use std::marker::Model;

/// A set: a sorted list without doubles. Contracts see the list.
#[derive(Drop)]
pub struct Set<T: Ord + Copy> {
    members: Vec<T>,
}

impl<T: Ord + Copy> Model for Set<T> {
    ghost use Rattle.std.specs.Prelude.{List};
    ghost use Rattle.bw_solve.specs.Sets.{IsSet};

    ghost Value = { List T };

    ghost view = { λ s. s.members.items };

    ghost invariant = { λ s. IsSet T.cmp s.members.items };
}

impl<T: Ord + Copy> Set<T> {
    /// No member yet.
    pub fn new(alloc: Global) -> Self
        ensures { result ≡ [] }
    {
        Set {
            members: Vec::new(alloc),
        }
    }

    /// The set with one member.
    pub fn of(alloc: Global, member: T) -> Result<Self, AllocError>
        ensures { IfOk result (λ s. s ≡ member ∷ []) }
    {
        let mut members = Vec::new(alloc);
        members.push(member)?;
        Ok(Set { members })
    }

    /// An equal set.
    pub fn copy(&self, alloc: Global) -> Result<Set<T>, AllocError>
        ensures { IfOk result (λ s. s ≡ self.now) }
    {
        Ok(Set {
            members: Vec::from_slice(alloc, &self.members)?,
        })
    }

    /// The number of members.
    pub fn len(&self) -> usize
        ensures { result ≡ length self.now }
    {
        self.members.len()
    }

    /// The members, in order.
    pub fn as_slice(&self) -> &[T]
        ensures value { result.now ≡ self.now }
        ensures set { IsSet T.cmp self.now }
    {
        self.members.as_slice()
    }

    /// Whether a value is a member.
    pub fn contains(&self, member: &T) -> bool
        ensures { result ≡ has T.cmp self.now member.now }
    {
        self.members.binary_search(member).is_ok()
    }

    /// Whether each member is one of another set.
    pub fn is_subset(&self, other: &Set<T>) -> bool
        ensures { result ≡ is_within T.cmp self.now other.now }
    {
        within(self.as_slice(), other.as_slice())
    }

    /// Takes a member in. Where all others are below it, this takes no longer than a push.
    pub fn add(&mut self, member: T) -> Result<(), AllocError>
        ensures ok { OnOk result (self.new ≡ merge T.cmp self.old (member ∷ [])) }
        ensures err { OnErr result (self.new ≡ self.old) }
    {
        if ends_below(&self.members, &member) {
            self.members.push(member)?;
            return Ok(());
        }
        let one = Set::of(*self.members.allocator(), member)?;
        let both = self.union(*self.members.allocator(), &one)?;
        *self = both;
        Ok(())
    }

    /// The members of both.
    pub fn union(&self, alloc: Global, other: &Set<T>) -> Result<Set<T>, AllocError>
        ensures { IfOk result (λ s. s ≡ merge T.cmp self.now other.now) }
    {
        Ok(Set {
            members: merged(alloc, &self.members, &other.members)?,
        })
    }
}

// Whether the last of some ascending items, and so each of them, is below a value.
fn ends_below<T: Ord + Copy>(items: &[T], value: &T) -> bool
    requires { IsSet T.cmp items.now }
    ensures { result ≡ true → AllByRecursion (λ y. T.cmp y value.now ≡ Less) items.now }
{
    let len = items.len();
    len == 0 || items[len - 1].cmp(value) == Ordering::Less
}

// Whether each of some ascending items is one of others.
fn within<T: Ord + Copy>(a: &[T], b: &[T]) -> bool
    requires a { IsSet T.cmp a.now }
    requires b { IsSet T.cmp b.now }
    ensures { result ≡ is_within T.cmp a.now b.now }
{
    let mut i = 0;
    let mut j = 0;
    while i < a.len() && j < b.len() {
        match a[i].cmp(&b[j]) {
            Ordering::Less => return false,
            Ordering::Equal => {
                i += 1;
                j += 1;
            }
            Ordering::Greater => j += 1,
        }
    }
    i == a.len()
}

// How many of some ascending items surely stand below a value, where the first does: at least half of those that do. The
// more there are, the fewer are looked at.
fn run_below<T: Ord + Copy>(items: &[T], value: &T) -> usize
    requires set { IsSet T.cmp items.now }
    requires some { 0 < length items.now }
    requires first { AllByRecursion (λ y. T.cmp y value.now ≡ Less) (take 1 items.now) }
    ensures some { 0 < result }
    ensures within { result ≤ length items.now }
    ensures below { AllByRecursion (λ y. T.cmp y value.now ≡ Less) (take result items.now) }
{
    let mut run = 1;
    while run < items.len() - run && ends_below(&items[..run + run], value) {
        run += run;
    }
    run
}

// The items of two ascending lists, in order and without doubles. What stands in one list below the next item of the other
// is taken in one piece.
fn merged<T: Ord + Copy>(alloc: Global, a: &[T], b: &[T]) -> Result<Vec<T>, AllocError>
    requires a { IsSet T.cmp a.now }
    requires b { IsSet T.cmp b.now }
    ensures { IfOk result (λ v. v.items ≡ merge T.cmp a.now b.now) }
{
    let mut all = Vec::with_capacity(alloc, a.len().saturating_add(b.len()))?;
    let mut i = 0;
    let mut j = 0;
    while i < a.len() && j < b.len() {
        match a[i].cmp(&b[j]) {
            Ordering::Less => {
                let end = i + run_below(&a[i..], &b[j]);
                all.extend_from_slice(&a[i..end])?;
                i = end;
            }
            Ordering::Equal => {
                all.push(a[i])?;
                i += 1;
                j += 1;
            }
            Ordering::Greater => {
                let end = j + run_below(&b[j..], &a[i]);
                all.extend_from_slice(&b[j..end])?;
                j = end;
            }
        }
    }
    all.extend_from_slice(&a[i..])?;
    all.extend_from_slice(&b[j..])?;
    Ok(all)
}

impl<T: Ord + Copy> Lattice for Set<T> {
    ghost use Rattle.std.specs.Prelude.{length};
    ghost use Rattle.bw_solve.specs.Sets.{IsSet, is_within, merge};
    ghost use Rattle.bw_solve.specs.Lawful.SetLaws.{set_lattice};

    ghost alike = { λ a b. IsSet T.cmp a × IsSet T.cmp b };

    ghost below = { is_within T.cmp };

    ghost join = { merge T.cmp };

    ghost size = { length };

    ghost rank = { length };

    ghost laws = { set_lattice T.total };

    fn join(&self, alloc: Global, other: &Self) -> Result<Self, AllocError> {
        self.union(alloc, other)
    }

    fn below(&self, other: &Self) -> bool {
        self.is_subset(other)
    }

    fn size(&self) -> u64 {
        self.len() as u64
    }
}
