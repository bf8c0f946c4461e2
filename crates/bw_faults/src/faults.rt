//! Lists of faults.
ghost use Rattle.std.specs.Option.{option_to_list};
ghost use Rattle.std.specs.VecDeque.{deque_len};
ghost use Rattle.std.specs.Prelude.{◌≡◌, ◌<◌, ◌+◌, ◌++◌, [], ◌∷◌, length, IfOk, IsSome, None, OnOk, OnErr};
ghost use Rattle.bw_solve.specs.Sets.{IsSet, has, merge};
ghost use Rattle.bw_faults.specs.Order.{fault_cmp};

use crate::fault::Fault;
use bw_lang::Memory;
use std::alloc::Global;
use std::cmp::Ordering;
use std::collections::VecDeque;
use std::marker::Model;
use std::mem::replace;

/// Faults in their order, without doubles. Contracts see the list.
pub struct Faults {
    list: Vec<Fault>,
}

impl Drop for Faults {
    fn drop(self) {
        let Faults { list: _ } = self;
    }
}

impl Model for Faults {
    ghost use Rattle.std.specs.Prelude.{List};
    ghost use Rattle.bw_faults.specs.declared.fault.Fault.{Fault};
    ghost use Rattle.bw_faults.specs.contracts.fault.Fault as fault;
    ghost use Rattle.std.specs.Coded.{codes};
    ghost use Rattle.bw_faults.specs.Order.{fault_cmp};
    ghost use Rattle.bw_solve.specs.Sets.{IsSet};

    ghost Value = { List Fault };

    ghost coded = { Prim.hlevel (codes, fault.the_row.coded) };

    ghost view = { λ f. f.list.items };

    ghost invariant = { λ f. IsSet fault_cmp f.list.items };
}

impl Faults {
    /// No fault yet.
    pub fn new(alloc: Global) -> Faults
        ensures { result ≡ [] }
    {
        Faults {
            list: Vec::new(alloc),
        }
    }

    /// The faults, in order.
    pub fn as_slice(&self) -> &[Fault]
        ensures value { result.now ≡ self.now }
        ensures set { IsSet fault_cmp self.now }
    {
        self.list.as_slice()
    }

    /// How many faults there are.
    pub fn len(&self) -> usize
        ensures { result ≡ length self.now }
    {
        self.list.len()
    }

    /// Whether a fault is in the list.
    pub fn has(&self, fault: &Fault) -> bool
        ensures { result ≡ has fault_cmp self.now fault.now }
    {
        self.list.binary_search(fault).is_ok()
    }

    /// Takes a fault in, unless it is there. Where all others are below it, this takes no longer than a push.
    pub fn add(&mut self, fault: Fault) -> Result<(), Memory>
        ensures ok { OnOk result (self.new ≡ merge fault_cmp self.old (fault ∷ [])) }
        ensures err { OnErr result (self.new ≡ self.old) }
    {
        match self.list.binary_search(&fault) {
            Ok(_) => Ok(()),
            Err(place) => {
                self.list.insert(place, fault)?;
                Ok(())
            }
        }
    }

    /// Takes in the faults of another list. Where all faults of this one are below them they are put behind it; elsewhere
    /// both lists are walked once. After want of memory some faults may be there, or none.
    pub fn join(&mut self, other: Faults) -> Result<(), Memory>
        ensures { OnOk result (self.new ≡ merge fault_cmp self.old other) }
    {
        if self.is_below(&other) {
            self.append(other)
        } else {
            self.merge(other)
        }
    }

    /// Whether all faults of another list are above those of this one.
    fn is_below(&self, other: &Faults) -> bool {
        match (self.list.last(), other.list.first()) {
            (Some(last), Some(first)) => last < first,
            _ => true,
        }
    }

    /// Takes in the faults of another list, one after another.
    fn append(&mut self, other: Faults) -> Result<(), Memory>
        ensures { OnOk result (self.new ≡ merge fault_cmp self.old other) }
    {
        // These calls tell that both lists are in order.
        let _mine = self.as_slice();
        let _others = other.as_slice();
        let Faults { list } = other;
        for fault in list {
            self.add(fault)?;
        }
        Ok(())
    }

    /// Takes in the faults of another list, by a walk over both.
    fn merge(&mut self, other: Faults) -> Result<(), Memory>
        ensures { OnOk result (self.new ≡ merge fault_cmp self.old other) }
    {
        // These calls tell that both lists are in order.
        let _mine = self.as_slice();
        let _others = other.as_slice();
        let alloc = *self.list.allocator();
        let mine = replace(&mut self.list, Vec::new(alloc));
        let Faults { list: others } = other;
        self.list = merged(alloc, mine, others)?;
        Ok(())
    }
}

/// The faults of two lists in their order, without doubles.
fn merged(alloc: Global, mine: Vec<Fault>, others: Vec<Fault>) -> Result<Vec<Fault>, Memory>
    ensures { IfOk result (λ v. v.items ≡ merge fault_cmp mine.items others.items) }
{
    let mut mine = VecDeque::from_vec(mine);
    let mut others = VecDeque::from_vec(others);
    let mut all = Vec::new(alloc);
    while let Some(fault) = least(&mut mine, &mut others) {
        all.push(fault)?;
    }
    Ok(all)
}

/// Takes the least fault out of two lists in their order; where both begin with it, out of both.
fn least(mine: &mut VecDeque<Fault>, others: &mut VecDeque<Fault>) -> Option<Fault>
    ensures first { option_to_list result ++ merge fault_cmp mine.new.items others.new.items ≡ merge fault_cmp mine.old.items others.old.items }
    ensures none { result ≡ None → merge fault_cmp mine.new.items others.new.items ≡ [] }
    ensures fewer { IsSome result → deque_len mine.new + deque_len others.new < deque_len mine.old + deque_len others.old }
{
    match (mine.front(), others.front()) {
        (Some(one), Some(other)) => match one.cmp(other) {
            Ordering::Less => mine.pop_front(),
            Ordering::Equal => {
                let _same = others.pop_front();
                mine.pop_front()
            }
            Ordering::Greater => others.pop_front(),
        },
        (Some(_), None) => mine.pop_front(),
        (None, _) => others.pop_front(),
    }
}
