//! The strings that may be plugged at the gaps of templates.
ghost use Rattle.std.specs.Prelude.{◌≡◌, ◌++◌, ◌∷◌, [], IfOk, false};
ghost use Rattle.bw_solve.specs.Tables.{is_table_below, table_join};
ghost use Rattle.bw_strings.specs.Strings.{is_below, both, is_none};
ghost use Rattle.bw_sum.specs.Labels.{pair_cmp, AreLabels, are_below, both_labels, labels_at};

use bw_lang::{GapId, Memory, TemplateId};
use bw_solve::{Lattice, Set};
use bw_strings::StrSet;
use std::alloc::{AllocError, Global};
use std::cmp::Ordering;
use std::marker::Model;

/// A template and a gap in it, and the strings that may be plugged there.
pub type Label = ((TemplateId, GapId), StrSet);

/// Labels, in the order of their templates and then of their gaps. A label without a string isn't there. Contracts see
/// the list.
#[derive(Drop)]
pub struct Labels {
    list: Vec<Label>,
}

impl Model for Labels {
    ghost use Rattle.std.specs.Prelude.{List, ℕ};
    ghost use Rattle.bw_strings.specs.declared.strings.StrSet.{StrSet};

    ghost Value = { List ((ℕ × ℕ) × StrSet) };

    ghost use Rattle.bw_sum.specs.Labels.{AreLabels};

    ghost view = { λ l. l.list.items };

    ghost invariant = { λ l. AreLabels l.list.items };
}

impl Labels {
    /// No label yet.
    pub fn new(alloc: Global) -> Labels
        ensures { result ≡ [] }
    {
        Labels {
            list: Vec::new(alloc),
        }
    }

    /// The labels, in order.
    pub fn as_slice(&self) -> &[Label]
        ensures value { result.now ≡ self.now }
        ensures labels { AreLabels self.now }
    {
        self.list.as_slice()
    }

    /// Equal labels with memory of their own.
    pub fn copy(&self, alloc: Global) -> Result<Labels, Memory>
        ensures { IfOk result (λ l. l ≡ self.now) }
    {
        let list = copied_onto(alloc, Vec::new(alloc), self.as_slice())?;
        Ok(Labels { list })
    }

    /// A label with these strings for each template where the gap is tracked.
    pub(crate) fn at_tracks(
        alloc: Global,
        tracks: &Set<(GapId, TemplateId)>,
        gap: GapId,
        strings: &StrSet,
    ) -> Result<Labels, Memory>
        requires { is_none strings.now ≡ false }
        ensures { IfOk result (λ l. l ≡ labels_at tracks.now gap strings.now) }
    {
        let mut list = Vec::new(alloc);
        for track in tracks.as_slice() {
            if track.0 == gap {
                let Ok(copy) = strings.copy(alloc) else {
                    drop(list);
                    return Err(Memory);
                };
                list = pushed(list, ((track.1, gap), copy))?;
            }
        }
        // This call tells that the strings are well formed, as labels ask.
        let _none = strings.is_none();
        Ok(Labels { list })
    }

    /// The labels of both, their strings joined.
    pub fn with(&self, alloc: Global, other: &Labels) -> Result<Labels, Memory>
        ensures { IfOk result (λ l. l ≡ both_labels self.now other.now) }
    {
        let list = joined(alloc, self.as_slice(), other.as_slice())?;
        Ok(Labels { list })
    }

    /// Whether each label has strings that another has.
    pub fn is_within(&self, other: &Labels) -> bool
        ensures { result ≡ are_below self.now other.now }
    {
        within(self.as_slice(), other.as_slice())
    }
}

// An equal label.
fn copied(alloc: Global, label: &Label) -> Result<Label, Memory>
    ensures { IfOk result (λ l. l ≡ label.now) }
{
    Ok((label.0, label.1.copy(alloc)?))
}

// Labels with one more behind them.
fn pushed(labels: Vec<Label>, label: Label) -> Result<Vec<Label>, Memory>
    ensures { IfOk result (λ v. v.items ≡ labels.items ++ label ∷ []) }
{
    let mut all = labels;
    match all.push(label) {
        Ok(()) => Ok(all),
        Err(_) => {
            drop(all);
            Err(Memory)
        }
    }
}

// Labels with one behind them that is equal to another.
fn with_copy(alloc: Global, labels: Vec<Label>, label: &Label) -> Result<Vec<Label>, Memory>
    ensures { IfOk result (λ v. v.items ≡ labels.items ++ label.now ∷ []) }
{
    let Ok(copy) = copied(alloc, label) else {
        drop(labels);
        return Err(Memory);
    };
    pushed(labels, copy)
}

// Labels with one behind them that has the strings of two others of the same gap.
fn with_both(alloc: Global, labels: Vec<Label>, a: &Label, b: &Label) -> Result<Vec<Label>, Memory>
    ensures { IfOk result (λ v. v.items ≡ labels.items ++ (a.now.0, both a.now.1 b.now.1) ∷ []) }
{
    let Ok(strings) = a.1.join(alloc, &b.1) else {
        drop(labels);
        return Err(Memory);
    };
    pushed(labels, (a.0, strings))
}

// Labels with equal ones of others behind them.
fn copied_onto(alloc: Global, labels: Vec<Label>, others: &[Label]) -> Result<Vec<Label>, Memory>
    ensures { IfOk result (λ v. v.items ≡ labels.items ++ others.now) }
{
    let mut all = labels;
    for label in others {
        all = with_copy(alloc, all, label)?;
    }
    Ok(all)
}

// The labels of both.
fn joined(alloc: Global, a: &[Label], b: &[Label]) -> Result<Vec<Label>, Memory>
    requires a { AreLabels a.now }
    requires b { AreLabels b.now }
    ensures { IfOk result (λ v. v.items ≡ table_join pair_cmp both a.now b.now) }
{
    let mut all = Vec::new(alloc);
    let mut i = 0;
    let mut j = 0;
    while i < a.len() && j < b.len() {
        match a[i].0.cmp(&b[j].0) {
            Ordering::Less => {
                all = with_copy(alloc, all, &a[i])?;
                i += 1;
            }
            Ordering::Equal => {
                all = with_both(alloc, all, &a[i], &b[j])?;
                i += 1;
                j += 1;
            }
            Ordering::Greater => {
                all = with_copy(alloc, all, &b[j])?;
                j += 1;
            }
        }
    }
    let front = copied_onto(alloc, all, &a[i..])?;
    let whole = copied_onto(alloc, front, &b[j..])?;
    Ok(whole)
}

// Whether each of some labels has strings that another has.
fn within(a: &[Label], b: &[Label]) -> bool
    requires a { AreLabels a.now }
    requires b { AreLabels b.now }
    ensures { result ≡ is_table_below pair_cmp is_below (StrSet.Of []) a.now b.now }
{
    let mut i = 0;
    let mut j = 0;
    while i < a.len() && j < b.len() {
        match a[i].0.cmp(&b[j].0) {
            Ordering::Less => return false,
            Ordering::Equal => {
                if !a[i].1.below(&b[j].1) {
                    return false;
                }
                i += 1;
                j += 1;
            }
            Ordering::Greater => j += 1,
        }
    }
    i == a.len()
}

impl Lattice for Labels {
    ghost use Rattle.bw_sum.specs.Labels.{AreLabels, are_below, both_labels, labels_size, labels_rank};
    ghost use Rattle.bw_sum.specs.Lawful.LabelLaws.{labels_lattice};

    ghost alike = { λ a b. AreLabels a × AreLabels b };

    ghost below = { are_below };

    ghost join = { both_labels };

    ghost size = { labels_size };

    ghost rank = { labels_rank };

    ghost laws = { labels_lattice };

    fn join(&self, alloc: Global, other: &Self) -> Result<Self, AllocError> {
        Ok(self.with(alloc, other)?)
    }

    fn below(&self, other: &Self) -> bool {
        self.is_within(other)
    }

    fn size(&self) -> u64 {
        let mut total = 0u64;
        for label in &self.list {
            total = total.saturating_add(label.1.size());
        }
        total
    }
}
