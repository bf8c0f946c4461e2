//! What is known of a value.
ghost use Rattle.std.specs.Prelude.{◌≡◌, [], IfOk};
ghost use Rattle.bw_solve.specs.Sets.{IsSet};
ghost use Rattle.bw_sum.specs.Edges.{edge_cmp};
ghost use Rattle.bw_analyse.specs.Abstracts.{both, least_of, plugged_by};
ghost use Rattle.bw_analyse.specs.Apart as apart;
ghost use Rattle.bw_analyse.specs.Facts.{summary_of};

use bw_lang::{GapId, Kind, Memory, TemplateId};
use bw_solve::{Lattice, Set};
use bw_strings::StrSet;
use bw_sum::Summary;
use std::alloc::{AllocError, Global};
use std::mem::replace;

/// The edges of a summary.
pub(crate) type Edges = Set<(TemplateId, GapId, TemplateId)>;

/// What is known of a value.
pub enum Abstract {
    /// Nothing, as of a number, a truth value or a list.
    Nothing,
    /// The strings that it may be.
    Str(StrSet),
    /// A summary of the documents that it may be.
    Html(Summary),
}

impl Drop for Abstract {
    fn drop(self) {
        match self {
            Abstract::Nothing => {}
            Abstract::Str(_) => {}
            Abstract::Html(_) => {}
        }
    }
}

impl Abstract {
    /// The least that is known of a variable of this kind: that it holds no string, or no document.
    pub fn least(alloc: Global, kind: Kind) -> Abstract
        ensures { result ≡ least_of kind }
    {
        match kind {
            Kind::Int | Kind::Bool | Kind::Strs => Abstract::Nothing,
            Kind::Str => Abstract::Str(StrSet::none(alloc)),
            Kind::Html => Abstract::Html(Summary::none(alloc)),
        }
    }

    /// An equal value with memory of its own.
    pub fn copy(&self, alloc: Global) -> Result<Abstract, Memory>
        ensures { IfOk result (λ a. a ≡ self.now) }
    {
        match self {
            Abstract::Nothing => Ok(Abstract::Nothing),
            Abstract::Str(strings) => Ok(Abstract::Str(strings.copy(alloc)?)),
            Abstract::Html(summary) => Ok(Abstract::Html(summary.copy(alloc)?)),
        }
    }

    /// What both may be. Of values of two kinds nothing is known.
    pub fn join(&self, alloc: Global, other: &Abstract) -> Result<Abstract, Memory>
        ensures { IfOk result (λ a. a ≡ both self.now other.now) }
    {
        match (self, other) {
            (Abstract::Str(a), Abstract::Str(b)) => Ok(Abstract::Str(a.join(alloc, b)?)),
            (Abstract::Html(a), Abstract::Html(b)) => Ok(Abstract::Html(a.join(alloc, b)?)),
            _ => Ok(Abstract::Nothing),
        }
    }

    /// What is known of this document with a value in its open gaps of that number. Of what is no document, or of a
    /// value that is neither a string nor a document, nothing is known.
    pub fn plug(&self, alloc: Global, gap: GapId, value: &Abstract) -> Result<Abstract, Memory>
        ensures { IfOk result (λ a. a ≡ plugged_by self.now gap value.now) }
    {
        match (self, value) {
            (Abstract::Html(b), Abstract::Html(a)) => Ok(Abstract::Html(b.plug(alloc, gap, a)?)),
            (Abstract::Html(b), Abstract::Str(s)) => {
                Ok(Abstract::Html(b.plug_text(alloc, gap, s)?))
            }
            _ => Ok(Abstract::Nothing),
        }
    }

    /// A value without its edges, and these.
    pub(crate) fn parted(self, alloc: Global) -> (Abstract, Edges)
        ensures bare { result.0 ≡ apart.with_edges self [] }
        ensures edges { result.1 ≡ apart.edges_of self }
        ensures set { IsSet edge_cmp result.1 }
    {
        match self {
            Abstract::Html(summary) => {
                let mut bare = summary;
                let edges = replace(&mut bare.edges, Set::new(alloc));
                // This call tells that the edges are a set.
                let _edges = edges.as_slice();
                (Abstract::Html(bare), edges)
            }
            Abstract::Nothing => (Abstract::Nothing, Set::new(alloc)),
            Abstract::Str(strings) => (Abstract::Str(strings), Set::new(alloc)),
        }
    }

    /// A value with these edges in place of its own.
    pub(crate) fn with_edges(self, edges: Edges) -> Abstract
        ensures { result ≡ apart.with_edges self edges }
    {
        match self {
            Abstract::Html(summary) => {
                let mut whole = summary;
                whole.edges = edges;
                Abstract::Html(whole)
            }
            Abstract::Nothing => Abstract::Nothing,
            Abstract::Str(strings) => Abstract::Str(strings),
        }
    }

    /// The summary of a document. In a typed service each page is one.
    pub(crate) fn into_summary(self, alloc: Global) -> Summary
        ensures { result ≡ summary_of self }
    {
        match self {
            Abstract::Html(summary) => summary,
            Abstract::Nothing | Abstract::Str(_) => Summary::none(alloc),
        }
    }
}

impl Lattice for Abstract {
    ghost use Rattle.bw_analyse.specs.Abstracts.{AreAlike, is_below, both, size_of, rank_of};
    ghost use Rattle.bw_analyse.specs.Lawful.AbstractLaws.{abstracts_lattice};

    ghost alike = { AreAlike };

    ghost below = { is_below };

    ghost join = { both };

    ghost size = { size_of };

    ghost rank = { rank_of };

    ghost laws = { abstracts_lattice };

    fn join(&self, alloc: Global, other: &Self) -> Result<Self, AllocError> {
        Ok(self.join(alloc, other)?)
    }

    fn below(&self, other: &Self) -> bool {
        match (self, other) {
            (Abstract::Nothing, Abstract::Nothing) => true,
            (Abstract::Str(a), Abstract::Str(b)) => a.below(b),
            (Abstract::Html(a), Abstract::Html(b)) => a.below(b),
            _ => false,
        }
    }

    fn size(&self) -> u64 {
        match self {
            Abstract::Nothing => 0,
            Abstract::Str(strings) => strings.size(),
            Abstract::Html(summary) => summary.size(),
        }
    }
}
