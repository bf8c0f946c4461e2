//! Summaries of documents, and what plugs make of them.
ghost use Rattle.std.specs.Prelude.{◌≡◌, ◌+◌, ◌<◌, ◌^◌, ◌-◌, length, IfOk, []};
ghost use Rattle.bw_sum.specs.Constants.{constant_of};
ghost use Rattle.bw_sum.specs.Summaries.{both, plugged, plugged_text};
ghost use Rattle.bw_sum.specs.Templates.{template_items};
ghost use Rattle.bw_sum.specs.declared.summary.Summary.{Summary};

use crate::constants::{lacks_of, tracks_of};
use crate::labels::Labels;
use crate::parts::{lacking, new_edges, other_tracks, text_labels};
use bw_lang::laws::readable_is_small;
use bw_lang::wrappers::{exit_wrapper, show_wrapper};
use bw_lang::{GapId, Items, Memory, TemplateId};
use bw_solve::{Lattice, Set};
use bw_strings::StrSet;
use bw_types::Typed;
use std::alloc::{AllocError, Global};

/// What is known of some documents: the documents that its template constants may become by plugs.
pub struct Summary {
    /// The templates that a document may begin as.
    pub roots: Set<TemplateId>,
    /// A template, a gap in it, and a template that may be plugged there.
    pub edges: Set<(TemplateId, GapId, TemplateId)>,
    /// The strings that may be plugged at a gap of a template.
    pub texts: Labels,
    /// A gap that may be open, and the template that it comes from.
    pub tracks: Set<(GapId, TemplateId)>,
    /// The gaps of which a document may have none open.
    pub lacks: Set<GapId>,
}

impl Drop for Summary {
    fn drop(self) {
        let Summary {
            roots: _,
            edges: _,
            texts: _,
            tracks: _,
            lacks: _,
        } = self;
    }
}

impl Summary {
    /// The summary of no document: the least one.
    pub fn none(alloc: Global) -> Summary
        ensures { result ≡ record { roots = []; edges = []; texts = []; tracks = []; lacks = [] } }
    {
        Summary {
            roots: Set::new(alloc),
            edges: Set::new(alloc),
            texts: Labels::new(alloc),
            tracks: Set::new(alloc),
            lacks: Set::new(alloc),
        }
    }

    /// The summary of the document that a template, or a page wrapper, is as it stands: its one root, a track for each of
    /// its gaps, and the other gaps of the service lacking.
    pub fn constant(alloc: Global, typed: &Typed, template: TemplateId) -> Result<Summary, Memory>
        requires { template < length typed.now.service.templates + 2 }
        ensures { IfOk result (λ s. s ≡
            constant_of template (template_items typed.now.service template) (length typed.now.service.gaps)) }
    {
        readable_is_small();
        let service = typed.service();
        let templates = service.templates.as_slice();
        let number = template.number() as usize;
        let gaps = service.gaps.len() as u32;
        if number < templates.len() {
            return Summary::constant_of(alloc, template, &templates[number].items, gaps);
        }
        let wrapper = if number == templates.len() {
            show_wrapper(alloc, &service.gaps)?
        } else {
            exit_wrapper(alloc, &service.gaps)?
        };
        let constant = Summary::constant_of(alloc, template, &wrapper, gaps);
        drop(wrapper);
        constant
    }

    /// The summary of the template with these items, in a service of so many gaps.
    fn constant_of(
        alloc: Global,
        template: TemplateId,
        items: &Items,
        gaps: u32,
    ) -> Result<Summary, Memory>
        requires { gaps < 2 ^ 32 - 3 }
        ensures { IfOk result (λ s. s ≡ constant_of template items.now gaps) }
    {
        let roots = Set::of(alloc, template)?;
        let tracks = tracks_of(alloc, template, items, gaps + 3)?;
        let lacks = lacks_of(alloc, items, gaps)?;
        Ok(Summary {
            roots,
            edges: Set::new(alloc),
            texts: Labels::new(alloc),
            tracks,
            lacks,
        })
    }

    /// An equal summary with memory of its own.
    pub fn copy(&self, alloc: Global) -> Result<Summary, Memory>
        ensures { IfOk result (λ s. s ≡ self.now) }
    {
        let roots = self.roots.copy(alloc)?;
        let edges = self.edges.copy(alloc)?;
        let tracks = self.tracks.copy(alloc)?;
        let lacks = self.lacks.copy(alloc)?;
        let texts = self.texts.copy(alloc)?;
        Ok(Summary {
            roots,
            edges,
            texts,
            tracks,
            lacks,
        })
    }

    /// The summary of the documents of both: the union, part by part.
    pub fn join(&self, alloc: Global, other: &Summary) -> Result<Summary, Memory>
        ensures { IfOk result (λ s. s ≡ both self.now other.now) }
    {
        let roots = self.roots.union(alloc, &other.roots)?;
        let edges = self.edges.union(alloc, &other.edges)?;
        let tracks = self.tracks.union(alloc, &other.tracks)?;
        let lacks = self.lacks.union(alloc, &other.lacks)?;
        let texts = self.texts.with(alloc, &other.texts)?;
        Ok(Summary {
            roots,
            edges,
            texts,
            tracks,
            lacks,
        })
    }

    /// The edges of the documents with each open gap of that number filled by a document of the other.
    fn plugged_edges(
        &self,
        alloc: Global,
        gap: GapId,
        a: &Summary,
    ) -> Result<Set<(TemplateId, GapId, TemplateId)>, Memory>
        ensures { IfOk result (λ s. s ≡ (plugged self.now gap a.now).edges) }
    {
        let new = new_edges(alloc, &self.tracks, gap, &a.roots)?;
        // What stands already may be by far the most, and is gone through once.
        let more = a.edges.union(alloc, &new)?;
        Ok(self.edges.union(alloc, &more)?)
    }

    /// The tracks of the documents with each open gap of that number filled by a document of the other.
    fn plugged_tracks(
        &self,
        alloc: Global,
        gap: GapId,
        a: &Summary,
    ) -> Result<Set<(GapId, TemplateId)>, Memory>
        ensures { IfOk result (λ s. s ≡ (plugged self.now gap a.now).tracks) }
    {
        let others = other_tracks(alloc, &self.tracks, gap)?;
        Ok(others.union(alloc, &a.tracks)?)
    }

    /// The summary of the documents of this one with each open gap of that number filled by a document of the other.
    pub fn plug(&self, alloc: Global, gap: GapId, a: &Summary) -> Result<Summary, Memory>
        ensures { IfOk result (λ s. s ≡ plugged self.now gap a.now) }
    {
        let edges = self.plugged_edges(alloc, gap, a)?;
        let tracks = self.plugged_tracks(alloc, gap, a)?;
        let roots = self.roots.copy(alloc)?;
        let lacks = lacking(alloc, &a.lacks, gap, &self.lacks)?;
        let texts = self.texts.with(alloc, &a.texts)?;
        Ok(Summary {
            roots,
            edges,
            texts,
            tracks,
            lacks,
        })
    }

    /// The labels of the documents with each open gap of that number filled by one of these strings.
    fn plugged_texts(&self, alloc: Global, gap: GapId, strings: &StrSet) -> Result<Labels, Memory>
        ensures { IfOk result (λ l. l ≡ (plugged_text self.now gap strings.now).texts) }
    {
        let new = text_labels(alloc, &self.tracks, gap, strings)?;
        let texts = self.texts.with(alloc, &new);
        drop(new);
        texts
    }

    /// The summary of the documents of this one with each open gap of that number filled by one of these strings.
    pub fn plug_text(&self, alloc: Global, gap: GapId, strings: &StrSet) -> Result<Summary, Memory>
        ensures { IfOk result (λ s. s ≡ plugged_text self.now gap strings.now) }
    {
        let roots = self.roots.copy(alloc)?;
        let edges = self.edges.copy(alloc)?;
        let tracks = other_tracks(alloc, &self.tracks, gap)?;
        let mut lacks = self.lacks.copy(alloc)?;
        lacks.add(gap)?;
        let texts = self.plugged_texts(alloc, gap, strings)?;
        Ok(Summary {
            roots,
            edges,
            texts,
            tracks,
            lacks,
        })
    }
}

impl Lattice for Summary {
    ghost use Rattle.bw_sum.specs.Summaries.{AreAlike, is_below, both, size_of, rank_of};
    ghost use Rattle.bw_sum.specs.Lawful.SummaryLaws.{summary_lattice};

    ghost alike = { AreAlike };

    ghost below = { is_below };

    ghost join = { both };

    ghost size = { size_of };

    ghost rank = { rank_of };

    ghost laws = { summary_lattice };

    fn join(&self, alloc: Global, other: &Self) -> Result<Self, AllocError> {
        Ok(self.join(alloc, other)?)
    }

    fn below(&self, other: &Self) -> bool {
        self.roots.is_subset(&other.roots)
            && (self.edges.is_subset(&other.edges)
                && (self.texts.is_within(&other.texts)
                    && (self.tracks.is_subset(&other.tracks)
                        && self.lacks.is_subset(&other.lacks))))
    }

    fn size(&self) -> u64 {
        self.roots.size().saturating_add(
            self.edges.size().saturating_add(
                self.texts
                    .size()
                    .saturating_add(self.tracks.size().saturating_add(self.lacks.size())),
            ),
        )
    }
}
