//! What is known of documents, where nothing counts but the gaps that they may lack: the edges of a document may be by far
//! the most of its members, and the faults of gaps don't look at them.
ghost use Rattle.std.specs.Prelude.{◌≡◌, IfOk, []};
ghost use Rattle.bw_types.specs.Scopes.{template_of};
ghost use Rattle.bw_analyse.specs.Known.{constant_at, look};
ghost use Rattle.bw_analyse.specs.Noting as spec;

use crate::abstracts::Abstract;
use crate::ground::Ground;
use crate::known::Scene;
use bw_lang::{Memory, Name};
use bw_solve::Set;
use bw_sum::{Labels, Summary};
use std::alloc::Global;

/// The gaps that documents may lack, and no other members.
fn lacks_alone(alloc: Global, summary: &Summary) -> Result<Summary, Memory>
    ensures { IfOk result (λ s. s ≡ spec.lacks_alone summary.now) }
{
    let lacks = summary.lacks.copy(alloc)?;
    Ok(Summary {
        roots: Set::new(alloc),
        edges: Set::new(alloc),
        texts: Labels::new(alloc),
        tracks: Set::new(alloc),
        lacks,
    })
}

impl Abstract {
    /// The same, and of documents the gaps alone that they may lack.
    fn bare(&self, alloc: Global) -> Result<Abstract, Memory>
        ensures { IfOk result (λ a. a ≡ spec.bare self.now) }
    {
        match self {
            Abstract::Nothing => Ok(Abstract::Nothing),
            Abstract::Str(strings) => Ok(Abstract::Str(strings.copy(alloc)?)),
            Abstract::Html(summary) => Ok(Abstract::Html(lacks_alone(alloc, summary)?)),
        }
    }
}

impl Ground<'_> {
    /// The gaps that the template of that name lacks. Nothing is known of a name that stands for nothing.
    fn bare_template(&self, alloc: Global, name: &Name) -> Result<Abstract, Memory>
        ensures { IfOk result (λ a. a ≡ spec.bare (constant_at self.now.typed.now.service (template_of self.now.typed.now.service name.now))) }
    {
        match self.constant(name) {
            Some(summary) => Ok(Abstract::Html(lacks_alone(alloc, summary)?)),
            None => Ok(Abstract::Nothing),
        }
    }
}

impl Scene<'_, '_, '_> {
    /// What is known of what a name stands for, and of documents the gaps alone that they may lack.
    pub(crate) fn bare(&self, alloc: Global, name: &Name) -> Result<Abstract, Memory>
        ensures { IfOk result (λ a. a ≡ spec.bare
            (look self.now.ground.now.typed.now.service self.now.scope.now self.now.locals.now self.now.shared.now name.now)) }
    {
        if let Some(value) = self.local(name) {
            return value.bare(alloc);
        }
        if let Some(value) = self.shared(name) {
            return value.bare(alloc);
        }
        self.ground.bare_template(alloc, name)
    }
}
