//! What points leave in locals, and add to shared variables.
ghost use Rattle.std.specs.Prelude.{◌≡◌, IfOk};
ghost use Rattle.bw_flow.specs.View.{act};
ghost use Rattle.bw_analyse.specs.Known as known;
ghost use Rattle.bw_analyse.specs.Rounds as spec;
ghost use Rattle.bw_analyse.specs.Rounds.{is_local, left_by, added_by};

use crate::abstracts::Abstract;
use crate::known::Scene;
use bw_flow::{Received, What};
use bw_lang::{Memory, Name};
use bw_strings::StrSet;
use std::alloc::Global;

/// What is known of a variable that has received a field, by what was known of it: of a list nothing, else any string.
fn received(value: &Abstract) -> Abstract
    ensures { result ≡ spec.received_by value.now }
{
    match value {
        Abstract::Nothing => Abstract::Nothing,
        Abstract::Str(_) | Abstract::Html(_) => Abstract::Str(StrSet::Any),
    }
}

/// Whether one of these goes into the variable of that name.
fn receives(fields: &[Received], name: &Name) -> bool
    ensures { result ≡ spec.receives name.now fields.now }
{
    let name = name.as_str();
    fields.iter().any(|field| name == field.target.as_str())
}

fn is_same(a: &Name, b: &Name) -> bool
    ensures { result ≡ spec.is_same a.now b.now }
{
    a.as_str() == b.as_str()
}

/// Any string.
fn any() -> Abstract
    ensures { result ≡ known.any }
{
    Abstract::Str(StrSet::Any)
}

impl Scene<'_, '_, '_> {
    /// A copy of what is known of the local of that name, if it is in scope.
    fn own(&self, alloc: Global, name: &Name) -> Result<Option<Abstract>, Memory>
        ensures { IfOk result (λ o. o ≡ known.of_local self.now.scope.now self.now.locals.now name.now) }
    {
        match self.local(name) {
            Some(value) => Ok(Some(value.copy(alloc)?)),
            None => Ok(None),
        }
    }

    /// Whether it is the name of a local in scope.
    fn is_local(&self, name: &Name) -> bool
        ensures { result ≡ is_local self.now.scope.now name.now }
    {
        let name = name.as_str();
        self.scope
            .as_slice()
            .iter()
            .any(|local| name == local.name.as_str())
    }

    /// What a point that does this leaves in the local of that name, if it leaves something. Where a foreach leads to
    /// several points, the first one is that of its body.
    pub fn left(
        &self,
        alloc: Global,
        what: &What,
        is_first: bool,
        name: &Name,
    ) -> Result<Option<Abstract>, Memory>
        ensures { IfOk result (λ o. o ≡ left_by self.now.ground.now.typed.now.service self.now.scope.now self.now.locals.now self.now.shared.now
            is_first name.now (act what.now)) }
    {
        match what {
            What::Assign {
                name: target,
                value,
            } if is_same(name, target) => Ok(Some(self.known(alloc, value)?)),
            What::Each { name: target, .. } if is_first && is_same(name, target) => Ok(Some(any())),
            What::Show {
                receives: fields,
                ..
            } if receives(fields.as_slice(), name) => {
                match self.local(name) {
                    Some(value) => Ok(Some(received(value))),
                    None => Ok(None),
                }
            }
            _ => self.own(alloc, name),
        }
    }

    /// What a point that does this adds to the shared variable of that name, if it adds something.
    pub fn added(&self, alloc: Global, what: &What, name: &Name) -> Result<Option<Abstract>, Memory>
        ensures { IfOk result (λ o. o ≡ added_by self.now.ground.now.typed.now.service self.now.scope.now self.now.locals.now self.now.shared.now
            name.now (act what.now)) }
    {
        match what {
            What::Assign {
                name: target,
                value,
            } => {
                if is_same(name, target) && !self.is_local(name) {
                    return Ok(Some(self.known(alloc, value)?));
                }
                Ok(None)
            }
            What::Show {
                receives: fields,
                ..
            } => {
                if receives(fields.as_slice(), name) && !self.is_local(name) {
                    return Ok(self.shared(name).map(received));
                }
                Ok(None)
            }
            _ => Ok(None),
        }
    }
}
