//! The form of a page is filled in.
ghost use Rattle.std.specs.Prelude.{◌≡◌, IfOk, Some, codes, []};
ghost use Rattle.bw_agent.specs.Controls.{value_or};
ghost use Rattle.bw_agent.specs.Fills as spec;

use crate::controls::controls_in;
use crate::filling::filled;
use crate::form::form_in;
use crate::pairs::body_of;
use crate::unknown::unknown;
use bw_lang::{Element, Items, Memory, Submission, Text};
use bw_read::{PageFault, read_page};
use std::alloc::Global;

/// What a user sends: a body, to a target.
#[derive(Drop)]
pub struct Filled {
    pub target: Text,
    pub body: Text,
}

/// Why no form was filled in.
#[derive(Drop)]
pub enum AgentFault {
    /// The bytes are no page.
    NotAPage,
    /// The page has no element `form` with an `action`.
    NoForm,
    /// The first name among the answers that no control of the form has.
    UnknownAnswer(Text),
    /// There was no memory.
    Memory,
}

impl From<Memory> for AgentFault {
    ghost use Rattle.bw_agent.specs.declared.page.AgentFault.TheVariants as faults;

    ghost from_gives = { λ _ e. e ≡ faults.Memory };

    fn from(_error: Memory) -> AgentFault {
        AgentFault::Memory
    }
}

/// Fills in the first form of a page that has an `action`, by these answers.
///
/// `NotAPage` comes exactly where `read_page` refuses the bytes, `NoForm` where the page has no such form, and
/// `UnknownAnswer` where an answer has a name that no control of it has; `Memory` may come at any time.
pub fn fill(alloc: Global, page: &[u8], answers: &Submission) -> Result<Filled, AgentFault>
    ensures { spec.OfBytes page.now answers.now result }
{
    match read_page(alloc, page) {
        Ok(tree) => fill_items(alloc, &tree.items, answers),
        Err(PageFault::NotAPage) => Err(AgentFault::NotAPage),
        Err(PageFault::Memory) => Err(AgentFault::Memory),
    }
}

/// Fills in the first form among the items that has an `action`.
fn fill_items(alloc: Global, items: &Items, answers: &Submission) -> Result<Filled, AgentFault>
    ensures { spec.Comes (spec.fills items.now answers.now) result }
{
    match form_in(items) {
        Some(form) => fill_form(alloc, form, answers),
        None => Err(AgentFault::NoForm),
    }
}

/// Fills in a form.
fn fill_form(alloc: Global, form: &Element, answers: &Submission) -> Result<Filled, AgentFault>
    ensures { spec.Comes (spec.fills_form (Some form.now) answers.now) result }
{
    if let Some(name) = unknown(alloc, &form.items, answers)? {
        return Err(AgentFault::UnknownAnswer(name));
    }
    Ok(sent_by(alloc, form, answers)?)
}

/// What is sent by a form.
fn sent_by(alloc: Global, form: &Element, answers: &Submission) -> Result<Filled, Memory>
    ensures { IfOk result (λ f. f ≡ spec.sent_by form.now answers.now) }
{
    let controls = controls_in(alloc, &form.items)?;
    let pairs = filled(alloc, &controls, answers)?;
    Ok(Filled {
        target: action_of(alloc, form)?,
        body: body_of(alloc, &pairs)?,
    })
}

/// The target of a form.
fn action_of(alloc: Global, form: &Element) -> Result<Text, Memory>
    ensures { IfOk result (λ t. t ≡ value_or (codes "action") [] form.now.attrs) }
{
    match form.attrs.fixed("action") {
        Some(action) => action.copy(),
        None => Text::of(alloc, ""),
    }
}
