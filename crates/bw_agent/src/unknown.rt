//! Answers that no control of a form asks for.
ghost use Rattle.std.specs.Prelude.{◌≡◌, None, Some, IfOk, MatchOption};
ghost use Rattle.bw_lang.specs.Template.Controls.{control_names};
ghost use Rattle.bw_agent.specs.Filled as spec;

use crate::names::is_known;
use bw_lang::{Items, Memory, NameTable, Submission, Text};
use std::alloc::Global;

/// The first name among the answers that no control among the items has.
#[tactic(auto, using(crate::proofs::Tables::table_steps))]
pub fn unknown(alloc: Global, items: &Items, answers: &Submission) -> Result<Option<Text>, Memory>
    ensures { IfOk result (λ n. n ≡ spec.unknown (control_names items.now) answers.now) }
{
    let mut names = NameTable::new(alloc);
    names.add_controls(items)?;
    match first_unknown(&names, answers) {
        Some(name) => Ok(Some(name.copy()?)),
        None => Ok(None),
    }
}

/// The first name among the answers that isn't in the table.
fn first_unknown<'a>(names: &NameTable, answers: &'a Submission) -> Option<&'a Text>
    ensures { MatchOption result (spec.unknown names.now answers.now ≡ None) (λ n. spec.unknown names.now answers.now ≡ Some n.now) }
{
    for (name, _) in answers.as_slice() {
        if !is_known(names, name.as_str()) {
            return Some(name);
        }
    }
    None
}
