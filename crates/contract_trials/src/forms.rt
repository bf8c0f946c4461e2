//! Forms that are filled in.
ghost use Rattle.bw_agent.specs.Fills as spec;

use bw_agent::{AgentFault, Filled};
use bw_lang::Submission;
use std::alloc::Global;

/// The form of a page is filled in by answers: by all of them, and by empty ones.
pub fn fill(alloc: Global, page: &[u8], answers: &Submission) -> Result<Filled, AgentFault>
    ensures { spec.OfBytes page.now answers.now result }
{
    bw_agent::fill(alloc, page, answers)
}
