//! From a service to its flow.
ghost use Rattle.std.specs.Prelude.{◌≡◌, ◌≤◌, IfOk, IfErr};
ghost use Rattle.bw_flow.specs.Layout.{plan_of, points};
ghost use Rattle.bw_flow.specs.Flows.{IsFlowFault};
ghost use Rattle.bw_flow.specs.declared.lowering.TheConstants.{MAX_POINTS};

use crate::counting::session_points;
use crate::draft::Draft;
use crate::flow::Flow;
use crate::laws::points_are_few;
use crate::point::PointId;
use bw_lang::Memory;
use bw_types::Typed;
use std::alloc::Global;

/// The most points that the flow of a service has.
pub const MAX_POINTS: usize = 4096;

/// Why a service has no flow.
#[derive(Clone, Copy, PartialEq, Eq)]
pub enum FlowFault {
    /// It has so many points, more than 4,096.
    TooMany(u64),
    /// There was no memory.
    Memory,
}

impl From<Memory> for FlowFault {
    ghost use Rattle.bw_flow.specs.declared.lowering.FlowFault.TheVariants as faults;

    ghost from_gives = { λ _ e. e ≡ faults.Memory };

    fn from(_error: Memory) -> FlowFault {
        FlowFault::Memory
    }
}

/// The flow of a service: a point for each statement other than a block, in source order, and one for each `if`, where
/// its branches meet. `TooMany` comes exactly where there are more than 4,096 points, and `Memory` for want of it.
pub fn lower(alloc: Global, typed: &Typed) -> Result<Flow, FlowFault>
    ensures ok { IfOk result (λ f. (f ≡ plan_of typed.now.service) × points typed.now.service.sessions ≤ MAX_POINTS) }
    ensures fault { IfErr result (λ e. IsFlowFault e (points typed.now.service.sessions)) }
{
    points_are_few();
    let sessions = typed.service().sessions.as_slice();
    let total = session_points(sessions);
    if total > MAX_POINTS {
        return Err(FlowFault::TooMany(total as u64));
    }
    let mut draft = Draft::new(alloc);
    let firsts = draft.sessions(typed, sessions, PointId::of(total))?;
    Ok(Flow::of(draft.into_points(), firsts))
}
