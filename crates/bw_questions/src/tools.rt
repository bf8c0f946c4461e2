//! What questions are answered with.
use std::alloc::Global;

/// What the check works with: threads, memory, and who is told as it begins a piece.
#[derive(Drop)]
pub struct Tools<'r, 'p, R, P> {
    pub rt: &'r R,
    pub alloc: Global,
    pub pulse: &'p P,
}
