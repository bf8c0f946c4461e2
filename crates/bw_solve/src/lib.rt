//! Sets, lattices, and the least solution of a system of cells whose values are computed from one another.
#![tactic(auto)]

pub mod fault;
pub mod lattice;
pub mod laws;
pub mod set;
pub mod solver;
pub mod system;

pub use fault::SolveFault;
pub use lattice::Lattice;
pub use set::Set;
pub use solver::{Solution, solve};
pub use system::System;
