//! A page that shows a fault of a page graph: a least document that the graph unfolds to in which the fault's element breaks
//! its rule.
#![tactic(auto)]

mod aim;
mod asking;
mod atom;
mod building;
mod draft;
mod element;
mod explained;
mod explaining;
mod failing;
mod fault;
mod fill;
mod finding;
mod gaps;
mod ground;
mod least;
mod leaving;
mod needs;
mod next;
mod own;
mod page;
mod places;
mod putting;
mod reach;
mod settle;
mod sizes;
mod solve;
mod split;
mod spotting;
mod table;
mod walk;
mod way;

pub use asking::explain;
pub use explained::Explained;
