//! The least solution of a service's system: what is known of each local at each point, of each shared variable, and of
//! the document of each show and exit; the graphs of pages, and the plugs whose gap may be missing.
#![tactic(auto)]

pub mod abstracts;
pub mod analysis;
pub mod arrows;
mod bare;
pub mod equations;
pub mod facts;
pub mod fault;
pub mod gaps;
pub mod ground;
pub mod known;
pub mod leaving;
pub mod pages;
mod plugging;
pub mod readers;
pub mod rounds;
pub mod rows;
pub mod tables;

pub use abstracts::Abstract;
pub use analysis::{MAX_MEMBERS, analyse};
pub use facts::Facts;
pub use fault::AnalyseFault;
pub use gaps::gap_faults;
pub use pages::page_graph;
pub use rows::Row;
