//! Documents that share their parts, and the sheets of their pages.
#![tactic(auto)]

mod constant;
mod doc;
mod fault;
pub mod laws;
mod notes;
mod output;
mod outside;
mod part;
mod sheet;
mod spots;
mod walk;

pub use bw_page::Sheet;
pub use doc::Doc;
pub use fault::DocFault;
pub use part::Part;
