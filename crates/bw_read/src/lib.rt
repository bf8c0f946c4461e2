//! Pages that were printed are read: the bytes of a page become the document that it is.
#![tactic(auto)]

mod element;
mod fault;
pub mod laws;
mod reading;

pub use fault::PageFault;
pub use reading::{MAX_PAGE_BYTES, MAX_PAGE_NEST, read_page};
