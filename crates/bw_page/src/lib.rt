//! Pages: printing of documents, the length of what is printed, the wrapping of a document into a page, and the fields
//! of a page.
#![tactic(auto)]

mod field_list;
pub mod laws;
mod lengths;
mod printing;
mod sheet;
mod wrapping;

pub use field_list::{FieldList, FieldUse, fields};
pub use lengths::length;
pub use printing::print;
pub use sheet::Sheet;
pub use wrapping::{wrap_exit, wrap_show};
