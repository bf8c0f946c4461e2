//! Schemas: which elements a page may have, with which attributes, values, children and texts, and what each needs.
//! `read_schema` reads their text, and `specs/Validity.antt` says which documents are valid by one.
#![tactic(auto)]

mod building;
mod claims;
mod default_schema;
mod fault;
mod formulas;
pub mod laws;
mod lines;
mod marks;
mod names;
mod needs;
mod reading;
mod rules;
mod schema;
mod words;

pub use default_schema::{BUILT_IN, built_in};
pub use fault::SchemaFault;
pub use formulas::FORMULA_NESTING;
pub use needs::{Formula, Formulas};
pub use reading::{MAX_SCHEMA_BYTES, read_schema};
pub use rules::{Rule, Rules, ValueList, ValueLists, is_among};
pub use schema::Schema;
