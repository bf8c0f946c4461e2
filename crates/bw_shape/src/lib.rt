//! The shape of a page graph: what each template that it reaches may have, lack, have twice, miss and cross.
#![tactic(auto)]

mod arranging;
pub mod basis;
pub mod building;
mod cross;
mod field_tables;
mod fields;
mod gaps;
pub mod items;
mod naming;
pub mod node;
pub mod outline;
mod reach;
mod readers;
pub mod row;
pub mod rule;
pub mod sayings;
pub mod table;
pub mod tables;
mod tag_tables;
pub mod tags;
pub mod tally;
pub mod tops;

pub use basis::{Basis, Wrappers};
pub use building::{Graphed, nodes_of};
pub use items::TemplateItems;
pub use naming::Named;
pub use node::Node;
pub use outline::{Outline, shape, shape_by};
pub use row::Row;
pub use rule::{Rule, least};
pub use sayings::{Saying, Sayings};
pub use table::Table;
pub use tables::Tables;
pub use tags::Tags;
pub use tally::Tally;
pub use tops::items_give;
