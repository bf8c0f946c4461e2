//! The words of refusals.
#![tactic(auto)]

mod hints;

pub use hints::{
    Expected, Role, facts_mend, facts_what, fault_mend, points_mend, points_what, push_fault_what,
    push_meant_words, push_type_what, syntax_mend, syntax_what, type_mend,
};
