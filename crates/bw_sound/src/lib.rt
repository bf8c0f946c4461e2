//! The check is sound: every page that an accepted service answers is valid, and has each field that its show receives.
#![tactic(auto)]

pub mod laws;
