//! How live sessions wait: with values of the kinds of their variables, under numbers that a path can name. Laws alone.
#![tactic(auto)]

pub mod laws;
