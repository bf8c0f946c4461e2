//! Public calls of the outside once more: adapters, and journals with their files. Each has some clauses of its contract, so
//! that a wrong body in its place is refused as that contract refuses it.
#![tactic(auto)]

mod journals;
mod outside;
