//! The kinds of answers.

use bw_lang::Tree;

/// A page that shows a fault, or why there is none.
#[derive(Drop)]
pub enum Explained {
    /// A least document that the page graph unfolds to and in which the fault shows, with its gaps closed. It has at most
    /// 4,096 items and attributes, open ones among them.
    Page(Tree),
    /// The fault shows in no document that the page graph unfolds to, and it is no `Disjunction`.
    NoUnfolding,
    /// It shows in some, and each of these has more than 4,096 items and attributes.
    TooBig,
    /// The fault is 7 and shows in none, and a need of its element that isn't sure has an Or.
    Disjunction,
}
