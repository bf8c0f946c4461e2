//! Declarations of a service, as its text spells them.

use bw_lang::{Name, Session, Shared};

/// A declaration of a service, with what its text tells besides: the bytes inside a template, and whether `-` stands in front
/// of a variable's number.
#[derive(Clone, Copy)]
pub enum Spelled<'a> {
    Template { name: &'a Name, inside: &'a [u8] },
    Shared { variable: &'a Shared, minus: bool },
    Session(&'a Session),
}
