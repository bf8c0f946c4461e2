//! Files whose text is shown where a service is refused, and what is known of them.
use bw_diagnose::{Aim, Marks, Tokened};

/// A file whose text is shown, with its tokens, which were told as it was read.
#[derive(Clone, Copy)]
pub struct Seen<'a> {
    pub name: &'a [u8],
    pub told: Tokened<'a>,
}

/// The same, with what is known of the service's first test that fails.
#[derive(Drop)]
pub struct Aimed<'a> {
    pub seen: Seen<'a>,
    pub aim: Aim,
}

/// The same, with where the statements and templates of the service stand that the text is written for.
#[derive(Drop)]
pub struct Sight<'a> {
    pub seen: Seen<'a>,
    pub marks: Marks,
}
