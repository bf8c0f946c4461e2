//! What a search for a least document goes by.

use crate::atom::Atom;
use crate::page::Page;
use crate::table::Table;
use crate::walk::Walk;
use bw_lang::Name;
use bw_schema::Rule;

/// The templates of a page graph, with the least documents of each.
#[derive(Clone, Copy)]
pub struct Ground<'a> {
    pub page: &'a Page<'a>,
    pub plain: &'a Table,
}

/// A rule, and a way in which an element breaks it.
#[derive(Clone, Copy)]
pub struct Breach<'a> {
    pub rule: &'a Rule,
    pub atom: &'a Atom,
}

/// A breach of a rule by attributes of one name, none of which passes.
#[derive(Clone, Copy)]
pub struct Lack<'a> {
    pub breach: &'a Breach<'a>,
    pub name: &'a Name,
}

/// Where a walk stands in a template: behind so many of its elements.
#[derive(Clone, Copy)]
pub struct Stand<'a> {
    pub walk: &'a Walk<'a>,
    pub n: usize,
    pub place: u32,
}
