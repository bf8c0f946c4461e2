//! What is looked for in documents.
ghost use Rattle.std.specs.Prelude.{◌≡◌, ◌≤◌, IfOk, true};
ghost use Rattle.bw_explain.specs.declared.sizes.TheConstants.{MAX_SIZE, NONE};
ghost use Rattle.bw_explain.specs.Aims as spec;
ghost use Rattle.bw_explain.specs.Sizes as sizes;
ghost use Rattle.bw_explain.specs.Walks.{is_spot};

use crate::atom::Atom;
use crate::sizes::NONE;
use bw_lang::{Attrs, Element, Items, Memory};
use bw_schema::Rule;

/// The attributes and the items of an element.
#[derive(Drop)]
pub struct Made {
    pub attrs: Attrs,
    pub items: Items,
}

/// An element of a template, by its place, that is broken in some way, with the least size of what fills it so, and that, if
/// it isn't too big.
#[derive(Clone, Copy)]
pub struct Broken<'a> {
    pub template: usize,
    pub place: u32,
    pub element: &'a Element,
    pub rule: &'a Rule,
    pub atom: &'a Atom,
    /// In items and attributes, the element itself among them.
    pub size: u32,
    pub made: &'a Made,
}

/// What is looked for.
#[derive(Clone, Copy)]
pub enum Aim<'a> {
    /// Nothing.
    Plain,
    /// What breaks the rule of an element in some way, at the top of its items.
    Tops(&'a Rule, &'a Atom),
    /// An element that is broken, at any depth.
    One(Broken<'a>),
}

impl<'a> Aim<'a> {
    /// Whether it is looked for at any depth.
    pub fn is_deep(&self) -> bool
        ensures { result ≡ (spec.aim_of self.now).deep }
    {
        match self {
            Aim::Tops(_, _) => false,
            _ => true,
        }
    }

    /// Whether it is a text that isn't blank.
    pub fn is_wordy(&self) -> bool
        ensures { result ≡ (spec.aim_of self.now).wordy }
    {
        match self {
            Aim::Tops(_, atom) => atom.is_wordy(),
            _ => false,
        }
    }

    /// Whether an element with the tag may stand at the top beside what is looked for.
    pub fn stays(&self, tag: &str) -> bool
        ensures { result ≡ (spec.aim_of self.now).stays tag.now }
    {
        match self {
            Aim::Tops(_, atom) => atom.stays(tag),
            _ => true,
        }
    }

    /// Whether an element with the tag is what is looked for at the top in a state.
    pub fn next(&self, state: u32, tag: &str) -> bool
        ensures { result ≡ (spec.aim_of self.now).next state tag.now }
    {
        match self {
            Aim::Tops(rule, atom) => atom.next(rule, state, tag),
            _ => false,
        }
    }

    /// The least size of the element at a place of a template, if it is what is looked for.
    pub fn spot(&self, n: usize, place: u32) -> u32
        requires { spec.cost_of self.now ≤ NONE }
        ensures is { result ≡ sizes.if_so (is_spot (spec.aim_of self.now) n place) (spec.cost_of self.now) }
        ensures most { result ≤ NONE }
    {
        match self {
            Aim::One(one) => {
                if n == one.template && place == one.place {
                    one.size
                } else {
                    NONE
                }
            }
            _ => NONE,
        }
    }
}

/// The element that is looked for.
pub fn copy_made(aim: &Aim) -> Result<Made, Memory>
    requires { spec.cost_of aim.now ≤ MAX_SIZE }
    ensures { IfOk result (spec.IsCopy aim.now) }
{
    match aim {
        Aim::One(one) => Ok(Made {
            attrs: one.made.attrs.copy()?,
            items: one.made.items.copy()?,
        }),
        _ => unreachable!(),
    }
}
