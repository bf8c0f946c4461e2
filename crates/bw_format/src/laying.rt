//! Laying a pattern out as steps.
ghost use Rattle.std.specs.Prelude.{◌≡◌, ◌≤◌, ◌<◌, ◌++◌, ◌∷◌, ◌+◌, [], map, IfSome, OnSome};
ghost use Rattle.bw_format.specs.Marks.{skips};
ghost use Rattle.bw_format.specs.Pattern.{places, repeats};
ghost use Rattle.bw_format.specs.Steps as spec;
ghost use Rattle.bw_format.specs.declared.limits.TheConstants.{MAX_PATTERN_CHARS};

use crate::limits::{MAX_PATTERN_CHARS, MAX_STEPS};
use crate::pattern::{Node, Pattern};
use crate::steps::{At, Step};
use arrayvec::ArrayVec;

/// The steps of patterns.
pub type Steps<'a> = ArrayVec<Step<'a>, MAX_STEPS>;

/// One step more, if there is room for it and for what is kept at its depth.
fn push<'a>(steps: &mut Steps<'a>, step: Step<'a>, depth: usize) -> Option<()>
    ensures steps { OnSome result (map spec.op steps.new.items ≡ map spec.op steps.old.items ++ spec.op step.entry ∷ []) }
    ensures room { OnSome result (depth < MAX_PATTERN_CHARS) }
{
    if depth >= MAX_PATTERN_CHARS {
        return None;
    }
    match steps.try_push(step) {
        Ok(()) => Some(()),
        Err(_) => None,
    }
}

/// Lays a pattern out behind the steps that are there, if there is room, and says whether it takes the empty text. A
/// pattern that was read has room behind no steps. It is no method of a pattern, and stands apart from the steps' type: else
/// each crate that names patterns would load all that is stated of `ArrayVec`.
pub fn lay_out<'a>(pattern: &'a Pattern, at: At, steps: &mut Steps<'a>) -> Option<bool>
    requires place { at.place + places pattern.now ≤ MAX_PATTERN_CHARS }
    requires own { at.own + repeats pattern.now ≤ MAX_PATTERN_CHARS }
    ensures skips { IfSome result (λ s. s ≡ skips pattern.now) }
    ensures steps { OnSome result (map spec.op steps.new.items ≡ map spec.op steps.old.items ++ spec.code pattern.now at) }
    ensures fits { OnSome result (spec.Fits pattern.now at.depth MAX_PATTERN_CHARS) }
{
    match pattern.node() {
        Node::Nothing => Some(true),
        Node::One(class) => {
            push(steps, Step::Take(class, at.place), at.depth)?;
            Some(false)
        }
        Node::Sequence(left, right) => {
            let one = lay_out(left, at, steps)?;
            let other = lay_out(right, at.past(left), steps)?;
            Some(one && other)
        }
        Node::Either(left, right) => {
            push(steps, Step::Keep(at.depth), at.depth)?;
            let one = lay_out(left, at.inside(), steps)?;
            push(steps, Step::Turn(at.depth), at.depth)?;
            let other = lay_out(right, at.past(left).inside(), steps)?;
            push(steps, Step::Join(at.depth), at.depth)?;
            Some(one || other)
        }
        Node::Star(inner) => {
            push(steps, Step::Begin(at.depth, at.own), at.depth)?;
            lay_out(inner, at.again(), steps)?;
            push(steps, Step::Star(at.depth, at.own), at.depth)?;
            Some(true)
        }
        Node::Plus(inner) => {
            push(steps, Step::Begin(at.depth, at.own), at.depth)?;
            let skips = lay_out(inner, at.again(), steps)?;
            push(steps, Step::Plus(at.depth, at.own, skips), at.depth)?;
            Some(skips)
        }
        Node::Optional(inner) => {
            push(steps, Step::Keep(at.depth), at.depth)?;
            lay_out(inner, at.inside(), steps)?;
            push(steps, Step::Join(at.depth), at.depth)?;
            Some(true)
        }
        Node::Group(inner) => lay_out(inner, at, steps),
    }
}
