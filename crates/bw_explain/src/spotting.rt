//! Whether an element is taken for the one that is looked for.
ghost use Rattle.std.specs.Prelude.{◌≡◌, ◌+◌, ◌-◌, ◌≤◌, ◌<◌, ◌^◌, MatchBool, length};
ghost use Rattle.bw_lang.specs.Document.Documents.{elements};
ghost use Rattle.bw_explain.specs.declared.sizes.TheConstants.{NONE};
ghost use Rattle.bw_explain.specs.Aims.{cost_of, walk_of};
ghost use Rattle.bw_explain.specs.Walks as spec;

use crate::least::attrs_least;
use crate::sizes::{NONE, plus};
use crate::walk::{Walk, reach_items};
use bw_lang::Element;

/// The least size of an element as the one that is looked for, if it is that.
fn spot_size(walk: &Walk, n: usize, place: u32, from: u32, to: u32) -> u32
    requires cost { cost_of walk.now.aim ≤ NONE }
    requires place { place + 1 < 2 ^ 32 }
    requires states { (from ≤ to) × (to ≤ 2) }
    ensures is { result ≡ spec.spot_size (walk_of walk.now) n place from to }
    ensures most { result ≤ NONE }
{
    if from + 1 == to {
        walk.aim.spot(n, place + 1)
    } else {
        NONE
    }
}

/// The least size of an element with what is looked for inside it.
fn inside_size(walk: &Walk, n: usize, place: u32, state: u32, element: &Element) -> u32
    requires n { n < length walk.now.page.templates.now }
    requires cost { cost_of walk.now.aim ≤ NONE }
    requires place { place + 1 + elements element.now.items < 2 ^ 32 }
    ensures is { result ≡ spec.inside_size (walk_of walk.now) n place element.now.attrs element.now.items state }
    ensures most { result ≤ NONE }
{
    let own = plus(1, attrs_least(walk.page.node(n), &element.attrs));
    let inner = reach_items(walk, n, place + 1, 0, &element.items);
    plus(own, inner.reach.at(state))
}

/// Whether an element costs no more as the one that is looked for than with it inside.
pub fn is_spotted(walk: &Walk, n: usize, place: u32, from: u32, to: u32, element: &Element) -> bool
    requires n { n < length walk.now.page.templates.now }
    requires cost { cost_of walk.now.aim ≤ NONE }
    requires place { place + 1 + elements element.now.items < 2 ^ 32 }
    requires states { (from ≤ to) × (to ≤ 2) }
    ensures { MatchBool result
        (spec.spot_size (walk_of walk.now) n place from to ≤ spec.inside_size (walk_of walk.now) n place element.now.attrs element.now.items (to - from))
        (spec.inside_size (walk_of walk.now) n place element.now.attrs element.now.items (to - from) < spec.spot_size (walk_of walk.now) n place from to) }
{
    let spot = spot_size(walk, n, place, from, to);
    spot <= inside_size(walk, n, place, to - from, element)
}
