//! Whether the needs of an element are sure.
ghost use Rattle.std.specs.Prelude.{◌≡◌, ◌^◌, ◌<◌, suc, not};
ghost use Rattle.bw_shape.specs.Formulas.{pair_number};
ghost use Rattle.bw_judge.specs.Sure as spec;

use crate::misses::{OrderedTags, items_cross, items_miss};
use crate::scene::Scene;
use bw_lang::{Attrs, Items, Name, Words};
use bw_schema::{Formula, Formulas};

/// The column of a pair.
fn pair_number(pairs: &[(usize, usize)], first: usize, second: usize) -> usize
    requires { (first < 2 ^ 32) × (second < 2 ^ 32) }
    ensures { result ≡ pair_number pairs.now (suc first, suc second) }
{
    let mut column = 0;
    for pair in pairs {
        if pair.0 == first + 1 && pair.1 == second + 1 {
            return column;
        }
        column += 1;
    }
    column
}

impl<'a> Scene<'a> {
    fn is_there(&self, attrs: &Attrs, name: &str) -> bool
        ensures { result ≡ spec.is_there self.now attrs.now name.now }
    {
        attrs.as_slice().iter().any(|attr| attr.name.as_str() == name
            && !self.is_loose(&attr.value))
    }

    fn is_there_with(&self, attrs: &Attrs, name: &str, words: &Words) -> bool
        ensures { result ≡ spec.is_there_with self.now attrs.now name.now words.now }
    {
        attrs.as_slice().iter().any(|attr| {
            attr.name.as_str() == name
                && (!self.is_loose(&attr.value) && self.is_kept(words, &attr.value))
        })
    }

    fn may_miss(&self, tag: &Name, items: &Items) -> bool
        ensures { result ≡ spec.may_miss self.now tag.now items.now }
    {
        let column = self.tags.number(tag);
        items_miss(self.tags, self.node, self.miss, column, items)
    }

    fn may_cross(&self, tag: &Name, before: &Name, items: &Items) -> bool
        ensures { result ≡ spec.may_cross self.now tag.now before.now items.now }
    {
        let first = self.tags.number(before);
        let second = self.tags.number(tag);
        let column = pair_number(self.pairs, first, second);
        let pair = OrderedTags {
            first,
            second,
            column,
        };
        items_cross(self.tags, self.node, self.tops, self.cross, pair, items)
    }

    /// Whether a formula is sure at an element.
    #[cycle(sure)]
    pub fn is_sure(&self, formula: &Formula, attrs: &Attrs, items: &Items) -> bool
        ensures { result ≡ spec.sure_one self.now formula.now attrs.now items.now }
    {
        match formula {
            Formula::And(parts) => self.are_sure(true, parts, attrs, items),
            Formula::Or(parts) => self.are_sure(false, parts, attrs, items),
            Formula::Attr(name) => self.is_there(attrs, name.as_str()),
            Formula::OneOf(name, words) => self.is_there_with(attrs, name.as_str(), words),
            Formula::Content(tag) => !self.may_miss(tag, items),
            Formula::Order(tag, after) => !self.may_cross(tag, after, items),
        }
    }

    /// Whether all of the formulas are sure at an element, or with false some of them.
    #[cycle(sure)]
    pub fn are_sure(&self, all: bool, formulas: &Formulas, attrs: &Attrs, items: &Items) -> bool
        ensures { result ≡ spec.sure self.now all formulas.now attrs.now items.now }
    {
        for formula in formulas.as_slice() {
            let is_sure = self.is_sure(formula, attrs, items);
            if is_sure != all {
                return is_sure;
            }
        }
        all
    }
}
