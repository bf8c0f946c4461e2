//! What is known of the elements of a template, and of their attributes.
ghost use Rattle.std.specs.Prelude.{◌≡◌, ◌<◌, ◌==◌, ◌||◌, ◌&&◌, not, [], length, slice_index_or};
ghost use Rattle.std.specs.List.{list_any, list_all};
ghost use Rattle.bw_lang.specs.Table.Names.{same};
ghost use Rattle.bw_schema.specs.Words as word;
ghost use Rattle.bw_shape.specs.Nodes.Nodes.{node_at};
ghost use Rattle.bw_strings.specs.Asking.{text_of};
ghost use Rattle.bw_judge.specs.Pages.{scene_at};
ghost use Rattle.bw_judge.specs.Scene as spec;

use bw_lang::{Attr, AttrValue, Attrs, GapId, Words};
use bw_schema::{ValueList, ValueLists, is_among};
use bw_shape::{Node, Outline, Saying, Sayings, Table, Tags};
use bw_strings::{Literals, StrSet};
use std::marker::Model;

/// What is known of the elements of a template: the tags and the literals by their numbers, the tables of the shape, the
/// node of the template, and the strings that may stand at its gaps.
#[derive(Drop)]
pub struct Scene<'a> {
    pub tags: &'a Tags,
    pub literals: &'a Literals,
    pub tops: &'a Table,
    pub miss: &'a Table,
    pub cross: &'a Table,
    pub pairs: &'a [(usize, usize)],
    pub node: &'a Node,
    pub said: &'a [Saying],
}

impl<'a> Model for Scene<'a> {
    ghost use Rattle.bw_judge.specs.Scene as spec;

    ghost Value = { spec.Scene };

    ghost view = { λ s. record {
      tags = s.tags.now;
      literals = s.literals.now;
      tops = s.tops.now;
      miss = s.miss.now;
      cross = s.cross.now;
      pairs = s.pairs.now;
      node = s.node.now;
      said = s.said.now;
    } };
}

/// The node of the template of that number.
pub fn node_of(nodes: &[Node], n: usize) -> &Node
    requires { n < length nodes.now }
    ensures { result.now ≡ node_at nodes.now n }
{
    &nodes[n]
}

/// The strings at the gaps of the template of that number.
pub fn said_of(said: &[Sayings], n: usize) -> &[Saying]
    requires { n < length said.now }
    ensures { result.now ≡ slice_index_or said.now n [] }
{
    said[n].as_slice()
}

/// What is known of the template of that number, by the outline of its page graph.
pub fn scene_of<'a>(outline: &'a Outline, literals: &'a Literals, n: usize) -> Scene<'a>
    requires node { n < length outline.now.graphed.nodes.items }
    requires said { n < length outline.now.graphed.said.items }
    ensures { result ≡ scene_at outline.now.graphed.nodes.items outline.now.graphed.said.items literals.now outline.now.tables
        outline.now.pairs.items n }
{
    Scene {
        tags: &outline.tables.tags,
        literals,
        tops: &outline.tables.tops,
        miss: &outline.tables.miss,
        cross: &outline.tables.cross,
        pairs: outline.pairs.as_slice(),
        node: node_of(outline.graphed.nodes.as_slice(), n),
        said: said_of(outline.graphed.said.as_slice(), n),
    }
}

/// Whether the literal of that number is a word of the list.
fn is_word(literals: &Literals, words: &Words, number: u32) -> bool
    ensures { result ≡ word.is_among words.now (text_of literals.now number) }
{
    if (number as usize) < literals.len() {
        is_among(words, literals.text(number))
    } else {
        is_among(words, "")
    }
}

/// Whether each of the literals of these numbers is a word of the list.
fn are_words(literals: &Literals, words: &Words, numbers: &[u32]) -> bool
    ensures { result ≡ list_all (λ n. word.is_among words.now (text_of literals.now n)) numbers.now }
{
    numbers
        .iter()
        .all(|number| is_word(literals, words, *number))
}

/// Whether each of the strings is a word of the list.
fn is_within(literals: &Literals, words: &Words, strings: &StrSet) -> bool
    ensures { result ≡ spec.is_within literals.now words.now strings.now }
{
    match strings {
        StrSet::Any => false,
        StrSet::Of(numbers) => are_words(literals, words, numbers.as_slice()),
    }
}

/// Whether each of the strings that may stand at a gap is a word of the list.
fn are_within(literals: &Literals, words: &Words, said: &[Saying], gap: GapId) -> bool
    ensures { result ≡ list_all (λ l. not (l.0 == gap) || spec.is_within literals.now words.now l.1) said.now }
{
    said.iter().all(|each| each.0 != gap || is_within(literals, words, &each.1))
}

impl<'a> Scene<'a> {
    /// Whether some string may be the value.
    pub fn is_told(&self, value: &AttrValue) -> bool
        ensures { result ≡ spec.is_told self.now value.now }
    {
        match value {
            AttrValue::Fixed(_) => true,
            AttrValue::Hole(gap) => self.node.is_said(*gap),
        }
    }

    /// Whether the value may be left open.
    pub fn is_loose(&self, value: &AttrValue) -> bool
        ensures { result ≡ spec.is_loose self.now value.now }
    {
        match value {
            AttrValue::Fixed(_) => false,
            AttrValue::Hole(gap) => self.node.is_open(*gap),
        }
    }

    /// Whether each string that may be the value is a word of the list.
    pub fn is_kept(&self, words: &Words, value: &AttrValue) -> bool
        ensures { result ≡ spec.is_kept self.now words.now value.now }
    {
        match value {
            AttrValue::Fixed(text) => is_among(words, text.as_str()),
            AttrValue::Hole(gap) => are_within(self.literals, words, self.said, *gap),
        }
    }

    fn is_kept_by(&self, list: &ValueList, attr: &Attr) -> bool
        ensures { result ≡ (not (same list.now.name attr.now.name) || spec.is_kept self.now list.now.words attr.now.value) }
    {
        list.name.as_str() != attr.name.as_str() || self.is_kept(&list.words, &attr.value)
    }

    /// Whether each string that may be the attribute's value is in each list for this attribute.
    pub fn is_permitted(&self, lists: &ValueLists, attr: &Attr) -> bool
        ensures { result ≡ spec.is_permitted self.now lists.now attr.now }
    {
        lists
            .as_slice()
            .iter()
            .all(|list| self.is_kept_by(list, attr))
    }

    fn has_loose(&self, attrs: &Attrs, name: &str) -> bool
        ensures { result ≡ list_any (λ a. same a.name name.now && spec.is_loose self.now a.value) attrs.now }
    {
        attrs.as_slice().iter().any(|attr| attr.name.as_str() == name && self.is_loose(&attr.value))
    }

    /// Whether the attribute may be absent.
    pub fn may_be_absent(&self, attrs: &Attrs, name: &str) -> bool
        ensures { result ≡ spec.may_be_absent self.now attrs.now name.now }
    {
        !has_attr(attrs, name) || self.has_loose(attrs, name)
    }
}

fn has_attr(attrs: &Attrs, name: &str) -> bool
    ensures { result ≡ spec.has_attr attrs.now name.now }
{
    attrs
        .as_slice()
        .iter()
        .any(|attr| attr.name.as_str() == name)
}
