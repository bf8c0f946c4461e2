//! The children of an element. Open gaps count as absent.
ghost use Rattle.std.specs.Prelude.{◌≡◌, ◌&&◌, ◌||◌, not};
ghost use Rattle.bw_lang.specs.Document.Forest.{none};
ghost use Rattle.bw_lang.specs.Document.View.{before};
ghost use Rattle.bw_lang.specs.Text.Bytes.{is_blank_text};
ghost use Rattle.bw_schema.specs.Validity as validity;
ghost use Rattle.bw_schema.specs.Words as words;

use bw_lang::{Item, Items, Words, is_blank_text};
use bw_schema::is_among;

/// Whether an item may stand where these elements are allowed.
fn may_stand(tags: &Words, item: &Item) -> bool
    ensures { result ≡ validity.each_child (words.is_among tags.now) (before item.now none) }
{
    match item {
        Item::Element(element) => is_among(tags, element.tag.as_str()),
        _ => true,
    }
}

/// Whether an item is no text, or a blank one.
fn is_silent(item: &Item) -> bool
    ensures { result ≡ validity.each_text is_blank_text (before item.now none) }
{
    match item {
        Item::Text(text) => is_blank_text(text.as_str()),
        _ => true,
    }
}

/// Whether an item is no element of the tag.
fn is_other(tag: &str, item: &Item) -> bool
    ensures { result ≡ validity.each_child (validity.is_other tag.now) (before item.now none) }
{
    match item {
        Item::Element(element) => element.tag.as_str() != tag,
        _ => true,
    }
}

/// Whether each child element is one of these.
#[tactic(auto, using(crate::proofs::Walks::walk_steps))]
pub fn are_among(tags: &Words, items: &Items) -> bool
    ensures { result ≡ validity.each_child (words.is_among tags.now) items.now }
{
    let mut fine = true;
    for item in items.as_slice() {
        fine = fine && may_stand(tags, item);
    }
    fine
}

/// Whether each child text is blank.
#[tactic(auto, using(crate::proofs::Walks::walk_steps))]
pub fn are_silent(items: &Items) -> bool
    ensures { result ≡ validity.each_text is_blank_text items.now }
{
    let mut fine = true;
    for item in items.as_slice() {
        fine = fine && is_silent(item);
    }
    fine
}

/// Whether no child element is of the tag.
#[tactic(auto, using(crate::proofs::Walks::walk_steps))]
pub fn lacks_child(tag: &str, items: &Items) -> bool
    ensures { result ≡ validity.each_child (validity.is_other tag.now) items.now }
{
    let mut lacking = true;
    for item in items.as_slice() {
        lacking = lacking && is_other(tag, item);
    }
    lacking
}

/// Whether an item breaks the order: it is of the tag that comes first, and one that comes last was passed.
fn stops(passed: bool, first: &str, item: &Item) -> bool
    ensures { result ≡ (passed && not (validity.each_child (validity.is_other first.now) (before item.now none))) }
{
    passed && !is_other(first, item)
}

/// Whether one that comes last was passed, behind an item.
fn passes(passed: bool, last: &str, item: &Item) -> bool
    ensures { result ≡ (passed || not (validity.each_child (validity.is_other last.now) (before item.now none))) }
{
    passed || !is_other(last, item)
}

/// Whether no child element of the tag `last` stands before one of the tag `first`.
pub fn is_ordered(first: &str, last: &str, items: &Items) -> bool
    ensures { result ≡ validity.ordered first.now last.now items.now }
{
    let mut passed = false;
    for item in items.as_slice() {
        if stops(passed, first, item) {
            return false;
        }
        passed = passes(passed, last, item);
    }
    true
}
