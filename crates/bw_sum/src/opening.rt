//! Which gaps of a template are open.
ghost use Rattle.std.specs.Prelude.{◌≡◌};
ghost use Rattle.bw_lang.specs.Document.Documents as doc;
ghost use Rattle.bw_lang.specs.Document.Forest.{none};
ghost use Rattle.bw_lang.specs.Document.View.{before};
ghost use Rattle.bw_sum.specs.Opening.{holes, opens};

use bw_lang::{AttrValue, Attrs, GapId, Item, Items};

fn is_hole(value: &AttrValue, gap: GapId) -> bool
    ensures { result ≡ doc.is_hole gap value.now }
{
    match value {
        AttrValue::Fixed(_) => false,
        AttrValue::Hole(hole) => *hole == gap,
    }
}

fn has_hole(attrs: &Attrs, gap: GapId) -> bool
    ensures { result ≡ holes gap attrs.now }
{
    attrs
        .as_slice()
        .iter()
        .any(|attr| is_hole(&attr.value, gap))
}

/// Whether a gap is open in some items, in an attribute or between items.
#[tactic(auto, using(bw_lang::proofs::Forests::size_at_read))]
#[cycle(opens)]
pub fn opens(items: &Items, gap: GapId) -> bool
    ensures { result ≡ opens gap items.now }
{
    for item in items.as_slice() {
        if item_opens(item, gap) {
            return true;
        }
    }
    false
}

#[tactic(auto, using(bw_lang::proofs::Forests::size_at_read))]
#[cycle(opens)]
fn item_opens(item: &Item, gap: GapId) -> bool
    ensures { result ≡ opens gap (before item.now none) }
{
    match item {
        Item::Text(_) => false,
        Item::Element(element) => has_hole(&element.attrs, gap) || opens(&element.items, gap),
        Item::Gap(open) => *open == gap,
    }
}
