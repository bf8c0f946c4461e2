//! The pages that documents are wrapped into.
ghost use Rattle.std.specs.Prelude.{◌≡◌, IfOk};
ghost use Rattle.bw_page.specs.Pages.{show_page, exit_page};

use bw_lang::wrappers::{form, page};
use bw_lang::{AttrValue, Item, Items, Memory, Name, Text, Tree};
use std::alloc::Global;

/// The page that shows this document: closed, in a form that is sent to the target by POST (HTML 4.01, section 17.3),
/// with a button behind it, under this title.
#[tactic(auto, using(bw_lang::proofs::Forests::forest_steps))]
pub fn wrap_show(title: &Name, target: &Text, doc: &Tree) -> Result<Tree, Memory>
    ensures { IfOk result (λ page. page.items ≡ show_page title.now target.now doc.now.items) }
{
    let alloc = doc.items.alloc();
    let target = AttrValue::Fixed(target.copy()?);
    let form = form(alloc, target, doc.items.close()?)?;
    let items = page(alloc, text_of(alloc, title)?, Items::one(alloc, form)?)?;
    Ok(Tree { items })
}

/// The page of a session that exits with this document: closed, in a page without a form, under this title.
#[tactic(auto, using(bw_lang::proofs::Forests::forest_steps))]
pub fn wrap_exit(title: &Name, doc: &Tree) -> Result<Tree, Memory>
    ensures { IfOk result (λ page. page.items ≡ exit_page title.now doc.now.items) }
{
    let alloc = doc.items.alloc();
    let items = page(alloc, text_of(alloc, title)?, doc.items.close()?)?;
    Ok(Tree { items })
}

/// The title as an item.
fn text_of(alloc: Global, title: &Name) -> Result<Item, Memory>
    ensures { IfOk result (λ item. item ≡ Item.Text title.now) }
{
    Ok(Item::Text(Text::of(alloc, title.as_str())?))
}
