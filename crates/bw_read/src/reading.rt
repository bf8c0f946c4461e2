//! Pages are read.
ghost use Rattle.std.specs.Prelude.{◌≡◌, ◌<◌, ◌^◌, MatchResult, IfOk};
ghost use Rattle.std.specs.Bool.{MatchBool};
ghost use Rattle.std.specs.Str.{IsUtf8};
ghost use Rattle.bw_lang.specs.Document.Documents.{elements};
ghost use Rattle.bw_read.specs.Pages.{IsPage};
ghost use Rattle.bw_read.specs.Refusals.{IsNoPage};
ghost use Rattle.bw_read.specs.Steps.Root as spec;

use crate::element::element_of;
use crate::fault::PageFault;
use bw_lang::{Item, Items, Tree};
use bw_tmpl::read_closed;
use std::alloc::Global;
use std::str;

/// The greatest number of bytes of a page.
pub const MAX_PAGE_BYTES: usize = 4_195_328;

/// The greatest number of elements that may stand inside one another in a page.
pub const MAX_PAGE_NEST: u32 = 512;

/// Whether the bytes are UTF-8.
fn is_utf8(bytes: &[u8]) -> bool
    ensures { MatchBool result (IsUtf8 bytes.now) (IsUtf8 bytes.now → ⊥) }
{
    match str::from_utf8(bytes) {
        Ok(_) => true,
        Err(_) => false,
    }
}

/// Whether the items are one element `html`.
fn is_root(items: &Items) -> bool
    ensures { result ≡ spec.is_root items.now }
{
    match items.as_slice() {
        [Item::Element(element)] => element.tag.as_str() == "html",
        _ => false,
    }
}

/// Reads the text of a page: one element `html`, written as templates are but without gaps and with at most
/// `MAX_PAGE_NEST` elements inside one another. Blanks may stand in front of it and behind it, and in front of it, behind
/// the blanks there, `<!DOCTYPE html>` and more blanks. The text is UTF-8 and has at most `MAX_PAGE_BYTES` bytes.
///
/// `NotAPage` comes exactly where the bytes are no such text; `Memory` may come at any time.
pub fn read_page(alloc: Global, bytes: &[u8]) -> Result<Tree, PageFault>
    ensures page { MatchResult result (λ t. IsPage bytes.now t.items) (IsNoPage bytes.now) }
    ensures small { IfOk result (λ t. elements t.items < 2 ^ 32) }
{
    if bytes.len() > MAX_PAGE_BYTES || !is_utf8(bytes) {
        return Err(PageFault::NotAPage);
    }
    let items = read_closed(alloc, element_of(bytes), MAX_PAGE_NEST)?;
    if is_root(&items) {
        Ok(Tree { items })
    } else {
        Err(PageFault::NotAPage)
    }
}
