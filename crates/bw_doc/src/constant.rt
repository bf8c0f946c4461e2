//! Documents that are the templates of a service.
ghost use Rattle.std.specs.Prelude.{◌≡◌, ◌^◌, ◌<◌, length, slice_get, Some, IfOk};
ghost use Rattle.bw_lang.specs.Document.Documents.{elements, open_gaps};
ghost use Rattle.bw_lang.specs.Document.Measures.{IsWithin, constant_measure};
ghost use Rattle.bw_doc.specs.Made as spec;
ghost use Rattle.bw_doc.specs.Operations.{IsOf, items_at};

use crate::doc::{Doc, Kind};
use crate::notes::openings;
use bw_lang::{Measure, Memory, Template, TemplateId};
use bw_types::Typed;

impl Doc {
    /// The document that a template of the service stands for.
    pub fn constant(typed: &Typed, n: TemplateId) -> Result<Doc, Memory>
        requires { n < length typed.now.service.templates }
        ensures constant { IfOk result (λ d. d ≡ spec.constant n (items_at typed.now.service.templates n)) }
        ensures service { IfOk result (IsOf typed.now.service.templates) }
    {
        let items = template(typed, n).items.copy()?;
        let measure = Measure::constant(&items);
        let openings = openings(&items)?;
        Doc::of(items.alloc(), Kind::Constant(n, items), measure, openings)
    }
}

/// The template of that number, which is within the limits of documents.
fn template(typed: &Typed, n: TemplateId) -> &Template
    requires { n < length typed.now.service.templates }
    ensures value { slice_get typed.now.service.templates n ≡ Some result.now }
    ensures within { IsWithin (constant_measure result.now.items) }
    ensures elements { elements result.now.items < 2 ^ 32 }
    ensures gaps { open_gaps result.now.items < 2 ^ 32 }
{
    template_at(typed, n)
}

fn template_at(typed: &Typed, n: TemplateId) -> &Template
    requires { n < length typed.now.service.templates }
    ensures { slice_get typed.now.service.templates n ≡ Some result.now }
{
    &typed.service().templates.as_slice()[n.number() as usize]
}
