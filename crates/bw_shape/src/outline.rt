//! The shape of a page graph.
ghost use Rattle.std.specs.Prelude.{◌≡◌, ℕ, ◌<◌, length, IfOk};
ghost use Rattle.std.specs.List.{All};
ghost use Rattle.bw_strings.specs.Literals.{literals_of};
ghost use Rattle.bw_shape.specs.Nodes.Nodes.{node_at};
ghost use Rattle.bw_shape.specs.Formulas.{AreColumns};
ghost use Rattle.bw_shape.specs.Outlines as spec;

use crate::naming::{Named, name_rules};
use crate::tables::{Tables, tables_of};
use crate::{Basis, Graphed, TemplateItems, Wrappers, nodes_of};
use bw_lang::{FieldId, FieldNames, Memory, TemplateId};
use bw_schema::Schema;
use bw_strings::Literals;
use bw_sum::Summary;
use bw_types::Typed;
use std::alloc::Global;

/// The shape of a page graph: the templates that it reaches, and of each of these the elements and texts that it may have
/// at its top, the fields that it may have, lack and have twice, and, of the tags that formulas name, those that it may
/// miss at its top and those that may stand there in the wrong order. Contracts see the sets of these facts.
pub struct Outline {
    /// What the page graph says of each template.
    pub graphed: Graphed,
    /// The facts, as rows of flags.
    pub tables: Tables,
    /// The columns of the pairs of tags that some formula orders.
    pub pairs: Vec<(usize, usize)>,
    /// How many tags formulas name.
    pub first: usize,
}

impl Drop for Outline {
    fn drop(self) {
        let Outline {
            graphed: _,
            tables: _,
            pairs: _,
            first: _,
        } = self;
    }
}

impl Outline {
    /// Whether the template is reached.
    pub fn is_reached(&self, template: TemplateId) -> bool
        ensures { result ≡ spec.is_reached self.now template }
    {
        let number = template.number();
        self.tables.order.iter().any(|each| *each == number)
    }

    /// Whether the template is reached and may have a control of the field.
    pub fn may_have(&self, template: TemplateId, field: FieldId) -> bool
        ensures { result ≡ spec.may_have self.now template field }
    {
        let row = template.number() as usize;
        let column = field.number() as usize;
        self.is_reached(template) && self.tables.have.has(row, column)
    }

    /// Whether the template is reached and may have no control of the field.
    pub fn may_lack(&self, template: TemplateId, field: FieldId) -> bool
        ensures { result ≡ spec.may_lack self.now template field }
    {
        let row = template.number() as usize;
        let column = field.number() as usize;
        self.is_reached(template) && self.tables.lack.has(row, column)
    }

    /// Whether the template is reached and may have two controls of the field.
    pub fn may_have_twice(&self, template: TemplateId, field: FieldId) -> bool
        ensures { result ≡ spec.may_have_twice self.now template field }
    {
        let row = template.number() as usize;
        let column = field.number() as usize;
        self.is_reached(template) && self.tables.twice.has(row, column)
    }
}

/// The number of the template that the page begins as.
fn root_of(page: &Summary) -> u32
    requires { 0 < length page.now.roots }
    ensures { result ≡ spec.root_of page.now }
{
    page.roots.as_slice()[0].number()
}

/// The outline of the page graph that these nodes give.
fn outlined<'a>(
    alloc: Global,
    templates: &'a TemplateItems<'a>,
    names: &'a FieldNames,
    root: u32,
    graphed: Graphed,
    named: Named,
) -> Result<Outline, Memory>
    requires rows { length graphed.nodes.items ≡ length templates.now }
    requires root { root < length graphed.nodes.items }
    requires links { (n : ℕ) → All (λ l. l.1 < length graphed.nodes.items) (node_at graphed.nodes.items n).links }
    requires columns { AreColumns (length named.tags) named.pairs.items }
    ensures { IfOk result (λ o. spec.IsOutlined templates.now names.now root graphed named o) }
{
    let Named { tags, pairs } = named;
    let first = tags.len();
    let Ok(tables) = tables_of(
        alloc,
        templates,
        graphed.nodes.as_slice(),
        names,
        root,
        tags,
        pairs.as_slice(),
    ) else {
        drop(graphed);
        drop(pairs);
        return Err(Memory);
    };
    Ok(Outline {
        graphed,
        tables,
        pairs,
        first,
    })
}

/// The shape of a page graph, for the tags that the formulas of the schema name. The page graph has one root, the wrapper
/// of shown or of last pages, and names only templates of the service and the wrappers, and literals of the service.
///
/// It takes time that grows with the page graph, the formulas of the schema and the templates that are reached; of the
/// others it takes no more than an empty row each.
pub fn shape_by(alloc: Global, page: &Summary, basis: &Basis<'_>) -> Result<Outline, Memory>
    requires { spec.IsPageGraph basis.now.typed.now.service page.now }
    ensures { IfOk result (λ o. spec.IsShape basis.now.typed.now.service page.now basis.now.schema.now o) }
{
    let graphed = nodes_of(alloc, basis.templates.len(), basis.literals, page)?;
    let Ok(named) = name_rules(alloc, basis.schema.elements()) else {
        drop(graphed);
        return Err(Memory);
    };
    outlined(
        alloc,
        basis.templates,
        basis.typed.fields(),
        root_of(page),
        graphed,
        named,
    )
}

/// The shape of a page graph of a service, as `shape_by` answers it, whose wrappers are made for this page alone.
/// `literals` are those of the service.
pub fn shape(
    alloc: Global,
    page: &Summary,
    typed: &Typed,
    literals: &Literals,
    schema: &Schema,
) -> Result<Outline, Memory>
    requires page { spec.IsPageGraph typed.now.service page.now }
    requires literals { literals.now ≡ literals_of typed.now.service }
    ensures { IfOk result (λ o. spec.IsShape typed.now.service page.now schema.now o) }
{
    let wrappers = Wrappers::of(alloc, typed)?;
    let templates = wrappers.behind(typed);
    let basis = Basis {
        typed,
        literals,
        templates: &templates,
        schema,
    };
    shape_by(alloc, page, &basis)
}
