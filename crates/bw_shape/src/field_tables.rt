//! The tables of the facts of fields.
ghost use Rattle.std.specs.Prelude.{◌≡◌, ℕ, ◌<◌, length, IfOk};
ghost use Rattle.std.specs.List.{All};
ghost use Rattle.bw_shape.specs.Rows.Least.{IsLeast};
ghost use Rattle.bw_shape.specs.Rows.Rows.{at};
ghost use Rattle.bw_shape.specs.Follows.{have_follows, lack_follows, twice_follows};

use crate::fields::{Doubled, MayLack, Spread, Stands};
use crate::{Node, Table, TemplateItems, least};
use bw_lang::{FieldNames, Memory};
use std::alloc::Global;

/// The facts of fields.
#[derive(Drop)]
pub struct FieldTables {
    pub have: Table,
    pub lack: Table,
    pub twice: Table,
}

/// The fields that each template may have.
fn have_of<'a>(
    alloc: Global,
    templates: &'a TemplateItems<'a>,
    nodes: &'a [Node],
    names: &'a FieldNames,
    back: &[u32],
) -> Result<Table, Memory>
    requires both { length nodes.now ≡ length templates.now }
    requires order { All (λ n. n < length nodes.now) back.now }
    ensures { IfOk result (λ t. IsLeast (length names.now) (have_follows templates.now nodes.now names.now) back.now t) }
{
    let own = least(alloc, &Stands { templates, names }, nodes.len(), back)?;
    let rule = Spread {
        nodes,
        own: &own,
        width: names.len(),
    };
    let table = least(alloc, &rule, nodes.len(), back);
    drop(own);
    table
}

/// The fields that each template may lack.
fn lack_of<'a>(
    alloc: Global,
    templates: &'a TemplateItems<'a>,
    nodes: &'a [Node],
    names: &'a FieldNames,
    back: &[u32],
) -> Result<Table, Memory>
    requires both { length nodes.now ≡ length templates.now }
    requires order { All (λ n. n < length nodes.now) back.now }
    ensures { IfOk result (λ t. IsLeast (length names.now) (lack_follows templates.now nodes.now names.now) back.now t) }
{
    let rule = MayLack {
        templates,
        nodes,
        names,
    };
    least(alloc, &rule, nodes.len(), back)
}

/// The fields that each template may have twice, where it is known which of them may have one.
fn twice_of<'a>(
    alloc: Global,
    templates: &'a TemplateItems<'a>,
    nodes: &'a [Node],
    names: &'a FieldNames,
    have: &Table,
    back: &[u32],
) -> Result<Table, Memory>
    requires both { length nodes.now ≡ length templates.now }
    requires order { All (λ n. n < length nodes.now) back.now }
    ensures { IfOk result (λ t. IsLeast (length names.now) (twice_follows templates.now nodes.now names.now (at have.now)) back.now t) }
{
    let doubled = Doubled {
        templates,
        nodes,
        names,
        have,
    };
    let own = least(alloc, &doubled, nodes.len(), back)?;
    let rule = Spread {
        nodes,
        own: &own,
        width: names.len(),
    };
    let table = least(alloc, &rule, nodes.len(), back);
    drop(own);
    table
}

/// The tables of the fields that each template may have, lack and have twice.
pub(crate) fn fields_of<'a>(
    alloc: Global,
    templates: &'a TemplateItems<'a>,
    nodes: &'a [Node],
    names: &'a FieldNames,
    back: &[u32],
) -> Result<FieldTables, Memory>
    requires both { length nodes.now ≡ length templates.now }
    requires order { All (λ n. n < length nodes.now) back.now }
    ensures have { IfOk result (λ t. IsLeast (length names.now) (have_follows templates.now nodes.now names.now) back.now t.have) }
    ensures lack { IfOk result (λ t. IsLeast (length names.now) (lack_follows templates.now nodes.now names.now) back.now t.lack) }
    ensures twice { IfOk result (λ t. IsLeast (length names.now) (twice_follows templates.now nodes.now names.now (at t.have)) back.now t.twice) }
{
    let have = have_of(alloc, templates, nodes, names, back)?;
    let Ok(lack) = lack_of(alloc, templates, nodes, names, back) else {
        drop(have);
        return Err(Memory);
    };
    match twice_of(alloc, templates, nodes, names, &have, back) {
        Ok(twice) => Ok(FieldTables { have, lack, twice }),
        Err(Memory) => {
            drop(lack);
            drop(have);
            Err(Memory)
        }
    }
}
