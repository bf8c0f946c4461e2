//! The tables of the facts of tags at the top.
ghost use Rattle.std.specs.Prelude.{◌≡◌, ℕ, ◌+◌, ◌<◌, length, IfOk};
ghost use Rattle.std.specs.List.{All};
ghost use Rattle.bw_shape.specs.Rows.Least.{IsLeast};
ghost use Rattle.bw_shape.specs.Rows.Rows.{at};
ghost use Rattle.bw_shape.specs.Follows.{top_follows, miss_follows, cross_follows};

use crate::cross::Crosses;
use crate::tags::Tags;
use crate::tops::{MayMiss, Tops};
use crate::{Node, Table, TemplateItems, least};
use bw_lang::Memory;
use std::alloc::Global;

/// The facts of tags at the top.
#[derive(Drop)]
pub struct TagTables {
    pub tops: Table,
    pub miss: Table,
    pub cross: Table,
}

/// What each template may have at its top.
fn tops_of<'a>(
    alloc: Global,
    templates: &'a TemplateItems<'a>,
    nodes: &'a [Node],
    tags: &Tags,
    back: &[u32],
) -> Result<Table, Memory>
    requires both { length nodes.now ≡ length templates.now }
    requires order { All (λ n. n < length nodes.now) back.now }
    ensures { IfOk result (λ t. IsLeast (length tags.now + 1) (top_follows templates.now nodes.now tags.now) back.now t) }
{
    let rule = Tops {
        templates,
        nodes,
        tags,
    };
    least(alloc, &rule, nodes.len(), back)
}

/// The first tags of which each template may have none at its top.
fn miss_of<'a>(
    alloc: Global,
    templates: &'a TemplateItems<'a>,
    nodes: &'a [Node],
    tags: &Tags,
    first: usize,
    back: &[u32],
) -> Result<Table, Memory>
    requires both { length nodes.now ≡ length templates.now }
    requires order { All (λ n. n < length nodes.now) back.now }
    ensures { IfOk result (λ t. IsLeast first (miss_follows templates.now nodes.now tags.now) back.now t) }
{
    let rule = MayMiss {
        templates,
        nodes,
        tags,
        first,
    };
    least(alloc, &rule, nodes.len(), back)
}

/// The pairs of tags of which each template may have the first before the second at its top, where the tops are known.
fn cross_of<'a>(
    alloc: Global,
    templates: &'a TemplateItems<'a>,
    nodes: &'a [Node],
    tags: &Tags,
    tops: &Table,
    pairs: &'a [(usize, usize)],
    back: &[u32],
) -> Result<Table, Memory>
    requires both { length nodes.now ≡ length templates.now }
    requires pairs { All (λ p. (p.0 < length tags.now + 1) × (p.1 < length tags.now + 1)) pairs.now }
    requires order { All (λ n. n < length nodes.now) back.now }
    ensures { IfOk result (λ t. IsLeast (length pairs.now) (cross_follows templates.now nodes.now tags.now (at tops.now) pairs.now) back.now t) }
{
    let rule = Crosses {
        templates,
        nodes,
        tags,
        tops,
        pairs,
    };
    least(alloc, &rule, nodes.len(), back)
}

/// The tables of what each template may have at its top, of the first tags that it may miss there, and of the pairs that
/// may stand there in this order.
pub(crate) fn tags_of<'a>(
    alloc: Global,
    templates: &'a TemplateItems<'a>,
    nodes: &'a [Node],
    tags: &Tags,
    first: usize,
    pairs: &'a [(usize, usize)],
    back: &[u32],
) -> Result<TagTables, Memory>
    requires both { length nodes.now ≡ length templates.now }
    requires pairs { All (λ p. (p.0 < length tags.now + 1) × (p.1 < length tags.now + 1)) pairs.now }
    requires order { All (λ n. n < length nodes.now) back.now }
    ensures tops { IfOk result (λ t. IsLeast (length tags.now + 1) (top_follows templates.now nodes.now tags.now) back.now t.tops) }
    ensures miss { IfOk result (λ t. IsLeast first (miss_follows templates.now nodes.now tags.now) back.now t.miss) }
    ensures cross { IfOk result (λ t. IsLeast (length pairs.now) (cross_follows templates.now nodes.now tags.now (at t.tops) pairs.now) back.now t.cross) }
{
    let tops = tops_of(alloc, templates, nodes, tags, back)?;
    let Ok(miss) = miss_of(alloc, templates, nodes, tags, first, back) else {
        drop(tops);
        return Err(Memory);
    };
    match cross_of(alloc, templates, nodes, tags, &tops, pairs, back) {
        Ok(cross) => Ok(TagTables { tops, miss, cross }),
        Err(Memory) => {
            drop(miss);
            drop(tops);
            Err(Memory)
        }
    }
}
