//! What a gap has, however it is filled, and where the gaps of a template lead to.
ghost use Rattle.std.specs.Prelude.{◌≡◌, ◌<◌, ◌||◌, OnOk, length};
ghost use Rattle.bw_shape.specs.Rows.Rows.{at};
ghost use Rattle.bw_shape.specs.Nodes.Nodes as nodes;
ghost use Rattle.bw_shape.specs.Rows.Changes.{Clears};
ghost use Rattle.bw_shape.specs.Reading.{links_of};

use crate::{Node, Row, Table};
use bw_lang::{GapId, Memory, TemplateId};
use std::alloc::Global;

/// Clears the columns, as fields or tags, that the gap has in any case, as it may be filled.
pub(crate) fn gap_lacks(
    alloc: Global,
    node: &Node,
    known: &Table,
    gap: GapId,
    row: &mut Row,
) -> Result<(), Memory>
    ensures { OnOk result (Clears row.old row.new (λ f. nodes.is_free node.now gap || nodes.led node.now (λ m. at known.now m f) gap)) }
{
    if node.is_free(gap) {
        return Ok(());
    }
    let led = node.led(alloc, gap, known, row.len())?;
    row.meet(&led);
    Ok(())
}

/// The links of the template n, each a gap and a template that may stand there.
pub(crate) fn links_at(nodes: &[Node], n: usize) -> &[(GapId, TemplateId)]
    requires { n < length nodes.now }
    ensures { result.now ≡ links_of nodes.now n }
{
    nodes[n].links()
}
