//! What a page graph says of one template.
ghost use Rattle.std.specs.Prelude.{◌≡◌, ℕ, ◌<◌, ◌≤◌, Bool, ◌==◌, ◌||◌, ◌&&◌, ◌++◌, ◌∷◌, [], if◌then◌else◌, IfOk, OnOk, length};
ghost use Rattle.std.specs.List.{list_any, All};
ghost use Rattle.bw_shape.specs.Rows.Changes.{Sets};
ghost use Rattle.bw_shape.specs.Rows.Rows.{flag, at};
ghost use Rattle.bw_shape.specs.Nodes.Nodes as spec;

use crate::{Row, Table};
use bw_lang::{GapId, Memory, TemplateId};
use std::alloc::Global;
use std::marker::Model;

/// What a page graph says of a template: its links, each a gap and a template that may stand there, in the order of the
/// gaps, and its gaps that may be left open, that some string may fill, and that a string may fill that isn't blank.
pub struct Node {
    links: Vec<(GapId, TemplateId)>,
    open_gaps: Vec<GapId>,
    said: Vec<GapId>,
    wordy: Vec<GapId>,
}

impl Drop for Node {
    fn drop(self) {
        let Node {
            links: _,
            open_gaps: _,
            said: _,
            wordy: _,
        } = self;
    }
}

impl Model for Node {
    ghost use Rattle.bw_shape.specs.Nodes.Nodes as spec;

    ghost Value = { spec.Node };

    ghost view = { λ n. record { links = n.links.items; open_gaps = n.open_gaps.items; said = n.said.items; wordy = n.wordy.items } };

    ghost invariant = { λ n. spec.Ascends n.links.items };
}

/// Whether a gap is in a list.
fn among(list: &[GapId], gap: GapId) -> bool
    ensures { result ≡ spec.among list.now gap }
{
    list.iter().any(|each| *each == gap)
}

impl Node {
    /// The node of a template of which nothing is known. It takes no memory.
    pub fn new(alloc: Global) -> Node
        ensures { result ≡ spec.no_node }
    {
        Node {
            links: Vec::new(alloc),
            open_gaps: Vec::new(alloc),
            said: Vec::new(alloc),
            wordy: Vec::new(alloc),
        }
    }

    /// One link more, at a gap that is no lower than those of the others.
    pub(crate) fn add_link(&mut self, gap: GapId, to: TemplateId) -> Result<(), Memory>
        requires { All (λ l. l.0 ≤ gap) self.old.links }
        ensures ok { OnOk result (self.new ≡ record {
          links = self.old.links ++ (gap, to) ∷ [];
          open_gaps = self.old.open_gaps;
          said = self.old.said;
          wordy = self.old.wordy;
        }) }
    {
        self.links.push((gap, to))?;
        Ok(())
    }

    /// One more gap that may be left open.
    pub(crate) fn add_open(&mut self, gap: GapId) -> Result<(), Memory>
        ensures ok { OnOk result (self.new ≡ record {
          links = self.old.links;
          open_gaps = self.old.open_gaps ++ gap ∷ [];
          said = self.old.said;
          wordy = self.old.wordy;
        }) }
    {
        self.open_gaps.push(gap)?;
        Ok(())
    }

    /// One more gap that some string may fill, and whether one that isn't blank may.
    pub(crate) fn add_said(&mut self, gap: GapId, is_wordy: bool) -> Result<(), Memory>
        ensures ok { OnOk result (self.new ≡ record {
          links = self.old.links;
          open_gaps = self.old.open_gaps;
          said = self.old.said ++ gap ∷ [];
          wordy = self.old.wordy ++ (if is_wordy then gap ∷ [] else []);
        }) }
    {
        self.said.push(gap)?;
        if is_wordy {
            self.wordy.push(gap)?;
        }
        Ok(())
    }

    /// The links: each a gap and a template that may stand there.
    pub fn links(&self) -> &[(GapId, TemplateId)]
        ensures { result.now ≡ self.now.links }
    {
        self.links.as_slice()
    }

    /// Whether the gap may be left open.
    pub fn is_open(&self, gap: GapId) -> bool
        ensures { result ≡ spec.among self.now.open_gaps gap }
    {
        among(&self.open_gaps, gap)
    }

    /// Whether some string may fill the gap.
    pub fn is_said(&self, gap: GapId) -> bool
        ensures { result ≡ spec.among self.now.said gap }
    {
        among(&self.said, gap)
    }

    /// Whether the gap may be left open, or filled by a string.
    pub fn is_free(&self, gap: GapId) -> bool
        ensures { result ≡ spec.is_free self.now gap }
    {
        among(&self.open_gaps, gap) || among(&self.said, gap)
    }

    /// Whether a string may fill the gap that isn't blank.
    pub fn is_wordy(&self, gap: GapId) -> bool
        ensures { result ≡ spec.among self.now.wordy gap }
    {
        among(&self.wordy, gap)
    }

    /// The links of one gap. They stand together, since links are in the order of their gaps.
    fn links_at(&self, gap: GapId) -> &[(GapId, TemplateId)]
        ensures { (known : ℕ → Bool) → list_any (λ l. known l.1) result.now ≡ spec.led self.now known gap }
    {
        let links = self.links.as_slice();
        let end = links.partition_point(|link: &(GapId, TemplateId)| link.0 <= gap);
        let start = links[..end].partition_point(|link: &(GapId, TemplateId)| link.0 < gap);
        &links[start..end]
    }

    /// Whether a link of the gap leads to a template that has the flag of a column.
    pub fn is_led(&self, known: &Table, column: usize, gap: GapId) -> bool
        ensures { result ≡ spec.led self.now (λ m. at known.now m column) gap }
    {
        self.links_at(gap)
            .iter()
            .any(|link| known.has(link.1.number() as usize, column))
    }

    /// Sets in a row what is known of the templates that the gap's links lead to.
    pub fn join_led(&self, gap: GapId, known: &Table, row: &mut Row)
        ensures { Sets row.old row.new (λ c. spec.led self.now (λ m. at known.now m c) gap) }
    {
        for link in self.links_at(gap) {
            known.join_row(link.1.number() as usize, row);
        }
    }

    /// Sets in a row what is known of the templates that any link leads to.
    pub fn join_linked(&self, known: &Table, row: &mut Row)
        ensures { Sets row.old row.new (λ c. spec.linked self.now (λ m. at known.now m c)) }
    {
        for link in self.links.as_slice() {
            known.join_row(link.1.number() as usize, row);
        }
    }

    /// The row of what is known of the templates that the gap's links lead to.
    pub fn led(&self, alloc: Global, gap: GapId, known: &Table, width: usize) -> Result<Row, Memory>
        ensures len { IfOk result (λ r. length r ≡ width) }
        ensures each { IfOk result (λ r. (c : ℕ) → c < width → flag r c ≡ spec.led self.now (λ m. at known.now m c) gap) }
    {
        let mut row = Row::of(alloc, width, false)?;
        self.join_led(gap, known, &mut row);
        Ok(row)
    }
}
