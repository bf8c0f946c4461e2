//! The nodes of a page graph, from its summary.
ghost use Rattle.std.specs.Prelude.{◌≡◌, ℕ, ◌<◌, ◌≤◌, ◌∷◌, [], replicate, length, IfOk, OnOk};
ghost use Rattle.std.specs.List.{All};
ghost use Rattle.bw_solve.specs.Sets.{IsSet};
ghost use Rattle.bw_strings.specs.Asking.{AreLiterals};
ghost use Rattle.bw_sum.specs.Edges.{edge_cmp};
ghost use Rattle.bw_sum.specs.Graph.{graph};
ghost use Rattle.bw_shape.specs.Nodes.Fits.{Fits, AreStrings};
ghost use Rattle.bw_shape.specs.Nodes.Nodes.{no_node, node_at};
ghost use Rattle.bw_shape.specs.Nodes.Parts as spec;

use crate::node::Node;
use crate::sayings::Sayings;
use bw_lang::{GapId, Memory, TemplateId};
use bw_strings::Literals;
use bw_sum::{Label, Summary};
use std::alloc::Global;

/// A node for each template, and the strings that may fill its gaps.
pub struct Graphed {
    pub nodes: Vec<Node>,
    pub said: Vec<Sayings>,
}

impl Drop for Graphed {
    fn drop(self) {
        let Graphed { nodes: _, said: _ } = self;
    }
}

/// So many nodes of which nothing is known.
fn fresh_nodes(alloc: Global, rows: usize) -> Result<Vec<Node>, Memory>
    ensures { IfOk result (λ v. v.items ≡ replicate rows no_node) }
{
    let mut list = Vec::with_capacity(alloc, rows)?;
    for _ in 0..rows {
        list.push(Node::new(alloc))?;
    }
    Ok(list)
}

/// So many templates whose gaps no string fills.
fn fresh_sayings(alloc: Global, rows: usize) -> Result<Vec<Sayings>, Memory>
    ensures { IfOk result (λ v. v.items ≡ replicate rows []) }
{
    let mut list = Vec::with_capacity(alloc, rows)?;
    for _ in 0..rows {
        list.push(Sayings::new(alloc))?;
    }
    Ok(list)
}

/// Takes an edge in, at a gap that is no lower than those of the links that its template has.
fn add_edge(nodes: &mut Vec<Node>, edge: &(TemplateId, GapId, TemplateId)) -> Result<(), Memory>
    requires row { edge.now.0 < length nodes.old.items }
    requires order { All (λ l. l.0 ≤ edge.now.1) (node_at nodes.old.items edge.now.0).links }
    ensures { OnOk result (spec.GrowsNodes nodes.old.items nodes.new.items (spec.link_part (edge.now ∷ []))) }
{
    nodes[edge.0.number() as usize].add_link(edge.1, edge.2)?;
    Ok(())
}

/// Takes edges in their order into nodes that have no links.
fn add_edges(nodes: &mut Vec<Node>, edges: &[(TemplateId, GapId, TemplateId)]) -> Result<(), Memory>
    requires rows { All (λ e. e.0 < length nodes.old.items) edges.now }
    requires set { IsSet edge_cmp edges.now }
    requires fresh { All (λ n. n.links ≡ []) nodes.old.items }
    ensures { OnOk result (spec.GrowsNodes nodes.old.items nodes.new.items (spec.link_part edges.now)) }
{
    for edge in edges {
        add_edge(nodes, edge)?;
    }
    Ok(())
}

/// Takes a track in.
fn add_track(nodes: &mut Vec<Node>, track: &(GapId, TemplateId)) -> Result<(), Memory>
    requires { track.now.1 < length nodes.old.items }
    ensures { OnOk result (spec.GrowsNodes nodes.old.items nodes.new.items (spec.open_part (track.now ∷ []))) }
{
    nodes[track.1.number() as usize].add_open(track.0)?;
    Ok(())
}

/// Takes the tracks in.
fn add_tracks(nodes: &mut Vec<Node>, tracks: &[(GapId, TemplateId)]) -> Result<(), Memory>
    requires { All (λ t. t.1 < length nodes.old.items) tracks.now }
    ensures { OnOk result (spec.GrowsNodes nodes.old.items nodes.new.items (spec.open_part tracks.now)) }
{
    for track in tracks {
        add_track(nodes, track)?;
    }
    Ok(())
}

/// Takes into a node that some strings may fill a gap.
fn add_said(nodes: &mut Vec<Node>, literals: &Literals, label: &Label) -> Result<(), Memory>
    requires row { label.now.0.0 < length nodes.old.items }
    requires literals { AreLiterals literals.now label.now.1 }
    ensures { OnOk result (spec.GrowsNodes nodes.old.items nodes.new.items (spec.said_part literals.now (label.now ∷ []))) }
{
    let is_wordy = !label.1.blank(literals);
    nodes[label.0.0.number() as usize].add_said(label.0.1, is_wordy)?;
    Ok(())
}

/// Takes the strings in that may fill a gap.
fn add_saying(alloc: Global, said: &mut Vec<Sayings>, label: &Label) -> Result<(), Memory>
    requires { label.now.0.0 < length said.old.items }
    ensures { OnOk result (spec.GrowsSaid said.old.items said.new.items (λ n. spec.sayings_of n (label.now ∷ []))) }
{
    let strings = label.1.copy(alloc)?;
    said[label.0.0.number() as usize].push((label.0.1, strings))?;
    Ok(())
}

/// Takes the labels in.
fn add_labels(
    alloc: Global,
    nodes: &mut Vec<Node>,
    said: &mut Vec<Sayings>,
    literals: &Literals,
    labels: &[Label],
) -> Result<(), Memory>
    requires nodes { All (λ l. l.0.0 < length nodes.old.items) labels.now }
    requires said { length said.old.items ≡ length nodes.old.items }
    requires literals { All (λ l. AreLiterals literals.now l.1) labels.now }
    ensures nodes { OnOk result (spec.GrowsNodes nodes.old.items nodes.new.items (spec.said_part literals.now labels.now)) }
    ensures said { OnOk result (spec.GrowsSaid said.old.items said.new.items (λ n. spec.sayings_of n labels.now)) }
{
    for label in labels {
        add_said(nodes, literals, label)?;
        add_saying(alloc, said, label)?;
    }
    Ok(())
}

/// The nodes of the page graph of a summary, and the strings at their gaps, in one pass over its edges, tracks and labels.
pub fn nodes_of(
    alloc: Global,
    rows: usize,
    literals: &Literals,
    summary: &Summary,
) -> Result<Graphed, Memory>
    requires edges { All (λ e. e.0 < rows) summary.now.edges }
    requires tracks { All (λ t. t.1 < rows) summary.now.tracks }
    requires labels { All (λ l. l.0.0 < rows) summary.now.texts }
    requires literals { All (λ l. AreLiterals literals.now l.1) summary.now.texts }
    ensures nodes { IfOk result (λ r. length r.nodes.items ≡ rows) }
    ensures said { IfOk result (λ r. length r.said.items ≡ rows) }
    ensures fits { IfOk result (λ r. Fits r.nodes.items (graph literals.now summary.now)) }
    ensures strings { IfOk result (λ r. AreStrings r.said.items literals.now (graph literals.now summary.now)) }
    ensures links { IfOk result (λ r. All (λ e. e.2 < rows) summary.now.edges → (n : ℕ) → All (λ l. l.1 < rows) (node_at r.nodes.items n).links) }
{
    let mut nodes = fresh_nodes(alloc, rows)?;
    let mut said = fresh_sayings(alloc, rows)?;
    add_edges(&mut nodes, summary.edges.as_slice())?;
    add_tracks(&mut nodes, summary.tracks.as_slice())?;
    add_labels(
        alloc,
        &mut nodes,
        &mut said,
        literals,
        summary.texts.as_slice(),
    )?;
    Ok(Graphed { nodes, said })
}
