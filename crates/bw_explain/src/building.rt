//! The ways of the gaps of templates, from what a page graph says of them.
ghost use Rattle.std.specs.Prelude.{◌≡◌, ℕ, ◌<◌, ◌==◌, ◌||◌, ◌&&◌, ◌++◌, ◌∷◌, [], if◌then◌else◌, map, length, replicate, IfOk, OnOk};
ghost use Rattle.std.specs.List.{All, list_any};
ghost use Rattle.bw_strings.specs.Asking.{text_of};
ghost use Rattle.bw_sum.specs.Graph.{graph as summary_graph};
ghost use Rattle.bw_shape.specs.Nodes.Fits.{Fits, AreStrings};
ghost use Rattle.bw_explain.specs.Ways.{graph};
ghost use Rattle.bw_explain.specs.Explained.{Ties};
ghost use Rattle.bw_explain.specs.Building as spec;

use crate::way::{Node, Way};
use bw_judge::scene::{node_of, said_of};
use bw_lang::{GapId, Memory, TemplateId, Text, Words};
use bw_shape::{Graphed, Node as Said, Saying};
use bw_strings::{Literals, StrSet};
use bw_sum::{Label, Summary};
use std::alloc::Global;

fn is_any(strings: &StrSet) -> bool
    ensures { result ≡ spec.is_any strings.now }
{
    match strings {
        StrSet::Any => true,
        StrSet::Of(_) => false,
    }
}

/// Puts the literals of a set behind other words.
fn add_texts(
    alloc: Global,
    literals: &Literals,
    strings: &StrSet,
    words: &mut Words,
) -> Result<(), Memory>
    ensures { OnOk result (words.new ≡ words.old ++ spec.texts_of literals.now strings.now) }
{
    match strings {
        StrSet::Any => Ok(()),
        StrSet::Of(numbers) => add_numbers(alloc, literals, numbers.as_slice(), words),
    }
}

/// The literal of this number, or none.
fn text_at(literals: &Literals, number: u32) -> &str
    ensures { result.now ≡ text_of literals.now number }
{
    if (number as usize) < literals.len() {
        literals.text(number)
    } else {
        ""
    }
}

/// Puts the literals of these numbers behind other words.
fn add_numbers(
    alloc: Global,
    literals: &Literals,
    numbers: &[u32],
    words: &mut Words,
) -> Result<(), Memory>
    ensures { OnOk result (words.new ≡ words.old ++ map (text_of literals.now) numbers.now) }
{
    for number in numbers {
        words.push(Text::of(alloc, text_at(literals, *number))?)?;
    }
    Ok(())
}

/// Puts the literals of a set behind other words, where it is at this gap.
fn add_said(
    alloc: Global,
    literals: &Literals,
    gap: GapId,
    saying: &Saying,
    words: &mut Words,
) -> Result<(), Memory>
    ensures { OnOk result (words.new ≡ words.old ++ (if saying.now.0 == gap then spec.texts_of literals.now saying.now.1 else [])) }
{
    if saying.0 == gap {
        add_texts(alloc, literals, &saying.1, words)?;
    }
    Ok(())
}

/// The words that may fill a gap.
fn words_at(
    alloc: Global,
    literals: &Literals,
    gap: GapId,
    said: &[Saying],
) -> Result<Words, Memory>
    ensures { IfOk result (λ w. w ≡ spec.words_at literals.now gap said.now) }
{
    let mut words = Words::new(alloc);
    for saying in said {
        add_said(alloc, literals, gap, saying, &mut words)?;
    }
    Ok(words)
}

/// Whether any string may fill a gap.
fn free_at(gap: GapId, said: &[Saying]) -> bool
    ensures { result ≡ spec.free_at gap said.now }
{
    said.iter()
        .any(|saying| saying.0 == gap && is_any(&saying.1))
}

/// Puts the template of a link behind others, where it is at this gap.
fn add_led(gap: GapId, link: &(GapId, TemplateId), led: &mut Vec<u32>) -> Result<(), Memory>
    ensures { OnOk result (led.new.items ≡ led.old.items ++ (if link.now.0 == gap then link.now.1 ∷ [] else [])) }
{
    if link.0 == gap {
        led.push(link.1.number())?;
    }
    Ok(())
}

/// The templates that may stand at a gap.
fn led_at(alloc: Global, node: &Said, gap: GapId) -> Result<Vec<u32>, Memory>
    ensures { IfOk result (λ v. v.items ≡ spec.led_at gap node.now.links) }
{
    let mut led = Vec::new(alloc);
    for link in node.links() {
        add_led(gap, link, &mut led)?;
    }
    Ok(led)
}

/// What may stand at a gap.
pub fn way_for(
    alloc: Global,
    literals: &Literals,
    node: &Said,
    said: &[Saying],
    gap: GapId,
) -> Result<Way, Memory>
    ensures { IfOk result (λ w. w ≡ spec.way_for literals.now node.now said.now gap) }
{
    let words = words_at(alloc, literals, gap, said)?;
    let led = led_at(alloc, node, gap)?;
    let is_open = node.is_open(gap);
    let is_free = free_at(gap, said);
    Ok(Way::of(gap, is_open, is_free, words, led))
}

/// Gives a gap its way, if it has none.
fn add_way(
    alloc: Global,
    literals: &Literals,
    node: &Said,
    said: &[Saying],
    gap: GapId,
    ways: &mut Node,
) -> Result<(), Memory>
    requires { All (λ w. w ≡ spec.way_for literals.now node.now said.now w.at) ways.old }
    ensures made { OnOk result (All (λ w. w ≡ spec.way_for literals.now node.now said.now w.at) ways.new) }
    ensures has { OnOk result ((h : ℕ) → spec.has_way ways.new h ≡ (spec.has_way ways.old h || (gap == h))) }
{
    if !ways.has(gap) {
        let way = way_for(alloc, literals, node, said, gap)?;
        ways.push(way)?;
    }
    Ok(())
}

/// Gives a gap of a template its way, if it has none.
fn add_at(
    alloc: Global,
    literals: &Literals,
    graphed: &Graphed,
    template: TemplateId,
    gap: GapId,
    list: &mut Vec<Node>,
) -> Result<(), Memory>
    requires n { template < length list.old.items }
    requires nodes { length graphed.now.nodes.items ≡ length list.old.items }
    requires said { length graphed.now.said.items ≡ length list.old.items }
    requires made { spec.AreMade literals.now graphed.now.nodes.items graphed.now.said.items list.old.items }
    ensures made { OnOk result (spec.AreMade literals.now graphed.now.nodes.items graphed.now.said.items list.new.items) }
    ensures more { OnOk result (spec.HasMore list.old.items list.new.items (λ m h. (template == m) && (gap == h))) }
{
    let n = template.number() as usize;
    let node = node_of(graphed.nodes.as_slice(), n);
    let said = said_of(graphed.said.as_slice(), n);
    add_way(alloc, literals, node, said, gap, &mut list[n])?;
    Ok(())
}

/// Gives the gaps of tracks their ways.
fn add_tracks(
    alloc: Global,
    literals: &Literals,
    graphed: &Graphed,
    tracks: &[(GapId, TemplateId)],
    list: &mut Vec<Node>,
) -> Result<(), Memory>
    requires rows { All (λ t. t.1 < length list.old.items) tracks.now }
    requires nodes { length graphed.now.nodes.items ≡ length list.old.items }
    requires said { length graphed.now.said.items ≡ length list.old.items }
    requires made { spec.AreMade literals.now graphed.now.nodes.items graphed.now.said.items list.old.items }
    ensures made { OnOk result (spec.AreMade literals.now graphed.now.nodes.items graphed.now.said.items list.new.items) }
    ensures more { OnOk result (spec.HasMore list.old.items list.new.items (λ m h. list_any (spec.of_track m h) tracks.now)) }
{
    for track in tracks {
        add_at(alloc, literals, graphed, track.1, track.0, list)?;
    }
    Ok(())
}

/// Gives the gaps of edges their ways.
fn add_edges(
    alloc: Global,
    literals: &Literals,
    graphed: &Graphed,
    edges: &[(TemplateId, GapId, TemplateId)],
    list: &mut Vec<Node>,
) -> Result<(), Memory>
    requires rows { All (λ t. t.0 < length list.old.items) edges.now }
    requires nodes { length graphed.now.nodes.items ≡ length list.old.items }
    requires said { length graphed.now.said.items ≡ length list.old.items }
    requires made { spec.AreMade literals.now graphed.now.nodes.items graphed.now.said.items list.old.items }
    ensures made { OnOk result (spec.AreMade literals.now graphed.now.nodes.items graphed.now.said.items list.new.items) }
    ensures more { OnOk result (spec.HasMore list.old.items list.new.items (λ m h. list_any (spec.of_edge m h) edges.now)) }
{
    for edge in edges {
        add_at(alloc, literals, graphed, edge.0, edge.1, list)?;
    }
    Ok(())
}

/// Gives the gaps of labels their ways.
fn add_labels(
    alloc: Global,
    literals: &Literals,
    graphed: &Graphed,
    labels: &[Label],
    list: &mut Vec<Node>,
) -> Result<(), Memory>
    requires rows { All (λ t. t.0.0 < length list.old.items) labels.now }
    requires nodes { length graphed.now.nodes.items ≡ length list.old.items }
    requires said { length graphed.now.said.items ≡ length list.old.items }
    requires made { spec.AreMade literals.now graphed.now.nodes.items graphed.now.said.items list.old.items }
    ensures made { OnOk result (spec.AreMade literals.now graphed.now.nodes.items graphed.now.said.items list.new.items) }
    ensures more { OnOk result (spec.HasMore list.old.items list.new.items (λ m h. list_any (spec.of_label m h) labels.now)) }
{
    for label in labels {
        add_at(alloc, literals, graphed, label.0.0, label.0.1, list)?;
    }
    Ok(())
}

/// So many nodes without ways.
fn fresh(alloc: Global, rows: usize) -> Result<Vec<Node>, Memory>
    ensures { IfOk result (λ v. v.items ≡ replicate rows []) }
{
    let mut list = Vec::with_capacity(alloc, rows)?;
    for _ in 0..rows {
        list.push(Node::new(alloc))?;
    }
    Ok(list)
}

/// The ways of all templates of the page graph of a summary, in one pass over its tracks, edges and labels. `graphed` is
/// what `nodes_of` gives of it.
pub fn ways_of(
    alloc: Global,
    literals: &Literals,
    graphed: &Graphed,
    page: &Summary,
) -> Result<Vec<Node>, Memory>
    requires said { length graphed.now.said.items ≡ length graphed.now.nodes.items }
    requires tracks { All (λ t. t.1 < length graphed.now.nodes.items) page.now.tracks }
    requires edges { All (λ t. t.0 < length graphed.now.nodes.items) page.now.edges }
    requires labels { All (λ t. t.0.0 < length graphed.now.nodes.items) page.now.texts }
    requires fits { Fits graphed.now.nodes.items (summary_graph literals.now page.now) }
    requires strings { AreStrings graphed.now.said.items literals.now (summary_graph literals.now page.now) }
    ensures len { IfOk result (λ v. length v.items ≡ length graphed.now.nodes.items) }
    ensures ties { IfOk result (λ v. Ties (graph v.items) (summary_graph literals.now page.now)) }
{
    let mut list = fresh(alloc, graphed.nodes.len())?;
    add_tracks(alloc, literals, graphed, page.tracks.as_slice(), &mut list)?;
    add_edges(alloc, literals, graphed, page.edges.as_slice(), &mut list)?;
    add_labels(alloc, literals, graphed, page.texts.as_slice(), &mut list)?;
    Ok(list)
}
