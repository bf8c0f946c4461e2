//! Tests of what the calls of judging ask for.
ghost use Rattle.std.specs.Prelude.{◌≡◌, ◌⊎◌, ◌↔◌, ◌+◌, ◌<◌, ◌∷◌, [], true, IsTrue, length};
ghost use Rattle.std.specs.List.{All, AllByRecursion};
ghost use Rattle.bw_fields.specs.Received.{IsReceived};
ghost use Rattle.bw_shape.specs.Outlines.{IsPageGraph};
ghost use Rattle.bw_strings.specs.Asking.{AreLiterals};
ghost use Rattle.bw_strings.specs.Literals.{literals_of};

use bw_flow::{Received, Receiveds};
use bw_lang::laws::readable_is_small;
use bw_lang::{GapId, TemplateId};
use bw_strings::{Literals, StrSet};
use bw_sum::{Label, Summary};
use bw_types::Typed;

/// Whether the only root is one of the two wrappers.
fn has_wrapper(roots: &[TemplateId], count: usize) -> bool
    ensures { result ≡ true → (roots.now ≡ count ∷ []) ⊎ (roots.now ≡ (count + 1) ∷ []) }
{
    match roots {
        [root] => {
            let number = root.number() as usize;
            number == count || number == count.saturating_add(1)
        }
        _ => false,
    }
}

/// Whether edges lead from and to templates below this number.
fn are_edges(edges: &[(TemplateId, GapId, TemplateId)], rows: usize) -> bool
    ensures { IsTrue result ↔ All (λ e. (e.0 < rows) × (e.2 < rows)) edges.now }
{
    edges.iter().all(|e| (e.0.number() as usize) < rows && (e.2.number() as usize) < rows)
}

/// Whether tracks come from templates below this number.
fn are_tracks(tracks: &[(GapId, TemplateId)], rows: usize) -> bool
    ensures { IsTrue result ↔ All (λ t. t.1 < rows) tracks.now }
{
    tracks.iter().all(|t| (t.1.number() as usize) < rows)
}

/// Whether the numbers of a set are those of literals.
fn are_literals(literals: &Literals, strings: &StrSet) -> bool
    ensures { result ≡ true → AreLiterals literals.now strings.now }
{
    match strings {
        StrSet::Any => true,
        StrSet::Of(numbers) => are_below(numbers.as_slice(), literals.len()),
    }
}

/// Whether numbers are below a count.
fn are_below(numbers: &[u32], count: usize) -> bool
    ensures { result ≡ true → AllByRecursion (λ n. n < count) numbers.now }
{
    numbers.iter().all(|number| (*number as usize) < count)
}

/// Whether a label is at a gap of a template below this number, with literals.
fn is_label(literals: &Literals, label: &Label, rows: usize) -> bool
    ensures { result ≡ true → (label.now.0.0 < rows) × AreLiterals literals.now label.now.1 }
{
    (label.0.0.number() as usize) < rows && are_literals(literals, &label.1)
}

/// Whether all labels are.
fn are_labels(literals: &Literals, labels: &[Label], rows: usize) -> bool
    ensures { result ≡ true → All (λ l. (l.0.0 < rows) × AreLiterals literals.now l.1) labels.now }
{
    labels.iter().all(|label| is_label(literals, label, rows))
}

/// Whether a summary is a page graph of the service.
pub fn is_page_graph(typed: &Typed, literals: &Literals, page: &Summary) -> bool
    requires { literals.now ≡ literals_of typed.now.service }
    ensures { result ≡ true → IsPageGraph typed.now.service page.now }
{
    readable_is_small();
    let count = typed.service().templates.as_slice().len();
    let rows = count + 2;
    has_wrapper(page.roots.as_slice(), count)
        && (are_edges(page.edges.as_slice(), rows)
            && (are_tracks(page.tracks.as_slice(), rows)
                && are_labels(literals, page.texts.as_slice(), rows)))
}

/// Whether a received field has its number.
fn is_received(typed: &Typed, received: &Received) -> bool
    ensures { result ≡ true → IsReceived typed.now.service received.now }
{
    let names = typed.fields();
    let id = received.id;
    names.number(received.field.as_str()) == id && (id.number() as usize) < names.len()
}

/// Whether all received fields have their numbers.
pub fn are_received(typed: &Typed, receiveds: &Receiveds) -> bool
    ensures { result ≡ true → All (IsReceived typed.now.service) receiveds.now }
{
    receiveds
        .as_slice()
        .iter()
        .all(|received| is_received(typed, received))
}
