//! The least document in which one element is broken, or of all that the root unfolds to.
ghost use Rattle.std.specs.Prelude.{ℕ, ◌<◌, ◌^◌, IfOk, length};
ghost use Rattle.bw_lang.specs.Document.Documents.{elements};
ghost use Rattle.bw_shape.specs.Nodes.Templates.{template_at};
ghost use Rattle.bw_sum.specs.Unfolding.{Unfolds};
ghost use Rattle.bw_explain.specs.Aims.{IsPlain};
ghost use Rattle.bw_explain.specs.Atoms.{atoms_of};
ghost use Rattle.bw_explain.specs.Explained as spec;
ghost use Rattle.bw_explain.specs.Explained.{spot_of};
ghost use Rattle.bw_explain.specs.Tables.{Solved};
ghost use Rattle.bw_explain.specs.Ways.{graph};

use crate::explained::Explained;
use crate::finding::{Found, Spot, answer, atoms_of, find_all, found_at};
use crate::ground::Ground;
use crate::page::Page;
use crate::solve::solve_plain;
use bw_lang::Memory;
use bw_schema::Rule;
use std::alloc::Global;

/// The least document that the root unfolds to.
fn find_root(alloc: Global, page: &Page, root: usize) -> Result<Found, Memory>
    requires { (m : ℕ) → elements (template_at page.now.templates.now m) < 2 ^ 32 }
    ensures { IfOk result (λ f. spec.IsBest (Unfolds (template_at page.now.templates.now) (graph page.now.nodes.now) root) f.size f.doc) }
{
    let plain = solve_plain(alloc, page)?;
    let found = found_at(alloc, &plain, root);
    drop(plain);
    found
}

/// What a fault 6 is explained by: the least document that the root unfolds to.
pub fn explain_root(alloc: Global, page: &Page, root: usize) -> Result<Explained, Memory>
    requires few { (m : ℕ) → elements (template_at page.now.templates.now m) < 2 ^ 32 }
    ensures { IfOk result (λ e. spec.IsAnswer (Unfolds (template_at page.now.templates.now) (graph page.now.nodes.now) root) e) }
{
    let found = find_root(alloc, page, root)?;
    answer(found)
}

/// The least document in which an element breaks its rule as a fault of that number has it.
fn find_by(
    alloc: Global,
    ground: &Ground<'_>,
    rule: &Rule,
    number: u8,
    spot: &Spot,
    root: usize,
) -> Result<Found, Memory>
    requires few { (m : ℕ) → elements (template_at ground.now.page.now.templates.now m) < 2 ^ 32 }
    requires plain { Solved (IsPlain ground.now.page.now) ground.now.plain.now }
    requires spot { spot.now.template < length ground.now.page.now.templates.now }
    requires within { elements spot.now.element.now.items < 2 ^ 32 }
    ensures { IfOk result (λ f. spec.IsBest (spec.FindsOne (template_at ground.now.page.now.templates.now) (graph ground.now.page.now.nodes.now)
        (spot_of spot.now) rule.now (atoms_of number rule.now) root) f.size f.doc) }
{
    let atoms = atoms_of(alloc, number, rule)?;
    let found = find_all(alloc, ground, rule, atoms.as_slice(), spot, root);
    drop(atoms);
    found
}

/// The same, where the least documents of all templates aren't known.
fn find_element(
    alloc: Global,
    page: &Page,
    rule: &Rule,
    number: u8,
    spot: &Spot,
    root: usize,
) -> Result<Found, Memory>
    requires few { (m : ℕ) → elements (template_at page.now.templates.now m) < 2 ^ 32 }
    requires spot { spot.now.template < length page.now.templates.now }
    requires within { elements spot.now.element.now.items < 2 ^ 32 }
    ensures { IfOk result (λ f. spec.IsBest (spec.FindsOne (template_at page.now.templates.now) (graph page.now.nodes.now) (spot_of spot.now) rule.now
        (atoms_of number rule.now) root) f.size f.doc) }
{
    let plain = solve_plain(alloc, page)?;
    let ground = Ground {
        page,
        plain: &plain,
    };
    let found = find_by(alloc, &ground, rule, number, spot, root);
    drop(plain);
    found
}

/// What a fault of an element is explained by, where it has this place in a template, this tag and this rule.
pub fn explain_element(
    alloc: Global,
    page: &Page,
    rule: &Rule,
    number: u8,
    spot: &Spot,
    root: usize,
) -> Result<Explained, Memory>
    requires few { (m : ℕ) → elements (template_at page.now.templates.now m) < 2 ^ 32 }
    requires spot { spot.now.template < length page.now.templates.now }
    requires within { elements spot.now.element.now.items < 2 ^ 32 }
    ensures { IfOk result (λ e. spec.IsAnswer (spec.FindsOne (template_at page.now.templates.now) (graph page.now.nodes.now) (spot_of spot.now) rule.now
        (atoms_of number rule.now) root) e) }
{
    let found = find_element(alloc, page, rule, number, spot, root)?;
    answer(found)
}
