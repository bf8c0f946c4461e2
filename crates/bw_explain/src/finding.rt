//! The least document in which an element of a template is broken.
ghost use Rattle.std.specs.Prelude.{◌≡◌, ℕ, ◌<◌, ◌^◌, ◌∷◌, [], if◌then◌else◌, IfOk, length, map};
ghost use Rattle.bw_lang.specs.Document.Documents.{elements};
ghost use Rattle.bw_shape.specs.Nodes.Templates.{template_at};
ghost use Rattle.bw_explain.specs.Atoms as atoms;
ghost use Rattle.bw_explain.specs.declared.atom.Atom.TheVariants.{Absent, BadText};
ghost use Rattle.bw_explain.specs.Aims.{IsPlain, IsBroken};
ghost use Rattle.bw_explain.specs.Explained as spec;
ghost use Rattle.bw_explain.specs.Explained.{spot_of};
ghost use Rattle.bw_explain.specs.Tables.{Solved};
ghost use Rattle.bw_explain.specs.Ways.{graph};

use crate::aim::{Aim, Broken};
use crate::atom::Atom;
use crate::element::{Whole, broken_element};
use crate::explained::Explained;
use crate::ground::{Breach, Ground};
use crate::needs::add_needs;
use crate::sizes::{MAX_SIZE, NONE, PAST};
use crate::solve::solve;
use crate::table::Table;
use bw_lang::{Element, Items, Memory, Name, Text, Tree};
use bw_schema::{Formulas, Rule};
use std::alloc::Global;

/// An element of a template, by its place.
#[derive(Clone, Copy)]
pub struct Spot<'a> {
    pub template: usize,
    /// In pre-order, from 1.
    pub place: u32,
    pub element: &'a Element,
}

/// The least size of some documents, and one of that size.
#[derive(Drop)]
pub struct Found {
    /// In items and attributes; `PAST` for more than `MAX_SIZE`, and `NONE` where there is none.
    pub size: u32,
    pub doc: Items,
}

/// What a table has of a template.
pub fn found_at(alloc: Global, table: &Table, root: usize) -> Result<Found, Memory>
    ensures { IfOk result (λ f. spec.IsFoundAt table.now root f.size f.doc) }
{
    let mut doc = Items::new(alloc);
    table.copy_onto(root, &mut doc)?;
    Ok(Found {
        size: table.size(root),
        doc,
    })
}

/// The least document in which the element is broken in one way, by the least of it.
fn find_with<'x>(
    alloc: Global,
    ground: &'x Ground<'x>,
    breach: &'x Breach<'x>,
    spot: &'x Spot<'x>,
    whole: &'x Whole,
    root: usize,
) -> Result<Found, Memory>
    requires few { (m : ℕ) → elements (template_at ground.now.page.now.templates.now m) < 2 ^ 32 }
    requires broken { IsBroken ground.now.page.now breach.now.rule.now breach.now.atom.now spot.now.template spot.now.element.now whole.now }
    ensures { IfOk result (λ f. spec.IsBest (spec.Finds (template_at ground.now.page.now.templates.now) (graph ground.now.page.now.nodes.now)
        (spot_of spot.now) breach.now.rule.now breach.now.atom.now root) f.size f.doc) }
{
    let aim = Aim::One(Broken {
        template: spot.template,
        place: spot.place,
        element: spot.element,
        rule: breach.rule,
        atom: breach.atom,
        size: whole.size,
        made: &whole.made,
    });
    let tables = solve(alloc, ground.page, &aim, ground.plain, 1)?;
    let found = found_at(alloc, &tables.first, root);
    drop(tables);
    found
}

/// The least document in which the element is broken in one way.
fn find_one(
    alloc: Global,
    ground: &Ground<'_>,
    breach: &Breach<'_>,
    spot: &Spot,
    root: usize,
) -> Result<Found, Memory>
    requires few { (m : ℕ) → elements (template_at ground.now.page.now.templates.now m) < 2 ^ 32 }
    requires plain { Solved (IsPlain ground.now.page.now) ground.now.plain.now }
    requires spot { spot.now.template < length ground.now.page.now.templates.now }
    requires within { elements spot.now.element.now.items < 2 ^ 32 }
    ensures { IfOk result (λ f. spec.IsBest (spec.Finds (template_at ground.now.page.now.templates.now) (graph ground.now.page.now.nodes.now)
        (spot_of spot.now) breach.now.rule.now breach.now.atom.now root) f.size f.doc) }
{
    let whole = broken_element(alloc, ground, breach, spot.template, spot.element)?;
    let found = find_with(alloc, ground, breach, spot, &whole, root);
    drop(whole);
    found
}

/// The lesser of two.
fn better(best: Found, next: Found) -> Found
    ensures { result ≡ spec.better best next }
{
    if next.size < best.size { next } else { best }
}

/// The least document in which the element is broken in one of some ways.
pub fn find_all(
    alloc: Global,
    ground: &Ground<'_>,
    rule: &Rule,
    atoms: &[Atom],
    spot: &Spot,
    root: usize,
) -> Result<Found, Memory>
    requires few { (m : ℕ) → elements (template_at ground.now.page.now.templates.now m) < 2 ^ 32 }
    requires plain { Solved (IsPlain ground.now.page.now) ground.now.plain.now }
    requires spot { spot.now.template < length ground.now.page.now.templates.now }
    requires within { elements spot.now.element.now.items < 2 ^ 32 }
    ensures { IfOk result (λ f. spec.IsBest (spec.FindsOne (template_at ground.now.page.now.templates.now) (graph ground.now.page.now.nodes.now)
        (spot_of spot.now) rule.now atoms.now root) f.size f.doc) }
{
    let mut best = Found {
        size: NONE,
        doc: Items::new(alloc),
    };
    for atom in atoms {
        let breach = Breach { rule, atom };
        let Ok(next) = find_one(alloc, ground, &breach, spot, root) else {
            drop(best);
            return Err(Memory);
        };
        best = better(best, next);
    }
    Ok(best)
}

/// One atom for each name.
fn absent_of(alloc: Global, names: &[Text]) -> Result<Vec<Atom>, Memory>
    ensures { IfOk result (λ v. v.items ≡ map Absent names.now) }
{
    let mut list = Vec::new(alloc);
    for name in names {
        list.push(Atom::Absent(Name::of(alloc, name.as_str())?))?;
    }
    Ok(list)
}

/// One atom.
fn one_atom(alloc: Global, atom: Atom) -> Result<Vec<Atom>, Memory>
    ensures { IfOk result (λ v. v.items ≡ atom ∷ []) }
{
    let mut list = Vec::new(alloc);
    list.push(atom)?;
    Ok(list)
}

/// The atom of an element that has a text, where it may have none.
fn text_atoms(alloc: Global, is_allowed: bool) -> Result<Vec<Atom>, Memory>
    ensures { IfOk result (λ v. v.items ≡ (if is_allowed then [] else BadText ∷ [])) }
{
    if is_allowed {
        Ok(Vec::new(alloc))
    } else {
        one_atom(alloc, Atom::BadText)
    }
}

/// The atoms of the needs without Or.
fn need_atoms(alloc: Global, needs: &Formulas) -> Result<Vec<Atom>, Memory>
    ensures { IfOk result (λ v. v.items ≡ atoms.need_atoms needs.now) }
{
    let mut list = Vec::new(alloc);
    add_needs(needs, &mut list)?;
    Ok(list)
}

/// The atoms of a rule for the fault of that number: the ways in which an element breaks it so.
pub fn atoms_of(alloc: Global, number: u8, rule: &Rule) -> Result<Vec<Atom>, Memory>
    ensures { IfOk result (λ v. v.items ≡ atoms.atoms_of number rule.now) }
{
    if number == 1 {
        return one_atom(alloc, Atom::NotAllowed);
    }
    if number == 2 {
        return absent_of(alloc, rule.must.as_slice());
    }
    if number == 3 {
        return one_atom(alloc, Atom::OtherValue);
    }
    if number == 4 {
        return one_atom(alloc, Atom::BadChild);
    }
    if number == 5 {
        return text_atoms(alloc, rule.text);
    }
    if number == 7 {
        return need_atoms(alloc, &rule.needs);
    }
    Ok(Vec::new(alloc))
}

/// What is told of the least document.
pub fn answer(found: Found) -> Result<Explained, Memory>
    ensures { IfOk result (λ e. e ≡ spec.answer_of found.size found.doc) }
{
    if found.size > PAST {
        drop(found);
        return Ok(Explained::NoUnfolding);
    }
    if found.size > MAX_SIZE {
        drop(found);
        return Ok(Explained::TooBig);
    }
    Ok(Explained::Page(Tree {
        items: found.doc.close()?,
    }))
}
