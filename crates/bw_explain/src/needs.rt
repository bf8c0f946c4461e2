//! The atoms of needs: the ways in which an element breaks one that has no Or.
ghost use Rattle.std.specs.Prelude.{◌≡◌, ◌++◌, ◌∷◌, [], OnOk};
ghost use Rattle.bw_explain.specs.Atoms as spec;
ghost use Rattle.bw_explain.specs.Atoms.{is_plain};
ghost use Rattle.bw_explain.specs.declared.atom.Atom.TheVariants.{Absent, Outside, Missing, Crossing};

use crate::atom::Atom;
use bw_lang::{Memory, Name, Words};
use bw_schema::{Formula, Formulas};

/// Whether no Or stands in the formula.
#[cycle(plain)]
pub fn is_plain(formula: &Formula) -> bool
    ensures { result ≡ spec.is_plain_one formula.now }
{
    match formula {
        Formula::And(parts) => are_plain(parts),
        Formula::Or(_) => false,
        Formula::Attr(_) => true,
        Formula::OneOf(_, _) => true,
        Formula::Content(_) => true,
        Formula::Order(_, _) => true,
    }
}

/// Whether no Or stands in the formulas.
#[cycle(plain)]
fn are_plain(formulas: &Formulas) -> bool
    ensures { result ≡ is_plain formulas.now }
{
    for formula in formulas.as_slice() {
        if !is_plain(formula) {
            return false;
        }
    }
    true
}

/// Puts the atom of an attribute that is absent behind others.
fn add_absent(name: &Name, ways: &mut Vec<Atom>) -> Result<(), Memory>
    ensures { OnOk result (ways.new.items ≡ ways.old.items ++ Absent name.now ∷ []) }
{
    ways.push(Atom::Absent(name.copy()?))?;
    Ok(())
}

/// Puts the atom of an attribute without one of these values behind others.
fn add_outside(name: &Name, values: &Words, ways: &mut Vec<Atom>) -> Result<(), Memory>
    ensures { OnOk result (ways.new.items ≡ ways.old.items ++ Outside name.now values.now ∷ []) }
{
    let name = name.copy()?;
    let Ok(values) = values.copy() else {
        drop(name);
        return Err(Memory);
    };
    ways.push(Atom::Outside(name, values))?;
    Ok(())
}

/// Puts the atom of a child that is missing behind others.
fn add_missing(tag: &Name, ways: &mut Vec<Atom>) -> Result<(), Memory>
    ensures { OnOk result (ways.new.items ≡ ways.old.items ++ Missing tag.now ∷ []) }
{
    ways.push(Atom::Missing(tag.copy()?))?;
    Ok(())
}

/// Puts the atom of two children that cross behind others.
fn add_crossing(first: &Name, last: &Name, ways: &mut Vec<Atom>) -> Result<(), Memory>
    ensures { OnOk result (ways.new.items ≡ ways.old.items ++ Crossing first.now last.now ∷ []) }
{
    let first = first.copy()?;
    let Ok(last) = last.copy() else {
        drop(first);
        return Err(Memory);
    };
    ways.push(Atom::Crossing(first, last))?;
    Ok(())
}

/// Puts the atoms of a formula behind others.
#[cycle(need)]
fn add_need(formula: &Formula, ways: &mut Vec<Atom>) -> Result<(), Memory>
    ensures { OnOk result (ways.new.items ≡ ways.old.items ++ spec.atoms_one formula.now) }
{
    match formula {
        Formula::And(parts) => {
            if are_plain(parts) {
                add_needs(parts, ways)?;
            }
        }
        Formula::Or(_) => {}
        Formula::Attr(name) => add_absent(name, ways)?,
        Formula::OneOf(name, values) => add_outside(name, values, ways)?,
        Formula::Content(tag) => add_missing(tag, ways)?,
        Formula::Order(first, last) => add_crossing(first, last, ways)?,
    }
    Ok(())
}

/// Puts the atoms of the formulas without Or behind others.
#[cycle(need)]
pub fn add_needs(formulas: &Formulas, ways: &mut Vec<Atom>) -> Result<(), Memory>
    ensures { OnOk result (ways.new.items ≡ ways.old.items ++ spec.need_atoms formulas.now) }
{
    for formula in formulas.as_slice() {
        add_need(formula, ways)?;
    }
    Ok(())
}
