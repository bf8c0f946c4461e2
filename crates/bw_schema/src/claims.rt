//! What is declared twice, and what is used and not declared.
ghost use Rattle.std.specs.Prelude.{◌≡◌, ◌+◌, ◌<◌, ◌++◌, ◌^◌, [], None, length, IfOk, OnOk, MatchResult};
ghost use Rattle.bw_schema.specs.Forms.{one};
ghost use Rattle.bw_schema.specs.Marks as spec;
ghost use Rattle.bw_schema.specs.Steps.Judging.{SaysRepeated, SaysUnknown, marks_of, IsOnce, IsSound, IsFaulty};

use crate::fault::SchemaFault;
use crate::lines::Line;
use crate::marks::{Kind, Mark, MarkSet, Marks};
use crate::needs::{Formula, Formulas};
use bw_lang::{Memory, Name};
use std::alloc::Global;

/// The number of the rule that a line belongs to, behind lines of this rule.
fn rule_at(rule: usize, line: &Line) -> usize
    requires { rule < 2 ^ 63 }
    ensures { result ≡ spec.rule_at rule line.now }
{
    match line {
        Line::Element(_) => rule + 1,
        _ => rule,
    }
}

/// Takes in what a line of this rule declares.
fn declare(marks: &mut Marks, rule: usize, line: &Line) -> Result<(), Memory>
    ensures { OnOk result (marks.new ≡ marks.old ++ spec.declared_by rule line.now) }
{
    match line {
        Line::Element(tag) => marks.push(0, Kind::Element, tag.as_str()),
        Line::May(names) | Line::Must(names) => marks.push_each(rule, Kind::Attribute, names),
        Line::Value(name, _) => marks.push(rule, Kind::Value, name.as_str()),
        Line::Has(tags) => marks.push_each(rule, Kind::Child, tags),
        Line::Text => marks.push(rule, Kind::Text, "text"),
        Line::Need(_) => Ok(()),
    }
}

/// Takes in what a formula of this rule uses.
#[cycle(uses)]
fn use_formula(marks: &mut Marks, rule: usize, formula: &Formula) -> Result<(), Memory>
    ensures { OnOk result (marks.new ≡ marks.old ++ spec.used_in rule (one formula.now)) }
{
    match formula {
        Formula::And(parts) | Formula::Or(parts) => use_formulas(marks, rule, parts),
        Formula::Attr(name) | Formula::OneOf(name, _) => {
            marks.push(rule, Kind::Attribute, name.as_str())
        }
        Formula::Content(tag) => marks.push(rule, Kind::Child, tag.as_str()),
        Formula::Order(first, last) => {
            marks.push(rule, Kind::Child, first.as_str())?;
            marks.push(rule, Kind::Child, last.as_str())
        }
    }
}

/// Takes in what formulas of this rule use.
#[cycle(uses)]
fn use_formulas(marks: &mut Marks, rule: usize, formulas: &Formulas) -> Result<(), Memory>
    ensures { OnOk result (marks.new ≡ marks.old ++ spec.used_in rule formulas.now) }
{
    for formula in formulas.as_slice() {
        use_formula(marks, rule, formula)?;
    }
    Ok(())
}

/// Takes in what a line of this rule uses.
fn use_line(marks: &mut Marks, rule: usize, line: &Line) -> Result<(), Memory>
    ensures { OnOk result (marks.new ≡ marks.old ++ spec.used_by rule line.now) }
{
    match line {
        Line::Value(name, _) => marks.push(rule, Kind::Attribute, name.as_str()),
        Line::Has(tags) => marks.push_each(0, Kind::Element, tags),
        Line::Need(formula) => use_formula(marks, rule, formula),
        Line::Element(_) | Line::May(_) | Line::Must(_) | Line::Text => Ok(()),
    }
}

/// What the lines declare.
fn declarations(alloc: Global, lines: &[Line]) -> Result<Marks, Memory>
    ensures { IfOk result (λ marks. marks ≡ spec.declarations lines.now) }
{
    let mut marks = Marks::new(alloc);
    let mut rule = 0;
    for line in lines {
        rule = rule_at(rule, line);
        declare(&mut marks, rule, line)?;
    }
    Ok(marks)
}

/// What the root and the lines use.
fn uses(alloc: Global, root: &Name, lines: &[Line]) -> Result<Marks, Memory>
    ensures { IfOk result (λ marks. marks ≡ spec.uses root.now lines.now) }
{
    let mut marks = Marks::new(alloc);
    marks.push(0, Kind::Element, root.as_str())?;
    let mut rule = 0;
    for line in lines {
        rule = rule_at(rule, line);
        use_line(&mut marks, rule, line)?;
    }
    Ok(marks)
}

/// The marks as a set, if none of them stands twice.
fn once(alloc: Global, marks: &[Mark]) -> Result<MarkSet, SchemaFault>
    ensures { MatchResult result (IsOnce marks.now) (SaysRepeated (spec.first_repeated [] (marks_of marks.now))) }
{
    let mut set = MarkSet::new(alloc);
    for mark in marks {
        if set.has(mark) {
            return Err(SchemaFault::Repeated(Name::of(alloc, mark.name.as_str())?));
        }
        set.add(alloc, mark)?;
    }
    Ok(set)
}

/// Refuses marks of which one isn't in the set.
fn known(alloc: Global, there: &MarkSet, marks: &[Mark]) -> Result<(), SchemaFault>
    ensures { MatchResult result (λ _. spec.first_missing there.now (marks_of marks.now) ≡ None)
        (SaysUnknown (spec.first_missing there.now (marks_of marks.now))) }
{
    for mark in marks {
        if !there.has(mark) {
            return Err(SchemaFault::Unknown(Name::of(alloc, mark.name.as_str())?));
        }
    }
    Ok(())
}

/// Refuses lines of which one declares something a second time, or else uses what isn't declared.
pub fn check(alloc: Global, root: &Name, lines: &[Line]) -> Result<(), SchemaFault>
    ensures { MatchResult result (λ _. IsSound root.now lines.now) (IsFaulty root.now lines.now) }
{
    let declared = declarations(alloc, lines)?;
    let set = once(alloc, declared.as_slice())?;
    let used = uses(alloc, root, lines)?;
    known(alloc, &set, used.as_slice())
}
