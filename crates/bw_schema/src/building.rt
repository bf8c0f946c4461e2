//! The rules that the lines of a schema give.
ghost use Rattle.std.specs.Prelude.{◌≡◌, ◌++◌, IfOk, OnOk};
ghost use Rattle.bw_schema.specs.RulesOf as spec;

use crate::lines::Line;
use crate::needs::Formulas;
use crate::rules::{Rule, ValueList, ValueLists};
use bw_lang::{Memory, Name, Words};
use std::alloc::Global;

/// Takes in more words, behind the others.
fn push_copies(words: &mut Words, more: &Words) -> Result<(), Memory>
    ensures { OnOk result (words.new ≡ words.old ++ more.now) }
{
    for word in more.as_slice() {
        words.push(word.copy()?)?;
    }
    Ok(())
}

/// The rule of an element without lines.
fn bare(alloc: Global, tag: &Name) -> Result<Rule, Memory>
    ensures { IfOk result (λ rule. rule ≡ spec.bare tag.now) }
{
    Ok(Rule {
        tag: tag.copy()?,
        may: Words::new(alloc),
        must: Words::new(alloc),
        values: ValueLists::new(alloc),
        has: Words::new(alloc),
        text: false,
        needs: Formulas::new(alloc),
    })
}

/// Takes in what a line says of the rule.
fn add_line(rule: &mut Rule, line: &Line) -> Result<(), Memory>
    ensures { OnOk result (rule.new ≡ spec.with_line rule.old line.now) }
{
    match line {
        Line::May(names) => push_copies(&mut rule.may, names),
        Line::Must(names) => push_copies(&mut rule.must, names),
        Line::Value(name, values) => rule.values.push(ValueList {
            name: name.copy()?,
            words: values.copy()?,
        }),
        Line::Has(tags) => push_copies(&mut rule.has, tags),
        Line::Text => {
            rule.text = true;
            Ok(())
        }
        Line::Need(formula) => rule.needs.push(formula.copy()?),
        Line::Element(_) => Ok(()),
    }
}

/// The rule of an element, with the lines up to the next one.
fn rule_of(alloc: Global, tag: &Name, lines: &[Line]) -> Result<Rule, Memory>
    ensures { IfOk result (λ rule. rule ≡ spec.rule_with tag.now (spec.own lines.now)) }
{
    let mut rule = bare(alloc, tag)?;
    for line in lines {
        if let Line::Element(_) = line {
            return Ok(rule);
        }
        add_line(&mut rule, line)?;
    }
    Ok(rule)
}

/// One rule for each element.
pub fn rules_of(alloc: Global, lines: &[Line]) -> Result<Vec<Rule>, Memory>
    ensures { IfOk result (λ rules. rules.items ≡ spec.rules_of lines.now) }
{
    let mut rules = Vec::new(alloc);
    let mut rest = lines;
    while let [line, behind @ ..] = rest {
        if let Line::Element(tag) = line {
            rules.push(rule_of(alloc, tag, behind)?)?;
        }
        rest = behind;
    }
    Ok(rules)
}
