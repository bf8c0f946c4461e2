//! The tags that the formulas of a schema name, and the pairs that they order.
ghost use Rattle.std.specs.Prelude.{◌^◌, ◌<◌, IfOk, OnOk, length};
ghost use Rattle.std.specs.List.{Contains};
ghost use Rattle.bw_lang.specs.Table.Names.{name_number, Extends};
ghost use Rattle.bw_schema.specs.declared.rules.Rule.{Rule as RuleOf};
ghost use Rattle.bw_schema.specs.Needs.{nothing, content, order};
ghost use Rattle.bw_schema.specs.NeedsView.{before_need};
ghost use Rattle.bw_shape.specs.Formulas as spec;

use crate::tags::Tags;
use bw_lang::{Memory, Name};
use bw_schema::{Formula, Formulas, Rules};
use std::alloc::Global;

/// Takes a tag in.
fn name_tag(tag: &Name, tags: &mut Tags) -> Result<(), Memory>
    ensures low { OnOk result (name_number tags.new tag.now < length tags.new) }
    ensures front { OnOk result (Extends tags.old tags.new) }
{
    tags.add(tag)?;
    Ok(())
}

/// Takes the two tags of an order in, and their pair.
fn name_order(
    tag: &Name,
    after: &Name,
    tags: &mut Tags,
    pairs: &mut Vec<(usize, usize)>,
) -> Result<(), Memory>
    ensures { OnOk result (spec.Names tags.old tags.new pairs.old.items pairs.new.items (order tag.now after.now nothing)) }
{
    name_tag(tag, tags)?;
    name_tag(after, tags)?;
    let first = tags.number(after) + 1;
    let second = tags.number(tag) + 1;
    pairs.push((first, second))?;
    Ok(())
}

/// Takes the tag of a content in.
fn name_content(tag: &Name, tags: &mut Tags, pairs: &[(usize, usize)]) -> Result<(), Memory>
    ensures { OnOk result (spec.Names tags.old tags.new pairs.now pairs.now (content tag.now nothing)) }
{
    name_tag(tag, tags)?;
    Ok(())
}

#[cycle(naming)]
fn name_formula(
    formula: &Formula,
    tags: &mut Tags,
    pairs: &mut Vec<(usize, usize)>,
) -> Result<(), Memory>
    ensures { OnOk result (spec.Names tags.old tags.new pairs.old.items pairs.new.items (before_need formula.now nothing)) }
{
    match formula {
        Formula::And(parts) => name_formulas(parts, tags, pairs),
        Formula::Or(parts) => name_formulas(parts, tags, pairs),
        Formula::Attr(_) => Ok(()),
        Formula::OneOf(_, _) => Ok(()),
        Formula::Content(tag) => name_content(tag, tags, pairs.as_slice()),
        Formula::Order(tag, after) => name_order(tag, after, tags, pairs),
    }
}

/// Takes the tags and the pairs of formulas in.
#[cycle(naming)]
fn name_formulas(
    formulas: &Formulas,
    tags: &mut Tags,
    pairs: &mut Vec<(usize, usize)>,
) -> Result<(), Memory>
    ensures { OnOk result (spec.Names tags.old tags.new pairs.old.items pairs.new.items formulas.now) }
{
    for formula in formulas.as_slice() {
        name_formula(formula, tags, pairs)?;
    }
    Ok(())
}

/// The tags that the formulas of a schema name, and the columns of those that some formula orders.
#[derive(Drop)]
pub struct Named {
    pub tags: Tags,
    pub pairs: Vec<(usize, usize)>,
}

/// The tags and the pairs of the formulas of all rules.
pub(crate) fn name_rules(alloc: Global, rules: &Rules) -> Result<Named, Memory>
    ensures small { IfOk result (λ t. spec.AreColumns (length t.tags) t.pairs.items) }
    ensures named { IfOk result (λ t. (r : RuleOf) → Contains rules.now r → spec.AreNamed t.tags (length t.tags) t.pairs.items r.needs) }
{
    let mut tags = Tags::new(alloc);
    let mut pairs = Vec::new(alloc);
    for rule in rules.as_slice() {
        name_formulas(&rule.needs, &mut tags, &mut pairs)?;
    }
    Ok(Named { tags, pairs })
}
