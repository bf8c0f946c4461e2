//! An element of a template, filled so that it is broken.
ghost use Rattle.std.specs.Prelude.{ℕ, ◌<◌, ◌^◌, IfOk, length};
ghost use Rattle.bw_lang.specs.Document.Documents.{elements};
ghost use Rattle.bw_shape.specs.Nodes.Templates.{template_at};
ghost use Rattle.bw_explain.specs.Aims.{IsPlain, AreTops, IsBroken};
ghost use Rattle.bw_explain.specs.Tables.{Solved};

use crate::aim::{Aim, Made};
use crate::draft::draft_items;
use crate::ground::{Breach, Ground};
use crate::own::{fill_own, own_least};
use crate::sizes::{MAX_SIZE, plus};
use crate::solve::{Tables, solve};
use crate::walk::{Walk, reach_items};
use bw_lang::{Attrs, Element, Items, Memory};
use std::alloc::Global;

/// The least size of what fills an element so that it is broken, and one of that size, if it isn't too big.
#[derive(Drop)]
pub struct Whole {
    /// In items and attributes, the element itself among them.
    pub size: u32,
    pub made: Made,
}

/// An element of a template, filled so that it is broken in one way, by the least documents for its items.
fn element_with<'x>(
    alloc: Global,
    ground: &'x Ground<'x>,
    tables: &'x Tables,
    breach: &'x Breach<'x>,
    n: usize,
    element: &Element,
) -> Result<Whole, Memory>
    requires n { n < length ground.now.page.now.templates.now }
    requires few { elements element.now.items < 2 ^ 32 }
    requires plain { Solved (IsPlain ground.now.page.now) ground.now.plain.now }
    requires tables { AreTops ground.now.page.now breach.now.rule.now breach.now.atom.now tables.now }
    ensures { IfOk result (IsBroken ground.now.page.now breach.now.rule.now breach.now.atom.now n element.now) }
{
    let walk = Walk {
        page: *ground.page,
        aim: Aim::Tops(breach.rule, breach.atom),
        plain: ground.plain,
        known: tables.known(),
        low: 0,
        high: breach.atom.goals(),
    };
    let own = own_least(ground.page, breach, n, &element.attrs);
    let inner = reach_items(&walk, n, 0, 0, &element.items);
    let size = plus(plus(1, own), inner.reach.at(walk.high));
    if size > MAX_SIZE {
        let made = Made {
            attrs: Attrs::new(alloc),
            items: Items::new(alloc),
        };
        return Ok(Whole { size, made });
    }
    let attrs = fill_own(alloc, ground.page, breach, n, &element.attrs)?;
    let Ok(draft) = draft_items(alloc, &walk, n, 0, 0, &element.items) else {
        drop(attrs);
        return Err(Memory);
    };
    let made = Made {
        attrs,
        items: draft.into_doc(walk.high),
    };
    Ok(Whole { size, made })
}

/// An element of a template, filled so that it is broken in one way.
pub fn broken_element<'x>(
    alloc: Global,
    ground: &Ground<'_>,
    breach: &'x Breach<'x>,
    n: usize,
    element: &Element,
) -> Result<Whole, Memory>
    requires n { n < length ground.now.page.now.templates.now }
    requires few { (m : ℕ) → elements (template_at ground.now.page.now.templates.now m) < 2 ^ 32 }
    requires within { elements element.now.items < 2 ^ 32 }
    requires plain { Solved (IsPlain ground.now.page.now) ground.now.plain.now }
    ensures { IfOk result (IsBroken ground.now.page.now breach.now.rule.now breach.now.atom.now n element.now) }
{
    let aim = Aim::Tops(breach.rule, breach.atom);
    let tables = solve(alloc, ground.page, &aim, ground.plain, breach.atom.goals())?;
    let whole = element_with(alloc, ground, &tables, breach, n, element);
    drop(tables);
    whole
}
