//! The least documents of all templates in which something is looked for.
ghost use Rattle.std.specs.Prelude.{◌≡◌, ℕ, ◌≤◌, ◌<◌, ◌^◌, true, false, IfOk};
ghost use Rattle.bw_lang.specs.Document.Documents.{elements};
ghost use Rattle.bw_shape.specs.Nodes.Templates.{template_at};
ghost use Rattle.bw_explain.specs.declared.sizes.TheConstants.{NONE};
ghost use Rattle.bw_explain.specs.Aims.{aim_of, cost_of, Has, IsPlain, IsFairAim, IsSearch, IsSought, AreSolved};
ghost use Rattle.bw_explain.specs.Tables.{Solved};

use crate::aim::Aim;
use crate::page::Page;
use crate::settle::settle;
use crate::sizes::NONE;
use crate::table::Table;
use crate::walk::{Known, Walk};
use bw_lang::Memory;
use std::alloc::Global;

/// The least documents of all templates that go from a state to itself, from 0 to 1, from 1 to 2, and from 0 to 2.
pub struct Tables {
    pub stay: Table,
    pub first: Table,
    pub second: Table,
    pub whole: Table,
}

impl Drop for Tables {
    fn drop(self) {
        let Tables {
            stay: _,
            first: _,
            second: _,
            whole: _,
        } = self;
    }
}

impl Tables {
    /// They are lent to a walk.
    pub fn known(&self) -> Known<'_>
        ensures stay { result.stay.now ≡ self.now.stay }
        ensures first { result.first.now ≡ self.now.first }
        ensures second { result.second.now ≡ self.now.second }
        ensures whole { result.whole.now ≡ self.now.whole }
    {
        Known {
            stay: &self.stay,
            first: &self.first,
            second: &self.second,
            whole: &self.whole,
        }
    }
}

/// Those of them behind the first.
#[derive(Drop)]
struct Steps {
    first: Table,
    second: Table,
    whole: Table,
}

/// What is looked for in the documents of a page graph, and up to which state.
#[derive(Clone, Copy)]
pub struct Search<'a> {
    pub page: Page<'a>,
    pub aim: Aim<'a>,
    pub plain: &'a Table,
    pub goal: u32,
}

/// The tables that come before one.
#[derive(Clone, Copy)]
struct Earlier<'a> {
    stay: &'a Table,
    first: &'a Table,
    second: &'a Table,
}

/// Those from one state to another, or none where that is past the goal, by those that come before.
fn seek<'x>(
    alloc: Global,
    search: &'x Search<'x>,
    earlier: Earlier<'x>,
    low: u32,
    high: u32,
) -> Result<Table, Memory>
    requires few { (m : ℕ) → elements (template_at search.now.page.templates.now m) < 2 ^ 32 }
    requires cost { cost_of search.now.aim ≤ NONE }
    requires given { high ≤ search.now.goal → IsSought search.now.page search.now.aim search.now.plain.now earlier.stay.now earlier.first.now
        earlier.second.now low high }
    ensures { IfOk result (λ t. high ≤ search.now.goal → Solved (Has search.now.page search.now.aim low high) t) }
{
    if high > search.goal {
        return Ok(Table::new(alloc, 0, NONE)?);
    }
    let walk = Walk {
        page: search.page,
        aim: search.aim,
        plain: search.plain,
        known: Known {
            stay: earlier.stay,
            first: earlier.first,
            second: earlier.second,
            whole: earlier.stay,
        },
        low,
        high,
    };
    settle(alloc, &walk)
}

/// Those behind the first; `none` stands for each that isn't solved by then.
fn solve_steps<'x>(
    alloc: Global,
    search: &'x Search<'x>,
    stay: &'x Table,
    none: &'x Table,
) -> Result<Steps, Memory>
    requires search { IsSearch search.now }
    requires stay { Solved (Has search.now.page search.now.aim 0 0) stay.now }
    ensures first { IfOk result (λ t. 1 ≤ search.now.goal → Solved (Has search.now.page search.now.aim 0 1) t.first) }
    ensures second { IfOk result (λ t. 2 ≤ search.now.goal → Solved (Has search.now.page search.now.aim 1 2) t.second) }
    ensures whole { IfOk result (λ t. 2 ≤ search.now.goal → Solved (Has search.now.page search.now.aim 0 2) t.whole) }
{
    let earlier = Earlier {
        stay,
        first: none,
        second: none,
    };
    let first = seek(alloc, &*search, earlier, 0, 1)?;
    let Ok(second) = seek(alloc, &*search, earlier, 1, 2) else {
        drop(first);
        return Err(Memory);
    };
    let earlier = Earlier {
        stay,
        first: &first,
        second: &second,
    };
    match seek(alloc, &*search, earlier, 0, 2) {
        Ok(whole) => Ok(Steps {
            first,
            second,
            whole,
        }),
        Err(Memory) => {
            drop(first);
            drop(second);
            Err(Memory)
        }
    }
}

/// All of them; `none` stands for each that isn't solved by then.
fn solve_all<'x>(alloc: Global, search: &'x Search<'x>, none: &'x Table) -> Result<Tables, Memory>
    requires { IsSearch search.now }
    ensures { IfOk result (λ t. AreSolved search.now.page search.now.aim t search.now.goal) }
{
    let earlier = Earlier {
        stay: none,
        first: none,
        second: none,
    };
    let stay = seek(alloc, &*search, earlier, 0, 0)?;
    let Ok(steps) = solve_steps(alloc, &*search, &stay, &*none) else {
        drop(stay);
        return Err(Memory);
    };
    let Steps {
        first,
        second,
        whole,
    } = steps;
    Ok(Tables {
        stay,
        first,
        second,
        whole,
    })
}

/// All of them, up to the goal.
pub fn solve(
    alloc: Global,
    page: &Page,
    aim: &Aim,
    plain: &Table,
    goal: u32,
) -> Result<Tables, Memory>
    requires few { (m : ℕ) → elements (template_at page.now.templates.now m) < 2 ^ 32 }
    requires cost { cost_of aim.now ≤ NONE }
    requires goal { goal ≤ 2 }
    requires deep { (aim_of aim.now).deep ≡ true → goal ≤ 1 }
    requires plain { (aim_of aim.now).deep ≡ false → Solved (IsPlain page.now) plain.now }
    requires fair { IsFairAim page.now aim.now }
    ensures { IfOk result (λ t. AreSolved page.now aim.now t goal) }
{
    let none = Table::new(alloc, 0, NONE)?;
    let search = Search {
        page: *page,
        aim: *aim,
        plain: &*plain,
        goal,
    };
    let tables = solve_all(alloc, &search, &none);
    drop(none);
    tables
}

/// The least ones of all documents.
pub fn solve_plain(alloc: Global, page: &Page) -> Result<Table, Memory>
    requires few { (m : ℕ) → elements (template_at page.now.templates.now m) < 2 ^ 32 }
    ensures { IfOk result (Solved (IsPlain page.now)) }
{
    let none = Table::new(alloc, 0, NONE)?;
    let search = Search {
        page: *page,
        aim: Aim::Plain,
        plain: &none,
        goal: 0,
    };
    let earlier = Earlier {
        stay: &none,
        first: &none,
        second: &none,
    };
    let plain = seek(alloc, &search, earlier, 0, 0);
    drop(none);
    plain
}
