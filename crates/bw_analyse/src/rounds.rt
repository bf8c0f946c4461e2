//! One round: what cells hold, from what they held before.
ghost use Rattle.std.specs.Prelude.{◌≡◌, ℕ, ◌<◌, length, IfOk, map, [], slice_get, slice_index_or, Some};
ghost use Rattle.bw_flow.specs.Steps.{Step};
ghost use Rattle.bw_analyse.specs.Abstracts.{both, least_of};
ghost use Rattle.bw_analyse.specs.Known.{of_literal};
ghost use Rattle.bw_flow.specs.Layout.{flow_of};
ghost use Rattle.bw_analyse.specs.Rounds.{next_local, next_shared, left_at, added_by, join_some};

use crate::abstracts::Abstract;
use crate::arrows::Arrow;
use crate::ground::Ground;
use crate::rows::Row;
use bw_flow::{Local, Point};
use bw_lang::{Literal, Memory, Name, Shared};
use std::alloc::Global;

/// The join with what there is.
fn join_some(alloc: Global, value: Option<Abstract>, rest: Abstract) -> Result<Abstract, Memory>
    ensures { IfOk result (λ a. a ≡ join_some value rest) }
{
    match value {
        Some(value) => value.join(alloc, &rest),
        None => Ok(rest),
    }
}

impl Ground<'_> {
    /// What the point from which an arrow comes leaves in the local of that name, if it leaves something.
    fn left_at(
        &self,
        alloc: Global,
        arrow: Arrow,
        name: &Name,
        rows: &[Row],
    ) -> Result<Option<Abstract>, Memory>
        ensures { IfOk result (λ o. o ≡ left_at self.now.typed.now.service (flow_of self.now.typed.now.service) (λ c. slice_index_or rows.now c [])
            name.now arrow (slice_get (flow_of self.now.typed.now.service) arrow.from)) }
    {
        match self.points.get(arrow.from) {
            Some(point) => {
                let scene = self.scene(arrow.from, point, rows);
                scene.left(alloc, &point.what, arrow.is_first, name)
            }
            None => Ok(None),
        }
    }

    /// The join with what the point from which an arrow comes leaves in the local of that name.
    fn with_left(
        &self,
        alloc: Global,
        arrow: Arrow,
        name: &Name,
        rows: &[Row],
        rest: Abstract,
    ) -> Result<Abstract, Memory>
        ensures { IfOk result (λ a. a ≡ join_some (left_at self.now.typed.now.service (flow_of self.now.typed.now.service)
            (λ c. slice_index_or rows.now c []) name.now arrow (slice_get (flow_of self.now.typed.now.service) arrow.from)) rest) }
    {
        let left = self.left_at(alloc, arrow, name, rows)?;
        join_some(alloc, left, rest)
    }

    /// What is known of a local in the next round, at a point to which these arrows lead.
    fn next_local(
        &self,
        alloc: Global,
        arrows: &[Arrow],
        local: &Local,
        rows: &[Row],
    ) -> Result<Abstract, Memory>
        ensures { IfOk result (λ a. a ≡ next_local self.now.typed.now.service (flow_of self.now.typed.now.service)
            (λ c. slice_index_or rows.now c []) arrows.now local.now) }
    {
        let mut all = Abstract::least(alloc, local.kind);
        for i in (0..arrows.len()).rev() {
            all = self.with_left(alloc, arrows[i], &local.name, rows, all)?;
        }
        Ok(all)
    }

    /// The row of a point in the next round.
    pub fn next_locals(
        &self,
        alloc: Global,
        arrows: &[Arrow],
        point: &Point,
        rows: &[Row],
    ) -> Result<Row, Memory>
        ensures { IfOk result (λ r. r ≡ map (next_local self.now.typed.now.service (flow_of self.now.typed.now.service)
            (λ c. slice_index_or rows.now c []) arrows.now) point.now.scope) }
    {
        let mut row = Row::new(alloc);
        for local in point.scope.as_slice() {
            row.push(self.next_local(alloc, arrows, local, rows)?)?;
        }
        Ok(row)
    }

    /// What is known of a literal.
    fn literal(&self, alloc: Global, literal: &Literal) -> Result<Abstract, Memory>
        ensures { IfOk result (λ a. a ≡ of_literal self.now.typed.now.service literal.now) }
    {
        match literal {
            Literal::Int(_) | Literal::Bool(_) => Ok(Abstract::Nothing),
            Literal::Str(text) => self.string(alloc, text),
            Literal::Tmpl(name) => self.template(alloc, name),
        }
    }

    /// The join with what the point at a place adds to the shared variable of that name.
    fn with_added(
        &self,
        alloc: Global,
        place: usize,
        name: &Name,
        rows: &[Row],
        rest: Abstract,
    ) -> Result<Abstract, Memory>
        requires { place < length self.now.points.now }
        ensures { (x : Step) → slice_get (flow_of self.now.typed.now.service) place ≡ Some x → IfOk result (λ a. a ≡
            join_some (added_by self.now.typed.now.service x.scope (slice_index_or rows.now place [])
            (slice_index_or rows.now (length (flow_of self.now.typed.now.service)) []) name.now x.act) rest) }
    {
        let point = &self.points[place];
        let scene = self.scene(place, point, rows);
        let added = scene.added(alloc, &point.what, name)?;
        join_some(alloc, added, rest)
    }

    /// What is known of a shared variable before anything is requested: its literal.
    fn first(&self, alloc: Global, variable: &Shared) -> Result<Abstract, Memory>
        ensures { IfOk result (λ a. a ≡ both (of_literal self.now.typed.now.service variable.now.init) (least_of variable.now.kind)) }
    {
        let literal = self.literal(alloc, &variable.init)?;
        let least = Abstract::least(alloc, variable.kind);
        let first = literal.join(alloc, &least);
        drop(literal);
        drop(least);
        first
    }

    /// What is known of a shared variable in the next round.
    fn next_shared(
        &self,
        alloc: Global,
        variable: &Shared,
        rows: &[Row],
    ) -> Result<Abstract, Memory>
        ensures { IfOk result (λ a. a ≡ next_shared self.now.typed.now.service (flow_of self.now.typed.now.service)
            (λ c. slice_index_or rows.now c []) variable.now) }
    {
        let mut all = self.first(alloc, variable)?;
        for place in (0..self.points.len()).rev() {
            all = self.with_added(alloc, place, &variable.name, rows, all)?;
        }
        Ok(all)
    }

    /// The row of the shared variables in the next round.
    pub fn next_variables(&self, alloc: Global, rows: &[Row]) -> Result<Row, Memory>
        ensures { IfOk result (λ r. r ≡ map (next_shared self.now.typed.now.service (flow_of self.now.typed.now.service)
            (λ c. slice_index_or rows.now c [])) self.now.typed.now.service.shared) }
    {
        let mut row = Row::new(alloc);
        for variable in self.typed.service().shared.as_slice() {
            row.push(self.next_shared(alloc, variable, rows)?)?;
        }
        Ok(row)
    }

    /// The empty row of the shared variables.
    pub fn no_variables(&self, alloc: Global) -> Result<Row, Memory>
        ensures { IfOk result (λ r. r ≡ map (λ v. least_of v.kind) self.now.typed.now.service.shared) }
    {
        let mut row = Row::new(alloc);
        for variable in self.typed.service().shared.as_slice() {
            row.push(Abstract::least(alloc, variable.kind))?;
        }
        Ok(row)
    }
}

/// The empty row of a point.
pub fn no_locals(alloc: Global, point: &Point) -> Result<Row, Memory>
    ensures { IfOk result (λ r. r ≡ map (λ l. least_of l.kind) point.now.scope) }
{
    let mut row = Row::new(alloc);
    for local in point.scope.as_slice() {
        row.push(Abstract::least(alloc, local.kind))?;
    }
    Ok(row)
}
