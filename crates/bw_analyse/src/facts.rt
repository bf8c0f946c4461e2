//! The facts of a service.
ghost use Rattle.std.specs.Prelude.{◌≡◌, [], slice_index_or, IfOk, MatchOption, None, Some, map, length};
ghost use Rattle.bw_flow.specs.View.{act};
ghost use Rattle.bw_lang.specs.Service.TermView.{term};
ghost use Rattle.bw_analyse.specs.Facts as spec;
ghost use Rattle.bw_analyse.specs.Facts.{AreFacts, local_fact, shared_fact, shown_fact, summary_at, page_of, pages_of};
ghost use Rattle.bw_analyse.specs.Known.{look, of_local};
ghost use Rattle.bw_analyse.specs.Solutions.{IsSolution};

use crate::abstracts::Abstract;
use crate::ground::Ground;
use crate::known::Scene;
use crate::rows::{Row, row_of};
use bw_flow::{Point, PointId, Scope, What};
use bw_lang::{Expr, Memory, Name, Service};
use bw_solve::Solution;
use bw_sum::Summary;
use std::alloc::Global;

/// The facts of a service: the least solution of its system. For each point they tell what is known of each local in
/// scope there, for each shared variable what is known of it at all points, and for each show and exit a summary of the
/// documents of its page.
pub struct Facts {
    scopes: Vec<Scope>,
    variables: Vec<Name>,
    rows: Solution<Row>,
    pages: Vec<Option<Summary>>,
    title: u32,
}

impl Drop for Facts {
    fn drop(self) {
        let Facts {
            scopes: _,
            variables: _,
            rows: _,
            pages: _,
            title: _,
        } = self;
    }
}

impl Facts {
    /// What is known of the local of that name in front of the point. None comes exactly where the point has no such local
    /// in scope, or where there is no such point.
    pub fn local(&self, point: PointId, name: &str) -> Option<&Abstract>
        ensures { MatchOption result (local_fact self.now point name.now ≡ None) (λ a. local_fact self.now point name.now ≡ Some a.now) }
    {
        let row = self.row(point.place());
        match self.scopes.get(point.place()) {
            Some(scope) => found_local(scope, row, name),
            None => None,
        }
    }

    /// What is known of the shared variable of that name at all points. None comes exactly where the service has no such
    /// shared variable.
    pub fn shared(&self, name: &str) -> Option<&Abstract>
        ensures { MatchOption result (shared_fact self.now name.now ≡ None) (λ a. shared_fact self.now name.now ≡ Some a.now) }
    {
        let row = self.row(self.scopes.len());
        for (place, variable) in self.variables.iter().enumerate() {
            if name == variable.as_str() {
                return row.get(place);
            }
        }
        None
    }

    /// The summary of the documents of the page of this show or exit. None comes exactly where the point is neither, or
    /// where there is no such point.
    pub fn shown(&self, point: PointId) -> Option<&Summary>
        ensures { MatchOption result (shown_fact self.now point ≡ None) (λ s. shown_fact self.now point ≡ Some s.now) }
    {
        match self.pages.get(point.place()) {
            Some(Some(summary)) => Some(summary),
            _ => None,
        }
    }

    /// The number of the service's name among the service's literals.
    pub(crate) fn title(&self) -> u32
        ensures { result ≡ self.now.title }
    {
        self.title
    }

    /// What is known of the locals in scope in front of a point.
    pub(crate) fn row(&self, place: usize) -> &[Abstract]
        ensures { result.now ≡ spec.rows_of self.now place }
    {
        row_of(self.rows.as_slice(), place)
    }

    /// The rows of all points, and behind them that of the shared variables.
    pub(crate) fn rows(&self) -> &[Row]
        ensures { result.now ≡ self.now.rows }
    {
        self.rows.as_slice()
    }

    /// The facts of a service with this least solution.
    pub(crate) fn of(
        alloc: Global,
        ground: &Ground<'_>,
        solution: Solution<Row>,
    ) -> Result<Facts, Memory>
        requires { IsSolution ground.now.typed.now.service solution }
        ensures { IfOk result (AreFacts ground.now.typed.now.service) }
    {
        let scopes = scopes_of(alloc, ground.points)?;
        let variables = variables_of(alloc, ground.typed.service())?;
        let pages = pages_of(alloc, ground, solution.as_slice())?;
        let title = ground.literals.number(ground.typed.service().name.as_str());
        Ok(Facts {
            scopes,
            variables,
            rows: solution,
            pages,
            title,
        })
    }
}

/// What a row tells of the local of that name, where these are the locals in scope.
fn found_local<'a>(scope: &Scope, row: &'a [Abstract], name: &str) -> Option<&'a Abstract>
    ensures { MatchOption result (of_local scope.now row.now name.now ≡ None) (λ a. of_local scope.now row.now name.now ≡ Some a.now) }
{
    for (place, local) in scope.as_slice().iter().enumerate() {
        if name == local.name.as_str() {
            return row.get(place);
        }
    }
    None
}

/// The locals in scope in front of each point.
fn scopes_of(alloc: Global, points: &[Point]) -> Result<Vec<Scope>, Memory>
    ensures { IfOk result (λ v. v.items ≡ map (λ p. p.scope) points.now) }
{
    let mut scopes = Vec::new(alloc);
    for point in points {
        scopes.push(point.scope.copy()?)?;
    }
    Ok(scopes)
}

/// The names of the shared variables.
fn variables_of(alloc: Global, service: &Service) -> Result<Vec<Name>, Memory>
    ensures { IfOk result (λ v. v.items ≡ map (λ x. x.name) service.now.shared) }
{
    let mut names = Vec::new(alloc);
    for variable in service.shared.as_slice() {
        names.push(variable.name.copy()?)?;
    }
    Ok(names)
}

/// The document that a point shows or ends with.
fn page_of(what: &What) -> Option<&Expr>
    ensures { MatchOption result (page_of (act what.now) ≡ None) (λ e. page_of (act what.now) ≡ Some (term e.now)) }
{
    match what {
        What::Show { page, .. } | What::Exit { page } => Some(page),
        What::Assign { .. } | What::Test { .. } | What::Each { .. } | What::Join => None,
    }
}

impl Scene<'_, '_, '_> {
    /// The summary of the page of a point that does this, if it has a page.
    fn summary(&self, alloc: Global, what: &What) -> Result<Option<Summary>, Memory>
        ensures { IfOk result (λ o. o ≡ summary_at self.now.ground.now.typed.now.service
            (look self.now.ground.now.typed.now.service self.now.scope.now self.now.locals.now self.now.shared.now) (page_of (act what.now))) }
    {
        match page_of(what) {
            Some(page) => Ok(Some(self.known(alloc, page)?.into_summary(alloc))),
            None => Ok(None),
        }
    }
}

/// The summaries of the pages of all points.
fn pages_of(
    alloc: Global,
    ground: &Ground<'_>,
    rows: &[Row],
) -> Result<Vec<Option<Summary>>, Memory>
    ensures { IfOk result (λ v. v.items ≡ pages_of ground.now.typed.now.service (λ p. slice_index_or rows.now p [])) }
{
    let mut pages = Vec::new(alloc);
    for (place, point) in ground.points.iter().enumerate() {
        let scene = ground.scene(place, point, rows);
        pages.push(scene.summary(alloc, &point.what)?)?;
    }
    Ok(pages)
}
