//! Flows.
ghost use Rattle.std.specs.Prelude.{◌≡◌, None, Some, MatchOption, slice_get, position, map};
ghost use Rattle.bw_flow.specs.Flows.{is_statement, is_join};
ghost use Rattle.bw_flow.specs.View.{seen, act};

use crate::point::{Point, PointId, What};
use bw_lang::SessionId;
use std::marker::Model;

/// The points of a service, and for each session, in source order, the place of its first point.
pub struct Flow {
    points: Vec<Point>,
    firsts: Vec<PointId>,
}

impl Drop for Flow {
    fn drop(self) {
        let Flow {
            points: _,
            firsts: _,
        } = self;
    }
}

impl Model for Flow {
    ghost use Rattle.bw_flow.specs.Steps.{Plan};

    ghost Value = { Plan };

    ghost use Rattle.std.specs.Coded.{codes};
    ghost use Rattle.bw_lang.specs.Encoding.TermEncoding.{encoded_term};

    ghost coded = { Prim.hlevel (codes, encoded_term) };

    ghost use Rattle.std.specs.Prelude.{map};
    ghost use Rattle.bw_flow.specs.View.{seen};

    ghost view = { λ f. record { steps = map seen f.points.items; firsts = f.firsts.items } };
}

impl What {
    fn is_join(&self) -> bool
        ensures { result ≡ is_join (act self.now) }
    {
        matches!(self, What::Join)
    }
}

impl Point {
    /// Whether it is the point of the statement of that number.
    fn is_statement(&self, number: u32) -> bool
        ensures { result ≡ is_statement number (seen self.now) }
    {
        self.number == number && !self.what.is_join()
    }
}

impl Flow {
    /// The flow of these points, in which sessions begin at these places.
    pub fn of(points: Vec<Point>, firsts: Vec<PointId>) -> Flow
        ensures { result ≡ record { steps = map seen points.items; firsts = firsts.items } }
    {
        Flow { points, firsts }
    }

    /// The points, in the order of their places.
    pub fn points(&self) -> &[Point]
        ensures { map seen result.now ≡ self.now.steps }
    {
        self.points.as_slice()
    }

    /// The point at this place. None comes exactly where the flow has no such place.
    pub fn point(&self, id: PointId) -> Option<&Point>
        ensures { MatchOption result (slice_get self.now.steps id ≡ None) (λ p. slice_get self.now.steps id ≡ Some (seen p.now)) }
    {
        self.points.get(id.place())
    }

    /// The place of the point of the statement of this number, never of a join. None comes exactly where no statement has
    /// the number.
    pub fn find(&self, number: u32) -> Option<PointId>
        ensures { result ≡ position (is_statement number) self.now.steps }
    {
        let place = place_of(self.points.as_slice(), number)?;
        Some(PointId::of(place))
    }

    /// The place of the first point of this session. None comes exactly where the service has no such session.
    pub fn first(&self, session: SessionId) -> Option<PointId>
        ensures { result ≡ slice_get self.now.firsts session }
    {
        match self.firsts.get(session.number() as usize) {
            Some(first) => Some(*first),
            None => None,
        }
    }
}

/// The place of the point of the statement of that number.
fn place_of(points: &[Point], number: u32) -> Option<usize>
    ensures { result ≡ position (λ p. is_statement number (seen p)) points.now }
{
    points.iter().position(|point| point.is_statement(number))
}
