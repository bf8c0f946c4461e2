//! What all is read by: a service with its literals, the summaries of its templates, and the points of its flow.
ghost use Rattle.std.specs.Prelude.{◌≡◌, ◌<◌, ◌^◌, [], map, length, slice_index_or};
ghost use Rattle.std.specs.Coded.{Coded-set, codes};
ghost use Rattle.bw_lang.specs.Encoding.TermEncoding.{encoded_term};
ghost use Rattle.bw_flow.specs.View.{seen};
ghost use Rattle.bw_strings.specs.Literals.{literals_of};
ghost use Rattle.bw_flow.specs.Layout.{flow_of};
ghost use Rattle.bw_analyse.specs.Constants.{first_constants};

use crate::known::Scene;
use crate::rows::{Row, row_of};
use bw_flow::Point;
use bw_strings::Literals;
use bw_sum::Summary;
use bw_types::Typed;

/// A service with its literals, the summaries of its templates as they stand, and the points of its flow.
#[derive(Drop)]
pub struct Ground<'a> {
    pub typed: &'a Typed,
    pub literals: &'a Literals,
    pub constants: &'a [Summary],
    pub points: &'a [Point],
    pub ghost literals_are: { literals.now ≡ literals_of typed.now.service },
    pub ghost constants_are: { constants.now ≡ first_constants typed.now.service (length typed.now.service.templates) },
    pub ghost points_are: { map seen points.now ≡ flow_of typed.now.service } by { Coded-set (Prim.hlevel (codes, encoded_term)) _ _ },
    pub ghost few: { length (literals_of typed.now.service) < 2 ^ 32 },
}

impl<'a> Ground<'a> {
    /// What an expression at the point at a place sees, where these rows tell what is known of the locals there and, behind
    /// all points, of the shared variables.
    pub fn scene<'b, 'c>(
        &'b self,
        place: usize,
        point: &'a Point,
        rows: &'c [Row],
    ) -> Scene<'a, 'b, 'c>
        ensures service { result.ground.now.typed.now.service ≡ self.now.typed.now.service }
        ensures scope { result.scope.now ≡ point.now.scope }
        ensures locals { result.locals.now ≡ slice_index_or rows.now place [] }
        ensures shared { result.shared.now ≡ slice_index_or rows.now (length (flow_of self.now.typed.now.service)) [] }
    {
        Scene {
            ground: self,
            scope: &point.scope,
            locals: row_of(rows, place),
            shared: row_of(rows, self.points.len()),
        }
    }
}
