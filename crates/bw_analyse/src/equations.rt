//! The system of a service: one cell for each point, with what is known of the locals there, and one for the shared
//! variables.
ghost use Rattle.std.specs.Prelude.{◌≡◌, ℕ, ◌+◌, ◌<◌, length, IfOk, [], slice_index_or, vec_len};
ghost use Rattle.bw_flow.specs.Layout.{flow_of};
ghost use Rattle.bw_analyse.specs.Readers.{readers_of};
ghost use Rattle.bw_analyse.specs.Rounds.{arrows_to};

use crate::arrows::{Arrows, arrows_of};
use crate::ground::Ground;
use crate::readers::{Readers, readers_of};
use crate::rounds::no_locals;
use crate::rows::Row;
use bw_lang::Memory;
use bw_solve::System;
use std::alloc::{AllocError, Global};

/// The system of a service: what it is read by, for each point the arrows to it, and for each cell those that look at it.
pub struct Equations<'a, 'b> {
    ground: &'b Ground<'a>,
    arrows: Vec<Arrows>,
    readers: Vec<Readers>,
    ghost arrows_len: { vec_len arrows ≡ length ground.now.points.now },
    ghost arrows_are: { (q : ℕ) → q < length ground.now.points.now →
        slice_index_or arrows.items q [] ≡ arrows_to q 0 (flow_of ground.now.typed.now.service) },
    ghost readers_len: { vec_len readers ≡ length ground.now.points.now + 1 },
    ghost readers_are: { (cell : ℕ) → cell < length ground.now.points.now + 1 →
        slice_index_or readers.items cell [] ≡ readers_of ground.now.typed.now.service cell },
}

impl<'a, 'b> Drop for Equations<'a, 'b> {
    fn drop(self) {
        let Equations {
            ground: _,
            arrows: _,
            readers: _,
        } = self;
    }
}

impl<'a, 'b> Equations<'a, 'b> {
    /// The system of a service.
    pub fn of(alloc: Global, ground: &'b Ground<'a>) -> Result<Equations<'a, 'b>, Memory>
        ensures { IfOk result (λ e. e.ground.now.typed.now.service ≡ ground.now.typed.now.service) }
    {
        let arrows = arrows_of(alloc, ground.points)?;
        let readers = readers_of(alloc, ground.points)?;
        Ok(Equations {
            ground,
            arrows,
            readers,
        })
    }
}

impl System for Equations<'_, '_> {
    type Value = Row;

    ghost use Rattle.bw_flow.specs.Layout.{flow_of};
    ghost use Rattle.bw_analyse.specs.Fits.{FitsCell, rank_bound};
    ghost use Rattle.bw_analyse.specs.Least.{rows};
    ghost use Rattle.bw_analyse.specs.Readers.{readers_of};
    ghost use Rattle.bw_analyse.specs.Rounds.{empty, round};
    ghost use Rattle.bw_analyse.specs.Lawful.TypedSystem.{typed_system};

    ghost cells = { λ s. rows s.ground.now.typed.now.service };

    ghost fits = { λ s cell v. FitsCell s.ground.now.typed.now.service cell v };

    ghost bound = { λ s cell. rank_bound s.ground.now.typed.now.service cell };

    ghost empty = { λ s. empty s.ground.now.typed.now.service (flow_of s.ground.now.typed.now.service) };

    ghost readers = { λ s. readers_of s.ground.now.typed.now.service };

    ghost transfer = { λ s. round s.ground.now.typed.now.service (flow_of s.ground.now.typed.now.service) };

    ghost laws = { λ s. typed_system s.ground.now.typed.now s.ground.now.few };

    fn cells(&self) -> usize {
        self.ground.points.len() + 1
    }

    fn empty(&self, alloc: Global, cell: usize) -> Result<Row, AllocError> {
        match self.ground.points.get(cell) {
            Some(point) => Ok(no_locals(alloc, point)?),
            None => Ok(self.ground.no_variables(alloc)?),
        }
    }

    fn readers(&self, cell: usize) -> &[usize] {
        self.readers[cell].as_slice()
    }

    fn transfer(&self, alloc: Global, cell: usize, values: &[Row]) -> Result<Row, AllocError> {
        match self.ground.points.get(cell) {
            Some(point) => {
                let arrows = self.arrows[cell].as_slice();
                Ok(self.ground.next_locals(alloc, arrows, point, values)?)
            }
            None => Ok(self.ground.next_variables(alloc, values)?),
        }
    }
}
