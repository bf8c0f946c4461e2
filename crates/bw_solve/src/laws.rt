//! Laws of sets and of least solutions. A law is the contract of an empty function.
ghost use Rattle.bw_solve.specs.Laws.{WithinByMembers, UnionByMembers, LeastIsClosed, LeastIsLowest};

use crate::system::System;

/// What sets do is told by their members alone.
pub fn sets_by_members<T: Ord>()
    ensures within { WithinByMembers T.cmp }
    ensures union { UnionByMembers T.cmp }
{}

/// In the least solution each cell is what its transfer gives, and no other values of which that holds lie lower.
pub fn least_is_lowest<S: System>(system: &S)
    ensures closed { LeastIsClosed S.Value.below (S.cells system.now) (S.fits system.now) (S.empty system.now)
        (S.transfer system.now) }
    ensures lowest { LeastIsLowest S.Value.below (S.cells system.now) (S.fits system.now) (S.empty system.now)
        (S.transfer system.now) }
{}
