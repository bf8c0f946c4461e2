//! What the nearest name is.
ghost use Rattle.bw_near.specs.Near.{NearestIsNear};

/// It is one of the names and near, and none of them is nearer; and where there is no such name, none is near.
pub fn nearest_is_near()
    ensures { NearestIsNear }
{}
