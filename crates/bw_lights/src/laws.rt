//! Laws of lights. A law is the contract of an empty function.
ghost use Rattle.bw_lights.specs.Laws.{OneLights, SomeLights};

/// Lines have lights by the formats that a file gives, and they have them in one way.
pub fn some_lights()
    ensures some { SomeLights }
    ensures one { OneLights }
{}
