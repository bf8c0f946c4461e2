//! Laws of sessions that wait. A law is the contract of an empty function.
ghost use Rattle.bw_waiting.specs.Worlds.{KindsStay, NumbersStay, WaitingFits};

/// Sessions of a well typed service wait with values of the kinds of their variables, and each request keeps it so.
pub fn sessions_wait_fit()
    ensures stay { KindsStay }
    ensures waiting { WaitingFits }
{}

/// The numbers, keys and turns of live sessions are those of paths, and each request keeps it so whose key has 64 bits.
pub fn numbers_fit()
    ensures { NumbersStay }
{}
