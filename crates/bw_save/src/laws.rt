//! Laws of saving, and of frozen worlds. A law is the contract of an empty function.
ghost use Rattle.bw_save.specs.Thawed.{ThawedIsTheSame};
ghost use Rattle.bw_save.specs.Saves.{SavedMayBeWritten};

/// What may be saved meets what `save` asks of it.
pub fn saved_may_be_written()
    ensures { SavedMayBeWritten }
{}

/// What is thawed from the file of a world is this world again.
pub fn thawed_is_the_same()
    ensures { ThawedIsTheSame }
{}
