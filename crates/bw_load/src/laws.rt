//! Laws of loading. A law is the contract of an empty function.
ghost use Rattle.bw_load.specs.Kept.{SessionsAreFit, SharedAreFit};
ghost use Rattle.bw_load.specs.Loaded.{LoadedIsSound, SavedIsLoaded};
ghost use Rattle.bw_load.specs.SumLaws.{TypedIsLawful, SumsCover, BelowCovers};

/// A document that is built is one of those that its summary stands for. So a value is covered by each cell of its kind
/// that what is known of it is below.
pub fn sums_cover()
    ensures lawful { TypedIsLawful }
    ensures sums { SumsCover }
    ensures values { BelowCovers }
{}

/// Where no cell refuses what may be saved, it is a sound world: all that requests reach from it is covered by the facts of
/// the check.
pub fn loaded_is_sound()
    ensures { LoadedIsSound }
{}

/// What may be saved is fit for a world: each session waits at a show of its own, with a frame that is fit, and the shared
/// variables are fit.
pub fn saved_is_fit()
    ensures sessions { SessionsAreFit }
    ensures shared { SharedAreFit }
{}

/// What may be saved is loaded again from its file, whatever else the text of the service is: the same content, or that a
/// value of it isn't below its cell.
pub fn saved_is_loaded()
    ensures { SavedIsLoaded }
{}
