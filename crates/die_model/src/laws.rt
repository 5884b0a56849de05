//! Laws of the definitions, for the crate above: each is the contract of a function that does nothing.
ghost use Rattle.die_model.specs.Standing.{DiesGoOn, DiesShow};
ghost use Rattle.die_model.specs.Loading.{ImagesRestore};

/// A die that stands for its LUN goes on standing for it, where each permitted item is worked on it.
pub fn dies_go_on()
    ensures { DiesGoOn }
{}

/// A die that stands for its LUN shows what the LUN shows; a new die stands for its LUN at the opening.
pub fn dies_show()
    ensures { DiesShow }
{}

/// What an image restores of a die is what a new die of the same geometry has when it is loaded.
pub fn images_restore()
    ensures { ImagesRestore }
{}
