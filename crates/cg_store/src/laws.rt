//! Laws of images. They relate definitions of `specs/`, so the bodies are empty; the contracts of `Store` carry them over
//! to every store.
ghost use Rattle.cg_store.specs.Carried.{ImagesCarryCommands, ImagesCarryOnePair};

/// An image has at most one number of commands and one state.
pub fn images_carry_one_pair()
    ensures { ImagesCarryOnePair }
{}

/// The state of an image is one that lawful commands make, and its number is at most `COMMAND_NUMBER_MAX`.
pub fn images_carry_commands()
    ensures { ImagesCarryCommands }
{}
