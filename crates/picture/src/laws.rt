//! Laws of pictures. Each is a function without a body whose contract is what is proved.
ghost use Rattle.run_reading.specs.Runs.{RunText};
ghost use Rattle.svg.specs.Markup.{IsWellFormed};
ghost use Rattle.picture.specs.Pictures.{picture_text};

/// The picture of any run is well-formed: each element that is opened is closed.
pub fn pictures_are_well_formed()
    ensures { (run : RunText) → IsWellFormed (picture_text run) }
{}
