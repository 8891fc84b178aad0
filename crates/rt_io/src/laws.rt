//! What is known of readings of files, as the contract of a function.

ghost use Rattle.std.specs.Prelude.{List};
ghost use Rattle.rt_io.specs.Gave.{AllFit, AreApart, Reading, contents_in};

/// Where no name is read twice, some contents fit: for each name the bytes that its reading gave.
pub fn given_fits()
    ensures { (readings : List Reading) → AreApart readings → AllFit (contents_in readings) readings }
{}
