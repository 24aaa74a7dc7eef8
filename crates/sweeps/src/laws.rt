//! Laws of sheets.

ghost use Rattle.sweeps.specs.Layers.{SheetsAreWhole};

/// In a sound hierarchy the sheet of a layer that is contracted whole has a way up and down for each walk.
pub fn sheets_are_whole()
    ensures { SheetsAreWhole }
{}
