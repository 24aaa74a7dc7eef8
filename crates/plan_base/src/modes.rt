//! The modes of roads.

ghost use Rattle.std.specs.Prelude.{◌≡◌, Some, slice_get};
ghost use Rattle.plan_base.specs.LetterNames.{letter_names};
ghost use Rattle.plan_base.specs.Modes.{mode_named, number_of_mode};

/// A means of transport that has road arcs of its own. Its number is that of its letter.
#[derive(Clone, Copy, Debug, PartialEq, Eq)]
pub enum Mode {
    Foot,
    Bike,
    Car,
}

impl Mode {
    /// The mode's number, from 0 to 2.
    pub fn number(self) -> u8
        ensures { result ≡ number_of_mode self }
    {
        self as u8
    }

    /// The name of the mode's letter.
    pub fn name(self) -> &'static str
        ensures { slice_get letter_names (number_of_mode self) ≡ Some result.now }
    {
        match self {
            Mode::Foot => "foot",
            Mode::Bike => "bike",
            Mode::Car => "car",
        }
    }

    /// The mode with this name.
    pub fn from_name(name: &[u8]) -> Option<Mode>
        ensures { result ≡ mode_named name.now }
    {
        if Mode::Foot.name().as_bytes() == name {
            Some(Mode::Foot)
        } else if Mode::Bike.name().as_bytes() == name {
            Some(Mode::Bike)
        } else if Mode::Car.name().as_bytes() == name {
            Some(Mode::Car)
        } else {
            None
        }
    }
}
