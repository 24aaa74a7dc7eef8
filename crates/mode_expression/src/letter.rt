ghost use Rattle.std.specs.Prelude.{◌≡◌, Some, slice_get, option_map};
ghost use Rattle.plan_base.specs.LetterNames.{letter_names};
ghost use Rattle.mode_expression.specs.Letters.{letter_named, letter_numbered, number_of};

use search_laws::LETTERS;

/// A means of transport, by the number under which words and sets of letters hold it.
#[derive(Debug, Clone, Copy, PartialEq, Eq)]
pub enum Letter {
    Foot,
    Bike,
    Car,
    Tram,
    Metro,
    Rail,
    Bus,
    Ferry,
    Cable,
    Lift,
    Funicular,
    Trolley,
    Monorail,
    Other,
}

impl Letter {
    /// The letter with this number, from 0 to 13.
    pub fn from_number(number: u8) -> Option<Letter>
        ensures { result ≡ letter_numbered number }
    {
        match number {
            0 => Some(Letter::Foot),
            1 => Some(Letter::Bike),
            2 => Some(Letter::Car),
            3 => Some(Letter::Tram),
            4 => Some(Letter::Metro),
            5 => Some(Letter::Rail),
            6 => Some(Letter::Bus),
            7 => Some(Letter::Ferry),
            8 => Some(Letter::Cable),
            9 => Some(Letter::Lift),
            10 => Some(Letter::Funicular),
            11 => Some(Letter::Trolley),
            12 => Some(Letter::Monorail),
            13 => Some(Letter::Other),
            _ => None,
        }
    }

    /// The letter's number.
    pub fn number(self) -> u8
        ensures { result ≡ number_of self }
    {
        self as u8
    }

    /// The letter's name in expressions and in the words of journeys.
    pub fn name(self) -> &'static str
        ensures { slice_get letter_names (number_of self) ≡ Some result.now }
    {
        match self {
            Letter::Foot => "foot",
            Letter::Bike => "bike",
            Letter::Car => "car",
            Letter::Tram => "tram",
            Letter::Metro => "metro",
            Letter::Rail => "rail",
            Letter::Bus => "bus",
            Letter::Ferry => "ferry",
            Letter::Cable => "cable",
            Letter::Lift => "lift",
            Letter::Funicular => "funicular",
            Letter::Trolley => "trolley",
            Letter::Monorail => "monorail",
            Letter::Other => "other",
        }
    }

    /// The letter with this name.
    pub(crate) fn from_name(name: &[u8]) -> Option<Letter>
        ensures { option_map number_of result ≡ letter_named name.now }
    {
        for number in 0..LETTERS as u8 {
            if let Some(letter) = Letter::from_number(number) {
                if letter.name().as_bytes() == name {
                    return Some(letter);
                }
            }
        }
        None
    }
}
