//! The letters of trips, by their names.

ghost use Rattle.std.specs.Prelude.{◌≡◌, position};
ghost use Rattle.std.specs.Str.{bytes_eq};
ghost use Rattle.region_file.specs.Letters.{letter_at, letter_name};

/// The letter that the first of the names is of.
const FIRST: u8 = 3;

/// The names of the letters that trips have, in the order of their numbers.
const NAMES: [&[u8]; 11] = [
    b"tram",
    b"metro",
    b"rail",
    b"bus",
    b"ferry",
    b"cable",
    b"lift",
    b"funicular",
    b"trolley",
    b"monorail",
    b"other",
];

/// The place of a name among these.
fn place_among(names: &[&[u8]], name: &[u8]) -> Option<usize>
    ensures { result ≡ position (λ known. bytes_eq known.now name.now) names.now }
{
    names.iter().position(|known| *known == name)
}

/// The letter of a means of transport that runs by a timetable, 3 for tram to 13 for other, by its name.
#[tactic(auto, unfolding(crate::specs::Letters::letter_at))]
pub fn letter_of(name: &[u8]) -> Option<u8>
    ensures { result ≡ letter_at name.now }
{
    let place = place_among(&NAMES, name)?;
    Some(FIRST + place as u8)
}

/// The name of a letter; empty where the letter is none of a means of transport that runs by a timetable.
pub fn letter_name(letter: u8) -> &'static [u8]
    ensures { result.now ≡ letter_name letter }
{
    let place = letter.saturating_sub(FIRST) as usize;
    if place < NAMES.len() {
        NAMES[place]
    } else {
        b""
    }
}
