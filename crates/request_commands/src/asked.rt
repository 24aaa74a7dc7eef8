//! What a line asks for.

ghost use Rattle.std.specs.Prelude.{◌≡◌, option_map, position};
ghost use Rattle.plain_texts.specs.Lines.{is_space};
ghost use Rattle.journey.specs.Shapes.{at_space};
ghost use Rattle.request_commands.specs.Requests.{asked_on_line, command_named, windowed};

use command_words::read_window;
use memchr::memchr;

/// A command that a line may name.
#[derive(Clone, Copy, Debug, PartialEq, Eq)]
pub(crate) enum LineCommand {
    Answer,
    Few,
    Latest,
    /// The departures of a window of so many milliseconds.
    Profile { window: u32 },
    Certify,
    CertifyLatest,
}

/// The command that a line names, and the words for it.
#[tactic(auto, unfolding(crate::specs::Requests::asked_on_line))]
pub(crate) fn asked_by(line: &[u8]) -> Option<(LineCommand, &[u8])>
    ensures { option_map (λ it. (it.0, it.1.now)) result ≡ asked_on_line line.now }
{
    let (name, words) = at_space(line)?;
    if name == b"profile".as_slice() {
        return windowed(words);
    }
    let command = command_named(name)?;
    Some((command, words))
}

/// What stands before the first space of a text, and what stands behind it.
fn at_space(text: &[u8]) -> Option<(&[u8], &[u8])>
    ensures { option_map (λ it. (it.0.now, it.1.now)) result ≡ at_space text.now }
{
    let end = space_at(text)?;
    let (before, _) = text.split_at(end);
    let (_, behind) = text.split_at(end + 1);
    Some((before, behind))
}

/// Where the first space of a text stands.
fn space_at(text: &[u8]) -> Option<usize>
    ensures { result ≡ position is_space text.now }
{
    memchr(b' ', text)
}

/// The command of this name, of those that have nothing before their query line.
#[tactic(auto, unfolding(crate::specs::Requests::command_named))]
fn command_named(name: &[u8]) -> Option<LineCommand>
    ensures { result ≡ command_named name.now }
{
    if name == b"answer".as_slice() {
        Some(LineCommand::Answer)
    } else if name == b"few".as_slice() {
        Some(LineCommand::Few)
    } else if name == b"latest".as_slice() {
        Some(LineCommand::Latest)
    } else if name == b"certify".as_slice() {
        Some(LineCommand::Certify)
    } else if name == b"certify-latest".as_slice() {
        Some(LineCommand::CertifyLatest)
    } else {
        None
    }
}

/// The command `profile` with the window that words begin with, and the query line behind that.
fn windowed(words: &[u8]) -> Option<(LineCommand, &[u8])>
    ensures { option_map (λ it. (it.0, it.1.now)) result ≡ windowed words.now }
{
    let (length, line) = at_space(words)?;
    let window = read_window(length)?;
    Some((LineCommand::Profile { window }, line))
}
