//! What the words of a command line ask for.

ghost use Rattle.std.specs.Prelude.{◌≡◌, map, option_and_then, option_map, string_bytes};
ghost use Rattle.std.specs.List.{list_all};
ghost use Rattle.journey_book.specs.Given.{given_view};
ghost use Rattle.journey_book.specs.Requests.{begins_name, drop_by, is_book_name, is_book_name_byte, is_letter_or_digit, keep_by, list_by, report_by, request_by, request_in_words, book_request_of, show_by};

use crate::given::{GivenWords, Plain, read_given};

/// What a command line asks for. Files are named by their paths.
#[derive(Clone, Copy)]
pub enum BookCommand<'a> {
    /// Keeps a certificate under a name, if it is valid in the region, over the hierarchy, if one is named.
    Keep(Keeping<'a>),
    /// Removes a name.
    Drop { name: &'a str },
    /// All names.
    List,
    /// What is kept under a name.
    Show { name: &'a str },
    /// A report on what is kept, by a region, and over the hierarchy, if one is named; and whether it is to fail where a line of
    /// it is not well.
    Report(ReportAsked<'a>),
}

/// What is to be kept: the certificate of a file, under a name, where it is valid in the region of a file, over the
/// hierarchy of another, if one is named.
#[derive(Clone, Copy)]
pub struct Keeping<'a> {
    pub name: &'a str,
    pub region: &'a str,
    pub certificate: &'a str,
    pub hierarchy: Option<&'a str>,
}

/// A report that is asked for.
#[derive(Clone, Copy)]
pub struct ReportAsked<'a> {
    pub kind: ReportKind,
    pub region: &'a str,
    pub hierarchy: Option<&'a str>,
    pub fail: bool,
}

/// What a report says of each certificate that is kept.
#[derive(Clone, Copy)]
pub enum ReportKind {
    /// Whether it holds in the region.
    Recheck,
    /// What the region does to its journey.
    Review,
}

/// The command that the words ask for: the program's name, the book's, the command's, and what it works on. None exactly where they
/// ask for nothing.
pub fn read_words(words: &[String]) -> Option<BookCommand<'_>>
    ensures { option_map book_request_of result ≡ request_in_words (map string_bytes words.now) }
{
    match words {
        [_, _, command, behind @ ..] => named_behind(command.as_str(), read_given(behind)),
        _ => None,
    }
}

/// The command of this name, if the words behind it are those of any.
fn named_behind<'a>(command: &str, given: Option<GivenWords<'a>>) -> Option<BookCommand<'a>>
    ensures { option_map book_request_of result
        ≡ option_and_then (request_by command.now) (option_map given_view given.entry) }
{
    named(command, given?)
}

/// The command of this name, behind which this stands.
fn named<'a>(command: &str, given: GivenWords<'a>) -> Option<BookCommand<'a>>
    ensures { option_map book_request_of result ≡ request_by command.now (given_view given.entry) }
{
    match command {
        "keep" => keep(given),
        "drop" => drop_name(given),
        "list" => list(given),
        "show" => show(given),
        "recheck" => report(ReportKind::Recheck, given),
        "review" => report(ReportKind::Review, given),
        _ => None,
    }
}

fn keep(given: GivenWords<'_>) -> Option<BookCommand<'_>>
    ensures { option_map book_request_of result
        ≡ keep_by (given_view given.entry).words (given_view given.entry).hierarchy given.entry.fail }
{
    if given.fail {
        return None;
    }
    match given.plain {
        Plain::Three(name, region, certificate) => {
            if is_name(name.as_bytes()) {
                Some(BookCommand::Keep(Keeping {
                    name,
                    region,
                    certificate,
                    hierarchy: given.hierarchy,
                }))
            } else {
                None
            }
        }
        _ => None,
    }
}

fn drop_name(given: GivenWords<'_>) -> Option<BookCommand<'_>>
    ensures { option_map book_request_of result
        ≡ drop_by (given_view given.entry).words (given_view given.entry).hierarchy given.entry.fail }
{
    if given.fail || given.hierarchy.is_some() {
        return None;
    }
    match given.plain {
        Plain::One(name) => {
            if is_name(name.as_bytes()) {
                Some(BookCommand::Drop { name })
            } else {
                None
            }
        }
        _ => None,
    }
}

fn list(given: GivenWords<'_>) -> Option<BookCommand<'_>>
    ensures { option_map book_request_of result
        ≡ list_by (given_view given.entry).words (given_view given.entry).hierarchy given.entry.fail }
{
    if given.fail || given.hierarchy.is_some() {
        return None;
    }
    match given.plain {
        Plain::No => Some(BookCommand::List),
        _ => None,
    }
}

fn show(given: GivenWords<'_>) -> Option<BookCommand<'_>>
    ensures { option_map book_request_of result
        ≡ show_by (given_view given.entry).words (given_view given.entry).hierarchy given.entry.fail }
{
    if given.fail || given.hierarchy.is_some() {
        return None;
    }
    match given.plain {
        Plain::One(name) => {
            if is_name(name.as_bytes()) {
                Some(BookCommand::Show { name })
            } else {
                None
            }
        }
        _ => None,
    }
}

fn report(kind: ReportKind, given: GivenWords<'_>) -> Option<BookCommand<'_>>
    ensures { option_map book_request_of result ≡ report_by kind (given_view given.entry).words
        (given_view given.entry).hierarchy given.entry.fail }
{
    match given.plain {
        Plain::One(region) => Some(BookCommand::Report(ReportAsked {
            kind,
            region,
            hierarchy: given.hierarchy,
            fail: given.fail,
        })),
        _ => None,
    }
}

/// Whether a word is a name: 1 to 64 small letters, digits, `-` and `_`, the first a letter or a digit.
pub(crate) fn is_name(word: &[u8]) -> bool
    ensures { result ≡ is_book_name word.now }
{
    begins_name(word) && word.len() <= 64 && are_name_bytes(word)
}

/// Whether all bytes may stand in a name.
fn are_name_bytes(word: &[u8]) -> bool
    ensures { result ≡ list_all is_book_name_byte word.now }
{
    word.iter().all(is_name_byte)
}

fn is_name_byte(b: &u8) -> bool
    ensures { result ≡ is_book_name_byte b.now }
{
    is_letter_or_digit(*b) || *b == b'-' || *b == b'_'
}

fn begins_name(word: &[u8]) -> bool
    ensures { result ≡ begins_name word.now }
{
    match word {
        [b, ..] => is_letter_or_digit(*b),
        [] => false,
    }
}

fn is_letter_or_digit(b: u8) -> bool
    ensures { result ≡ is_letter_or_digit b }
{
    (b'a' <= b && b <= b'z') || (b'0' <= b && b <= b'9')
}
