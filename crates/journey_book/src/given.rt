//! The words behind a command: plain ones, and the options among them.

ghost use Rattle.std.specs.Prelude.{◌≡◌, map, option_and_then, option_map, string_bytes};
ghost use Rattle.journey_book.specs.Given.{is_option, given_by, given_view, nothing_given, with_fail, with_hierarchy, with_plain, with_word};

/// What the words behind a command say.
#[derive(Clone, Copy)]
pub struct GivenWords<'a> {
    /// The words that are no option's.
    pub plain: Plain<'a>,
    /// The file that `--hierarchy` names.
    pub hierarchy: Option<&'a str>,
    /// Whether `--fail` stands among them.
    pub fail: bool,
}

/// At most three words.
#[derive(Clone, Copy)]
pub enum Plain<'a> {
    No,
    One(&'a str),
    Two(&'a str, &'a str),
    Three(&'a str, &'a str, &'a str),
}

/// No command has more words: three plain ones, and two options, of which one has a file behind it.
const MOST_WORDS: usize = 6;

/// What the words behind a command say; None where no command has such words.
pub fn read_given(words: &[String]) -> Option<GivenWords<'_>>
    ensures { option_map given_view result ≡ given_by (map string_bytes words.now) }
{
    if words.len() > MOST_WORDS {
        return None;
    }
    read_few(words)
}

/// The same of few words.
fn read_few(words: &[String]) -> Option<GivenWords<'_>>
    ensures { option_map given_view result ≡ given_by (map string_bytes words.now) }
{
    let [word, rest @ ..] = words else {
        return Some(nothing());
    };
    if word.as_str() == "--hierarchy" {
        let [file, rest @ ..] = rest else {
            return None;
        };
        return with_hierarchy(file.as_str(), read_few(rest));
    }
    with_word(word.as_str(), read_few(rest))
}

fn nothing() -> GivenWords<'static>
    ensures { given_view result ≡ nothing_given }
{
    GivenWords {
        plain: Plain::No,
        hierarchy: None,
        fail: false,
    }
}

/// With this word in front.
fn with_word<'a>(word: &'a str, given: Option<GivenWords<'a>>) -> Option<GivenWords<'a>>
    ensures { option_map given_view result
        ≡ option_and_then (with_word word.now) (option_map given_view given.entry) }
{
    let given = given?;
    if word == "--fail" {
        with_fail(given)
    } else {
        with_plain(word, given)
    }
}

fn with_fail(given: GivenWords<'_>) -> Option<GivenWords<'_>>
    ensures { option_map given_view result ≡ with_fail (given_view given.entry) }
{
    if given.fail {
        return None;
    }
    Some(GivenWords {
        plain: given.plain,
        hierarchy: given.hierarchy,
        fail: true,
    })
}

/// With `--hierarchy` and this file in front.
fn with_hierarchy<'a>(file: &'a str, given: Option<GivenWords<'a>>) -> Option<GivenWords<'a>>
    ensures { option_map given_view result
        ≡ option_and_then (with_hierarchy file.now) (option_map given_view given.entry) }
{
    let given = given?;
    if is_option(file) || given.hierarchy.is_some() {
        return None;
    }
    Some(GivenWords {
        plain: given.plain,
        hierarchy: Some(file),
        fail: given.fail,
    })
}

fn with_plain<'a>(word: &'a str, given: GivenWords<'a>) -> Option<GivenWords<'a>>
    ensures { option_map given_view result ≡ with_plain word.now (given_view given.entry) }
{
    if is_option(word) {
        return None;
    }
    let plain = match given.plain {
        Plain::No => Plain::One(word),
        Plain::One(first) => Plain::Two(word, first),
        Plain::Two(first, second) => Plain::Three(word, first, second),
        Plain::Three(..) => return None,
    };
    Some(GivenWords {
        plain,
        hierarchy: given.hierarchy,
        fail: given.fail,
    })
}

/// Whether a word is an option's.
fn is_option(word: &str) -> bool
    ensures { result ≡ is_option word.now }
{
    word == "--fail" || word == "--hierarchy" || word == "--help"
}
