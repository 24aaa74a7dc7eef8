ghost use Rattle.std.specs.Prelude.{ℕ, ◌≡◌, ◌≢◌, ◌+◌, ◌<◌, ◌≤◌, ◌∷◌, [], length, drop, take};
ghost use Rattle.std.specs.Prelude.{slice_index, IfSome, IfNone};
ghost use Rattle.mode_expression.specs.Letters.{letters_named};
ghost use Rattle.mode_expression.specs.Tokens.{is_lower, is_digit, joins, lexemes, tokens_from};
ghost use Rattle.mode_expression.specs.Tokens.{decimal, symbol_token, name_token, token_of};

use crate::letter::Letter;
use search_laws::{EVERY_LETTER, TRANSIT};

/// What the text of an expression is made of.
#[derive(Clone, Copy)]
pub enum Token {
    /// A name, as the bits of the letters that it stands for.
    Name(u32),
    /// A number of one to four digits.
    Number(u32),
    Bar,
    Star,
    Plus,
    Question,
    OpenBrace,
    CloseBrace,
    Comma,
    Open,
    Close,
    /// A name that stands for no letter, a longer number, or another byte: it stands nowhere.
    Unknown,
}

/// A token's place in a text: from `at` up to `end`.
#[derive(Clone, Copy)]
pub struct Spot {
    pub at: usize,
    pub end: usize,
    pub token: Token,
}

fn lower(c: u8) -> bool
    ensures { result ≡ is_lower c }
{
    97 <= c && c <= 122
}

fn digit(c: u8) -> bool
    ensures { result ≡ is_digit c }
{
    48 <= c && c <= 57
}

/// Whether both bytes belong to one name or to one number.
fn same_run(c: u8, d: u8) -> bool
    ensures { (rest : _) → result ≡ joins c (d ∷ rest) }
{
    lower(c) && lower(d) || digit(c) && digit(d)
}

/// How many spaces stand in front.
fn spaces(text: &[u8]) -> usize
    ensures within { result ≤ length text.now }
    ensures skipped { (at : ℕ) → lexemes at text.now ≡ lexemes (at + result) (drop result text.now) }
    ensures stops { result < length text.now → slice_index text.now result ≢ 32 }
{
    let mut count = 0;
    while count < text.len() && text[count] == b' ' {
        count += 1;
    }
    count
}

/// The length of the first token of a text that begins with one.
fn run_len(text: &[u8]) -> usize
    requires some { 0 < length text.now }
    requires begins { slice_index text.now 0 ≢ 32 }
    ensures within { (0 < result) × (result ≤ length text.now) }
    ensures run { (at : ℕ) → lexemes at text.now
        ≡ record { at = at; bytes = take result text.now }
        ∷ lexemes (at + result) (drop result text.now) }
{
    let mut last = 0;
    while last + 1 < text.len() && same_run(text[last], text[last + 1]) {
        last += 1;
    }
    last + 1
}

/// The value of at most four digits.
fn value_of(digits: &[u8]) -> u32
    requires { length digits.now ≤ 4 }
    ensures { result ≡ decimal digits.now }
{
    let mut value = 0u32;
    for c in digits {
        value = 10 * value + u32::from(c.saturating_sub(48));
    }
    value
}

/// The letters that a name stands for.
fn letters_of(name: &[u8]) -> Option<u32>
    ensures { result ≡ letters_named name.now }
{
    if name == b"any".as_slice() {
        return Some(EVERY_LETTER);
    }
    if name == b"transit".as_slice() {
        return Some(TRANSIT);
    }
    let letter = Letter::from_name(name)?;
    Some(1 << letter.number())
}

fn symbol(c: u8) -> Token
    ensures { result ≡ symbol_token c }
{
    match c {
        b'|' => Token::Bar,
        b'*' => Token::Star,
        b'+' => Token::Plus,
        b'?' => Token::Question,
        b'{' => Token::OpenBrace,
        b'}' => Token::CloseBrace,
        b',' => Token::Comma,
        b'(' => Token::Open,
        b')' => Token::Close,
        _ => Token::Unknown,
    }
}

fn named(name: &[u8]) -> Token
    ensures { result ≡ name_token (letters_named name.now) }
{
    match letters_of(name) {
        Some(bits) => Token::Name(bits),
        None => Token::Unknown,
    }
}

/// The token of these bytes.
fn make_token(bytes: &[u8]) -> Token
    ensures { result ≡ token_of bytes.now }
{
    match bytes {
        [] => Token::Unknown,
        [first, ..] => {
            if lower(*first) {
                named(bytes)
            } else if !digit(*first) {
                symbol(*first)
            } else if bytes.len() <= 4 {
                Token::Number(value_of(bytes))
            } else {
                Token::Unknown
            }
        }
    }
}

/// The first token of a text from this byte on.
pub fn next_token(text: &[u8], from: usize) -> Option<Spot>
    requires { from ≤ length text.now }
    ensures none { IfNone result (tokens_from from (drop from text.now) ≡ []) }
    ensures within { IfSome result (λ spot. (from < spot.end) × (spot.end ≤ length text.now)) }
    ensures some { IfSome result (λ spot. tokens_from from (drop from text.now)
        ≡ record { at = spot.at; token = spot.token } ∷ tokens_from spot.end (drop spot.end text.now)) }
{
    let at = from + spaces(&text[from..]);
    let rest = &text[at..];
    if rest.is_empty() {
        return None;
    }
    let len = run_len(rest);
    let token = make_token(&rest[..len]);
    Some(Spot {
        at,
        end: at + len,
        token,
    })
}
