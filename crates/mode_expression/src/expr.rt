use crate::letter::Letter;
use search_laws::{EVERY_LETTER, LETTERS, TRANSIT};
use std::fmt;

/// An expression: a set of words over the numbers of the letters.
#[derive(Debug, Drop)]
pub enum Expr {
    /// One letter whose bit is set.
    Letters(u32),
    /// The words of the parts, one after the other.
    Seq(Vec<Expr>),
    /// The words of each part.
    Alt(Vec<Expr>),
    /// From `least` to `most` words of the part, or without an upper bound.
    Repeat {
        of: Box<Expr>,
        least: u32,
        most: Option<u32>,
    },
}

/// Writes `|` but before the first of several.
fn write_separator<W: fmt::Write>(f: &mut fmt::Formatter<W>, first: bool) -> fmt::Result {
    if first { Ok(()) } else { f.write_str("|") }
}

/// Writes a set of letters as a name, or as the alternative of its names.
fn write_letters<W: fmt::Write>(f: &mut fmt::Formatter<W>, bits: u32) -> fmt::Result {
    if bits == EVERY_LETTER {
        return f.write_str("any");
    }
    if bits == TRANSIT {
        return f.write_str("transit");
    }
    let mut first = true;
    for number in 0..LETTERS as u8 {
        if let Some(letter) = Letter::from_number(number) {
            if bits >> number & 1 == 1 {
                write_separator(f, first)?;
                f.write_str(letter.name())?;
                first = false;
            }
        }
    }
    Ok(())
}

/// Writes how often the part before may come.
fn write_suffix<W: fmt::Write>(
    f: &mut fmt::Formatter<W>,
    least: u32,
    most: Option<u32>,
) -> fmt::Result {
    match (least, most) {
        (0, None) => f.write_str("*"),
        (_, None) => f.write_str("+"),
        (0, Some(1)) => f.write_str("?"),
        (_, Some(most)) => {
            if least == most {
                write!(f, "{{{most}}}")
            } else {
                write!(f, "{{{least},{most}}}")
            }
        }
    }
}

/// Whether a text that ends in a name wants a space before this item.
fn begins_with_name(expr: &Expr) -> bool {
    match expr {
        Expr::Letters(_) => true,
        Expr::Repeat { of, .. } => matches!(**of, Expr::Letters(_)),
        _ => false,
    }
}

/// The shortest text of the expression that the grammar allows, with a space only between two names.
impl fmt::Display for Expr {
    fn fmt<W: fmt::Write>(&self, f: &mut fmt::Formatter<W>) -> fmt::Result {
        match self {
            Expr::Letters(bits) => write_letters(f, *bits),
            Expr::Seq(parts) => {
                let mut after_name = false;
                for part in parts {
                    if after_name && begins_with_name(part) {
                        f.write_str(" ")?;
                    }
                    after_name = matches!(part, Expr::Letters(_));
                    if matches!(part, Expr::Seq(_) | Expr::Alt(_)) {
                        write!(f, "({part})")?;
                    } else {
                        write!(f, "{part}")?;
                    }
                }
                Ok(())
            }
            Expr::Alt(parts) => {
                let mut first = true;
                for part in parts {
                    write_separator(f, first)?;
                    first = false;
                    if matches!(part, Expr::Alt(_)) {
                        write!(f, "({part})")?;
                    } else {
                        write!(f, "{part}")?;
                    }
                }
                Ok(())
            }
            Expr::Repeat { of, least, most } => {
                if matches!(**of, Expr::Letters(_)) {
                    write!(f, "{of}")?;
                } else {
                    write!(f, "({of})")?;
                }
                write_suffix(f, *least, *most)
            }
        }
    }
}
