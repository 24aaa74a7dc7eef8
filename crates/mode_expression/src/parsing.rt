ghost use Rattle.std.specs.Prelude.{◌≡◌, ◌⊎◌, IfOk, IfErr, Ok};
ghost use Rattle.mode_expression.specs.Form.{form_of, IsUsable};
ghost use Rattle.mode_expression.specs.Reading.{IsExpression, IsFault, reading_of, ReadsAs};
ghost use Rattle.mode_expression.specs.Reading.{ExpressionsAreUsable, OutcomeIsUnique, OutcomeExists};

use crate::expr::Expr;
use crate::fault::ExprFault;
use crate::nesting::too_deep;
use crate::reader::Reader;
use crate::token::next_token;
use std::alloc::Global;

/// The longest text of an expression, in bytes.
const MOST_BYTES: usize = 4096;

/// The most places of letters.
const MOST_PLACES: u64 = 200;

/// Reads the tokens of the text.
fn read_tokens(alloc: Global, text: &[u8]) -> Result<Expr, ExprFault>
    ensures read { IfOk result (λ expr. reading_of text.now ≡ Ok (form_of expr)) }
    ensures fault { IfErr result (ReadsAs text.now) }
{
    let mut reader = Reader::new(alloc);
    let mut from = 0;
    while let Some(spot) = next_token(text, from) {
        if !reader.read(spot.token)? {
            return Err(ExprFault::Syntax { at: spot.at as u64 });
        }
        from = spot.end;
    }
    match reader.finish()? {
        Some(expr) => Ok(expr),
        None => Err(ExprFault::Syntax {
            at: text.len() as u64,
        }),
    }
}

/// The expression that a text spells, or the text's first fault.
///
/// # Errors
///
/// The faults are tried in the order of [`ExprFault`]: more than 4,096 bytes; the first `(` that would
/// be more than 64 deep; the first token that no expression can go on with, or the end of the text
/// where one is expected to go on; more than 200 places for letters once `{m,n}` is written out.
/// `OutOfMemory` comes where memory is refused.
pub fn parse(alloc: Global, text: &[u8]) -> Result<Expr, ExprFault>
    ensures expression { IfOk result (λ expr. IsExpression text.now (form_of expr)) }
    ensures usable { IfOk result (λ expr. IsUsable (form_of expr)) }
    ensures fault { IfErr result (λ fault. (fault ≡ ExprFault.OutOfMemory) ⊎ IsFault text.now fault) }
{
    if text.len() > MOST_BYTES {
        return Err(ExprFault::TooLong {
            bytes: text.len() as u64,
        });
    }
    if let Some(at) = too_deep(text) {
        return Err(ExprFault::TooDeep { at });
    }
    let expr = read_tokens(alloc, text)?;
    let places = expr.places();
    if places > MOST_PLACES {
        return Err(ExprFault::TooLarge { places });
    }
    Ok(expr)
}

/// Each text spells one expression or has one first fault, and never both: want of memory apart,
/// `parse` has no choice.
pub fn outcome_is_unique()
    ensures unique { OutcomeIsUnique }
    ensures exists { OutcomeExists }
{}

/// What a text spells is usable: its letters are among the fourteen, its repetitions are those that a suffix may say,
/// and it has at most 200 places of letters.
pub fn expressions_are_usable()
    ensures { ExpressionsAreUsable }
{}
