ghost use Rattle.std.specs.Prelude.{◌≡◌, ◌^◌, ◌*◌, ◌<◌, ◌≤◌, min};
ghost use Rattle.mode_expression.specs.Form.{form_of, places, copies};

use crate::expr::Expr;

/// Counts of places are cut at this number.
const MOST_PLACES: u64 = 1 << 32;

/// How often the part of a repetition is written out.
fn copies_of(most: Option<u32>) -> u64
    ensures value { result ≡ copies most }
    ensures small { result < 2 ^ 32 }
{
    most.map_or(1, u64::from)
}

/// The product, or 2^32 where it is more.
fn times(copies: u64, count: u64) -> u64
    requires copies { copies < 2 ^ 32 }
    requires count { count ≤ 2 ^ 32 }
    ensures { result ≡ min (copies * count) (2 ^ 32) }
{
    MOST_PLACES.min(copies * count)
}

/// The places of letters in an expression that is written out, or 2^32 where there are more.
pub fn count_places(expr: &Expr) -> u64
    ensures { result ≡ min (places (form_of expr.now)) (2 ^ 32) }
{
    match expr {
        Expr::Letters(_) => 1,
        Expr::Seq(parts) | Expr::Alt(parts) => {
            let mut count = 0;
            for part in parts {
                count = MOST_PLACES.min(count + count_places(part));
            }
            count
        }
        Expr::Repeat { of, most, .. } => times(copies_of(*most), count_places(of)),
    }
}

impl Expr {
    /// The places of letters once `{m,n}` is written out as n copies, or 2^32 where there are more.
    pub fn places(&self) -> u64
        ensures { result ≡ min (places (form_of self.now)) (2 ^ 32) }
    {
        count_places(self)
    }
}
