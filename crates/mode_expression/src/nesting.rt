ghost use Rattle.std.specs.Prelude.{ℕ, ◌≤◌, ◌<◌, length, IfSome, IfNone};
ghost use Rattle.mode_expression.specs.Reading.{IsTooDeepAt, IsShallow};

/// The first `(` before which `(` outnumber `)` by 64 or more.
pub fn too_deep(text: &[u8]) -> Option<u64>
    requires { length text.now ≤ 4096 }
    ensures found { IfSome result (IsTooDeepAt text.now) }
    ensures first { IfSome result (λ at. (k : ℕ) → k < at → IsTooDeepAt text.now k → ⊥) }
    ensures none { IfNone result (IsShallow text.now) }
{
    let mut opened = 0u32;
    let mut closed = 0u32;
    for (at, c) in text.iter().enumerate() {
        if *c == b'(' {
            if opened >= closed + 64 {
                return Some(at as u64);
            }
            opened += 1;
        } else if *c == b')' {
            closed += 1;
        }
    }
    None
}
