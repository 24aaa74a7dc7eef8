//! The text of a query line's expression.

ghost use Rattle.std.specs.Prelude.{◌≡◌, ◌==◌, position};
ghost use Rattle.kept_automata.specs.Texts.{behind_space, expression_text};

/// The text of a query line's expression: what stands behind the fourth space.
pub(crate) fn expression_text(line: &[u8]) -> &[u8]
    ensures { result.now ≡ expression_text line.now }
{
    behind_space(behind_space(behind_space(behind_space(line))))
}

/// What stands behind the first space of a text: nothing where there is none.
fn behind_space(text: &[u8]) -> &[u8]
    ensures { result.now ≡ behind_space text.now }
{
    match space_in(text) {
        Some(place) => {
            let (_, behind) = text.split_at(place + 1);
            behind
        }
        None => &[],
    }
}

/// Where the first space of a text stands, if there is one.
fn space_in(text: &[u8]) -> Option<usize>
    ensures { result ≡ position (λ b. b == 32) text.now }
{
    text.iter().position(|byte| *byte == b' ')
}
