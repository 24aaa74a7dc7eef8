//! The query lines of a queries file.

ghost use Rattle.std.specs.Prelude.{◌≡◌, option_map};
ghost use Rattle.run_steps.specs.QueryLines.{without_return, as_query};

/// A line without the carriage return at its end.
pub fn without_return(line: &[u8]) -> &[u8]
    ensures { result.now ≡ without_return line.now }
{
    if !line.is_empty() && line[line.len() - 1] == b'\r' {
        let (front, _) = line.split_at(line.len() - 1);
        front
    } else {
        line
    }
}

/// The query line that a line of a queries file is, if it is one: it is not empty and no comment.
pub fn as_query(line: &[u8]) -> Option<&[u8]>
    ensures { option_map (λ query. query.now) result ≡ as_query line.now }
{
    match line {
        [] | [b'#', ..] => None,
        _ => Some(line),
    }
}
