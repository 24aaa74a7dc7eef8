//! Faults of certificates.

use crate::pieces::{is_unended, line_at, shown};
use std::alloc::{AllocError, Global};

/// The line of the certificate file of this path that is the first which may not stand where it does.
pub fn bad_certificate(
    alloc: Global,
    path: &str,
    bytes: &[u8],
    line: u64,
) -> Result<String, AllocError> {
    let is_unended = is_unended(bytes, line);
    match line_at(bytes, line) {
        None => no_end(alloc, path, line),
        Some([]) if is_unended => no_end(alloc, path, line),
        Some([]) => format!(in alloc; "{path}, line {line}: a certificate has no empty lines"),
        Some(text) => {
            let what = if line == 1 { what_begins(text) } else { "" };
            let text = shown(alloc, text)?;
            format!(in alloc;
                "{path}, line {line}: {text} may not stand here in a certificate{what}"
            )
        }
    }
}

/// The text ends before its last line.
fn no_end(alloc: Global, path: &str, line: u64) -> Result<String, AllocError> {
    format!(in alloc;
        "{path}, line {line}: the certificate ends here without its last line, \"end\""
    )
}

/// What a file is that begins with this line, and what reads it, where people may take it for a certificate.
fn what_begins(line: &[u8]) -> &'static str {
    if line.starts_with(b"modeplan certificate ") {
        "; it is one of a best journey, which verify reads"
    } else if line.starts_with(b"modeplan late ") {
        "; it is one of a latest departure, which verify-latest reads"
    } else if line.starts_with(b"query ") {
        "; this is the block of an answer, and certify makes a certificate of its query"
    } else {
        ""
    }
}

/// The clause that is the first to fail for the certificate file of this path, and where it fails.
pub fn invalid_certificate(
    alloc: Global,
    path: &str,
    clause: u8,
    at: u64,
) -> Result<String, AllocError> {
    not_valid(alloc, path, clause, at, rule_of(clause))
}

/// The clause that is the first to fail for the late certificate file of this path, and where it fails.
pub fn invalid_late_certificate(
    alloc: Global,
    path: &str,
    clause: u8,
    at: u64,
) -> Result<String, AllocError> {
    not_valid(alloc, path, clause, at, late_rule_of(clause))
}

fn not_valid(
    alloc: Global,
    path: &str,
    clause: u8,
    at: u64,
    rule: &str,
) -> Result<String, AllocError> {
    format!(in alloc; "{path}: the certificate is not valid: clause {clause} fails at {at}: {rule}")
}

/// What a clause asks for.
fn rule_of(clause: u8) -> &'static str {
    match clause {
        1 => "its query line must be one that this region answers",
        2 => "it must be made for the graph that is given: the plain one, or with this hierarchy",
        3 => "it must start at a copy of the origin, at the departure or later",
        4 => "each step must be one of the network",
        5 =>
            "it must end at a copy of the destination, arrive when it says, and have a word that the expression denotes",
        6 => "its labels must ascend, be in range, and be below the arrival",
        7 => "each start must be labelled with the departure",
        8 => "no label may stand at the destination in an accepting state",
        _ => "no arc may lead from a label on to a state that is not labelled as early",
    }
}

/// What a clause of late certificates asks for.
fn late_rule_of(clause: u8) -> &'static str {
    match clause {
        1 => "its query line must be one that this region answers",
        3 => "it must start at a copy of the origin, on the region's first date or later",
        4 => "each step must be one of the network",
        5 =>
            "it must end at a copy of the destination, arrive by the deadline, and have a word that the expression denotes",
        6 => "its labels must ascend, be in range, and be later than the departure",
        7 => "each end must be labelled with the deadline",
        8 => "no label may stand at the origin in a state in which a journey starts",
        _ => "no arc may lead to a label from a state that is not labelled as late",
    }
}
