//! Laws of the definitions.

ghost use Rattle.late_certificate.specs.Verdicts.{LateVerdictIsUnique};

/// A late certificate has one verdict: it is valid, or one clause is the first that fails, at one place. However a timetable
/// sorts its runs into patterns, the verdict is the same.
pub fn late_verdict_is_unique()
    ensures { LateVerdictIsUnique }
{}
