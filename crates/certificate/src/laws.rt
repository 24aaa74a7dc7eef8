//! Laws of the definitions.

ghost use Rattle.certificate.specs.Valid.{ValidProves};
ghost use Rattle.certificate.specs.Verdicts.{VerdictIsUnique};

/// A certificate has one verdict, with a sound hierarchy or without: it is valid, or one clause is the first that fails, at
/// one place. However a timetable sorts its runs into patterns, the verdict is the same.
pub fn verdict_is_unique()
    ensures { VerdictIsUnique }
{}

/// A certificate that is valid proves what it claims: the journey that it claims is a best one, or no journey answers.
/// Who made it, and who found it valid, is not asked; nor which sound hierarchy its labels are read over, if any.
pub fn valid_proves()
    ensures { ValidProves }
{}
