//! Laws of reports, and of runs over one book.

ghost use Rattle.journey_book.specs.Laws.{ReportsAreFixed, ValidIsSame};
ghost use Rattle.journey_book.specs.Runs.{RunsFold};

/// A book and a region leave no choice of what is reported, by `recheck` and by `review`.
pub fn reports_are_fixed()
    ensures { ReportsAreFixed }
{}

/// A certificate that is valid in a region, and whose journey starts when its query departs, is `same` there. So `review`
/// takes from a certificate when its journey arrives.
pub fn valid_is_same()
    ensures { ValidIsSame }
{}

/// Runs one after the other over one keeper leave the book that their changes make of the first: what was kept and dropped
/// by those that did their work, in order.
pub fn runs_fold()
    ensures { RunsFold }
{}
