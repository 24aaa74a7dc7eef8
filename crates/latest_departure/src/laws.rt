//! Laws of the definitions.

ghost use Rattle.latest_departure.specs.ValidLate.{ValidLateProves};

/// A late certificate that is valid proves what it claims: no journey that is in time starts later than the one that it
/// claims, or none is in time. Who made it, and who found it valid, is not asked.
pub fn valid_late_proves()
    ensures { ValidLateProves }
{}
