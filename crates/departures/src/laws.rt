//! Laws of the definitions.

ghost use Rattle.departures.specs.Laws.{DeparturesAreUnique, DeparturesMissNothing, WithoutIsTheSame};

/// For what is asked and a window there is one list of departures, and one time that it takes without a ride.
pub fn departures_are_unique()
    ensures { DeparturesAreUnique }
{}

/// How long it takes without a ride is the same from each moment on.
pub fn without_is_the_same()
    ensures { WithoutIsTheSame }
{}

/// A journey that answers arrives no earlier than the first row that departs no earlier than it, or takes no less time than one
/// can do without a ride. Where no row departs so late, it does that, or arrives no earlier than some journey with a ride that
/// leaves after the window.
pub fn departures_miss_nothing()
    ensures { DeparturesMissNothing }
{}
