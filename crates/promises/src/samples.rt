//! What the command `sample` leaves free.

ghost use Rattle.promises.specs.Samples.{SampleCityIsFaultless, SampleCityIsUnique, SummariesAreAlike};

/// Of each size there is one sample city that keeps the rules of networks.
pub fn sample_city_is_unique()
    ensures { SampleCityIsUnique }
{}

/// The sample city breaks no rule of networks and is past none of the full limits, so no run is refused it.
pub fn sample_city_is_faultless()
    ensures { SampleCityIsFaultless }
{}

/// Two summaries of one size tell of the same city and the same times. The number behind `settled` may
/// differ: it depends on the order in which nodes were contracted.
pub fn summaries_are_alike()
    ensures { SummariesAreAlike }
{}
