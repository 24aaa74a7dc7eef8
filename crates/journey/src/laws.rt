//! Laws of the definitions: what they say of a line or a block is one thing.

ghost use Rattle.journey.specs.Alike.{BlockFixesItsJourney, EachPrintedIsBest};
ghost use Rattle.journey.specs.Reading.{ReadingIsUnique};

/// A query line asks one thing or is refused with one fault, and never both: want of memory apart, `read_query` has no
/// choice.
pub fn reading_is_unique()
    ensures { ReadingIsUnique }
{}

/// Two journeys of one network whose blocks, for one line, are the same bytes start at one node at one time, and step by step
/// have the same nodes, times and letters. So a block fixes its journey's word and arrival, and each journey whose block is
/// that of a best one is a best one.
pub fn block_fixes_its_journey()
    ensures alike { BlockFixesItsJourney }
    ensures best { EachPrintedIsBest }
{}
