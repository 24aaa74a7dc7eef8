//! What the definitions leave no choice of.

ghost use Rattle.promises.specs.Compiled.{CompiledIsUnique};
ghost use Rattle.promises.specs.Hierarchies.{CheckVerdictIsUnique};
ghost use Rattle.promises.specs.Searches.{LabelsAreUnique};
ghost use Rattle.promises.specs.Settled.{SettledIsUnique};

use product_search::stops_are_due;

/// Of one region and one hierarchy `check` has one verdict: it is sound, or one clause is the first that
/// fails, at one place.
pub fn check_verdict_is_unique()
    ensures { CheckVerdictIsUnique }
{}

/// The search for what is asked has one list of labels, over a network or over a hierarchy of it, however its
/// runs are sorted into patterns, and whichever position automaton of the expression is taken.
pub fn labels_are_unique()
    ensures { LabelsAreUnique }
{}

/// A map and a feed give over some days one region, or one fault that is the first, and never both.
pub fn compiled_is_unique()
    ensures { CompiledIsUnique }
{}

/// For query lines, within limits or without, the searches over a network or over a hierarchy of it have one
/// sum of labels, which `answer` tells behind `settled`.
pub fn settled_is_unique()
    ensures { SettledIsUnique }
{
    stops_are_due();
}
