//! Laws of the definitions.

ghost use Rattle.automaton.specs.Languages.{CollapsedPositionsAccept, PositionsAccept};

/// A position automaton of an expression, whatever the order of its moves, accepts exactly the words that the expression
/// denotes; and where adjacent equal road letters are read as one, exactly those whose collapse it denotes.
pub fn positions_accept()
    ensures accepts { PositionsAccept }
    ensures collapsed { CollapsedPositionsAccept }
{}
