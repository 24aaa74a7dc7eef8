//! What a run does by its words, and what `answer` prints for whoever asks.

ghost use Rattle.promises.specs.Answer.{AnswerPrintsRightBlocks};
ghost use Rattle.promises.specs.Asked.{RunsAreAsAsked, WordsAskOneThing};

/// Words ask for no two things; and a run whose words ask for something is as is said of that, or memory
/// runs out before it is known what they ask for.
pub fn runs_are_as_asked()
    ensures one { WordsAskOneThing }
    ensures said { RunsAreAsAsked }
{}

/// A run whose words are the program's name, `answer` and the names of a region and of a file of queries,
/// and which ended Done, printed a right block for each query line, in order: a best journey, that there is
/// none, or the first fault of the line.
pub fn answer_prints_right_blocks()
    ensures { AnswerPrintsRightBlocks }
{}
