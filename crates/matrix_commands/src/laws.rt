//! Where the files of the command are there and without fault, and no count of faults rose, all of its work is done,
//! unless memory ran out.

ghost use Rattle.matrix_commands.specs.Complete.{MatrixCompletes};

/// That of `matrix`.
pub fn matrix_completes()
    ensures { MatrixCompletes }
{}
