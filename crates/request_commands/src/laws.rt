//! Where the files of the command are there and without fault, and no count of faults rose, all of its work is done, unless
//! memory ran out.

ghost use Rattle.request_commands.specs.Complete.{RequestsCompletes};

/// That of `requests`.
pub fn requests_completes()
    ensures { RequestsCompletes }
{}
