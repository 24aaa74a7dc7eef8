//! Where the files of a command are there and without fault, and no count of faults rose, all of its work is done, unless
//! memory ran out.

ghost use Rattle.answer_commands.specs.Complete.{AnswerCompletes, CertifyCompletes, VerifyCompletes};

/// That of `answer`.
pub fn answer_completes()
    ensures { AnswerCompletes }
{}

/// That of `certify`.
pub fn certify_completes()
    ensures { CertifyCompletes }
{}

/// That of `verify`.
pub fn verify_completes()
    ensures { VerifyCompletes }
{}
