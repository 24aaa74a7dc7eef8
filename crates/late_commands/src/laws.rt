//! Where the files of a command are there and without fault, and no count of faults rose, all of its work is done, unless
//! memory ran out.

ghost use Rattle.late_commands.specs.Complete.{FewCompletes, LatestCompletes, ProfileCompletes, CertifyLatestCompletes, VerifyLatestCompletes};

/// That of `few`.
pub fn few_completes()
    ensures { FewCompletes }
{}

/// That of `latest`.
pub fn latest_completes()
    ensures { LatestCompletes }
{}

/// That of `profile`.
pub fn profile_completes()
    ensures { ProfileCompletes }
{}

/// That of `certify-latest`.
pub fn certify_latest_completes()
    ensures { CertifyLatestCompletes }
{}

/// That of `verify-latest`.
pub fn verify_latest_completes()
    ensures { VerifyLatestCompletes }
{}
