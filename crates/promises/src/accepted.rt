//! What one command accepts that another one has written.

ghost use Rattle.promises.specs.Accepted.{WhatCertifyLatestPrintsVerifyLatestAccepts};
ghost use Rattle.promises.specs.Accepted.{WhatCertifyPrintsVerifyAccepts, WhatContractWritesCheckAccepts};

/// What `contract` wrote of a region `check` calls sound for it: over the same region, and with the
/// hierarchy in a file of at most 2^34 bytes, it ends Done where no count of faults rises, unless memory
/// runs out.
pub fn what_contract_writes_check_accepts()
    ensures { WhatContractWritesCheckAccepts }
{}

/// What `certify` printed for a line `verify` calls valid: over the same region, over the same hierarchy or
/// without one, and with the certificate in a file of at most 2^30 bytes, it ends Done where no count of
/// faults rises, unless memory runs out. Or what was printed is a block of the line: that of its refusal, or
/// of a search that was stopped.
pub fn what_certify_prints_verify_accepts()
    ensures { WhatCertifyPrintsVerifyAccepts }
{}

/// And what `certify-latest` printed `verify-latest` calls valid.
pub fn what_certify_latest_prints_verify_latest_accepts()
    ensures { WhatCertifyLatestPrintsVerifyLatestAccepts }
{}
