//! Where the files of a command are there and without fault, and no count of faults rose, all of its work is done, unless
//! memory ran out.

ghost use Rattle.hierarchy_commands.specs.Complete.{CheckCompletes, ContractCompletes};

/// That of `check`.
pub fn check_completes()
    ensures { CheckCompletes }
{}

/// That of `contract`.
pub fn contract_completes()
    ensures { ContractCompletes }
{}
