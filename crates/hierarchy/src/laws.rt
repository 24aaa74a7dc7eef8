//! Laws of sound hierarchies.

ghost use Rattle.hierarchy.specs.Contraction.{ContractionsKeepSoundness, CoresKeepDistances, EntriesAreRoads};

/// Where the next node is contracted so that all that led by way of it is bridged, the hierarchy stays sound.
pub fn contractions_keep_soundness()
    ensures { ContractionsKeepSoundness }
{}

/// Between core nodes no roads are shorter than the entries of the core.
pub fn cores_keep_distances()
    ensures { CoresKeepDistances }
{}

/// Whatever entries lead along, roads lead along in the same time.
pub fn entries_are_roads()
    ensures { EntriesAreRoads }
{}
