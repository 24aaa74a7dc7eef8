//! Building the region of a map and a feed.

ghost use Rattle.std.specs.Prelude.{◌≡◌, None, IfErr, IfOk};
ghost use Rattle.opl_reader.specs.ObjectLists.{AreObjects};
ghost use Rattle.gtfs_tables.specs.Sound.{IsFeed};
ghost use Rattle.mode_network.specs.Rules.{first_fault};
ghost use Rattle.region_build.specs.Answers.{IsCompiled};
ghost use Rattle.compile_commands.specs.inside.Working.{IsBuildOutcome};

use fault_notes::bad_build;
use gtfs_tables::Feed;
use opl_reader::Objects;
use plan_base::{Caps, Sink};
use region_build::{BuildFault, Region, build};
use run_steps::{Outcome, SourceFault, tell};
use service_days::Days;
use std::alloc::Global;

/// What a region is made of: the objects of a map and the lists of a feed, over some days.
#[derive(Drop)]
pub(crate) struct MapAndFeed {
    pub(crate) objects: Objects,
    pub(crate) feed: Feed,
    pub(crate) days: Days,
}

/// The region of a map and a feed, which lies in this folder, and what was left out. If there is none, `notes` is told why.
pub(crate) fn built<E: Sink>(
    alloc: Global,
    of: MapAndFeed,
    folder: &str,
    caps: &Caps,
    notes: &mut E,
) -> Result<Region, Outcome>
    requires objects { AreObjects of.objects }
    requires feed { IsFeed of.feed }
    ensures ok { IfOk result (λ region. IsCompiled caps.now of.objects of.feed of.days region.network) }
    ensures faultless { IfOk result (λ region. first_fault caps.now region.network ≡ None) }
    ensures err { IfErr result (IsBuildOutcome caps.now of.objects of.feed of.days) }
{
    let MapAndFeed {
        objects,
        feed,
        days,
    } = of;
    match build(alloc, &objects, &feed, days, caps) {
        Ok(region) => Ok(region),
        Err(BuildFault::OutOfMemory) => Err(Outcome::OutOfMemory),
        Err(fault) => {
            tell(alloc, notes, bad_build(alloc, folder, fault));
            Err(Outcome::BadFeed {
                fault: SourceFault::Build(fault),
            })
        }
    }
}
