//! agency.txt

ghost use Rattle.std.specs.Prelude.{◌≡◌, [], None, Some, unwrap_or, IfErr, IfOk, IsTrue, OnOk};
ghost use Rattle.gtfs_tables.specs.Agencies as spec;
ghost use Rattle.gtfs_tables.specs.Answers.{IsFaultOf};
ghost use Rattle.gtfs_tables.specs.FeedLists.{bytes_of};
ghost use Rattle.gtfs_tables.specs.inside.Holding.{AreRead};
ghost use Rattle.gtfs_tables.specs.Tables.{records_of};

use crate::columns::Column;
use crate::faults::FeedFault;
use crate::files::FeedFile;
use crate::ids::Id;
use crate::table_rows::TableRow;
use crate::tables::{TakesRows, read_table};
use std::alloc::{AllocError, Global};

/// The time zone of the first row, if there is one so far.
#[derive(Drop)]
pub(crate) struct Zones {
    alloc: Global,
    first: Option<Id>,
}

impl Zones {
    fn new(alloc: Global) -> Zones
        ensures { result.first ≡ None }
    {
        Zones { alloc, first: None }
    }

    /// Compares a time zone with the first, which it is where there is none so far.
    fn agree(&mut self, zone: &[u8]) -> Result<bool, AllocError>
        ensures same { IfOk result (λ same. same ≡ spec.is_first self.old.first zone.now) }
        ensures first { IfOk result (λ same. IsTrue same → self.new.first ≡ Some
            (unwrap_or self.old.first zone.now)) }
    {
        match &self.first {
            Some(first) => Ok(zone == first.as_bytes()),
            None => {
                self.first = Some(Id::from_slice(self.alloc, zone)?);
                Ok(true)
            }
        }
    }
}

impl TakesRows for Zones {
    ghost use Rattle.std.specs.Prelude.{List, ℕ};

    ghost Said = { List ℕ };

    ghost Given = { List ℕ };

    ghost table = { λ _. spec.agencies };

    ghost keeps = { λ zones earlier. zones.first ≡ spec.first_zone earlier };

    fn take(&mut self, row: &TableRow<'_>) -> Result<(), FeedFault> {
        let zone = row.id(Column::AgencyTimezone)?;
        if !self.agree(zone)? {
            return Err(FeedFault::MixedZones { row: row.number() });
        }
        Ok(())
    }
}

/// Whether agency.txt is well-formed: its rows are not kept.
pub(crate) fn check_agencies(alloc: Global, text: Option<&[u8]>) -> Result<(), FeedFault>
    ensures agencies { OnOk result (AreRead spec.agencies (bytes_of text.entry) []) }
    ensures fault { IfErr result (IsFaultOf (records_of spec.agencies (bytes_of text.entry))) }
{
    let needed = [Column::AgencyTimezone];
    read_table(
        alloc,
        Zones::new(alloc),
        FeedFile::Agency,
        &needed,
        &[],
        text,
    )?;
    Ok(())
}
