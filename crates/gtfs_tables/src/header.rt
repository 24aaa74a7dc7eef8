//! The header of a table.

ghost use Rattle.std.specs.Prelude.{◌≡◌, None, Some, IfErr, IfOk, OnOk};
ghost use Rattle.csv.specs.Records.{fields_of};
ghost use Rattle.gtfs_tables.specs.Columns.{place_of_column};
ghost use Rattle.gtfs_tables.specs.Answers.{IsWantOr};
ghost use Rattle.gtfs_tables.specs.inside.Finding.{AreFound};
ghost use Rattle.gtfs_tables.specs.Tables.{header_in, missing_column, rows_below};

use crate::columns::{Column, first_missing, place_of};
use crate::faults::FeedFault;
use crate::files::FeedFile;
use crate::records::Rows;
use csv::ByteRecord;
use std::alloc::{AllocError, Global};
use std::marker::Model;

/// A header, and where it names the columns that were found. A contract sees it as its fields.
#[derive(Drop)]
pub(crate) struct Header {
    fields: ByteRecord,
    found: Vec<(Column, Option<usize>)>,
}

impl Model for Header {
    ghost use Rattle.csv.specs.Records.{fields_of};
    ghost use Rattle.gtfs_tables.specs.Columns.{Row};
    ghost use Rattle.gtfs_tables.specs.inside.Finding.{AreFound};

    ghost Value = { Row };

    ghost view = { λ h. fields_of h.fields };

    ghost invariant = { λ h. AreFound (fields_of h.fields) h.found.items };
}

/// Finds these columns in a header.
fn find(
    found: &mut Vec<(Column, Option<usize>)>,
    header: &ByteRecord,
    columns: &[Column],
) -> Result<(), AllocError>
    ensures { AreFound (fields_of header.now) found.old.items
        → OnOk result (AreFound (fields_of header.now) found.new.items) }
{
    for column in columns {
        found.push((*column, place_of(header, *column)))?;
    }
    Ok(())
}

impl Header {
    ghost use Rattle.std.specs.Prelude.{IfOk};
    ghost use Rattle.csv.specs.Records.{fields_of};

    /// The header with these fields. The columns that are read below it are found once.
    fn new(
        alloc: Global,
        fields: ByteRecord,
        needed: &[Column],
        optional: &[Column],
    ) -> Result<Header, AllocError>
        ensures { IfOk result (λ header. header ≡ fields_of fields) }
    {
        let mut found = Vec::new(alloc);
        find(&mut found, &fields, needed)?;
        find(&mut found, &fields, optional)?;
        Ok(Header { fields, found })
    }

    /// Where a column stands. One that was not found before is searched for.
    pub(crate) fn place(&self, column: Column) -> Option<usize>
        ensures { result ≡ place_of_column self.now column }
    {
        for (known, place) in &self.found {
            if *known == column {
                return *place;
            }
        }
        place_of(&self.fields, column)
    }
}

/// Takes the header of a file, and leaves the rows below it. A file without a row has a header that names no column.
pub(crate) fn take_header(
    alloc: Global,
    file: FeedFile,
    needed: &[Column],
    optional: &[Column],
    rows: &mut Rows<'_>,
) -> Result<Header, FeedFault>
    ensures header { IfOk result (λ header. header ≡ header_in rows.old) }
    ensures rows { OnOk result (rows.new ≡ rows_below rows.old) }
    ensures named { OnOk result (missing_column file needed.now (header_in rows.old) ≡ None) }
    ensures fault { IfErr result (λ fault. IsWantOr fault (missing_column file needed.now (header_in rows.old)
        ≡ Some fault)) }
{
    let fields = rows.take()?.unwrap_or(ByteRecord::new(alloc));
    if let Some(column) = first_missing(&fields, needed) {
        return Err(FeedFault::MissingColumn { file, column });
    }
    let header = Header::new(alloc, fields, needed, optional)?;
    Ok(header)
}
