//! The rows of a table.

ghost use Rattle.std.specs.Prelude.{◌≡◌, ◌∷◌, [], IfOk, MatchOption};
ghost use Rattle.csv.specs.Reading.{error_kind};
ghost use Rattle.csv.specs.Records.{fields_of};
ghost use Rattle.gtfs_tables.specs.inside.RowsLeft.{HasStepped, IsWant, TakesRows};
ghost use Rattle.gtfs_tables.specs.Tables.{rows_of_file};

use csv::{ByteRecord, ByteRecordsIntoIter, Error, ErrorKind, ReaderBuilder};
use std::alloc::{AllocError, Global};
use std::marker::Model;

/// The rows that are left of a file of comma-separated values. A contract sees them as a list.
#[derive(Drop)]
pub(crate) struct Rows<'a> {
    records: ByteRecordsIntoIter<&'a [u8]>,
    ended: bool,
}

impl<'a> Model for Rows<'a> {
    ghost use Rattle.std.specs.Prelude.{List};
    ghost use Rattle.gtfs_tables.specs.Columns.{Row};
    ghost use Rattle.gtfs_tables.specs.inside.RowsLeft.{TakesRowsUnless, rows_left};

    ghost Value = { List Row };

    ghost view = { λ r. rows_left r.ended r.records };

    ghost invariant = { λ r. TakesRowsUnless r.ended r.records };
}

/// The next row of a reader, which gives an error only for its source or for memory.
fn next_row(records: &mut ByteRecordsIntoIter<&[u8]>) -> Option<Result<ByteRecord, Error>>
    requires { TakesRows records.old }
    ensures { HasStepped records.old records.new result }
{
    records.next()
}

/// An error of the source, which is in memory, or of memory.
fn want_of_memory(error: Error) -> AllocError
    requires { IsWant (error_kind error) }
{
    match error.into_kind() {
        ErrorKind::Io(_) | ErrorKind::OutOfMemory => AllocError,
        _ => unreachable!(),
    }
}

impl<'a> Rows<'a> {
    /// The rows of a file.
    #[tactic(auto, unfolding(crate::specs::Tables::rows_of_file))]
    pub(crate) fn new(alloc: Global, text: &'a [u8]) -> Rows<'a>
        ensures { result ≡ rows_of_file text.now }
    {
        let reader = ReaderBuilder::new()
            .has_headers(false)
            .flexible(true)
            .from_reader(alloc, text);
        Rows {
            records: reader.into_byte_records(),
            ended: false,
        }
    }

    /// Takes the next row; `None` exactly where no row is left.
    pub(crate) fn take(&mut self) -> Result<Option<ByteRecord>, AllocError>
        ensures { IfOk result (λ row. MatchOption row ((self.old ≡ []) × (self.new ≡ []))
            (λ row. self.old ≡ fields_of row ∷ self.new)) }
    {
        if self.ended {
            return Ok(None);
        }
        match next_row(&mut self.records) {
            Some(Ok(row)) => Ok(Some(row)),
            None => {
                self.ended = true;
                Ok(None)
            }
            Some(Err(error)) => {
                self.ended = true;
                Err(want_of_memory(error))
            }
        }
    }
}
