//! Reading a table row by row.

ghost use Rattle.std.specs.Prelude.{◌≡◌, ◌<◌, ◌≤◌, [], ◌++◌, List, length, option_to_list, Some, IfErr, IfOk, MatchResult, OnOk};
ghost use Rattle.gtfs_tables.specs.Answers.{IsFaultOf, IsWantOr};
ghost use Rattle.gtfs_tables.specs.FeedLists.{bytes_of};
ghost use Rattle.gtfs_tables.specs.inside.Holding.{AreTaken, IsRead, TakesRow};
ghost use Rattle.gtfs_tables.specs.Tables.{Table, records_of, rows_behind};
ghost use Rattle.gtfs_tables.specs.declared.faults.FeedFault.TheVariants.{TooMany};

use crate::columns::Column;
use crate::faults::FeedFault;
use crate::files::FeedFile;
use crate::header::{Header, take_header};
use crate::ids::Ids;
use crate::records::Rows;
use crate::table_rows::TableRow;
use plan_base::Kind;
use std::alloc::{AllocError, Global};

/// What takes the rows of a table, one after the other.
pub(crate) trait TakesRows: Drop {
    /// What a row says.
    ghost Said: { Type 0 };

    /// What the table gives for a row.
    ghost Given: { Type 0 };

    /// The rules of the table.
    ghost table: { Self → Table Said Given };

    /// What is kept of the rows that said so.
    ghost keeps: { Self → List Said → Type 0 };

    /// Takes the next row, or answers its fault.
    fn take(&mut self, row: &TableRow<'_>) -> Result<(), FeedFault>
        ensures table { OnOk result (table self.new ≡ table self.old) }
        ensures row { TakesRow (table self.old) row.now (keeps self.old) (keeps self.new) result };
}

/// The records of a table that was read, and their ids in order.
#[derive(Drop)]
pub(crate) struct Listed<R> {
    pub(crate) ids: Ids,
    pub(crate) rows: Vec<R>,
}

/// Puts a record to the others, if there is one.
pub(crate) fn put<R: Drop>(rows: &mut Vec<R>, row: Option<R>) -> Result<(), AllocError>
    ensures { OnOk result (rows.new.items ≡ rows.old.items ++ option_to_list row) }
{
    if let Some(row) = row {
        rows.push(row)?;
    }
    Ok(())
}

/// Puts a record to the others, if there is one. There may be `most` of its kind.
pub(crate) fn push_row<R: Drop>(
    rows: &mut Vec<R>,
    row: Option<R>,
    kind: Kind,
    most: u64,
) -> Result<(), FeedFault>
    ensures rows { OnOk result (rows.new.items ≡ rows.old.items ++ option_to_list row) }
    ensures few { OnOk result (length rows.new.items ≤ most) }
    ensures fault { IfErr result (λ fault. IsWantOr fault ((fault ≡ TooMany kind)
        × (most < length (rows.old.items ++ option_to_list row)))) }
{
    put(rows, row)?;
    if rows.len() as u64 > most {
        return Err(FeedFault::TooMany { kind });
    }
    Ok(())
}

/// Takes the rows below a header, one after the other.
fn take_rows<T: TakesRows>(
    table: &mut T,
    file: FeedFile,
    header: &Header,
    rows: &mut Rows<'_>,
) -> Result<(), FeedFault>
    requires file { file ≡ (T.table table.old).file }
    requires nothing { T.keeps table.old [] }
    ensures table { OnOk result (T.table table.new ≡ T.table table.old) }
    ensures rows { MatchResult result (λ _. AreTaken (T.table table.old) header.now rows.old
        (T.keeps table.new)) (IsFaultOf (rows_behind (T.table table.old) header.now [] rows.old)) }
{
    let mut number: u64 = 1;
    while let Some(fields) = rows.take()? {
        number = number.checked_add(1).ok_or(FeedFault::OutOfMemory)?;
        let row = TableRow::new(file, number, header, &fields);
        table.take(&row)?;
    }
    Ok(())
}

/// Reads the text of a table, as [`read_table`] does.
fn read_text<T: TakesRows>(
    alloc: Global,
    table: &mut T,
    file: FeedFile,
    needed: &[Column],
    optional: &[Column],
    text: &[u8],
) -> Result<(), FeedFault>
    requires file { file ≡ (T.table table.old).file }
    requires needed { needed.now ≡ (T.table table.old).needed }
    requires nothing { T.keeps table.old [] }
    ensures table { OnOk result (T.table table.new ≡ T.table table.old) }
    ensures rows { OnOk result (IsRead (T.table table.old) (Some text.now) (T.keeps table.new)) }
    ensures fault { IfErr result (IsFaultOf (records_of (T.table table.old) (Some text.now))) }
{
    let mut rows = Rows::new(alloc, text);
    let header = take_header(alloc, file, needed, optional, &mut rows)?;
    take_rows(table, file, &header, &mut rows)
}

/// Reads a table: all its rows are taken, or the first fault is answered. Its header must name the `needed` columns, and
/// may name the `optional` ones. A file that is not there has no rows.
pub(crate) fn read_table<T: TakesRows>(
    alloc: Global,
    mut table: T,
    file: FeedFile,
    needed: &[Column],
    optional: &[Column],
    text: Option<&[u8]>,
) -> Result<T, FeedFault>
    requires file { file ≡ (T.table table).file }
    requires needed { needed.now ≡ (T.table table).needed }
    requires nothing { T.keeps table [] }
    ensures table { IfOk result (λ read. T.table read ≡ T.table table) }
    ensures rows { IfOk result (λ read. IsRead (T.table table) (bytes_of text.entry) (T.keeps read)) }
    ensures fault { IfErr result (IsFaultOf (records_of (T.table table) (bytes_of text.entry))) }
{
    if let Some(text) = text {
        read_text(alloc, &mut table, file, needed, optional, text)?;
    }
    Ok(table)
}
