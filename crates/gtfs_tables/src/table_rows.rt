//! The rows of a table below their header, and the values of their fields.

ghost use Rattle.std.specs.Prelude.{◌≡◌, ◌≤◌, [], unwrap_or, option_and_then, Ok, Err, MatchResult};
ghost use Rattle.csv.specs.Records.{field_at, fields_of};
ghost use Rattle.geo_length.specs.Degrees.{degrees_of};
ghost use Rattle.service_days.specs.Dates.{date_at};
ghost use Rattle.gtfs_tables.specs.Forms.{added_at, flag_at, headway_at, is_usual_at, optional_time_at, service_time_at, trimmed, up_to_nine_digits_at};
ghost use Rattle.gtfs_tables.specs.TableRows as spec;
ghost use Rattle.gtfs_tables.specs.declared.faults.FeedFault.TheVariants.{BadField, DanglingKey, RepeatedKey};

use crate::columns::Column;
use crate::faults::FeedFault;
use crate::files::FeedFile;
use crate::header::Header;
use crate::texts::{
    read_added, read_digits, read_flag, read_headway, read_id, read_is_usual, read_optional_time,
    read_time, trimmed,
};
use csv::ByteRecord;
use geo_length::read_degrees;
use service_days::read_date;
use std::marker::Model;

/// A row of a file. A contract sees its fields and those of the header above it.
#[derive(Drop)]
pub(crate) struct TableRow<'a> {
    file: FeedFile,
    number: u64,
    header: &'a Header,
    fields: &'a ByteRecord,
}

impl<'a> Model for TableRow<'a> {
    ghost use Rattle.csv.specs.Records.{fields_of};
    ghost use Rattle.gtfs_tables.specs.TableRows.{TableRow};

    ghost Value = { TableRow };

    ghost view = { λ row. record {
      file = row.file;
      number = row.number;
      header = row.header.now;
      fields =
          fields_of row.fields.now;
    } };
}

impl<'a> TableRow<'a> {
    /// The row of this number; the header is row 1.
    pub(crate) fn new(
        file: FeedFile,
        number: u64,
        header: &'a Header,
        fields: &'a ByteRecord,
    ) -> TableRow<'a>
        ensures { result ≡ record {
          file = file;
          number = number;
          header = header.now;
          fields = fields_of
              fields.now;
        } }
    {
        TableRow {
            file,
            number,
            header,
            fields,
        }
    }

    /// The row's number in its file.
    pub(crate) fn number(&self) -> u64
        ensures { result ≡ self.now.number }
    {
        self.number
    }

    /// The fault of a row whose field in this column is not of its form.
    fn bad_field(&self, column: Column) -> FeedFault
        ensures { result ≡ BadField self.now.file self.now.number column }
    {
        FeedFault::BadField {
            file: self.file,
            row: self.number,
            column,
        }
    }

    /// The fault of a row that has the key of an earlier one.
    pub(crate) fn repeated_key(&self) -> FeedFault
        ensures { result ≡ RepeatedKey self.now.file self.now.number }
    {
        FeedFault::RepeatedKey {
            file: self.file,
            row: self.number,
        }
    }

    /// The fault of a row whose id in this column is no key of its table.
    pub(crate) fn dangling_key(&self, column: Column) -> FeedFault
        ensures { result ≡ DanglingKey self.now.file self.now.number column }
    {
        FeedFault::DanglingKey {
            file: self.file,
            row: self.number,
            column,
        }
    }

    /// The field in a column; empty where the column is absent or the row ends before it.
    #[tactic(auto, unfolding(crate::specs::TableRows::field_in))]
    fn field(&self, column: Column) -> &'a [u8]
        ensures { result.now ≡ spec.field_in self.now column }
    {
        field_at(self.fields, self.header.place(column))
    }

    /// The field in a column without the spaces at both ends.
    fn text(&self, column: Column) -> &'a [u8]
        ensures { result.now ≡ trimmed (spec.field_in self.now column) }
    {
        trimmed(self.field(column))
    }

    /// The id in a column, as it stands.
    pub(crate) fn id(&self, column: Column) -> Result<&'a [u8], FeedFault>
        ensures { MatchResult result (λ id. spec.id_in self.now column ≡ Ok id.now)
            (λ fault. spec.id_in self.now column ≡ Err fault) }
    {
        read_id(self.field(column)).ok_or(self.bad_field(column))
    }

    /// A number of 1 to 9 digits.
    pub(crate) fn digits(&self, column: Column) -> Result<u32, FeedFault>
        ensures { result ≡ spec.value_in up_to_nine_digits_at self.now column }
    {
        read_digits(self.text(column)).ok_or(self.bad_field(column))
    }

    /// Degrees up to `most`, in units of 10^-7 degree.
    pub(crate) fn degrees(&self, column: Column, most: u32) -> Result<i64, FeedFault>
        requires { most ≤ 180 }
        ensures { result ≡ spec.value_in (degrees_of most) self.now column }
    {
        read_degrees(self.text(column), most).ok_or(self.bad_field(column))
    }

    /// Whether one digit up to `most` is 0, for which nothing may stand.
    pub(crate) fn is_usual(&self, column: Column, most: u8) -> Result<bool, FeedFault>
        requires { most ≤ 9 }
        ensures { result ≡ spec.value_in (is_usual_at most) self.now column }
    {
        read_is_usual(self.text(column), most).ok_or(self.bad_field(column))
    }

    /// 0 or 1.
    pub(crate) fn flag(&self, column: Column) -> Result<bool, FeedFault>
        ensures { result ≡ spec.value_in flag_at self.now column }
    {
        read_flag(self.text(column)).ok_or(self.bad_field(column))
    }

    /// 1 for a date that is added, or 2 for one that is removed.
    pub(crate) fn added(&self, column: Column) -> Result<bool, FeedFault>
        ensures { result ≡ spec.value_in added_at self.now column }
    {
        read_added(self.text(column)).ok_or(self.bad_field(column))
    }

    /// A date, YYYYMMDD.
    pub(crate) fn date(&self, column: Column) -> Result<u32, FeedFault>
        ensures { result ≡ spec.value_in date_at self.now column }
    {
        read_date(self.text(column)).ok_or(self.bad_field(column))
    }

    /// The seconds of a time.
    pub(crate) fn time(&self, column: Column) -> Result<u32, FeedFault>
        ensures { result ≡ spec.value_in service_time_at self.now column }
    {
        read_time(self.text(column)).ok_or(self.bad_field(column))
    }

    /// The seconds of a time, or nothing.
    pub(crate) fn optional_time(&self, column: Column) -> Result<Option<u32>, FeedFault>
        ensures { result ≡ spec.value_in optional_time_at self.now column }
    {
        read_optional_time(self.text(column)).ok_or(self.bad_field(column))
    }

    /// The seconds of a headway.
    pub(crate) fn headway(&self, column: Column) -> Result<u32, FeedFault>
        ensures { result ≡ spec.value_in headway_at self.now column }
    {
        read_headway(self.text(column)).ok_or(self.bad_field(column))
    }
}

/// The field at a place; empty where there is none, or the row ends before it.
fn field_at(row: &ByteRecord, place: Option<usize>) -> &[u8]
    ensures { result.now ≡ unwrap_or (option_and_then (field_at (fields_of row.now)) place) [] }
{
    match place {
        Some(place) => row.get(place).unwrap_or(b""),
        None => b"",
    }
}
