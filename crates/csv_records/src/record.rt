//! The records of a file.
ghost use Rattle.std.specs.Prelude.{◌≡◌, ◌<◌, ◌∷◌, [], true, false, Some, IfOk, length, slice_get, option_map};
ghost use Rattle.std.specs.List.{list_all};
ghost use Rattle.std.specs.Str.{is_utf8};
ghost use Rattle.olap_meaning.specs.Records.{column_place, is_csv};
ghost use Rattle.csv_records.specs.Files.{file_records};

use crate::fields::{is_ascii, is_text};
use csv::{ByteRecord, ErrorKind, Reader, ReaderBuilder};
use olap_meaning::OutOfMemory;
use std::alloc::Global;
use std::marker::Model;
use std::str;

/// A record: contracts see the list of its fields.
#[derive(Drop)]
pub struct Record {
    row: ByteRecord,
    // It is known that its bytes are ASCII.
    is_ascii: bool,
}

impl Model for Record {
    ghost use Rattle.std.specs.Prelude.{◌≡◌, true, ℕ, List};
    ghost use Rattle.std.specs.List.{list_all};
    ghost use Rattle.std.specs.Str.{is_utf8};
    ghost use Rattle.csv.specs.Records.{fields_of};

    ghost Value = { List (List ℕ) };

    ghost view = { λ a. fields_of a.row };

    ghost invariant = { λ a. a.is_ascii ≡ true → list_all is_utf8 (fields_of a.row) ≡ true };
}

impl Record {
    /// A record of no fields, to read into. It takes no memory.
    pub fn new(alloc: Global) -> Record
        ensures { result ≡ [] }
    {
        Record {
            row: ByteRecord::new(alloc),
            is_ascii: false,
        }
    }

    /// How many fields it has.
    pub fn len(&self) -> usize
        ensures { result ≡ length self.now }
    {
        self.row.len()
    }

    /// A field, None past the last.
    pub fn get(&self, i: usize) -> Option<&[u8]>
        ensures { option_map (λ s. s.now) result ≡ slice_get self.now i }
    {
        self.row.get(i)
    }

    /// The field at a place that the record has.
    pub fn field(&self, i: usize) -> &[u8]
        requires { i < length self.now }
        ensures { slice_get self.now i ≡ Some result.now }
    {
        match self.get(i) {
            Some(field) => field,
            None => unreachable!(),
        }
    }

    /// The field at a place that the record has, as text, where each field is UTF-8.
    pub fn text(&self, i: usize) -> &str
        requires within { i < length self.now }
        requires utf8 { list_all is_utf8 self.now ≡ true }
        ensures { slice_get self.now i ≡ Some result.now }
    {
        match str::from_utf8(self.field(i)) {
            Ok(text) => text,
            Err(_) => unreachable!(),
        }
    }

    /// The place of the column of this name, where the record is a header: the first field with exactly this text.
    pub fn find(&self, name: &str) -> Option<usize>
        ensures { result ≡ column_place name.now self.now }
    {
        for i in 0..self.len() {
            if name.as_bytes() == self.field(i) {
                return Some(i);
            }
        }
        None
    }

    /// Whether it is a record of a CSV file with this header: as many fields, and each of them UTF-8.
    pub fn is_csv(&self, header: &Record) -> bool
        ensures { result ≡ is_csv header.now self.now }
    {
        self.len() == header.len() && self.is_text()
    }

    /// Whether each field is UTF-8.
    pub fn is_text(&self) -> bool
        ensures { result ≡ list_all is_utf8 self.now }
    {
        self.is_ascii || self.has_text_fields()
    }

    fn has_text_fields(&self) -> bool
        ensures { result ≡ list_all is_utf8 self.now }
    {
        for i in 0..self.len() {
            if !is_text(self.field(i)) {
                return false;
            }
        }
        true
    }
}

/// The records of a file that are left to read.
#[derive(Drop)]
pub struct Rows<'a> {
    reader: Reader<&'a [u8]>,
    // It is known that the bytes that are left are ASCII, as they mostly are: one look at the file saves a look at each field.
    is_ascii: bool,
}

impl<'a> Model for Rows<'a> {
    ghost use Rattle.std.specs.Prelude.{◌≡◌, true, ℕ, List};
    ghost use Rattle.csv_records.specs.Left.{left_of, HasAsciiLeft, Streams};

    ghost Value = { List (List (List ℕ)) };

    ghost view = { λ a. left_of a.reader };

    ghost invariant = { λ a. Streams a.reader × (a.is_ascii ≡ true → HasAsciiLeft a.reader) };
}

impl<'a> Rows<'a> {
    /// All records of a file, the header first.
    pub fn new(alloc: Global, bytes: &'a [u8]) -> Rows<'a>
        ensures { result ≡ file_records bytes.entry.now }
    {
        let is_ascii = is_ascii(bytes);
        let reader = ReaderBuilder::new()
            .has_headers(false)
            .flexible(true)
            .from_reader(alloc, bytes);
        Rows { reader, is_ascii }
    }

    /// Reads the next record, and says whether there was one.
    pub fn next(&mut self, row: &mut Record) -> Result<bool, OutOfMemory>
        ensures taken { IfOk result (λ found. found ≡ true → self.old ≡ row.new ∷ self.new) }
        ensures end { IfOk result (λ found. found ≡ false → self.old ≡ []) }
    {
        let is_ascii = self.is_ascii;
        self.is_ascii = false;
        row.is_ascii = false;
        let error = match self.reader.read_byte_record(&mut row.row) {
            Ok(found) => {
                self.is_ascii = is_ascii & found;
                row.is_ascii = is_ascii & found;
                return Ok(found);
            }
            Err(error) => error,
        };
        // The settings refuse no record: the error is of memory, or of a reader underneath, which is a slice here.
        let expected = matches!(error.kind(), ErrorKind::Io(_) | ErrorKind::OutOfMemory);
        prove!(expected);
        Err(OutOfMemory)
    }
}
