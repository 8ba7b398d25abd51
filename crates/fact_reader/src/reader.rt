//! Reading rows for a header.
ghost use Rattle.std.specs.Prelude.{◌≡◌, ◌<◌, ◌≤◌, ◌+◌, ◌^◌, ◌++◌, IfOk, OnOk, IsTrue, None, Some, length, option_and_then, option_to_list, slice_get, if◌then◌else◌};
ghost use Rattle.olap_meaning.specs.Worth.{row_value};
ghost use Rattle.segment_header.specs.Headers.{is_header};
ghost use Rattle.fact_reader.specs.Reading.{row_at};
ghost use Rattle.olap_meaning.specs.Budget.{if_allowed, row_values};
ghost use Rattle.fact_reader.specs.BodyRows.{body_row, body_rows, is_batch, is_loadable, row_number};

use crate::places::{fact_place, fields_of, places_of};
use catalog_tables::FieldColumn;
use fact_versions::Piece;
use olap_catalog::Catalog;
use olap_meaning::{Header, OutOfMemory, ROW_LIMIT, ValueId};
use segment_body::Body;
use segment_header::allows;
use std::alloc::Global;
use std::marker::Model;

/// Reads rows of a header's cube: for each column of the header the place of its dimension and its texts, and the place of
/// the measure.
#[derive(Drop)]
pub(crate) struct RowReader<'a> {
    catalog: &'a Catalog,
    header: &'a Header,
    places: Vec<usize>,
    fields: Vec<&'a FieldColumn>,
    place: usize,
}

impl<'a> Model for RowReader<'a> {
    ghost use Rattle.std.specs.Prelude.{map};
    ghost use Rattle.fact_reader.specs.Reading.{IsReader, ReaderOf};

    ghost Value = { ReaderOf };

    ghost view = { λ a. record { catalog = a.catalog.now; header = a.header.now } };

    ghost invariant = { λ a. IsReader a.catalog.now a.header.now a.places.items (map (λ field. field.now) a.fields.items) a.place };
}

impl<'a> RowReader<'a> {
    /// What reads rows for a header, which it keeps with its catalog. It reads none yet.
    pub(crate) fn new(
        alloc: Global,
        catalog: &'a Catalog,
        header: &'a Header,
    ) -> Result<RowReader<'a>, OutOfMemory>
        requires header_holds { IsTrue (is_header header.now) }
        requires loadable { IsTrue (is_loadable catalog.now header.now) }
        ensures { IfOk result
            (λ reader. reader ≡ record { catalog = catalog.entry.now; header = header.entry.now }) }
    {
        Ok(RowReader {
            catalog,
            header,
            places: places_of(alloc, catalog, header)?,
            fields: fields_of(alloc, catalog, header)?,
            place: fact_place(catalog, header),
        })
    }

    /// The value of a row on a column of the header, by the column's place there, where the header allows it.
    fn value(&self, k: usize, piece: &Piece<'_>, i: u64) -> Option<ValueId>
        requires column { k < length self.now.header.columns }
        requires row { i < length piece.now.rows }
        requires fit { IsTrue (is_batch self.now.catalog self.now.header.cube piece.now) }
        requires few_dimensions { piece.now.dimensions < 2 ^ 32 }
        ensures { result
            ≡ option_and_then
            (λ column. option_and_then (if_allowed column.1)
            (row_value self.now.catalog self.now.header.cube (row_at piece.now i) column.0))
            (slice_get self.now.header.columns k) }
    {
        let column = &self.header.columns.as_slice()[k];
        let leaf = piece.leaf(i, self.places[k] as u32);
        // The texts of a column tell the values of its leaves.
        self.catalog.texts_have_values();
        let value = self.fields[k].value_at(leaf);
        if allows(&column.1, value) {
            Some(value)
        } else {
            None
        }
    }

    /// Puts the values of a row on the header's columns into a buffer, and tells whether the header allows them all.
    pub(crate) fn values(
        &self,
        piece: &Piece<'_>,
        i: u64,
        values: &mut Vec<ValueId>,
    ) -> Result<bool, OutOfMemory>
        requires row { i < length piece.now.rows }
        requires fit { IsTrue (is_batch self.now.catalog self.now.header.cube piece.now) }
        requires few_dimensions { piece.now.dimensions < 2 ^ 32 }
        ensures { IfOk result
            (λ kept. row_values self.now.catalog self.now.header (row_at piece.now i)
            ≡ (if kept then Some values.new.items else None)) }
    {
        values.clear();
        for k in 0..self.header.columns.len() {
            match self.value(k, piece, i) {
                None => return Ok(false),
                Some(value) => values.push(value)?,
            }
        }
        Ok(true)
    }

    /// The number of a row in the measure's fact column.
    pub(crate) fn number(&self, piece: &Piece<'_>, i: u64) -> Option<i64>
        requires row { i < length piece.now.rows }
        requires fit { IsTrue (is_batch self.now.catalog self.now.header.cube piece.now) }
        requires few_columns { piece.now.columns < 2 ^ 32 }
        ensures { result ≡ row_number self.now.catalog self.now.header (row_at piece.now i) }
    {
        piece.value(i, self.place as u32)
    }

    /// Adds a row to a body, where the header allows it.
    fn add_row(
        &self,
        piece: &Piece<'_>,
        i: u64,
        values: &mut Vec<ValueId>,
        body: &mut Body,
    ) -> Result<(), OutOfMemory>
        requires row { i < length piece.now.rows }
        requires fit { IsTrue (is_batch self.now.catalog self.now.header.cube piece.now) }
        requires few_dimensions { piece.now.dimensions < 2 ^ 32 }
        requires few_columns { piece.now.columns < 2 ^ 32 }
        requires same { body.old.header ≡ self.now.header }
        requires room { length body.old.rows < ROW_LIMIT }
        ensures { OnOk result
            (body.new
            ≡ record body.old {
              rows = body.old.rows
                  ++ option_to_list (body_row self.now.catalog self.now.header (row_at piece.now i));
            }) }
    {
        let kept = self.values(piece, i, values)?;
        if kept {
            body.add(values.as_slice(), self.number(piece, i))?;
        }
        Ok(())
    }

    /// Adds the rows of a piece to a body, as far as the header allows them. The buffer is for the values of a row: what
    /// it holds before and after says nothing. Where there is no memory, some of the rows may have been added.
    pub(crate) fn add_rows(
        &self,
        piece: &Piece<'_>,
        values: &mut Vec<ValueId>,
        body: &mut Body,
    ) -> Result<(), OutOfMemory>
        requires fit { IsTrue (is_batch self.now.catalog self.now.header.cube piece.now) }
        requires same { body.old.header ≡ self.now.header }
        requires room { length body.old.rows + length piece.now.rows ≤ ROW_LIMIT }
        ensures { OnOk result
            (body.new
            ≡ record body.old {
              rows = body.old.rows
                  ++ body_rows self.now.catalog self.now.header piece.now.rows;
            }) }
    {
        // A row has no more leaves and numbers than these can count.
        let (_dimensions, _columns) = (piece.dimensions(), piece.columns());
        for i in 0..piece.len() {
            self.add_row(piece, i, values, body)?;
        }
        Ok(())
    }
}
