//! Rows that are read once for several bodies.
ghost use Rattle.std.specs.Prelude.{◌≡◌, ◌≤◌, ◌<◌, ◌+◌, ◌^◌, ◌++◌, All, IsTrue, OnOk, length, map, option_map, option_to_list, take};
ghost use Rattle.segment_body.specs.BodyOf.{different_values};
ghost use Rattle.fact_reader.specs.BodyRows.{body_row, is_batch};
ghost use Rattle.olap_meaning.specs.Budget.{row_values};
ghost use Rattle.fact_reader.specs.Blocks.{IsBehind, IsPlacedRow, kept_rows, own_row, valued_rows, with_block};
ghost use Rattle.fact_reader.specs.Reading.{row_at};

use crate::reader::RowReader;
use fact_versions::Piece;
use olap_meaning::{OutOfMemory, ROW_LIMIT, ValueId};
use segment_body::Body;

/// A row of a piece that a body holds: its place in the piece, and that of its group in the body.
#[derive(Clone, Copy)]
pub(crate) struct PlacedRow {
    pub(crate) row: u64,
    pub(crate) group: usize,
}

impl<'a> RowReader<'a> {
    // Adds a row to a body, where the header allows it, and to a block with the place of its group. The buffer is for its values.
    fn place_row(
        &self,
        piece: &Piece<'_>,
        i: u64,
        values: &mut Vec<ValueId>,
        block: &mut Vec<PlacedRow>,
        body: &mut Body,
    ) -> Result<(), OutOfMemory>
        requires row { i < length piece.now.rows }
        requires fit { IsTrue (is_batch self.now.catalog self.now.header.cube piece.now) }
        requires few_dimensions { piece.now.dimensions < 2 ^ 32 }
        requires few_columns { piece.now.columns < 2 ^ 32 }
        requires same { body.old.header ≡ self.now.header }
        requires room { length body.old.rows < ROW_LIMIT }
        requires placed { All (IsPlacedRow piece.now (different_values body.old.rows)) block.old.items }
        ensures placed { OnOk result
            (All (IsPlacedRow piece.now (different_values body.new.rows)) block.new.items) }
        ensures rows { OnOk result
            (valued_rows (different_values body.new.rows) block.new.items
            ≡ valued_rows (different_values body.old.rows) block.old.items
            ++ option_to_list
            (option_map (λ values. (i, values))
            (row_values self.now.catalog self.now.header (row_at piece.now i)))) }
        ensures body { OnOk result
            (body.new
            ≡ record body.old {
              rows = body.old.rows
                  ++ option_to_list (body_row self.now.catalog self.now.header (row_at piece.now i));
            }) }
    {
        let kept = self.values(piece, i, values)?;
        if kept {
            let group = body.add_placed(values.as_slice(), self.number(piece, i))?;
            block.push(PlacedRow { row: i, group })?;
        }
        Ok(())
    }

    /// Adds the rows of a piece from one place to another to a body, as far as the header allows them, and puts them into a
    /// block with the places of their groups. The buffer is for the values of a row.
    pub(crate) fn place_rows(
        &self,
        piece: &Piece<'_>,
        from: u64,
        to: u64,
        values: &mut Vec<ValueId>,
        block: &mut Vec<PlacedRow>,
        body: &mut Body,
    ) -> Result<(), OutOfMemory>
        requires order { from ≤ to }
        requires there { to ≤ length piece.now.rows }
        requires fit { IsTrue (is_batch self.now.catalog self.now.header.cube piece.now) }
        requires few_dimensions { piece.now.dimensions < 2 ^ 32 }
        requires few_columns { piece.now.columns < 2 ^ 32 }
        requires same { body.old.header ≡ self.now.header }
        requires room { length body.old.rows + to ≤ ROW_LIMIT + from }
        ensures placed { OnOk result
            (All (IsPlacedRow piece.now (different_values body.new.rows)) block.new.items) }
        ensures rows { OnOk result
            (kept_rows self.now.catalog self.now.header (take from piece.now.rows)
            ++ map (own_row piece.now) (valued_rows (different_values body.new.rows) block.new.items)
            ≡ kept_rows self.now.catalog self.now.header (take to piece.now.rows)) }
        ensures body { OnOk result
            (body.new
            ≡ with_block self.now.catalog piece.now
            (valued_rows (different_values body.new.rows) block.new.items) body.old) }
    {
        block.clear();
        for i in from..to {
            self.place_row(piece, i, values, block, body)?;
        }
        Ok(())
    }

    /// Adds the rows of a block, each with its number of the measure, to a body that has the values of all other rows of the
    /// body that they are placed in, in its order, and so each of its groups at the same place, as far as it has them yet.
    pub(crate) fn add_block(
        &self,
        piece: &Piece<'_>,
        block: &[PlacedRow],
        first: &Body,
        body: &mut Body,
    ) -> Result<(), OutOfMemory>
        requires fit { IsTrue (is_batch self.now.catalog self.now.header.cube piece.now) }
        requires few_columns { piece.now.columns < 2 ^ 32 }
        requires same { body.old.header ≡ self.now.header }
        requires placed { All (IsPlacedRow piece.now (different_values first.now.rows)) block.now }
        requires behind { IsBehind first.now
            (valued_rows (different_values first.now.rows) block.now) body.old }
        requires room { length body.old.rows + length block.now ≤ ROW_LIMIT }
        ensures { OnOk result
            (body.new
            ≡ with_block self.now.catalog piece.now
            (valued_rows (different_values first.now.rows) block.now) body.old) }
    {
        for k in 0..block.len() {
            let own = block[k];
            let number = self.number(piece, own.row);
            if (own.group as u64) < body.groups() {
                body.add_at(own.group, number)?;
            } else {
                body.add(first.values_at(own.group), number)?;
            }
        }
        Ok(())
    }
}
