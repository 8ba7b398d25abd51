//! A dimension over the header of its table's file: where its columns stand, and what it takes from a record.
ghost use Rattle.std.specs.Prelude.{◌≡◌, ◌⊎◌, ◌<◌, ◌≤◌, ◌++◌, Some, None, true, length, map, option_map, IfOk, IfErr, OnOk};
ghost use Rattle.std.specs.List.{flat_map, list_all, list_any};
ghost use Rattle.std.specs.Str.{is_utf8};
ghost use Rattle.olap_meaning.specs.Records.{column_place, field_in, is_csv, is_null, missing_column};
ghost use Rattle.olap_meaning.specs.Schema.{levels_of};
ghost use Rattle.dim_tables.specs.Bound.{are_within, fields_at};
ghost use Rattle.dim_tables.specs.TableFiles.{fields_in, header_fault, level_columns};
ghost use Rattle.dim_tables.specs.declared.fault.TableFault.TheVariants.{NoColumn};

use crate::fault::TableFault;
use csv_records::Record;
use olap_meaning::schema::{LEVEL_LIMIT, SchemaDimension, SchemaHierarchy, SchemaLevel};
use olap_meaning::{List, OutOfMemory, Text};
use std::alloc::Global;
use std::marker::Model;

/// A dimension over the header of its table's file.
#[derive(Drop)]
pub(crate) struct BoundDimension<'a> {
    dimension: &'a SchemaDimension,
    header: Record,
    key: usize,
    fields: Vec<usize>,
}

impl<'a> Model for BoundDimension<'a> {
    ghost use Rattle.dim_tables.specs.Bound.{ArePlaced, Bound};

    ghost Value = { Bound };

    ghost view = { λ b. record { dimension = b.dimension.now; header = b.header } };

    ghost invariant = { λ b. ArePlaced b.dimension.now b.header b.key b.fields.items };
}

impl<'a> BoundDimension<'a> {
    /// Finds the columns of a dimension in a header.
    pub(crate) fn bind(
        alloc: Global,
        dimension: &'a SchemaDimension,
        header: Record,
    ) -> Result<BoundDimension<'a>, TableFault>
        requires { length (levels_of dimension.now) ≤ LEVEL_LIMIT }
        ensures bound { IfOk result (λ b.
            b ≡ record { dimension = dimension.entry.now; header = header }) }
        ensures sound { IfOk result (λ _. header_fault dimension.entry.now header ≡ None) }
        ensures fault { IfErr result (λ e.
            (e ≡ TableFault.OutOfMemory) ⊎ (header_fault dimension.entry.now header ≡ Some e)) }
    {
        if !header.is_csv(&header) {
            return Err(TableFault::NotCsv { row: 0 });
        }
        let Some(key) = header.find(dimension.primary_key.as_str()) else {
            return Err(TableFault::missing_column(alloc, dimension.primary_key.as_str()));
        };
        let fields = place_fields(alloc, &header, dimension.hierarchies.as_slice())?;
        Ok(BoundDimension {
            dimension,
            header,
            key,
            fields,
        })
    }

    /// How many fields a record of the dimension has: one for each level.
    pub(crate) fn width(&self) -> u32
        ensures { result ≡ length (levels_of self.now.dimension) }
    {
        self.fields.len() as u32
    }

    /// Whether a record is one of a CSV file with this header.
    pub(crate) fn is_csv(&self, row: &Record) -> bool
        ensures { result ≡ is_csv self.now.header row.now }
    {
        row.is_csv(&self.header)
    }

    /// The primary key in a record.
    pub(crate) fn key<'r>(&self, row: &'r Record) -> &'r str
        requires { is_csv self.now.header row.now ≡ true }
        ensures { result.now
            ≡ field_in self.now.header self.now.dimension.primary_key row.entry.now }
    {
        row.text(self.key)
    }

    /// Whether the field of a level is empty in a record.
    pub(crate) fn has_empty_field(&self, row: &Record) -> bool
        requires { is_csv self.now.header row.now ≡ true }
        ensures { result ≡ list_any is_null
            (fields_in self.now.header (level_columns self.now.dimension) row.now) }
    {
        has_empty(row, self.fields.as_slice())
    }

    /// The fields of the levels in a record.
    pub(crate) fn fields(&self, alloc: Global, row: &Record) -> Result<List<Text>, OutOfMemory>
        requires { is_csv self.now.header row.now ≡ true }
        ensures { IfOk result (λ fields.
            fields ≡ fields_in self.now.header (level_columns self.now.dimension) row.now) }
    {
        texts_at(alloc, row, self.fields.as_slice())
    }
}

// Where the columns of the levels stand, hierarchy by hierarchy. The first that is not there is the fault.
fn place_fields(
    alloc: Global,
    header: &Record,
    hierarchies: &[SchemaHierarchy],
) -> Result<Vec<usize>, TableFault>
    ensures placed { IfOk result (λ places.
        map (λ place. Some place) places.items ≡ map
        (λ level. column_place level.column header.now)
        (flat_map (λ hierarchy. hierarchy.levels) hierarchies.now)) }
    ensures all_there { IfOk result (λ _.
        missing_column
        (map (λ level. level.column) (flat_map (λ hierarchy. hierarchy.levels) hierarchies.now))
        header.now ≡ None) }
    ensures fault { IfErr result (λ e.
        (e ≡ TableFault.OutOfMemory)
        ⊎ (option_map NoColumn (missing_column
        (map (λ level. level.column) (flat_map (λ hierarchy. hierarchy.levels) hierarchies.now))
        header.now) ≡ Some e)) }
{
    let mut places = Vec::new(alloc);
    for hierarchy in hierarchies {
        place_levels(alloc, header, hierarchy.levels.as_slice(), &mut places)?;
    }
    Ok(places)
}

// Adds where the columns of some levels stand.
fn place_levels(
    alloc: Global,
    header: &Record,
    levels: &[SchemaLevel],
    places: &mut Vec<usize>,
) -> Result<(), TableFault>
    ensures placed { OnOk result
        (map (λ place. Some place) places.new.items ≡ map (λ place. Some place) places.old.items
        ++ map (λ level. column_place level.column header.now) levels.now) }
    ensures all_there { OnOk result
        (missing_column (map (λ level. level.column) levels.now) header.now ≡ None) }
    ensures fault { IfErr result (λ e.
        (e ≡ TableFault.OutOfMemory)
        ⊎ (option_map NoColumn (missing_column (map (λ level. level.column) levels.now)
        header.now) ≡ Some e)) }
{
    for level in levels {
        let name = level.column.as_str();
        let Some(place) = header.find(name) else {
            return Err(TableFault::missing_column(alloc, name));
        };
        places.push(place)?;
    }
    Ok(())
}

// Whether a field at one of the places is empty.
fn has_empty(row: &Record, places: &[usize]) -> bool
    requires { are_within places.now row.now ≡ true }
    ensures { result ≡ list_any is_null (fields_at places.now row.now) }
{
    for place in places {
        if row.field(*place).is_empty() {
            return true;
        }
    }
    false
}

// The fields at some places, as texts.
fn texts_at(alloc: Global, row: &Record, places: &[usize]) -> Result<List<Text>, OutOfMemory>
    requires within { are_within places.now row.now ≡ true }
    requires text { list_all is_utf8 row.now ≡ true }
    ensures { IfOk result (λ texts. texts ≡ fields_at places.now row.now) }
{
    let mut texts = List::new(alloc);
    for place in places {
        texts.push(Text::from_str(alloc, row.text(*place))?)?;
    }
    Ok(texts)
}
