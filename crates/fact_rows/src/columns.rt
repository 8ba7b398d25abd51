//! Where the columns of a cube stand in a header.
ghost use Rattle.std.specs.Prelude.{◌≡◌, ◌⊎◌, None, length, map, option_map, bytes_eq, IfOk, IfErr};
ghost use Rattle.std.specs.List.{list_any, zip};
ghost use Rattle.olap_meaning.specs.Catalog.{first_appearances};
ghost use Rattle.olap_meaning.specs.Records.{missing_column};
ghost use Rattle.fact_rows.specs.Bound.{key_pair, AreKeysPlaced, AreNumbersPlaced};
ghost use Rattle.fact_rows.specs.declared.fault.BatchFault.TheVariants.{NoColumn};

use crate::fault::BatchFault;
use csv_records::Record;
use olap_meaning::Text;
use olap_meaning::schema::SchemaUse;
use olap_meaning::tables::Measure;
use std::alloc::Global;

/// A foreign key's column: its name, the dimension whose keys it holds, and its place in the header.
#[derive(Drop)]
pub(crate) struct KeyColumn {
    pub(crate) name: Text,
    pub(crate) dimension: u32,
    pub(crate) place: usize,
}

/// A fact column: its name, and its place in the header.
#[derive(Drop)]
pub(crate) struct NumberColumn {
    pub(crate) name: Text,
    pub(crate) place: usize,
}

/// Where the foreign keys of some uses stand, with the dimensions that the uses name. The first that is not there is
/// the fault.
pub(crate) fn place_keys(
    alloc: Global,
    header: &Record,
    uses: &[SchemaUse],
    dimensions: &[u32],
) -> Result<Vec<KeyColumn>, BatchFault>
    requires { length uses.now ≡ length dimensions.now }
    ensures named { IfOk result (λ keys.
        map key_pair keys.items ≡ zip (map (λ used. used.foreign_key) uses.now) dimensions.now) }
    ensures placed { IfOk result (λ keys. AreKeysPlaced header.now keys.items) }
    ensures all_there { IfOk result (λ _.
        missing_column (map (λ used. used.foreign_key) uses.now) header.now ≡ None) }
    ensures fault { IfErr result (λ e.
        (e ≡ BatchFault.OutOfMemory)
        ⊎ (option_map NoColumn (missing_column (map (λ used. used.foreign_key) uses.now)
        header.now) ≡ Some e)) }
{
    let mut keys = Vec::new(alloc);
    for (i, used) in uses.iter().enumerate() {
        let Some(place) = header.find(used.foreign_key.as_str()) else {
            return Err(BatchFault::missing_column(alloc, used.foreign_key.as_str()));
        };
        keys.push(KeyColumn {
            name: used.foreign_key.copy()?,
            dimension: dimensions[i],
            place,
        })?;
    }
    Ok(keys)
}

/// Where the columns of some measures stand, each once. The first that is not there is the fault.
pub(crate) fn place_numbers(
    alloc: Global,
    header: &Record,
    measures: &[Measure],
) -> Result<Vec<NumberColumn>, BatchFault>
    ensures named { IfOk result (λ numbers.
        map (λ column. column.name) numbers.items ≡ first_appearances
        (map (λ measure. measure.column) measures.now)) }
    ensures placed { IfOk result (λ numbers. AreNumbersPlaced header.now numbers.items) }
    ensures all_there { IfOk result (λ _.
        missing_column (map (λ measure. measure.column) measures.now) header.now ≡ None) }
    ensures fault { IfErr result (λ e.
        (e ≡ BatchFault.OutOfMemory)
        ⊎ (option_map NoColumn (missing_column (map (λ measure. measure.column) measures.now)
        header.now) ≡ Some e)) }
{
    let mut numbers = Vec::new(alloc);
    for measure in measures {
        let Some(place) = header.find(measure.column.as_str()) else {
            return Err(BatchFault::missing_column(alloc, measure.column.as_str()));
        };
        if is_among(numbers.as_slice(), measure.column.as_str()) {
            continue;
        }
        numbers.push(NumberColumn {
            name: measure.column.copy()?,
            place,
        })?;
    }
    Ok(numbers)
}

// Whether one of the columns has this name.
fn is_among(columns: &[NumberColumn], name: &str) -> bool
    ensures { result ≡ list_any (bytes_eq name.now) (map (λ column. column.name) columns.now) }
{
    for column in columns {
        if name == column.name.as_str() {
            return true;
        }
    }
    false
}
