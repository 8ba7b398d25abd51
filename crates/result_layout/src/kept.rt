//! The text of what is kept: a line for each kept load.
ghost use Rattle.std.specs.Prelude.{◌≡◌, ◌<◌, ◌++◌, ◌∷◌, [], IfOk, IfSome, OnOk, codes, flat_map, length, map, slice_get, string_bytes, unwrap_or};
ghost use Rattle.std.specs.Fmt.{decimal};
ghost use Rattle.std.specs.Option.{option_map_or};
ghost use Rattle.olap_meaning.specs.Catalog.{member_name, root_name, values};
ghost use Rattle.olap_meaning.specs.Covering.{among};
ghost use Rattle.olap_meaning.specs.Texts.{line, name_text};
ghost use Rattle.query_meaning.specs.Titles.{joined_by};
ghost use Rattle.result_layout.specs.CacheTexts as meaning;

use history_core::{CacheLine, CacheView};
use olap_catalog::Catalog;
use olap_meaning::{
    Allowed, ColumnId, CubeId, HierarchyId, LevelRef, MeasureId, Member, OutOfMemory, Text,
    ValueId, name_text,
};
use std::alloc::Global;

// Whether a column is one of some levels.
fn is_level(levels: &[ColumnId], column: ColumnId) -> bool
    ensures { result ≡ among levels.now column }
{
    levels.iter().any(|level| *level == column)
}

// The hierarchy that has a column among its levels.
fn hierarchy_of(catalog: &Catalog, column: ColumnId) -> Option<HierarchyId>
    ensures place { result ≡ meaning.hierarchy_of catalog.now column }
    ensures known { IfSome result (λ h. h < length catalog.now.hierarchies) }
{
    for h in 0..catalog.hierarchy_count() {
        let h = HierarchyId(h as u16);
        if is_level(catalog.hierarchy(h).levels.as_slice(), column) {
            return Some(h);
        }
    }
    None
}

// The full name of a column's hierarchy.
fn hierarchy_name(catalog: &Catalog, column: ColumnId) -> &str
    ensures { result.now ≡ option_map_or (λ h. root_name catalog.now (LevelRef.Whole h))
        (meaning.hierarchy_of catalog.now column) [] }
{
    match hierarchy_of(catalog, column) {
        Some(h) => catalog.full_name(h),
        None => "",
    }
}

// The name of a column's level.
fn level_name(catalog: &Catalog, column: ColumnId) -> &str
    ensures { result.now
        ≡ option_map_or (λ own. own.name) (slice_get catalog.now.columns column) [] }
{
    if u32::from(column.0) >= catalog.column_count() {
        return "";
    }
    catalog.column(column).name.as_str()
}

// The text of a value of a column.
fn value_name(catalog: &Catalog, column: ColumnId, value: ValueId) -> &str
    ensures { result.now ≡ unwrap_or (slice_get (values catalog.now column) value) [] }
{
    if u32::from(column.0) >= catalog.column_count() {
        return "";
    }
    if value.0 >= catalog.value_count(column) {
        return "";
    }
    catalog.value_name(column, value)
}

// The name of a measure.
fn measure_name(catalog: &Catalog, cube: CubeId, measure: MeasureId) -> &str
    ensures { result.now ≡ member_name catalog.now cube (Member.Measure measure) }
{
    if u32::from(cube.0) >= catalog.cube_count() {
        return "";
    }
    match catalog.cube(cube).measures.get(usize::from(measure.0)) {
        Some(measure) => measure.name.as_str(),
        None => "",
    }
}

// Adds a name text to a text.
fn push_name(alloc: Global, name: &str, text: &mut String) -> Result<(), OutOfMemory>
    ensures { OnOk result (string_bytes text.new ≡ string_bytes text.old ++ name_text name.now) }
{
    let name = name_text(alloc, name)?;
    text.push_str(name.as_str())?;
    Ok(())
}

// Adds the name texts of a column's values, with a comma between each two.
fn push_values(
    alloc: Global,
    catalog: &Catalog,
    column: ColumnId,
    values: &[ValueId],
    text: &mut String,
) -> Result<(), OutOfMemory>
    ensures { OnOk result (string_bytes text.new ≡ string_bytes text.old
        ++ joined_by (codes ",") (map (meaning.value_text catalog.now column) values.now)) }
{
    let Some((first, others)) = values.split_first() else {
        return Ok(());
    };
    push_name(alloc, value_name(catalog, column, *first), text)?;
    for value in others {
        text.push_str(",")?;
        push_name(alloc, value_name(catalog, column, *value), text)?;
    }
    Ok(())
}

// Adds what is allowed on a column.
fn push_allowed(
    alloc: Global,
    catalog: &Catalog,
    column: ColumnId,
    allowed: &Allowed,
    text: &mut String,
) -> Result<(), OutOfMemory>
    ensures { OnOk result (string_bytes text.new ≡ string_bytes text.old
        ++ meaning.allowed_text catalog.now column allowed.now) }
{
    match allowed {
        Allowed::Any => {
            text.push_str("*")?;
            Ok(())
        }
        Allowed::Set(values) => {
            text.push_str("{")?;
            push_values(alloc, catalog, column, values.as_slice(), text)?;
            text.push_str("}")?;
            Ok(())
        }
    }
}

// Adds a column and what is allowed on it.
fn push_column(
    alloc: Global,
    catalog: &Catalog,
    column: &(ColumnId, Allowed),
    text: &mut String,
) -> Result<(), OutOfMemory>
    ensures { OnOk result (string_bytes text.new ≡ string_bytes text.old
        ++ meaning.allowance_text catalog.now column.now) }
{
    push_name(alloc, hierarchy_name(catalog, column.0), text)?;
    text.push_str(".")?;
    push_name(alloc, level_name(catalog, column.0), text)?;
    text.push_str("=")?;
    push_allowed(alloc, catalog, column.0, &column.1, text)
}

// Adds columns, with a space between each two.
fn push_columns(
    alloc: Global,
    catalog: &Catalog,
    columns: &[(ColumnId, Allowed)],
    text: &mut String,
) -> Result<(), OutOfMemory>
    ensures { OnOk result (string_bytes text.new ≡ string_bytes text.old
        ++ joined_by (codes " ") (map (meaning.allowance_text catalog.now) columns.now)) }
{
    let Some((first, others)) = columns.split_first() else {
        return Ok(());
    };
    push_column(alloc, catalog, first, text)?;
    for column in others {
        text.push_str(" ")?;
        push_column(alloc, catalog, column, text)?;
    }
    Ok(())
}

// The begin of the line of a kept load: its number, its version and a tab.
fn line_begin(alloc: Global, load: &CacheLine) -> Result<String, OutOfMemory>
    ensures { IfOk result (λ text. string_bytes text
        ≡ codes "L" ++ (9 ∷ decimal load.now.load) ++ (9 ∷ decimal load.now.version) ++ 9 ∷ []) }
{
    let number = load.load;
    let version = load.version.0;
    let text = format!(in alloc; "L\t{number}\t{version}\t")?;
    Ok(text)
}

// The end of that line: how many flushes touch it.
fn line_end(alloc: Global, load: &CacheLine) -> Result<String, OutOfMemory>
    ensures { IfOk result (λ text. string_bytes text
        ≡ line (9 ∷ decimal load.now.flushes)) }
{
    let flushes = load.flushes;
    let text = format!(in alloc; "\t{flushes}\n")?;
    Ok(text)
}

// Adds the line of a kept load.
fn push_load(
    alloc: Global,
    catalog: &Catalog,
    load: &CacheLine,
    text: &mut String,
) -> Result<(), OutOfMemory>
    ensures { OnOk result (string_bytes text.new ≡ string_bytes text.old
        ++ line (meaning.load_text catalog.now load.now)) }
{
    let begin = line_begin(alloc, load)?;
    text.push_str(begin.as_str())?;
    let header = &load.header;
    let measure = measure_name(catalog, header.cube, header.measure);
    push_name(alloc, measure, text)?;
    text.push_str("\t")?;
    push_columns(alloc, catalog, header.columns.as_slice(), text)?;
    let end = line_end(alloc, load)?;
    text.push_str(end.as_str())?;
    Ok(())
}

// The first line: the position of the look, and how many loads are kept.
fn head_line(alloc: Global, position: u64, count: usize) -> Result<String, OutOfMemory>
    ensures { IfOk result (λ text. string_bytes text
        ≡ line (codes "CACHE " ++ decimal position ++ codes " " ++ decimal count)) }
{
    let text = format!(in alloc; "CACHE {position} {count}\n")?;
    Ok(text)
}

/// The text of what is kept: the position of the look and the number of loads; for each load, by rising number, its
/// number, version, measure, columns and how many flushes touch it, between tabs; and a dot. A column is told with the
/// values that are allowed on it, or with a star.
pub fn cache_text(alloc: Global, catalog: &Catalog, view: &CacheView) -> Result<Text, OutOfMemory>
    ensures { IfOk result (λ text. text
        ≡ meaning.cache_text catalog.now view.now.position view.now.lines) }
{
    let mut text = head_line(alloc, view.position, view.lines.len())?;
    for load in view.lines.as_slice() {
        push_load(alloc, catalog, load, &mut text)?;
    }
    text.push_str(".\n")?;
    Ok(Text::from_string(text))
}
