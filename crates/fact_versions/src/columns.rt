//! Columns of items, of which each row has one in each column.
ghost use Rattle.std.specs.Prelude.{◌≡◌, ◌<◌, ℕ, [], ◌∷◌, ◌++◌, All, Some, IfOk, OnOk, OnErr, length, map, replicate, slice_get, option_and_then, take};
ghost use Rattle.fact_versions.specs.Columns.{with_row};

use olap_meaning::OutOfMemory;
use std::alloc::Global;
use std::marker::Model;

/// One column, which contracts see as its items.
#[derive(Drop)]
struct Column<T> {
    items: Vec<T>,
}

impl<T> Model for Column<T> {
    ghost use Rattle.std.specs.Prelude.{List};

    ghost Value = { List T };

    ghost view = { λ column. column.items.items };
}

impl<T: Copy> Column<T> {
    /// The column of no item. It takes no memory.
    fn new(alloc: Global) -> Column<T>
        ensures { result ≡ [] }
    {
        Column {
            items: Vec::new(alloc),
        }
    }

    /// Makes exact room for this many items more.
    fn reserve(&mut self, items: usize) -> Result<(), OutOfMemory>
        ensures { self.new ≡ self.old }
    {
        self.items.reserve_exact(items)?;
        Ok(())
    }

    fn push(&mut self, item: T) -> Result<(), OutOfMemory>
        ensures ok { OnOk result (self.new ≡ self.old ++ item ∷ []) }
        ensures err { OnErr result (self.new ≡ self.old) }
    {
        self.items.push(item)?;
        Ok(())
    }

    /// Keeps the first items.
    fn cut(&mut self, kept: usize)
        ensures { self.new ≡ take kept self.old }
    {
        self.items.truncate(kept);
    }

    /// The item of a row.
    fn item(&self, row: usize) -> T
        requires { row < length self.now }
        ensures { slice_get self.now row ≡ Some result }
    {
        self.items[row]
    }

    /// How many items it has room for.
    fn capacity(&self) -> usize {
        self.items.capacity()
    }
}

/// Columns, which contracts see as the list of their items.
#[derive(Drop)]
pub(crate) struct Columns<T> {
    columns: Vec<Column<T>>,
}

impl<T> Model for Columns<T> {
    ghost use Rattle.std.specs.Prelude.{List};

    ghost Value = { List (List T) };

    ghost view = { λ a. a.columns.items };
}

impl<T: Copy> Columns<T> {
    /// This many columns of no item.
    pub(crate) fn new(alloc: Global, count: u32) -> Result<Columns<T>, OutOfMemory>
        ensures { IfOk result (λ columns. columns ≡ replicate count []) }
    {
        let mut columns = Vec::with_capacity(alloc, count as usize)?;
        for _ in 0..count {
            columns.push(Column::new(alloc))?;
        }
        Ok(Columns { columns })
    }

    /// How many columns there are.
    pub(crate) fn len(&self) -> usize
        ensures { result ≡ length self.now }
    {
        self.columns.len()
    }

    /// How many items the columns have room for, filled or not.
    pub(crate) fn capacity(&self) -> u64 {
        let mut items: u64 = 0;
        for column in &self.columns {
            items = items.saturating_add(column.capacity() as u64);
        }
        items
    }

    /// Makes exact room for this many rows more.
    pub(crate) fn reserve(&mut self, rows: usize) -> Result<(), OutOfMemory>
        ensures { self.new ≡ self.old }
    {
        reserve_each(&mut self.columns, rows)
    }

    /// Adds a row after this many: an item at the end of each column.
    pub(crate) fn push(&mut self, rows: usize, items: &[T]) -> Result<(), OutOfMemory>
        requires even { All (λ column. length column ≡ rows) self.old }
        requires one_each { length items.now ≡ length self.old }
        ensures ok { OnOk result (self.new ≡ with_row self.old items.now) }
        ensures err { OnErr result (self.new ≡ self.old) }
    {
        push_row(&mut self.columns, rows, items)
    }

    /// Keeps the first rows.
    pub(crate) fn cut(&mut self, rows: usize)
        ensures { self.new ≡ map (λ column. take rows column) self.old }
    {
        cut_each(&mut self.columns, rows);
    }

    /// The item of a row in a column.
    pub(crate) fn item(&self, column: usize, row: usize) -> T
        requires column { column < length self.now }
        requires even { All (λ items. row < length items) self.now }
        ensures { option_and_then (λ items. slice_get items row) (slice_get self.now column)
            ≡ Some result }
    {
        self.columns[column].item(row)
    }
}

/// Makes exact room for this many items more in each column.
fn reserve_each<T: Copy>(columns: &mut [Column<T>], items: usize) -> Result<(), OutOfMemory>
    ensures { columns.new ≡ columns.old }
{
    for column in columns.iter_mut() {
        column.reserve(items)?;
    }
    Ok(())
}

/// Adds an item at the end of each column of this many, or at none.
fn push_row<T: Copy>(columns: &mut [Column<T>], rows: usize, items: &[T]) -> Result<(), OutOfMemory>
    requires even { All (λ column. length column ≡ rows) columns.old }
    requires one_each { length items.now ≡ length columns.old }
    ensures ok { OnOk result (columns.new ≡ with_row columns.old items.now) }
    ensures err { OnErr result (columns.new ≡ columns.old) }
{
    if let Err(error) = push_each(columns, items) {
        cut_each(columns, rows);
        return Err(error);
    }
    Ok(())
}

/// Adds items to their columns, as far as there is memory.
fn push_each<T: Copy>(columns: &mut [Column<T>], items: &[T]) -> Result<(), OutOfMemory>
    requires { length items.now ≡ length columns.old }
    ensures ok { OnOk result (columns.new ≡ with_row columns.old items.now) }
    ensures err { OnErr result ((k : ℕ) × (columns.new ≡ with_row columns.old (take k items.now))) }
{
    for i in 0..items.len() {
        columns[i].push(items[i])?;
    }
    Ok(())
}

/// Keeps the first items of each column.
fn cut_each<T: Copy>(columns: &mut [Column<T>], kept: usize)
    ensures { columns.new ≡ map (λ column. take kept column) columns.old }
{
    for column in columns.iter_mut() {
        column.cut(kept);
    }
}
