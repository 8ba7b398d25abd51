//! The table of a dimension as it is read, record by record.
ghost use Rattle.std.specs.Prelude.{◌≡◌, ◌<◌, ◌++◌, ◌∷◌, [], length, false, IfOk, OnOk, OnErr};
ghost use Rattle.std.specs.List.{list_any};
ghost use Rattle.olap_meaning.specs.Records.{is_null};
ghost use Rattle.catalog_tables.specs.Tables.{has_key, AreRecords};

use crate::names::Names;
use olap_meaning::schema::RECORD_LIMIT;
use olap_meaning::tables::Record;
use olap_meaning::{List, OutOfMemory, Text};
use std::alloc::Global;
use std::marker::Model;
use traces::Trace;

/// The table of a dimension (Schema Guide, "Dimensions, Hierarchies, Levels"): its records in the file's order, each
/// a primary key and one field for each level of the dimension. A catalog is built from it.
#[derive(Drop)]
pub struct Table {
    levels: u32,
    keys: Names,
    fields: Vec<List<Text>>,
    of: Trace<Record>,
}

impl Model for Table {
    ghost use Rattle.catalog_tables.specs.Tables.{TableOf, AreRecords};

    ghost Value = { TableOf };

    ghost view = { λ a. record { levels = a.levels; records = a.of.items } };

    ghost invariant = { λ a. AreRecords a.levels a.keys a.fields.items a.of.items };
}

/// The parts of a table, for what is built from it.
#[derive(Drop)]
pub(crate) struct TableParts {
    pub(crate) levels: u32,
    pub(crate) keys: Names,
    pub(crate) fields: Vec<List<Text>>,
    pub(crate) of: Trace<Record>,
}

impl Table {
    /// The table of no records, for this many levels. It takes no memory.
    pub fn new(alloc: Global, levels: u32) -> Table
        ensures { result ≡ record { levels = levels; records = [] } }
    {
        Table {
            levels,
            keys: Names::new(alloc),
            fields: Vec::new(alloc),
            of: Trace::new(),
        }
    }

    /// How many fields a record has.
    pub fn levels(&self) -> u32
        ensures { result ≡ self.now.levels }
    {
        self.levels
    }

    /// How many records there are.
    pub fn len(&self) -> u32
        ensures { result ≡ length self.now.records }
    {
        self.fields.len() as u32
    }

    /// Whether a record has exactly this key. It takes no memory.
    pub fn has_key(&self, key: &str) -> bool
        ensures { result ≡ has_key self.now.records key.now }
    {
        self.keys.contains(key)
    }

    /// Adds a record.
    pub fn push(&mut self, alloc: Global, key: &str, fields: &[Text]) -> Result<(), OutOfMemory>
        requires new { has_key self.old.records key.now ≡ false }
        requires whole { length fields.now ≡ self.old.levels }
        requires filled { list_any is_null fields.now ≡ false }
        requires room { length self.old.records < RECORD_LIMIT }
        ensures ok { OnOk result
            (self.new
            ≡ record self.old {
              records = self.old.records
                  ++ (record { key = key.now; fields = fields.now }) ∷ [];
            }) }
        ensures err { OnErr result (self.new ≡ self.old) }
    {
        self.fields.reserve(1)?;
        let added = Record {
            key: Text::from_str(alloc, key)?,
            fields: copied(alloc, fields)?,
        };
        let of = self.of.and(&added);
        self.keys.add(added.key.into_string())?;
        self.fields.push(added.fields).unwrap();
        self.of = of;
        Ok(())
    }

    pub(crate) fn into_parts(self) -> TableParts
        ensures levels { result.levels ≡ self.levels }
        ensures records { result.of.items ≡ self.records }
        ensures kept { AreRecords result.levels result.keys result.fields.items result.of.items }
    {
        TableParts {
            levels: self.levels,
            keys: self.keys,
            fields: self.fields,
            of: self.of,
        }
    }
}

// Copies of some texts.
fn copied(alloc: Global, texts: &[Text]) -> Result<List<Text>, OutOfMemory>
    ensures { IfOk result (λ copies. copies ≡ texts.now) }
{
    let mut copies = List::new(alloc);
    for text in texts {
        copies.push(text.copy()?)?;
    }
    Ok(copies)
}
