//! One field of a table, record by record: each text once, by first appearance, and its number for each record.
ghost use Rattle.std.specs.Prelude.{◌≡◌, ◌<◌, ◌≤◌, ◌++◌, ◌∷◌, [], length, position, slice_get, bytes_eq, IfOk, IfSome, OnOk, OnErr, Some, option_and_then, option_map};
ghost use Rattle.olap_meaning.specs.Catalog.{first_appearances};
ghost use Rattle.catalog_tables.specs.Tables.{number_of};

use crate::names::Names;
use olap_meaning::schema::RECORD_LIMIT;
use olap_meaning::{LeafId, OutOfMemory, Text, ValueId};
use std::alloc::Global;
use std::marker::Model;
use traces::Trace;

/// The texts of one field. A text is kept once, and a record has its number, of 4 bytes.
#[derive(Drop)]
pub struct FieldColumn {
    names: Names,
    numbers: Vec<u32>,
    of: Trace<Text>,
}

impl Model for FieldColumn {
    ghost use Rattle.std.specs.Prelude.{List, ℕ};
    ghost use Rattle.catalog_tables.specs.Tables.{AreNumbered};

    ghost Value = { List (List ℕ) };

    ghost view = { λ a. a.of.items };

    ghost invariant = { λ a. AreNumbered a.names a.numbers.items a.of.items };
}

impl FieldColumn {
    /// The field of no records. It takes no memory.
    pub fn new(alloc: Global) -> FieldColumn
        ensures { result ≡ [] }
    {
        FieldColumn {
            names: Names::new(alloc),
            numbers: Vec::new(alloc),
            of: Trace::new(),
        }
    }

    /// Adds the text of one record more.
    pub fn push(&mut self, alloc: Global, text: &Text) -> Result<(), OutOfMemory>
        requires { length self.old < RECORD_LIMIT }
        ensures ok { OnOk result (self.new ≡ self.old ++ text.now ∷ []) }
        ensures err { OnErr result (self.new ≡ self.old) }
    {
        self.numbers.reserve(1)?;
        let number = self.names.number(alloc, text.as_str())?;
        self.numbers.push(number as u32).unwrap();
        self.of = self.of.and(text);
        Ok(())
    }

    /// How many different texts there are.
    pub fn count(&self) -> u32
        ensures count { result ≡ length (first_appearances self.now) }
        ensures limit { length (first_appearances self.now) ≤ RECORD_LIMIT }
    {
        self.names.len() as u32
    }

    /// The number of a text, None where no record has it. It takes no memory.
    pub fn number(&self, text: &str) -> Option<ValueId>
        ensures { result ≡ number_of self.now text.now }
    {
        match self.names.find(text) {
            None => None,
            Some(number) => Some(ValueId(number as u32)),
        }
    }

    /// The text of a number. It takes no memory.
    pub fn name(&self, value: ValueId) -> &str
        requires { value < length (first_appearances self.now) }
        ensures { Some result.now ≡ slice_get (first_appearances self.now) value }
    {
        self.names.name(value.0 as usize)
    }

    /// The number of a record's text. It takes no memory.
    pub fn value_at(&self, leaf: LeafId) -> ValueId
        requires { leaf < length self.now }
        ensures { Some result ≡ option_and_then (number_of self.now) (slice_get self.now leaf) }
    {
        ValueId(self.numbers[leaf.0 as usize])
    }
}
