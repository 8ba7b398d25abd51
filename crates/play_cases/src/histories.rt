//! Histories over the small catalog, step by step, by the definitions as plain code.
//!
//! A line is a step, which is said to be `legal` or `not legal` after the legal ones before it, or a question. Steps are
//! `append CALL VERSION LEAF COUNT`, `agg CALL TABLE VERSION` and `flush CALL DIM COLUMN VALUE` by seat 1, `start SEAT
//! VERSION CELL COLUMNS`, `done SEAT LOAD`, `drop SEAT LOAD`, `answer SEAT CALL CELL LOADS` and `saw SEAT CALL` by a seat,
//! and `evict 0 LOAD`. The columns of a load are told with what it allows there, as `0=*,1=0+1`, or left out, where it
//! allows any value in the cell's columns; loads are told as `2+4`, or `none`. `take STEP` takes a step into the history
//! whether it is legal or not.
//!
//! Questions: `has CELL` asks for the sources of a cell, `source CELL LOADS` whether these loads are one. `after N floor
//! CELL`, `after N source CELL`, `after N awaited CELL` and `after N LOAD CELL` ask after the first N entries for the floor
//! of a cell, its exact source, the load that it awaits, and whether a load of it is awaited and live; `flushes LOAD` how
//! many flushes touch a load, and whether it is kept. `kept` asks for the kept loads, `oldest` for the oldest of them,
//! `groups LOAD` how many groups a load has, and `groups` how many the kept loads have together. Of the catalog, `values
//! COLUMN` asks how many values a column has, `value COLUMN TEXT` for the number of one, `leaf COLUMN LEAF` for a leaf's
//! value, `row CELL LEAF` whether a row of a leaf is in a cell, and `match NAME NAME ..` which of the further names the first
//! one means.
use crate::catalogs::setting;
use crate::entries::{cell, entry, loads, row};
use crate::lines::{Wrong, is_remark, number, parts, place, words};
use crate::told::told_loads;
use olap_meaning::tables::{Catalog, Setting};
use olap_meaning::{Cell, ColumnId, LeafId, List, OutOfMemory, Text};
use olap_plain::PlainEntry;
use olap_plain::budget::{group_count, kept_groups, kept_loads, oldest_kept};
use olap_plain::catalogs::{leaf_value, match_of, row_in, value_count, value_number};
use olap_plain::history::{awaited, awaited_load, exact_source, floor, flush_count, kept, live};
use olap_plain::sources::{has_rolled_source, has_source, is_source};
use olap_plain::steps::{is_legal, legal_step};
use std::alloc::{AllocError, Global};

/// A history over the small catalog, and whether each of its steps was legal.
#[derive(Drop)]
pub(crate) struct History {
    setting: Setting,
    entries: Vec<PlainEntry>,
    is_legal: bool,
}

// What is said of a number, where there is one.
fn told_number(alloc: Global, number: Option<usize>) -> Result<String, AllocError> {
    match number {
        Some(number) => format!(in alloc; "{number}"),
        None => String::from_str(alloc, "none"),
    }
}

// What is said of a load, where there is one.
fn told_load(alloc: Global, load: Option<u64>) -> Result<String, AllocError> {
    told_number(alloc, load.map(|load| load as usize))
}

// Whether a cell has a source, and whether it has a rolled one.
fn sources_of(catalog: &Catalog, history: &[PlainEntry], cell: &Cell) -> &'static str {
    let has = has_source(catalog, history, cell);
    let rolled = has_rolled_source(catalog, history, cell);
    match (has, rolled) {
        (false, false) => "no source",
        (false, true) => "no source, but a rolled one",
        (true, false) => "a source",
        (true, true) => "a source, rolled",
    }
}

// What is said of a cell, or of a load of it, in a history.
fn said_of(
    alloc: Global,
    history: &[PlainEntry],
    what: &str,
    cell: &Cell,
) -> Result<String, Wrong> {
    match what {
        "floor" => Ok(format!(in alloc; "{}", floor(history, cell))?),
        "source" => Ok(told_load(alloc, exact_source(history, cell))?),
        "awaited" => Ok(told_load(alloc, awaited_load(history, cell))?),
        load => {
            let load = u64::from(number(load)?);
            let awaited = awaited(history, load, cell);
            let live = live(history, load, cell);
            Ok(format!(in alloc; "awaited {awaited}, live {live}")?)
        }
    }
}

// Names, as texts.
fn texts(alloc: Global, names: &[&str]) -> Result<List<Text>, OutOfMemory> {
    let mut texts = List::new(alloc);
    for name in names {
        texts.push(Text::from_str(alloc, name)?)?;
    }
    Ok(texts)
}

// Which of some names another one means.
fn matched(alloc: Global, name: &str, names: &[&str]) -> Result<String, Wrong> {
    let texts = texts(alloc, names)?;
    Ok(told_number(alloc, match_of(name, texts.as_slice()))?)
}

fn yes_or_no(alloc: Global, is: bool) -> Result<String, AllocError> {
    String::from_str(alloc, if is { "yes" } else { "no" })
}

impl History {
    /// A history of no entry over the small catalog with these records, and a budget of groups.
    pub(crate) fn new(alloc: Global, records: &str, budget: u64) -> Result<History, Wrong> {
        Ok(History {
            setting: setting(alloc, records, budget)?,
            entries: Vec::new(alloc),
            is_legal: true,
        })
    }

    // Tries a step.
    fn step(&mut self, alloc: Global, text: &str) -> Result<&'static str, Wrong> {
        let next = entry(alloc, text)?;
        if !legal_step(&self.setting, self.entries.as_slice(), &next) {
            return Ok("not legal");
        }
        self.entries.push(next)?;
        Ok("legal")
    }

    // Takes a step, legal or not.
    fn take(&mut self, alloc: Global, text: &str) -> Result<&'static str, Wrong> {
        self.is_legal = false;
        self.entries.push(entry(alloc, text)?)?;
        Ok("taken")
    }

    // Whether a cell has a source, and whether it has a rolled one.
    fn has(&self, alloc: Global, name: &str) -> Result<&'static str, Wrong> {
        let cell = cell(alloc, name)?;
        Ok(sources_of(&self.setting.catalog, self.entries.as_slice(), &cell))
    }

    // Whether loads are a source of a cell.
    fn source(&self, alloc: Global, name: &str, from: &str) -> Result<bool, Wrong> {
        let cell = cell(alloc, name)?;
        let loads = loads(alloc, from)?;
        let history = self.entries.as_slice();
        Ok(is_source(&self.setting.catalog, history, &cell, loads.as_slice()))
    }

    // What is said of a cell, or of a load of it, after the first entries.
    fn after(&self, alloc: Global, count: u32, what: &str, name: &str) -> Result<String, Wrong> {
        let cell = cell(alloc, name)?;
        let count = (count as usize).min(self.entries.len());
        said_of(alloc, &self.entries[..count], what, &cell)
    }

    // How many flushes touch a load, and whether it is kept.
    fn flushes(&self, alloc: Global, load: u32) -> Result<String, AllocError> {
        let (history, load) = (self.entries.as_slice(), u64::from(load));
        let kept = kept(history, load);
        format!(in alloc; "{}, kept {kept}", flush_count(history, load))
    }

    // The kept loads.
    fn kept(&self, alloc: Global) -> Result<String, Wrong> {
        let loads = kept_loads(alloc, self.entries.as_slice())?;
        if loads.is_empty() {
            return Ok(String::from_str(alloc, "none")?);
        }
        Ok(told_loads(alloc, loads.as_slice())?)
    }

    // How many groups a load has.
    fn groups(&self, alloc: Global, load: u32) -> Result<String, AllocError> {
        let count = group_count(
            &self.setting.catalog,
            self.entries.as_slice(),
            u64::from(load),
        );
        format!(in alloc; "{count}")
    }

    // How many groups the kept loads have together.
    fn all_groups(&self, alloc: Global) -> Result<String, AllocError> {
        let count = kept_groups(&self.setting.catalog, self.entries.as_slice());
        format!(in alloc; "{count}")
    }

    // Whether a row of a leaf is in a cell.
    fn row(&self, alloc: Global, name: &str, leaf: u32) -> Result<bool, Wrong> {
        let cell = cell(alloc, name)?;
        let row = row(alloc, leaf, 5)?;
        Ok(row_in(&self.setting.catalog, &cell, &row))
    }

    // The number of a text among the values of a column.
    fn value(&self, alloc: Global, column: u16, text: &str) -> Result<String, AllocError> {
        told_number(
            alloc,
            value_number(&self.setting.catalog, ColumnId(column), text),
        )
    }

    // The value of a leaf in a column.
    fn leaf(&self, alloc: Global, column: u16, leaf: u32) -> Result<String, AllocError> {
        told_number(
            alloc,
            leaf_value(&self.setting.catalog, ColumnId(column), LeafId(leaf)),
        )
    }

    // How many values a column has.
    fn values(&self, alloc: Global, column: u16) -> Result<String, AllocError> {
        format!(in alloc; "{}", value_count(&self.setting.catalog, ColumnId(column)))
    }

    // Answers a question about the history.
    fn of_history(&self, alloc: Global, words: &[&str]) -> Result<String, Wrong> {
        match words {
            ["has", name] => Ok(String::from_str(alloc, self.has(alloc, name)?)?),
            ["source", name, from] => Ok(yes_or_no(alloc, self.source(alloc, name, from)?)?),
            ["after", count, what, name] => self.after(alloc, number(count)?, what, name),
            ["flushes", load] => Ok(self.flushes(alloc, number(load)?)?),
            _ => Err(Wrong::Words("no question")),
        }
    }

    // Answers a question about what is kept.
    fn of_kept(&self, alloc: Global, words: &[&str]) -> Result<String, Wrong> {
        match words {
            ["kept"] => self.kept(alloc),
            ["oldest"] => Ok(told_load(alloc, oldest_kept(self.entries.as_slice()))?),
            ["groups", load] => Ok(self.groups(alloc, number(load)?)?),
            ["groups"] => Ok(self.all_groups(alloc)?),
            _ => Err(Wrong::Words("no question")),
        }
    }

    // Answers a question about the catalog.
    fn of_catalog(&self, alloc: Global, words: &[&str]) -> Result<String, Wrong> {
        match words {
            ["row", name, leaf] => Ok(yes_or_no(alloc, self.row(alloc, name, number(leaf)?)?)?),
            ["values", column] => Ok(self.values(alloc, place(column)?)?),
            ["value", column, text] => Ok(self.value(alloc, place(column)?, text)?),
            ["leaf", column, leaf] => Ok(self.leaf(alloc, place(column)?, number(leaf)?)?),
            ["match", name, names @ ..] => matched(alloc, name, names),
            _ => Err(Wrong::Words("no question")),
        }
    }

    // Carries a step out.
    fn stepped(&mut self, alloc: Global, asked: &str) -> Result<&'static str, Wrong> {
        match asked.strip_prefix("take ") {
            Some(step) => self.take(alloc, step),
            None => self.step(alloc, asked),
        }
    }

    // What is said of the words of a line.
    fn said_of(&mut self, alloc: Global, words: &[&str], asked: &str) -> Result<String, Wrong> {
        match words.first().copied() {
            Some("has" | "source" | "after" | "flushes") => self.of_history(alloc, words),
            Some("kept" | "oldest" | "groups") => self.of_kept(alloc, words),
            Some("row" | "values" | "value" | "leaf" | "match") => self.of_catalog(alloc, words),
            _ => Ok(String::from_str(alloc, self.stepped(alloc, asked)?)?),
        }
    }

    // What is said of a line.
    fn said(&mut self, alloc: Global, asked: &str) -> Result<String, Wrong> {
        let words = words(alloc, asked)?;
        self.said_of(alloc, words.as_slice(), asked)
    }

    // Adds what is said of a line, or an empty line for a remark.
    fn add_said(&mut self, alloc: Global, text: &mut String, line: &str) -> Result<(), Wrong> {
        if !is_remark(line) {
            text.push_str(self.said(alloc, parts(line).0)?.as_str())?;
        }
        Ok(text.push('\n')?)
    }

    // Adds what is said of each line of a table.
    fn add_all(&mut self, alloc: Global, text: &mut String, lines: &str) -> Result<(), Wrong> {
        for line in lines.lines() {
            self.add_said(alloc, text, line)?;
        }
        Ok(())
    }

    // Whether the history is legal, or has steps that need not be.
    fn is_as_told(&self) -> bool {
        !self.is_legal || is_legal(&self.setting, self.entries.as_slice())
    }

    /// What is said of each line of a table. The history has to be legal where each step was.
    pub(crate) fn told(&mut self, alloc: Global, lines: &str) -> Result<String, Wrong> {
        let mut text = String::new(alloc);
        self.add_all(alloc, &mut text, lines)?;
        if self.is_as_told() {
            Ok(text)
        } else {
            Err(Wrong::Words("the history is not legal"))
        }
    }
}
