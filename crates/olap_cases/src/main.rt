//! `olap_cases`: carries out cases through the top call, over objects in memory, and writes a line for each.
//!
//! Each word of the command line names a case file in the folder that it runs in. `group`, `case` and `content` say what
//! a case file is.
#![tactic(auto)]

ghost use Rattle.std.specs.Prelude.{◌≡◌, IfOk, IsTrue};
ghost use Rattle.olap_meaning.specs.Texts.{CanBeShown, plain_text};
ghost use Rattle.query_meaning.specs.Shown.{Shows};
ghost use Rattle.segment_header.specs.Widening.{Serves, WidensPlainly, are_wanted};

mod around;
mod case;
mod content;
mod difference;
mod fields;
mod group;
mod outcome;
mod recorded;
mod run;
mod talk;

use anyhow::{Context, Result};
use olap_meaning::{Allowed, CellValue, OutOfMemory, Text, ValueId};
use olap_server::Tools;
use segment_header::{Widening, plain_widener, widened_plainly};
use serde_json::Value;
use shown_values::{Showing, plain_formatter, shown_plainly};
use std::rt::{Env, Files};
use std::thread::Threads;
use std::{env, fs};

// What a case file says.
fn groups_of(rt: &(impl Files + AllocGlobal), name: &str) -> Result<Value> {
    let text = fs::read_to_string(rt, name)?;
    Ok(Value::from_str(rt.alloc(), text.as_str())?)
}

// The cases of groups, one line each.
fn tell_groups(
    rt: &(impl Files + AllocGlobal + Print + Threads + Sync),
    tools: &Tools,
    groups: &Value,
) -> Result<()> {
    for group in fields::items(groups)? {
        group::tell(rt, tools, group)?;
    }
    Ok(())
}

// The cases of a file, one line each.
fn tell_file(
    rt: &(impl Files + AllocGlobal + Print + Threads + Sync),
    tools: &Tools,
    name: &str,
) -> Result<()> {
    let groups = groups_of(rt, name)?;
    tell_groups(rt, tools, &groups)
}

// The cases of the files that words name.
fn tell_files(
    rt: &(impl Files + Env + AllocGlobal + Print + Threads + Sync),
    tools: &Tools,
) -> Result<()> {
    for name in env::args(rt)?.skip(1) {
        tell_file(rt, tools, name.as_str()).context(name.as_str())?;
    }
    Ok(())
}

fn main(rt: HostRuntime) -> Result<()> {
    let alloc = rt.alloc();
    let show: Showing = Box::new(
        alloc,
        move |value: &CellValue| -> std::result::Result<Text, OutOfMemory>
            requires { CanBeShown value.now }
            ensures plain { IfOk result (λ text. text ≡ plain_text value.now) }
            ensures shows { IfOk result (Shows value.now) }
        { shown_plainly(alloc, value) },
    )?;
    let widen: Widening = Box::new(
        alloc,
        move |wanted: &[ValueId], count: u32| -> std::result::Result<Allowed, OutOfMemory>
            requires { IsTrue (are_wanted wanted.now count) }
            ensures plain { IfOk result (WidensPlainly wanted.now count) }
            ensures serves { IfOk result (Serves wanted.now count) }
        { widened_plainly(alloc, wanted, count) },
    )?;
    let tools = Tools {
        formatter: plain_formatter(show),
        widener: plain_widener(widen),
    };
    tell_files(&rt, &tools)
}
