//! `play_cases`: tables that were worked by hand, of what the definitions of a cache's history say and of what the calls of
//! many seats come to, and a line for each.
//!
//! Each word of the command line names a file in the folder that it runs in. A file is a list of tables. A table begins with
//! a line `== KIND REST: NAME`, and each further line says what is asked, ` => `, and what is to be said of it; a line that
//! begins with `#` is a remark. Of a table that comes out as it stands, `ok NAME` is written, and else each line that
//! differs. The kinds are:
//!
//! - `history RECORDS BUDGET`: steps of a history over the small catalog whose one dimension has these records, with a budget
//!   of groups, which is 100 where it is left out (`histories`);
//! - `calls LIMIT BUDGET`: calls of many seats on one manager over the sample files, with a limit of rows and a budget of
//!   groups, 100 where it is left out (`plays`).
#![tactic(auto)]

mod calls;
mod catalogs;
mod entries;
mod histories;
mod lines;
mod opened;
mod plays;
mod regions;
mod tables;
mod told;

use anyhow::{Context, Result};
use std::rt::{Env, Files};
use std::{env, fs};

// The tables of a file.
fn tell_file(rt: &(impl Files + AllocGlobal + Print), name: &str) -> Result<()> {
    let text = fs::read_to_string(rt, name)?;
    tables::tell(rt, text.as_str())
}

fn main(rt: HostRuntime) -> Result<()> {
    for name in env::args(&rt)?.skip(1) {
        tell_file(&rt, name.as_str()).context(name.as_str())?;
    }
    Ok(())
}
