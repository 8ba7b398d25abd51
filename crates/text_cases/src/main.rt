//! `text_cases`: tables of texts, for what the program `olapd` does not call: paths at a byte, grids read back, and sessions
//! over a desk with limits, a formatter and a widener of their own.
//!
//! Each word of the command line names a table in the folder that it runs in. Its first line says of what kind it is, and each
//! further line what is asked, ` => `, and what is to be said. A line is written for each table, or for each of its lines
//! that comes out otherwise.
#![tactic(auto)]

mod escapes;
mod grids;
mod paths;
mod sessions;
mod shows;
mod tables;
mod widens;

use anyhow::{Context, Result};
use std::env;
use std::rt::{Env, Files};

// The tables of the files that words name.
fn tell_files(rt: &(impl Files + Env + AllocGlobal + Print)) -> Result<()> {
    for name in env::args(rt)?.skip(1) {
        tables::tell_file(rt, name.as_str()).context(name.as_str())?;
    }
    Ok(())
}

fn main(rt: HostRuntime) -> Result<()> {
    tell_files(&rt)
}
