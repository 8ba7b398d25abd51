//! `olapd`: answers cells over CSV files.
#![tactic(auto)]

ghost use Rattle.std.specs.Prelude.{◌≡◌, IfOk, IsTrue};
ghost use Rattle.olap_meaning.specs.Texts.{CanBeShown, plain_text};
ghost use Rattle.query_meaning.specs.Shown.{Shows};
ghost use Rattle.segment_header.specs.Widening.{Serves, WidensPlainly, are_wanted};

use olap_meaning::{Allowed, CellValue, OutOfMemory, Text, ValueId};
use olap_server::{Tools, Words, carry_out, refuse_for_memory};
use outside::{FolderDepot, Pair, StdSink, StdSource};
use segment_header::{Widening, plain_widener, widened_plainly};
use shown_values::{Showing, plain_formatter, shown_plainly};
use std::io::ErrorKind;
use std::marker::Brand;
use std::process::ExitCode;
use std::rt::Env;
use std::sync::ledger::Blank;
use std::{env, io};

// The words after the program's name.
fn words(rt: &(impl Env + AllocGlobal)) -> io::Result<Vec<String>> {
    Ok(env::args(rt)?.skip(1).collect(rt.alloc())?)
}

// The words as the top call takes them.
fn given(words: io::Result<Vec<String>>) -> Words {
    match words {
        Ok(words) => Words::Read(words),
        Err(e) if e.kind() == ErrorKind::InvalidData => Words::NotText,
        Err(_) => Words::OutOfMemory,
    }
}

fn main(rt: HostRuntime) -> ExitCode {
    let mut depot = FolderDepot::new(&rt);
    let mut link = Pair::new(StdSource::new(&rt), StdSink::new(&rt));
    let words = given(words(&rt));
    let alloc = rt.alloc();
    let shown = Box::new(
        alloc,
        move |value: &CellValue| -> Result<Text, OutOfMemory>
            requires { CanBeShown value.now }
            ensures plain { IfOk result (λ text. text ≡ plain_text value.now) }
            ensures shows { IfOk result (Shows value.now) }
        { shown_plainly(alloc, value) },
    );
    let Ok(show) = shown else {
        return ExitCode::from(refuse_for_memory(&mut link).number());
    };
    let show: Showing = show;
    let widened = Box::new(
        alloc,
        move |wanted: &[ValueId], count: u32| -> Result<Allowed, OutOfMemory>
            requires { IsTrue (are_wanted wanted.now count) }
            ensures plain { IfOk result (WidensPlainly wanted.now count) }
            ensures serves { IfOk result (Serves wanted.now count) }
        { widened_plainly(alloc, wanted, count) },
    );
    let Ok(widen) = widened else {
        return ExitCode::from(refuse_for_memory(&mut link).number());
    };
    let widen: Widening = widen;
    let tools = Tools {
        formatter: plain_formatter(show),
        widener: plain_widener(widen),
    };
    let ended = carry_out::<_, _, Brand>(
        &rt,
        alloc,
        &words,
        &mut depot,
        &mut link,
        &tools,
        Blank::new(1),
    );
    ExitCode::from(ended.status.number())
}
