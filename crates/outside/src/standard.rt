//! The real outside: a folder's files, and the standard input and output. These few lines are the trusted edge: a
//! contract can not say what a file or the input holds, or where printed bytes go.
ghost use Rattle.std.specs.Prelude.{◌≡◌, ◌≤◌, [], IfSome, length};

use crate::depot::{Depot, DepotRefusal};
use crate::fetches::{Fetches, noted};
use crate::sink::{CutOff, Sink};
use crate::source::{Failed, Source};
use crate::talk::{Note, Talk, note_cut, note_read};
use olap_meaning::List;
use std::alloc::Global;
use std::io::{ErrorKind, Input, Print, Read, Write};
use std::rt::Files;
use std::{fs, io};

/// The standard input. It does not tell what is left.
#[derive(Drop)]
pub struct StdSource<'a, R> {
    rt: &'a R,
    talk: Talk,
}

impl<'a, R: Input> StdSource<'a, R> {
    pub fn new(rt: &'a R) -> StdSource<'a, R>
        ensures { result.talk.events ≡ [] }
    {
        StdSource {
            rt,
            talk: Talk::new(),
        }
    }
}

// How often a call is tried that a signal cuts short each time.
const TRIES: u32 = 64;

// Reads once, and again where a signal cut it short.
fn read_once<R: Input>(rt: &R, into: &mut [u8]) -> Option<usize>
    ensures size { length into.new ≡ length into.old }
    ensures within { IfSome result (λ n. n ≤ length into.old) }
{
    let mut reader = rt.reader();
    for _ in 0..TRIES {
        match reader.read(into) {
            Ok(n) => return Some(n),
            Err(e) if e.kind() == ErrorKind::Interrupted => {}
            Err(_) => return None,
        }
    }
    None
}

impl<'a, R: Input> Source for StdSource<'a, R> {
    ghost use Rattle.std.specs.Prelude.{None};

    ghost talk = { λ s. s.talk.events };

    ghost left = { λ _. None };

    fn read(&mut self, into: &mut [u8]) -> Result<usize, Failed> {
        match read_once(self.rt, into) {
            Some(n) => {
                note_read(&mut self.talk, n, into);
                Ok(n)
            }
            None => {
                self.talk = self.talk.and(&Note::GaveNot);
                Err(Failed)
            }
        }
    }
}

/// The standard output.
#[derive(Drop)]
pub struct StdSink<'a, R> {
    rt: &'a R,
    talk: Talk,
}

impl<'a, R: Print> StdSink<'a, R> {
    pub fn new(rt: &'a R) -> StdSink<'a, R>
        ensures { result.talk.events ≡ [] }
    {
        StdSink {
            rt,
            talk: Talk::new(),
        }
    }
}

// Writes some of the bytes, and again where a signal cut it short. Gives their number: 0 where none could be written.
fn write_some<R: Print>(rt: &R, bytes: &[u8]) -> usize
    ensures { result ≤ length bytes.now }
{
    for _ in 0..TRIES {
        match io::writer(rt).write(bytes) {
            Ok(n) => return n,
            Err(e) if e.kind() == ErrorKind::Interrupted => {}
            Err(_) => return 0,
        }
    }
    0
}

// Writes the bytes piece by piece, and gives how many were written before one could not be.
fn write_front<R: Print>(rt: &R, bytes: &[u8]) -> usize
    ensures { result ≤ length bytes.now }
{
    let mut done = 0;
    for _ in 0..bytes.len() {
        let n = write_some(rt, &bytes[done..]);
        if n == 0 {
            break;
        }
        done += n;
    }
    done
}

impl<'a, R: Print> Sink for StdSink<'a, R> {
    ghost talk = { λ s. s.talk.events };

    fn write(&mut self, bytes: &[u8]) -> Result<(), CutOff> {
        let taken = write_front(self.rt, bytes);
        if taken < bytes.len() {
            note_cut(&mut self.talk, taken, bytes);
            return Err(CutOff { taken });
        }
        self.talk = self.talk.and(&Note::Took(bytes));
        Ok(())
    }
}

/// The files of the working folder; a name may be any path. It tells nothing of them beforehand.
#[derive(Drop)]
pub struct FolderDepot<'a, R> {
    rt: &'a R,
    fetches: Fetches,
}

impl<'a, R: Files + AllocGlobal> FolderDepot<'a, R> {
    pub fn new(rt: &'a R) -> FolderDepot<'a, R>
        ensures { result.fetches.answers ≡ [] }
    {
        FolderDepot {
            rt,
            fetches: Fetches::new(),
        }
    }
}

// The bytes of a file, or why they are not given.
fn read_file<R: Files + AllocGlobal>(rt: &R, name: &str) -> Result<List<u8>, DepotRefusal> {
    match fs::read(rt, name) {
        Ok(bytes) => Ok(List::from_vec(bytes)),
        Err(e) => Err(match e.kind() {
            ErrorKind::OutOfMemory => DepotRefusal::OutOfMemory,
            ErrorKind::NotFound => DepotRefusal::Missing,
            _ => DepotRefusal::Failed,
        }),
    }
}

impl<'a, R: Files + AllocGlobal> Depot for FolderDepot<'a, R> {
    ghost use Rattle.std.specs.Prelude.{None};

    ghost answers = { λ d. d.fetches.answers };

    ghost files = { λ _. None };

    fn fetch(&mut self, _alloc: Global, name: &str) -> Result<List<u8>, DepotRefusal> {
        let came = read_file(self.rt, name);
        noted(&mut self.fetches, name, came)
    }
}
