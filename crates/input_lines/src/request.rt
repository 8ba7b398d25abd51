//! What a line asks for.
ghost use Rattle.std.specs.Prelude.{◌≡◌, ◌<◌, ◌^◌, IfOk, MatchOption, OnErr, codes, false, length, true};
ghost use Rattle.std.specs.Str.{is_utf8};
ghost use Rattle.query_meaning.specs.Requests.{MayTakeMemory, argument_of};
ghost use Rattle.input_lines.specs.Asked.{Asks, AsksOnly, asked};
ghost use Rattle.input_lines.specs.Requests.{IsOnly, IsRequest};

use crate::argument::{argument_of, is_blank};
use command_arguments::{
    AppendArgument, ReadFault, read_append, read_blank, read_name, read_position,
};
use mdx_reader::{Query, QueryFault, read_query};
use olap_meaning::{OutOfMemory, Text};
use region_reader::{RegionText, RegionTextFault, read_region};
use std::alloc::Global;
use std::str;

/// What a line asks for.
#[derive(Drop)]
pub enum Request {
    /// Nothing: the line is not UTF-8.
    NotText,
    /// Nothing: the line is white.
    Blank,
    /// Nothing: the line has no command.
    NoCommand,
    /// Nothing: its argument is none of its command's form, and stops at this byte of the argument.
    Stops(usize),
    /// The end of the session.
    Quit,
    /// That the cache has this many entries.
    After(u64),
    /// That the batch of a file is appended to a cube.
    Append(AppendArgument),
    /// The answer to a query.
    Ask(Query),
    /// That a region of a cube is flushed.
    Flush(RegionText),
    /// That the aggregate table of this name is built.
    Agg(Text),
    /// To be shown what is kept.
    Show,
}

// A line as a text, where it is UTF-8.
fn text_of(line: &[u8]) -> Option<&str>
    ensures { MatchOption result (is_utf8 line.now ≡ false)
        (λ text. (is_utf8 line.now ≡ true) × (text.now ≡ line.now)) }
{
    match str::from_utf8(line) {
        Ok(text) => Some(text),
        Err(_) => None,
    }
}

// What the command MDX with this argument asks for.
fn ask_query(alloc: Global, argument: &str) -> Result<Request, OutOfMemory>
    requires { length argument.now < 2 ^ 32 }
    ensures request { IfOk result (λ request. Asks (codes "MDX") argument.now (asked request)) }
    ensures one { IfOk result (λ request. AsksOnly (codes "MDX") argument.now (asked request)) }
{
    match read_query(alloc, argument) {
        Ok(query) => Ok(Request::Ask(query)),
        Err(QueryFault::SyntaxAt { byte }) => Ok(Request::Stops(byte as usize)),
        Err(QueryFault::OutOfMemory) => Err(OutOfMemory),
    }
}

// What the command APPEND with this argument asks for.
fn ask_append(alloc: Global, argument: &str) -> Result<Request, OutOfMemory>
    ensures request { IfOk result (λ request. Asks (codes "APPEND") argument.now (asked request)) }
    ensures one { IfOk result (λ request. AsksOnly (codes "APPEND") argument.now (asked request)) }
{
    match read_append(alloc, argument) {
        Ok(append) => Ok(Request::Append(append)),
        Err(ReadFault::StopsAt { byte }) => Ok(Request::Stops(byte)),
        Err(ReadFault::OutOfMemory) => Err(OutOfMemory),
    }
}

// What the command FLUSH with this argument asks for.
fn ask_flush(alloc: Global, argument: &str) -> Result<Request, OutOfMemory>
    ensures request { IfOk result (λ request. Asks (codes "FLUSH") argument.now (asked request)) }
    ensures one { IfOk result (λ request. AsksOnly (codes "FLUSH") argument.now (asked request)) }
{
    match read_region(alloc, argument) {
        Ok(flush) => Ok(Request::Flush(flush)),
        Err(RegionTextFault::SyntaxAt { byte }) => Ok(Request::Stops(byte)),
        Err(RegionTextFault::OutOfMemory) => Err(OutOfMemory),
    }
}

// What the command AGG with this argument asks for.
fn ask_agg(alloc: Global, argument: &str) -> Result<Request, OutOfMemory>
    ensures request { IfOk result (λ request. Asks (codes "AGG") argument.now (asked request)) }
    ensures one { IfOk result (λ request. AsksOnly (codes "AGG") argument.now (asked request)) }
{
    match read_name(alloc, argument) {
        Ok(name) => Ok(Request::Agg(name)),
        Err(ReadFault::StopsAt { byte }) => Ok(Request::Stops(byte)),
        Err(ReadFault::OutOfMemory) => Err(OutOfMemory),
    }
}

// What the command CACHE with this argument asks for.
fn ask_show(alloc: Global, argument: &str) -> Result<Request, OutOfMemory>
    ensures request { IfOk result (λ request. Asks (codes "CACHE") argument.now (asked request)) }
    ensures one { IfOk result (λ request. AsksOnly (codes "CACHE") argument.now (asked request)) }
    ensures never { OnErr result ⊥ }
{
    match read_blank(alloc, argument) {
        Ok(()) => Ok(Request::Show),
        Err(ReadFault::StopsAt { byte }) => Ok(Request::Stops(byte)),
        Err(ReadFault::OutOfMemory) => Err(OutOfMemory),
    }
}

// What the command AFTER with this argument asks for.
fn ask_after(alloc: Global, argument: &str) -> Result<Request, OutOfMemory>
    ensures request { IfOk result (λ request. Asks (codes "AFTER") argument.now (asked request)) }
    ensures one { IfOk result (λ request. AsksOnly (codes "AFTER") argument.now (asked request)) }
    ensures never { OnErr result ⊥ }
{
    match read_position(alloc, argument) {
        Ok(position) => Ok(Request::After(position)),
        Err(ReadFault::StopsAt { byte }) => Ok(Request::Stops(byte)),
        Err(ReadFault::OutOfMemory) => Err(OutOfMemory),
    }
}

// What the command QUIT with this argument asks for.
fn ask_quit(alloc: Global, argument: &str) -> Result<Request, OutOfMemory>
    ensures request { IfOk result (λ request. Asks (codes "QUIT") argument.now (asked request)) }
    ensures one { IfOk result (λ request. AsksOnly (codes "QUIT") argument.now (asked request)) }
    ensures never { OnErr result ⊥ }
{
    match read_blank(alloc, argument) {
        Ok(()) => Ok(Request::Quit),
        Err(ReadFault::StopsAt { byte }) => Ok(Request::Stops(byte)),
        Err(ReadFault::OutOfMemory) => Err(OutOfMemory),
    }
}

/// The one thing that a line asks for. Only a line with the command MDX, APPEND, FLUSH or AGG takes memory.
pub fn read_request(alloc: Global, line: &[u8]) -> Result<Request, OutOfMemory>
    requires { length line.now < 2 ^ 32 }
    ensures request { IfOk result (λ request. IsRequest line.now (asked request)) }
    ensures one { IfOk result (λ request. IsOnly line.now (asked request)) }
    ensures err { OnErr result (MayTakeMemory line.now) }
{
    let Some(text) = text_of(line) else {
        return Ok(Request::NotText);
    };
    if is_blank(line) {
        return Ok(Request::Blank);
    }
    if let Some(argument) = argument_of("MDX", text) {
        return ask_query(alloc, argument);
    }
    if let Some(argument) = argument_of("APPEND", text) {
        return ask_append(alloc, argument);
    }
    if let Some(argument) = argument_of("FLUSH", text) {
        return ask_flush(alloc, argument);
    }
    if let Some(argument) = argument_of("AGG", text) {
        return ask_agg(alloc, argument);
    }
    if let Some(argument) = argument_of("CACHE", text) {
        return ask_show(alloc, argument);
    }
    if let Some(argument) = argument_of("AFTER", text) {
        return ask_after(alloc, argument);
    }
    if let Some(argument) = argument_of("QUIT", text) {
        return ask_quit(alloc, argument);
    }
    Ok(Request::NoCommand)
}
