//! What is replied to an append.
ghost use Rattle.std.specs.Prelude.{◌≡◌, ◌<◌, ◌++◌, ◌⊎◌, ℕ, IfOk, IsTrue, length, List, Option};
ghost use Rattle.fact_rows.specs.BatchFiles.{batch_of};
ghost use Rattle.fault_texts.specs.FaultTexts.{refused_append_text, refused_batch_text};
ghost use Rattle.olap_meaning.specs.Catalog.{find_cube};
ghost use Rattle.outside.specs.Fetched.{Fetched};
ghost use Rattle.outside.specs.Told.{AreTheirs};
ghost use Rattle.query_meaning.specs.Replies.{no_memory_reply, refused_batch_reply, version_reply};
ghost use Rattle.fact_reader.specs.BodyRows.{is_batch};
ghost use Rattle.line_session.specs.Replies.{AnswersAppend, AppendsRows, AppendsTo, Dealing, GivesVersion, LacksMemory, RefusesRows};

use crate::desk::Desk;
use crate::reply::Reply;
use command_arguments::AppendArgument;
use fact_rows::{BatchFault, read_batch};
use fact_versions::{AppendFault, Batch};
use fault_texts::{refused_append_text, refused_batch_text};
use history_core::Appended;
use olap_catalog::Catalog;
use olap_meaning::{CubeId, OutOfMemory, Text, named_line};
use outside::{Depot, DepotRefusal};
use std::alloc::Global;

// The line of a batch that is refused: what is told of it.
#[tactic(auto, using(std::proofs::Common::append_assoc))]
fn refused_line(alloc: Global, told: &str) -> Result<Text, OutOfMemory>
    ensures { IfOk result (λ text. text ≡ refused_batch_reply told.now) }
{
    Ok(Text::from_string(format!(in alloc; "ERR 12 BATCH {told}\n")?))
}

// The reply to a batch whose file has a fault.
fn reply_to_batch_fault(alloc: Global, fault: &BatchFault) -> Reply
    ensures { (result ≡ refused_batch_reply (refused_batch_text fault.now))
        ⊎ (result ≡ no_memory_reply) }
{
    match refused_batch_text(alloc, fault) {
        Ok(told) => Reply::made(refused_line(alloc, told.as_str())),
        Err(OutOfMemory) => Reply::no_memory(),
    }
}

// The reply to a batch that does not fit after those before it.
fn reply_to_append_fault(alloc: Global, fault: &AppendFault) -> Reply
    ensures { (result ≡ refused_batch_reply (refused_append_text fault.now))
        ⊎ (result ≡ no_memory_reply) }
{
    match refused_append_text(alloc, fault) {
        Ok(told) => Reply::made(refused_line(alloc, told.as_str())),
        Err(OutOfMemory) => Reply::no_memory(),
    }
}

// The reply to an append that stands. It takes no memory.
fn reply_to_appended(appended: Appended) -> Reply
    ensures { result ≡ version_reply appended.position appended.version }
{
    let version = u64::from(appended.version.0);
    Reply::numbers("VERSION", &[appended.position, version])
}

// The reply to a batch that is appended to a cube.
fn append_batch<P: Desk>(alloc: Global, desk: &mut P, cube: CubeId, batch: Batch) -> Reply
    requires known { cube < length (P.seen desk.old).cache.setting.catalog.cubes }
    requires fit { IsTrue (is_batch (P.seen desk.old).cache.setting.catalog cube batch) }
    ensures { (asked : List Fetched) → (position : Option ℕ)
        × (let around : Dealing = record {
          before = P.seen desk.old;
          after = P.seen desk.new;
          asked = asked;
        } in GivesVersion around cube batch position result
        ⊎ RefusesRows around cube batch position result ⊎ LacksMemory around position result) }
{
    match desk.append(cube, batch) {
        Ok(appended) => reply_to_appended(appended),
        Err(AppendFault::OutOfMemory) => Reply::no_memory(),
        Err(fault) => reply_to_append_fault(alloc, &fault),
    }
}

// The reply to an append of what a file holds.
fn append_bytes<P: Desk>(
    alloc: Global,
    desk: &mut P,
    catalog: &Catalog,
    cube: CubeId,
    bytes: &[u8],
) -> Reply
    requires catalog { catalog.now ≡ (P.seen desk.old).cache.setting.catalog }
    requires known { cube < length catalog.now.cubes }
    ensures { (asked : List Fetched) → (position : Option ℕ)
        × (let around : Dealing = record {
          before = P.seen desk.old;
          after = P.seen desk.new;
          asked = asked;
        } in AppendsRows around cube (batch_of catalog.now cube bytes.now) position result
        ⊎ LacksMemory around position result) }
{
    match read_batch(alloc, catalog, cube, bytes) {
        Ok(batch) => append_batch(alloc, desk, cube, batch),
        Err(BatchFault::OutOfMemory) => Reply::no_memory(),
        Err(fault) => reply_to_batch_fault(alloc, &fault),
    }
}

// The reply to an append of a file to a cube. The file is asked for once.
fn append_file<P: Desk, D: Depot>(
    alloc: Global,
    desk: &mut P,
    depot: &mut D,
    catalog: &Catalog,
    cube: CubeId,
    file: &str,
) -> Reply
    requires catalog { catalog.now ≡ (P.seen desk.old).cache.setting.catalog }
    requires known { cube < length catalog.now.cubes }
    ensures reply { (position : Option ℕ) × (asked : List Fetched)
        × (D.answers depot.new ≡ D.answers depot.old ++ asked)
        × AreTheirs (D.files depot.old) asked
        × AppendsTo
        (record { before = P.seen desk.old; after = P.seen desk.new; asked = asked })
        cube file.now position result }
    ensures files { D.files depot.new ≡ D.files depot.old }
{
    match depot.fetch(alloc, file) {
        Ok(bytes) => append_bytes(alloc, desk, catalog, cube, bytes.as_slice()),
        Err(DepotRefusal::Missing) => Reply::made(named_line(alloc, "ERR 10 FILE", file)),
        Err(DepotRefusal::Failed) => Reply::made(named_line(alloc, "ERR 11 SOURCE", file)),
        Err(DepotRefusal::OutOfMemory) => Reply::no_memory(),
    }
}

/// The reply to an append. The cube is looked up first: where no cube has the name, no file is asked for.
pub(crate) fn reply_to_append<P: Desk, D: Depot>(
    alloc: Global,
    desk: &mut P,
    depot: &mut D,
    catalog: &Catalog,
    argument: &AppendArgument,
) -> Reply
    requires catalog { catalog.now ≡ (P.seen desk.old).cache.setting.catalog }
    ensures reply { (position : Option ℕ) × (asked : List Fetched)
        × (D.answers depot.new ≡ D.answers depot.old ++ asked)
        × AreTheirs (D.files depot.old) asked
        × AnswersAppend
        (record { before = P.seen desk.old; after = P.seen desk.new; asked = asked })
        argument.now (find_cube catalog.now argument.now.cube) position result }
    ensures files { D.files depot.new ≡ D.files depot.old }
{
    match catalog.find_cube(argument.cube.as_str()) {
        Some(cube) => append_file(alloc, desk, depot, catalog, cube, argument.file.as_str()),
        None => Reply::made(named_line(alloc, "ERR 5 CUBE", argument.cube.as_str())),
    }
}
