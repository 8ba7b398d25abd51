//! What is replied to the command AGG.
ghost use Rattle.std.specs.Prelude.{◌≡◌, ◌+◌, [], ℕ, Option};
ghost use Rattle.olap_meaning.specs.Catalog as meaning;
ghost use Rattle.query_meaning.specs.Replies.{built_reply};
ghost use Rattle.input_lines.specs.Requests.{Agg};
ghost use Rattle.line_session.specs.Replies.{AnswersAgg, Dealing, IsRead};

use crate::desk::Desk;
use crate::reply::Reply;
use fact_versions::Steps;
use history_core::AggBuilt;
use olap_catalog::Catalog;
use olap_meaning::{OutOfMemory, named_line};
use std::alloc::Global;
use std::sync::ledger::Ledger;

// The reply where a table was built. It takes no memory.
#[tactic(auto, using(std::proofs::Common::append_assoc))]
fn reply_to_built(built: AggBuilt) -> Reply
    ensures { result ≡ built_reply built.position built.version built.groups }
{
    let version = u64::from(built.version.0);
    Reply::numbers("AGG", &[built.position, version, built.groups])
}

/// The reply to an AGG: the aggregate table of the name is built at a desk. Only that no table has the name takes memory to
/// tell.
pub(crate) fn reply_to_agg<P: Desk, L: Ledger>(
    alloc: Global,
    desk: &mut P,
    catalog: &Catalog,
    name: &str,
    steps: &mut Steps<L>,
) -> Reply
    requires catalog { catalog.now ≡ (P.seen desk.old).cache.setting.catalog }
    ensures reply { (position : Option ℕ) × (read : ℕ) × (steps.new ≡ steps.old + read)
        × (let around : Dealing = record {
          before = P.seen desk.old;
          after = P.seen desk.new;
          asked = [];
        } in AnswersAgg around name.now (meaning.find_agg catalog.now name.now) position result
        × IsRead around (Agg name.now) position read) }
{
    match catalog.find_agg(name) {
        Some(table) => match desk.build_agg(table, steps) {
            Ok(built) => reply_to_built(built),
            Err(OutOfMemory) => Reply::no_memory(),
        },
        None => Reply::made(named_line(alloc, "ERR 16 AGG", name)),
    }
}
