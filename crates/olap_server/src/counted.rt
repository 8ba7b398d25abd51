//! The top call with a counter of its own.
ghost use Rattle.std.specs.Prelude.{◌≡◌, ◌≢◌, ℕ, IfSome, None};
ghost use Rattle.olap_meaning.specs.Legal.{Legal};
ghost use Rattle.olap_server.specs.Run.{IsCutOff, IsTold, RunsSession, around_of};
ghost use Rattle.line_session.specs.Tools.{tools_of};

use crate::sessions::Ended;
use crate::status::Status;
use crate::top_call::run;
use crate::words::Words;
use fact_versions::Steps;
use line_session::Tools;
use outside::{Depot, Link};
use segment_header::{AllowsValues, Widener};
use shown_values::{Formatter, GivesTexts};
use std::alloc::Global;
use std::sync::ledger::{Blank, Ledger};
use std::thread::Threads;

/// Carries out a command line as `run` does, with a counter of steps of its own. A program can not name the type of a counter
/// that it has itself, and so calls this. What a run costs is said of it, and not what its counter has counted.
pub fn carry_out<D: Depot, K: Link, L: Ledger>(
    rt: &(impl Threads + Sync),
    alloc: Global,
    words: &Words,
    depot: &mut D,
    link: &mut K,
    tools: &Tools,
    blank: Blank,
) -> Ended
    requires name { blank.name ≡ L.name }
    requires parts { blank.parts ≡ L.parts }
    requires one { blank.parts ≡ 1 }
    ensures session { IfSome result.history
        (λ history. RunsSession
        (tools_of (⟦<Formatter as GivesTexts>⟧.answers tools.now.formatter)
        (⟦<Widener as AllowsValues>⟧.answers tools.now.widener))
        words.now (D.files depot.old)
        (around_of D.answers K.talk K.left depot.old link.old)
        (around_of D.answers K.talk K.left depot.new link.new) history result.status) }
    ensures legal { IfSome result.history (λ history. Legal history.setting history.entries) }
    ensures told { result.history ≡ None → result.status ≢ Status.Sink
        → IsTold words.now (D.files depot.old)
        (around_of D.answers K.talk K.left depot.old link.old)
        (around_of D.answers K.talk K.left depot.new link.new) result.status }
    ensures cut_off { result.history ≡ None → result.status ≡ Status.Sink
        → IsCutOff words.now (D.files depot.old)
        (around_of D.answers K.talk K.left depot.old link.old)
        (around_of D.answers K.talk K.left depot.new link.new) }
{
    let mut steps: Steps<L> = Steps::new(blank);
    run(rt, alloc, words, depot, link, tools, &mut steps)
}
