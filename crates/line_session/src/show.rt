//! What is replied to a look at what is kept.
ghost use Rattle.std.specs.Prelude.{◌≡◌, ℕ, [], Option};
ghost use Rattle.line_session.specs.Replies.{AnswersShow};

use crate::desk::Desk;
use crate::reply::Reply;
use olap_catalog::Catalog;
use olap_meaning::OutOfMemory;
use result_layout::cache_text;
use std::alloc::Global;

/// The reply to a look at what is kept: a desk shows it, and it is told as a text.
pub(crate) fn reply_to_show<P: Desk>(alloc: Global, desk: &mut P, catalog: &Catalog) -> Reply
    requires { catalog.now ≡ (P.seen desk.old).cache.setting.catalog }
    ensures { (position : Option ℕ)
        × AnswersShow (record { before = P.seen desk.old; after = P.seen desk.new; asked = [] })
        position result }
{
    match desk.show() {
        Ok(view) => Reply::made(cache_text(alloc, catalog, &view)),
        Err(OutOfMemory) => Reply::no_memory(),
    }
}
