//! A session: lines that come over a link, each with its reply, asked of a desk at a cache.
//!
//! What a session is stands in `specs/`: what a desk's calls add to what its seat has seen (`Desks`), what is replied to a
//! line (`Replies`), which lines of an input are handled (`Sessions`), and what passes over the link (`Conversations`).
#![tactic(auto)]

mod agg;
mod append;
mod desk;
mod end;
mod flush;
mod handle;
pub mod laws;
mod query;
mod reply;
mod session;
mod show;
mod tools;

pub use desk::Desk;
pub use end::{BYTE_LIMIT, SessionEnd};
pub use session::serve;
pub use tools::{Tools, tools_are_shared};
