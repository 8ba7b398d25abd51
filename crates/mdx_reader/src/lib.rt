//! Reads queries (MDX, "SELECT Statement"):
//!
//! ```text
//! query  = SELECT axis ON (COLUMNS | 0) [ "," axis ON (ROWS | 1) ] FROM name [ WHERE slicer ]
//! axis   = [ NON EMPTY ] set
//! set    = "{" [ set { "," set } ] "}" | CROSSJOIN "(" set "," set ")" | tuple | path [ "." (MEMBERS | CHILDREN) ]
//! tuple  = "(" path { "," path } ")"
//! slicer = path | tuple
//! path   = name { "." name }
//! name   = "[" one or more characters, "]" written as "]]" "]"
//! ```
//!
//! White, which is spaces and tabs, may stand before each token and at the end, and must stand between two keywords.
//! Keywords ignore ASCII case. White inside a name belongs to the name. The outermost set has depth 1, a set in braces or
//! in a Crossjoin is one deeper, and none has a depth above 16.
#![tactic(auto)]

mod in_axes;
mod in_paths;
mod in_sets;
mod kept;
mod path;
mod place;
mod query_reader;

pub use path::{PathFault, read_path};
pub use query_meaning::{AxisText, Picks, Query, SetShape, SetText, SetTexts};
pub use query_reader::{QueryFault, read_query};
