//! How results are laid out as text: the titles of members and tuples, grids, and what is kept; and grids read back.
//!
//! What shows values and what reads grids back is given on from below.
#![tactic(auto)]

mod kept;
mod layout;
mod places;
mod rows;
mod titles;

pub use grid_reader::{GridFault, read_grid};
pub use kept::cache_text;
pub use layout::grid;
pub use query_meaning::{Grid, GridRow};
pub use shown_values::{Formatter, GivesTexts, Showing, shown_plainly};
pub use titles::{member_title, tuple_title};
