//! What a segment holds: which cells its header covers, and which values it allows.
#![tactic(auto)]

mod columns;
mod copies;
mod header;
mod mask;
mod values;
mod widener;

pub use columns::{allows_at, are_columns, columns_rise, names_column};
pub use copies::{copy_cell, copy_header};
pub use header::{covers, drops, is_allowed, is_header, same_columns};
pub use mask::{cell_mask, header_mask};
pub use olap_meaning::{Allowed, Header};
pub use values::{allows, holds, is_set};
pub use widener::{
    AllowsValues, Widener, Widening, are_wanted, plain_widener, widened_plainly,
    wideners_are_shared,
};
