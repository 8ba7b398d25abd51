//! The lines that tell what is wrong with the files of a schema: one for each kind of file; and what a reply tells of a
//! batch that is refused.
#![tactic(auto)]

mod aggregates;
mod facts;
mod refusals;
mod schemas;
mod shared;
mod tables;

pub use aggregates::aggregate_line;
pub use facts::{batch_line, fact_line, rows_line};
pub use refusals::{refused_append_text, refused_batch_text};
pub use schemas::schema_line;
pub use shared::{no_column_text, not_csv_text, not_number_text, too_many_rows_text};
pub use tables::table_line;
