//! Keywords of queries and of flushes.

/// A keyword of a query (MDX, "SELECT Statement") or of a flush. Its letters may be of either case. The numbers of the
/// two axes are words too.
#[derive(Clone, Copy, Debug, PartialEq, Eq)]
pub enum Keyword {
    Select,
    On,
    Columns,
    Zero,
    Rows,
    One,
    From,
    Where,
    Non,
    Empty,
    Crossjoin,
    Members,
    Children,
    Member,
    Range,
    Measures,
    Union,
}
