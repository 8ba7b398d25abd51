//! What comes next of an input.

/// What comes next of an input.
#[derive(Clone, Copy, Debug, PartialEq, Eq)]
pub enum Next {
    /// A line, which the reader lends until it is asked for the next one.
    Line,
    /// More bytes than a line may have, and no LF among them.
    TooLong,
    /// No byte is left.
    End,
    /// No LF is among the bytes that may be lines, and one byte more has come.
    Spent,
}

// What was found in the bytes that are held.
#[derive(Clone, Copy)]
pub(crate) enum Found {
    // An LF, with this many bytes before it.
    Lf(usize),
    // More bytes than a line may have before an LF.
    TooLong,
    // Neither yet.
    Neither,
    // Neither, and all that may be lines has come.
    Spent,
}
