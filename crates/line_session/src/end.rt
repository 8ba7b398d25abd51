//! How a session ends.

/// The greatest number of bytes that a session may be told to take.
pub const BYTE_LIMIT: u64 = 1_099_511_627_776;

/// How a session ended.
#[derive(Clone, Copy, Debug, PartialEq, Eq)]
pub enum SessionEnd {
    /// A line asked for its end.
    Quit,
    /// The input was read to its end.
    EndOfInput,
    /// A line was too long.
    LongLine,
    /// More bytes came than may be lines, and none of the lines before ended the session.
    Budget,
    /// The input could not be read.
    ReceiveFault,
    /// A reply could not be sent whole.
    SendFault,
    /// There was no memory to begin.
    Memory,
}
