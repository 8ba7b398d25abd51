//! How a run ended.
ghost use Rattle.std.specs.Prelude.{◌≡◌};
ghost use Rattle.olap_server.specs.Run.{number_of};

/// How a run ended. Its number is the exit status of the program.
#[derive(Clone, Copy, Debug, PartialEq, Eq)]
pub enum Status {
    /// The command was carried out.
    Done = 0,
    /// The words are no command line.
    Usage = 2,
    /// A file that was read has a fault.
    Schema = 3,
    /// A file could not be read.
    Source = 4,
    /// The output could not be written.
    Sink = 5,
    /// Want of memory.
    Memory = 6,
    /// A file is not there.
    NoFile = 8,
    /// More bytes came than a session takes.
    Budget = 9,
}

impl Status {
    /// The exit status.
    pub fn number(self) -> u8
        ensures { result ≡ number_of self }
    {
        self as u8
    }
}
