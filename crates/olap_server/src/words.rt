//! The words of a command line.

/// The words of a command line after the program's name, as the system gave them.
#[derive(Drop)]
pub enum Words {
    /// All of them.
    Read(Vec<String>),
    /// One of them is not UTF-8, so they are no command line.
    NotText,
    /// There was no memory for them.
    OutOfMemory,
}
