//! Tokens, and what a character begins.

use olap_meaning::Text;

/// What a character begins.
#[derive(Clone, Copy, Debug, PartialEq, Eq)]
pub enum Class {
    /// Nothing: a space or a tab.
    White,
    /// A word: a letter or digit of ASCII.
    Letter,
    /// A sign, which is a token by itself.
    Sign,
    /// A name: its opening bracket.
    Open,
    /// No token.
    Other,
}

/// A token.
#[derive(Drop)]
pub enum Token {
    /// One or more ASCII letters and digits, in capital letters.
    Word(Text),
    Sign(char),
    /// A name, with a `]` for each `]]` between its brackets.
    Name(Text),
}
