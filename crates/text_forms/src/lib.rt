//! Reads texts of a form a character at a time, and tells the byte at which a text stops.
//!
//! A form is a trait: a state that takes a character or refuses it. What its contracts say of one character
//! makes what the contract of `read` says of a whole text.
//!
//! One form is that of a text of tokens, for any grammar over them. A token is a word, a sign or a name in brackets. White,
//! which is spaces and tabs, may stand between any two tokens, before the first and after the last, and must stand between
//! two words. A grammar that wants operators of two signs, or numbers with a sign, adds a class of characters and a mode.
//! Grammars share a stack of what is open, and the tests of tokens.
#![tactic(auto)]

mod class;
mod grammar;
mod keyword;
mod lexer;
mod mode;
mod stack;

ghost use Rattle.std.specs.Prelude.{◌≡◌, ◌<◌, ℕ, List, IfOk, IfSome, OnErr, length, option_map};
ghost use Rattle.text_forms.specs.Forms.{Steps, Finishes, GoesOn, Answers};

pub use grammar::Grammar;
pub use keyword::{begins_either, begins_keyword, is_sign, is_word, name_of};
pub use lexer::{Lexer, read_tokens};
pub use mode::Mode;
use olap_meaning::OutOfMemory;
pub use query_meaning::{Class, Token};
pub use stack::Stack;
use std::alloc::Global;

/// A form of text, in the middle of a text.
pub trait Form: Drop {
    /// What a text is read as.
    type Value: Drop;

    /// What that means.
    ghost Meaning: { Type 0 };

    /// What a clause sees of a value.
    ghost meaning: { Self.Value → Meaning };

    /// The characters that may still come from the byte `at` on, and what the whole then means.
    ghost rest: { Self → ℕ → List ℕ → Meaning → Type 0 };

    /// What holds of each state that is reached.
    ghost stands: { Self → Type 0 };

    /// The bytes at which a character may begin: all of them, where a form does not keep places.
    ghost places: { ℕ → Type 0 };

    /// What a want of memory says: `⊥` where a form takes none.
    ghost lacks: { Type 0 };

    /// The state after a character, which begins at the byte `at`. None where it may not come.
    fn step(self, alloc: Global, at: usize, c: char) -> Result<Option<Self>, OutOfMemory>
        requires stands { stands self }
        requires place { places at }
        ensures kept { IfOk result (λ next. IfSome next stands) }
        ensures steps { IfOk result (λ next. Steps rest self at c next) }
        ensures memory { OnErr result lacks };

    /// What the text is, if it may end here.
    fn finish(self, alloc: Global) -> Result<Option<Self::Value>, OutOfMemory>
        requires { stands self }
        ensures finishes { IfOk result
            (λ found. (at : ℕ) → Finishes (rest self at) (option_map meaning found)) }
        ensures memory { OnErr result lacks };

    /// From each state some text goes on to a whole: the closing text.
    ghost closes: { (state : Self) (at : ℕ) → stands state → GoesOn (rest state at) };
}

/// Why a text is not read.
#[derive(Clone, Copy, Debug, PartialEq, Eq)]
pub enum ReadFault {
    /// The text is none of the form. Its front up to this byte is the longest with which a text of the form begins.
    StopsAt { byte: usize },
    OutOfMemory,
}

/// What a text of a form is, or the byte at which it stops.
pub fn read<F: Form>(alloc: Global, form: F, text: &str) -> Result<F::Value, ReadFault>
    requires stands { F.stands form }
    requires places { (i : ℕ) → i < length text.now → F.places i }
    ensures { Answers F.meaning (F.rest form) F.lacks text.now result }
{
    let mut form = form;
    let mut byte = 0;
    for c in text.chars() {
        match form.step(alloc, byte, c) {
            Ok(Some(next)) => form = next,
            Ok(None) => return Err(ReadFault::StopsAt { byte }),
            Err(_) => return Err(ReadFault::OutOfMemory),
        }
        byte += c.len_utf8();
    }
    match form.finish(alloc) {
        Ok(Some(value)) => Ok(value),
        Ok(None) => Err(ReadFault::StopsAt { byte }),
        Err(_) => Err(ReadFault::OutOfMemory),
    }
}
