//! Reads a text into tokens, a character at a time.
ghost use Rattle.std.specs.Prelude.{◌≡◌, ◌<◌, ℕ, IfOk, IfSome, length, option_map};
ghost use Rattle.text_forms.specs.Forms.{Answers};
ghost use Rattle.text_forms.specs.Modes.{Stepped, MayCome, FinishesAt, IsPlaced, Left, Reads};
ghost use Rattle.text_forms.specs.Grammars.{Took};
ghost use Rattle.text_forms.specs.declared.mode.Mode.TheVariants.{Between};

use crate::class::{class_of, is_letter};
use crate::grammar::Grammar;
use crate::mode::Mode;
use crate::{Form, ReadFault, read};
use olap_meaning::{OutOfMemory, Text};
use query_meaning::{Class, Token};
use std::alloc::Global;

/// A reader of tokens in the middle of a text.
#[derive(Drop)]
pub struct Lexer<G> {
    grammar: G,
    mode: Mode,
}

// Reads a character between tokens.
fn begin<G: Grammar>(
    alloc: Global,
    grammar: G,
    after_word: bool,
    at: usize,
    c: char,
) -> Result<Option<(G, Mode)>, OutOfMemory>
    requires stands { G.stands grammar }
    requires place { G.places at }
    ensures kept { IfOk result (λ next. IfSome next (λ n. G.stands n.0)) }
    ensures placed { IfOk result (λ next. IfSome next (λ n. IsPlaced G.places n.1)) }
    ensures goes_on { IfOk result (λ next. IfSome next (λ n. MayCome (G.rest n.0) n.1)) }
    ensures steps { IfOk result
        (λ next. Stepped G.rest (G.rest grammar) (Between after_word) at c next) }
{
    match class_of(c) {
        Class::White => Ok(Some((grammar, Mode::Between { after_word: false }))),
        Class::Letter => {
            if after_word {
                return Ok(None);
            }
            let mut letters = Text::new(alloc);
            letters.push(c.to_ascii_uppercase())?;
            if !grammar.wants_word(letters.as_str()) {
                return Ok(None);
            }
            Ok(Some((grammar, Mode::InWord { at, letters })))
        }
        Class::Sign => match grammar.take(alloc, at, Token::Sign(c))? {
            Some(next) => Ok(Some((next, Mode::Between { after_word: false }))),
            None => Ok(None),
        },
        Class::Open => {
            if !grammar.wants_name() {
                return Ok(None);
            }
            let name = Text::new(alloc);
            Ok(Some((grammar, Mode::InName { at, name })))
        }
        Class::Other => Ok(None),
    }
}

// Reads a character.
fn step<G: Grammar>(
    alloc: Global,
    grammar: G,
    mode: Mode,
    at: usize,
    c: char,
) -> Result<Option<(G, Mode)>, OutOfMemory>
    requires stands { G.stands grammar }
    requires place { G.places at }
    requires placed { IsPlaced G.places mode }
    requires goes_on { MayCome (G.rest grammar) mode }
    ensures kept { IfOk result (λ next. IfSome next (λ n. G.stands n.0)) }
    ensures placed { IfOk result (λ next. IfSome next (λ n. IsPlaced G.places n.1)) }
    ensures goes_on { IfOk result (λ next. IfSome next (λ n. MayCome (G.rest n.0) n.1)) }
    ensures steps { IfOk result (λ next. Stepped G.rest (G.rest grammar) mode at c next) }
{
    match mode {
        Mode::Between { after_word } => begin(alloc, grammar, after_word, at, c),
        Mode::InWord {
            at: from,
            mut letters,
        } => {
            if is_letter(c) {
                letters.push(c.to_ascii_uppercase())?;
                if !grammar.wants_word(letters.as_str()) {
                    return Ok(None);
                }
                return Ok(Some((grammar, Mode::InWord { at: from, letters })));
            }
            match grammar.take(alloc, from, Token::Word(letters))? {
                Some(next) => begin(alloc, next, true, at, c),
                None => Ok(None),
            }
        }
        Mode::InName { at: from, mut name } => {
            if c == ']' {
                return Ok(Some((grammar, Mode::Closing { at: from, name })));
            }
            name.push(c)?;
            Ok(Some((grammar, Mode::InName { at: from, name })))
        }
        Mode::Closing { at: from, mut name } => {
            if c == ']' {
                name.push(c)?;
                return Ok(Some((grammar, Mode::InName { at: from, name })));
            }
            if name.is_empty() {
                return Ok(None);
            }
            match grammar.take(alloc, from, Token::Name(name))? {
                Some(next) => begin(alloc, next, false, at, c),
                None => Ok(None),
            }
        }
    }
}

// The tree, if the text may end here.
fn end<G: Grammar>(alloc: Global, grammar: G, mode: Mode) -> Result<Option<G::Tree>, OutOfMemory>
    requires stands { G.stands grammar }
    requires placed { IsPlaced G.places mode }
    ensures { IfOk result (λ found. FinishesAt (G.rest grammar) mode (option_map G.meaning found)) }
{
    match mode {
        Mode::Between { after_word: _ } => grammar.finish(alloc),
        Mode::InWord { at: from, letters } => {
            match grammar.take(alloc, from, Token::Word(letters))? {
                Some(next) => next.finish(alloc),
                None => Ok(None),
            }
        }
        Mode::InName { at: _, name: _ } => Ok(None),
        Mode::Closing { at: from, name } => {
            if name.is_empty() {
                return Ok(None);
            }
            match grammar.take(alloc, from, Token::Name(name))? {
                Some(next) => next.finish(alloc),
                None => Ok(None),
            }
        }
    }
}

impl<G: Grammar> Form for Lexer<G> {
    type Value = G::Tree;

    ghost use Rattle.text_forms.specs.Closings.{lexer_closes};

    ghost Meaning = { G.Meaning };

    ghost meaning = { G.meaning };

    ghost rest = { λ s. Left (G.rest s.grammar) s.mode };

    ghost stands = { λ s. G.stands s.grammar × IsPlaced G.places s.mode × MayCome (G.rest s.grammar) s.mode };

    ghost places = { G.places };

    ghost lacks = { Unit {0} };

    fn step(self, alloc: Global, at: usize, c: char) -> Result<Option<Lexer<G>>, OutOfMemory> {
        match step(alloc, self.grammar, self.mode, at, c)? {
            Some((grammar, mode)) => Ok(Some(Lexer { grammar, mode })),
            None => Ok(None),
        }
    }

    fn finish(self, alloc: Global) -> Result<Option<G::Tree>, OutOfMemory> {
        end(alloc, self.grammar, self.mode)
    }

    ghost closes = { λ s at h. lexer_closes (G.rest s.grammar) (G.closes s.grammar h.0) s.mode at h.2 };
}

/// What the tokens of a text are in a grammar, or the byte at which the text stops.
pub fn read_tokens<G: Grammar>(alloc: Global, grammar: G, text: &str) -> Result<G::Tree, ReadFault>
    requires stands { G.stands grammar }
    requires places { (i : ℕ) → i < length text.now → G.places i }
    ensures { Answers G.meaning (Reads (G.rest grammar)) (Unit {0}) text.now result }
{
    read(
        alloc,
        Lexer {
            grammar,
            mode: Mode::Between { after_word: false },
        },
        text,
    )
}
