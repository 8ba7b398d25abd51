//! Which keyword, sign or name a token is, and how keywords begin.
ghost use Rattle.std.specs.Prelude.{◌≡◌, ◌⊎◌, List, ℕ, MatchBool, MatchOption};
ghost use Rattle.query_meaning.specs.declared.token.Token.TheVariants.{Word, Sign, Name};
ghost use Rattle.query_meaning.specs.Keywords.{keyword_text};
ghost use Rattle.text_forms.specs.Words.{Begins};

use olap_meaning::Text;
use query_meaning::{Keyword, Token};

// What a keyword is written as, in capital letters.
fn word_of(keyword: Keyword) -> &'static str
    ensures { result.now ≡ keyword_text keyword }
{
    match keyword {
        Keyword::Select => "SELECT",
        Keyword::On => "ON",
        Keyword::Columns => "COLUMNS",
        Keyword::Zero => "0",
        Keyword::Rows => "ROWS",
        Keyword::One => "1",
        Keyword::From => "FROM",
        Keyword::Where => "WHERE",
        Keyword::Non => "NON",
        Keyword::Empty => "EMPTY",
        Keyword::Crossjoin => "CROSSJOIN",
        Keyword::Members => "MEMBERS",
        Keyword::Children => "CHILDREN",
        Keyword::Member => "MEMBER",
        Keyword::Range => "RANGE",
        Keyword::Measures => "MEASURES",
        Keyword::Union => "UNION",
    }
}

// Whether a word begins so.
fn begins(front: &[u8], word: &[u8]) -> bool
    ensures { MatchBool result (Begins front.now word.now) (¬ Begins front.now word.now) }
{
    word.starts_with(front)
}

/// Whether a keyword begins so.
pub fn begins_keyword(front: &str, keyword: Keyword) -> bool
    ensures { MatchBool result
        (Begins front.now (keyword_text keyword))
        (¬ Begins front.now (keyword_text keyword)) }
{
    begins(front.as_bytes(), word_of(keyword).as_bytes())
}

// Whether a word in capital letters is the keyword.
fn is_text(word: &str, keyword: Keyword) -> bool
    ensures { MatchBool result
        (word.now ≡ keyword_text keyword)
        (¬ word.now ≡ keyword_text keyword) }
{
    word == word_of(keyword)
}

/// Whether the token is the keyword.
pub fn is_word(token: &Token, keyword: Keyword) -> bool
    ensures { MatchBool result
        (token.now ≡ Word (keyword_text keyword))
        (¬ token.now ≡ Word (keyword_text keyword)) }
{
    match token {
        Token::Word(word) => is_text(word.as_str(), keyword),
        Token::Sign(_) => false,
        Token::Name(_) => false,
    }
}

/// Whether the token is the sign.
pub fn is_sign(token: &Token, sign: char) -> bool
    ensures { MatchBool result (token.now ≡ Sign sign) (¬ token.now ≡ Sign sign) }
{
    match token {
        Token::Sign(other) => *other == sign,
        Token::Word(_) => false,
        Token::Name(_) => false,
    }
}

/// The name that the token is.
pub fn name_of(token: Token) -> Option<Text>
    ensures { MatchOption result
        ((name : List ℕ) → ¬ token ≡ Name name)
        (λ name. token ≡ Name name) }
{
    match token {
        Token::Name(name) => Some(name),
        Token::Word(_) => None,
        Token::Sign(_) => None,
    }
}

/// Whether one of two keywords begins so.
pub fn begins_either(front: &str, first: Keyword, second: Keyword) -> bool
    ensures { MatchBool result
        (Begins front.now (keyword_text first) ⊎ Begins front.now (keyword_text second))
        ((¬ Begins front.now (keyword_text first)) × (¬ Begins front.now (keyword_text second))) }
{
    if begins_keyword(front, first) {
        return true;
    }
    begins_keyword(front, second)
}
