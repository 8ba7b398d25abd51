//! What a character begins.
ghost use Rattle.std.specs.Prelude.{◌≡◌, ◌≢◌, MatchBool};
ghost use Rattle.query_meaning.specs.Tokens.{class};
ghost use Rattle.query_meaning.specs.declared.token.Class.TheVariants.{Letter};

use query_meaning::Class;

// The class of a character.
#[tactic(auto, unfolding(query_meaning::specs::Tokens::class))]
pub(crate) fn class_of(c: char) -> Class
    ensures { result ≡ class c }
{
    match c {
        ' ' | '\t' => Class::White,
        '0'..='9' | 'A'..='Z' | 'a'..='z' => Class::Letter,
        ',' | '.' | ':' | '(' | ')' | '{' | '}' | '*' | '+' => Class::Sign,
        '[' => Class::Open,
        _ => Class::Other,
    }
}

// Whether a word goes on with a character.
pub(crate) fn is_letter(c: char) -> bool
    ensures { MatchBool result (class c ≡ Letter) (class c ≢ Letter) }
{
    matches!(class_of(c), Class::Letter)
}
