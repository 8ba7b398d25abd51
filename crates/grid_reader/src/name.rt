//! Name texts read back: leniently, then written again and compared.
ghost use Rattle.std.specs.Prelude.{ℕ, ◌≡◌, ◌<◌, ◌++◌, ◌∷◌, List, IfOk, IfSome, IsNone, IsSomeAnd, length};
ghost use Rattle.olap_meaning.specs.Texts.{name_text};
ghost use Rattle.query_meaning.specs.Titles.{TitleName, IsTitleName};
ghost use Rattle.grid_reader.specs.NameBytes.{name_byte, unescaped, NoBracket, IsNameTo};

use olap_meaning::{OutOfMemory, name_text};
use std::alloc::Global;

// What a letter after a backslash stands for.
fn unescaped(letter: u8) -> u8
    ensures { result ≡ unescaped letter }
{
    match letter {
        b't' => b'\t',
        b'r' => b'\r',
        b'n' => b'\n',
        _ => letter,
    }
}

// The byte of a name with which a text begins, and what stands after it; None at the end of a name.
fn first_byte(text: &[u8]) -> Option<(u8, &[u8])>
    ensures byte { (b : ℕ) (later : List ℕ) → text.now ≡ name_byte b ++ later
        → IsSomeAnd result (λ found. (found.0 ≡ b) × (found.1.now ≡ later)) }
    ensures end { (rest : List ℕ) → text.now ≡ 93 ∷ rest → NoBracket rest → IsNone result }
    ensures shorter { IfSome result (λ found. length found.1.now < length text.now) }
{
    match text {
        [b']', b']', rest @ ..] => Some((b']', rest)),
        [b']', ..] => None,
        [b'\\', letter, rest @ ..] => Some((unescaped(*letter), rest)),
        [byte, rest @ ..] => Some((*byte, rest)),
        [] => None,
    }
}

// The bytes of a name, from after its first bracket. Where no name ends there, they are any.
fn name_bytes(alloc: Global, text: &[u8]) -> Result<Vec<u8>, OutOfMemory>
    ensures { IfOk result (λ read. (name rest : List ℕ) → IsNameTo text.now name rest
        → read.items ≡ name) }
{
    let mut name = Vec::new(alloc);
    let mut rest = text;
    while let Some((byte, behind)) = first_byte(rest) {
        name.push(byte)?;
        rest = behind;
    }
    Ok(name)
}

/// What stands after the name text with which a text begins. None where none begins it.
pub(crate) fn after_name(alloc: Global, text: &[u8]) -> Result<Option<&[u8]>, OutOfMemory>
    ensures only { IfOk result (λ found. IfSome found (λ behind. (one : TitleName)
        × IsTitleName one × (text.now ≡ name_text one.name ++ behind.now))) }
    ensures wherever { IfOk result (λ found. (one : TitleName) (rest : List ℕ)
        → IsTitleName one → NoBracket rest → text.now ≡ name_text one.name ++ rest
        → IsSomeAnd found (λ behind. behind.now ≡ rest)) }
{
    let [b'[', inner @ ..] = text else {
        return Ok(None);
    };
    let bytes = name_bytes(alloc, inner)?;
    let Ok(name) = String::from_utf8(bytes) else {
        return Ok(None);
    };
    if name.is_empty() {
        return Ok(None);
    }
    let written = name_text(alloc, name.as_str())?;
    Ok(text.strip_prefix(written.as_str().as_bytes()))
}
