//! Words that no command line has.
ghost use Rattle.std.specs.Prelude.{◌≡◌, ◌==◌, map, not, is_some, position, string_bytes};
ghost use Rattle.std.specs.List.{list_any};
ghost use Rattle.command_words.specs.Options.{option_parts};
ghost use Rattle.command_words.specs.OddWords.{is_odd};

// The place of the first `=`.
fn equals_place(text: &[u8]) -> Option<usize>
    ensures { result ≡ position (λ byte. byte == 61) text.now }
{
    text.iter().position(|byte| *byte == b'=')
}

// Whether an option's word, after its hyphens, ends with its first `=`.
#[tactic(auto, using(crate::proofs::EqualsFacts::equals_some, crate::proofs::EqualsFacts::equals_none))]
fn has_no_value(text: &[u8]) -> bool
    ensures { result ≡ not (is_some (option_parts text.now)) }
{
    match equals_place(text) {
        Some(i) => text.len() - i == 1,
        None => false,
    }
}

// Whether a word can be no option and no value.
fn is_odd_word(word: &str) -> bool
    ensures { result ≡ is_odd word.now }
{
    match word.as_bytes() {
        [] => true,
        [b'-', b'-', text @ ..] if !text.is_empty() => has_no_value(text),
        [b'-', ..] => true,
        _ => false,
    }
}

// Whether one of the words can be no option and no value.
pub(crate) fn has_odd_word(words: &[String]) -> bool
    ensures { result ≡ list_any is_odd (map string_bytes words.now) }
{
    for word in words {
        if is_odd_word(word.as_str()) {
            return true;
        }
    }
    false
}
