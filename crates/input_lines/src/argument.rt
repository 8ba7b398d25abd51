//! The command of a line, and its argument.
ghost use Rattle.std.specs.Prelude.{◌≡◌, ◌⊎◌, ◌<◌, ◌≤◌, ◌+◌, ℕ, IfSome, bytes_eq, drop, get_or, length, not, option_map, position};
ghost use Rattle.std.specs.List.{position_or_len};
ghost use Rattle.query_meaning.specs.Requests.{argument_of, is_blank, is_letter};
ghost use Rattle.query_meaning.specs.Tokens.{in_capitals, is_white};

// Whether a byte is a space or a tab.
fn is_white(byte: u8) -> bool
    ensures { result ≡ is_white byte }
{
    byte == b' ' || byte == b'\t'
}

// Whether a byte is an ASCII letter.
fn is_letter(byte: u8) -> bool
    ensures { result ≡ is_letter byte }
{
    matches!(byte, b'A'..=b'Z' | b'a'..=b'z')
}

/// Whether a text is nothing but white.
pub(crate) fn is_blank(text: &[u8]) -> bool
    ensures { result ≡ is_blank text.now }
{
    text.iter().all(|byte| is_white(*byte))
}

// Where the first byte stands that is not white.
fn place_behind_white(text: &[u8]) -> Option<usize>
    ensures { result ≡ position (λ c. not (is_white c)) text.now }
{
    text.iter().position(|byte| !is_white(*byte))
}

// How much white a text begins with.
fn white_length(text: &[u8]) -> usize
    ensures value { result ≡ position_or_len (λ c. not (is_white c)) text.now }
    ensures within { result ≤ length text.now }
{
    match place_behind_white(text) {
        Some(place) => place,
        None => text.len(),
    }
}

// Where the first byte stands that is no letter.
fn place_behind_word(text: &[u8]) -> Option<usize>
    ensures { result ≡ position (λ c. not (is_letter c)) text.now }
{
    text.iter().position(|byte| !is_letter(*byte))
}

// How many letters a text begins with.
fn word_length(text: &[u8]) -> usize
    ensures value { result ≡ position_or_len (λ c. not (is_letter c)) text.now }
    ensures within { result ≤ length text.now }
{
    match place_behind_word(text) {
        Some(place) => place,
        None => text.len(),
    }
}

// Whether a text is this word in capital letters, except for the case of its letters.
fn is_word(text: &[u8], word: &[u8]) -> bool
    ensures { result ≡ bytes_eq (in_capitals text.now) word.now }
{
    if text.len() != word.len() {
        return false;
    }
    for i in 0..text.len() {
        if text[i].to_ascii_uppercase() != word[i] {
            return false;
        }
    }
    true
}

// Where the argument of a command begins in a line, by the command's word in capital letters.
fn argument_start(word: &[u8], line: &[u8]) -> Option<usize>
    ensures found { option_map (λ n. drop n line.now) result ≡ argument_of word.now line.now }
    ensures within { IfSome result (λ n. n ≤ length line.now) }
    ensures behind { IfSome result
        (λ n. (n ≡ length line.now)
        ⊎ ((i : ℕ) × (n ≡ i + 1) × (i < length line.now) × (get_or line.now i 0 < 128))) }
{
    let start = white_length(line);
    let end = start + word_length(&line[start..]);
    if !is_word(&line[start..end], word) {
        return None;
    }
    if end == line.len() {
        return Some(end);
    }
    if !is_white(line[end]) {
        return None;
    }
    Some(end + 1)
}

/// The argument of a command in a line, by the command's word in capital letters. None where the line has another word,
/// or no white after it.
pub(crate) fn argument_of<'a>(word: &str, line: &'a str) -> Option<&'a str>
    ensures found { option_map (λ text. text.now) result ≡ argument_of word.now line.now }
    ensures within { IfSome result (λ text. length text.now ≤ length line.now) }
{
    match argument_start(word.as_bytes(), line.as_bytes()) {
        Some(start) => Some(&line[start..]),
        None => None,
    }
}
