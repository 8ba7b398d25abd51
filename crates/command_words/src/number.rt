//! Numbers that options give.
ghost use Rattle.std.specs.Prelude.{◌≡◌, ◌==◌, ◌^◌, option_map, slice_index};
ghost use Rattle.olap_meaning.specs.Records.{digits_below};
ghost use Rattle.command_words.specs.Options as options;

// Whether a text begins with a plus sign, with which it is no number.
fn has_plus(text: &[u8]) -> bool
    ensures { result ≡ (slice_index text.now 0 == 43) }
{
    matches!(text, [b'+', ..])
}

// The number that ASCII digits spell, within 64 bits.
fn spelled_number(text: &str) -> Option<u64>
    ensures { result ≡ digits_below (2 ^ 64) text.now }
{
    if has_plus(text.as_bytes()) {
        return None;
    }
    text.parse::<u64>().ok()
}

// The number of 1 to 20 ASCII digits, up to this one.
fn number_to(most: u64, text: &str) -> Option<u64>
    ensures { result ≡ options.number_to most text.now }
{
    if text.len() > 20 {
        return None;
    }
    match spelled_number(text) {
        Some(number) if number <= most => Some(number),
        _ => None,
    }
}

/// The number that an option gives, up to this one, or the usual one where the option is not given.
pub(crate) fn number_or(most: u64, usual: u64, value: Option<&str>) -> Option<u64>
    ensures { result ≡ options.number_or most usual (option_map (λ text. text.now) value.entry) }
{
    match value {
        Some(text) => number_to(most, text),
        None => Some(usual),
    }
}
