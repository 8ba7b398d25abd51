//! Which name among others a name means.
ghost use Rattle.std.specs.Prelude.{◌≡◌, ◌<◌, length, position, IfSome};
ghost use Rattle.olap_meaning.specs.Catalog as meaning;
ghost use Rattle.catalog_tables.specs.Names.{is_alike};

use olap_meaning::Text;

/// How alike a name has to be to another that it means.
#[derive(Clone, Copy, Debug, PartialEq, Eq)]
pub enum Likeness {
    /// The same.
    Exact,
    /// The same except for the case of ASCII letters.
    ButCase,
}

impl Likeness {
    /// Whether a name is so much like another.
    pub fn holds(self, name: &str, other: &str) -> bool
        ensures { result ≡ is_alike self name.now other.now }
    {
        match self {
            Likeness::Exact => name == other,
            Likeness::ButCase => name.eq_ignore_ascii_case(other),
        }
    }
}

/// The place of the name that a name means: of its first exact match, or else of its first match except for case.
pub fn match_of(name: &str, names: &[Text]) -> Option<usize>
    ensures matched { result ≡ meaning.match_of name.now names.now }
    ensures within { IfSome result (λ i. i < length names.now) }
{
    match first_match(Likeness::Exact, name, names) {
        Some(place) => Some(place),
        None => first_match(Likeness::ButCase, name, names),
    }
}

fn first_match(likeness: Likeness, name: &str, names: &[Text]) -> Option<usize>
    ensures { result ≡ position (is_alike likeness name.now) names.now }
{
    names
        .iter()
        .position(|other| likeness.holds(name, other.as_str()))
}
