//! The version of a graph's text, and the heading that tells it.
ghost use Rattle.std.specs.Prelude.{◌≡◌};
ghost use Rattle.graph_text.specs.Plain.{plain};
ghost use Rattle.graph_text.specs.Versions.{has_second, has_third, heading_of, is_third_word, may_declare};

use phase_base::is_name;

/// The version of a graph's text.
#[derive(Clone, Copy, Debug, PartialEq, Eq)]
pub enum Version {
    /// A text without a heading.
    One,
    /// A text whose first line that is not ignored is the heading `graph 2`: a sink may join now,
    /// and a source, a filter or a sink may make several steps at once.
    Two,
    /// A text whose heading is `graph 3`: it may have all that one of version 2 may, delays,
    /// decimators, and filters that also add to their sums, weigh what they put, and apply a
    /// single.
    Three,
}

/// The version that the words of a line tell, where they are a heading: `graph`, and `2` or `3`.
pub fn heading_of(words: &[&[u8]]) -> Option<Version>
    ensures { result ≡ heading_of (plain words.now) }
{
    match words {
        [first, second] if *first == b"graph".as_slice() && *second == b"2".as_slice() => {
            Some(Version::Two)
        }
        [first, second] if *first == b"graph".as_slice() && *second == b"3".as_slice() => {
            Some(Version::Three)
        }
        _ => None,
    }
}

impl Version {
    /// Whether a text of this version may have blocks, and sinks that join now.
    pub(crate) fn has_second(self) -> bool
        ensures { result ≡ has_second self }
    {
        self != Version::One
    }

    /// Whether a text of this version may have delays, decimators, and filters that do more than
    /// weigh.
    pub(crate) fn has_third(self) -> bool
        ensures { result ≡ has_third self }
    {
        self == Version::Three
    }

    /// Whether a line of a text of this version may declare this name.
    pub(crate) fn may_declare(self, word: &[u8]) -> bool
        ensures { result ≡ may_declare self word.now }
    {
        is_name(word) && !(self.has_third() && is_third_word(word))
    }
}

/// Whether a word has a meaning in a text of version 3 alone, where it is no name that a line
/// declares.
pub fn is_third_word(word: &[u8]) -> bool
    ensures { result ≡ is_third_word word.now }
{
    word == b"delay".as_slice()
        || word == b"of".as_slice()
        || word == b"plus".as_slice()
        || word == b"decimate".as_slice()
        || word == b"expand".as_slice()
        || word == b"every".as_slice()
        || word == b"again".as_slice()
}
