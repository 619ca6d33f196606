//! Names, files, and the bytes of other words.
ghost use Rattle.std.specs.Prelude.{◌≡◌, IsTrue};
ghost use Rattle.std.specs.List.{list_all};
ghost use Rattle.phase_base.specs.Words.{is_digit, is_letter, is_name_byte, is_word_byte, is_kind_word, is_mark, is_name, is_file};

/// The most bytes of a name.
pub const NAME_MAX: usize = 32;

/// The most bytes of the word that names a file.
pub const FILE_MAX: usize = 255;

/// Whether the byte is a digit. It takes no memory.
pub fn is_digit(b: u8) -> bool
    ensures { result ≡ is_digit b }
{
    b >= b'0' && b <= b'9'
}

/// Whether the byte is a letter.
fn is_letter(b: u8) -> bool
    ensures { result ≡ is_letter b }
{
    (b >= b'a' && b <= b'z') || (b >= b'A' && b <= b'Z')
}

/// Whether each byte is one of a name.
fn are_name_bytes(word: &[u8]) -> bool
    ensures { result ≡ list_all is_name_byte word.now }
{
    word.iter()
        .all(|b| is_letter(*b) || is_digit(*b) || *b == b'_')
}

/// Whether the word is the first of a line. It takes no memory.
pub fn is_kind_word(word: &[u8]) -> bool
    ensures { result ≡ is_kind_word word.now }
{
    word == b"phaser".as_slice()
        || word == b"source".as_slice()
        || word == b"fir".as_slice()
        || word == b"split".as_slice()
        || word == b"join".as_slice()
        || word == b"peer".as_slice()
        || word == b"sink".as_slice()
}

/// Whether the word says what the next one is. It takes no memory.
pub fn is_mark(word: &[u8]) -> bool
    ensures { result ≡ is_mark word.now }
{
    word == b"by".as_slice()
        || word == b"at".as_slice()
        || word == b"until".as_slice()
        || word == b"shift".as_slice()
        || word == b"taps".as_slice()
        || word == b"mul".as_slice()
        || word == b"single".as_slice()
}

/// Whether the word may name a phaser or a task: it has 1 to `NAME_MAX` letters, digits and `_`, of
/// which the first is a letter, and is no word of the grammar. It takes no memory.
pub fn is_name(word: &[u8]) -> bool
    ensures { result ≡ is_name word.now }
{
    !word.is_empty()
        && word.len() <= NAME_MAX
        && is_letter(word[0])
        && are_name_bytes(word)
        && !is_kind_word(word)
        && !is_mark(word)
}

/// Whether the word may name a file: it has 1 to `FILE_MAX` bytes of a word. It takes no memory.
pub fn is_file(word: &[u8]) -> bool
    ensures { result ≡ is_file word.now }
{
    !word.is_empty() && word.len() <= FILE_MAX && are_word_bytes(word)
}

/// Whether each byte is one of a word.
fn are_word_bytes(word: &[u8]) -> bool
    ensures { result ≡ list_all is_word_byte word.now }
{
    word.iter().all(|b| 33 <= *b && *b <= 126)
}

/// Returns a name as text. It takes no memory.
pub fn name_text(word: &[u8]) -> &str
    requires { IsTrue (is_name word.now) }
    ensures { result.now ≡ word.now }
{
    match str::from_utf8(word) {
        Ok(name) => name,
        Err(_) => unreachable!(),
    }
}

/// Returns the word that names a file as text. It takes no memory.
pub fn file_text(word: &[u8]) -> &str
    requires { IsTrue (is_file word.now) }
    ensures { result.now ≡ word.now }
{
    match str::from_utf8(word) {
        Ok(file) => file,
        Err(_) => unreachable!(),
    }
}
