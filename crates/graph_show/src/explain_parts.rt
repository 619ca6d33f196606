//! What may stand at a place of a line, and what a person is told of it.

use crate::wanted::Wanted;
use graph_lang::Op;
use graph_text::is_third_word;
use phase_base::{is_file, is_int, is_kind_word, is_mark, is_name, is_nat};

const A_NAME: &str =
    "a name: a letter, then letters, digits and _, at most 32 in all, and no word of the grammar";

/// What may stand at a place of a line.
#[derive(Clone, Copy)]
pub(crate) enum Part {
    /// The first word, and the first word of a line in a text of the third version.
    Kind,
    LaterKind,
    /// The version behind `graph`.
    Version,
    /// The name that the line declares.
    Own,
    Operation,
    Bound,
    /// The function of a single.
    Function,
    Low,
    High,
    File,
    /// A phaser that the task waits for, and one or more of them.
    Input,
    Inputs,
    /// The phaser of a peer's exchange.
    Exchange,
    /// A phaser that the task signals, and one or more of them.
    Output,
    Outputs,
    Shift,
    /// What a filter adds.
    Plus,
    Taps,
    /// The taps of a filter for what it put.
    Again,
    /// The steps of a delay, and how many samples before the newest one a filter weighs.
    Delay,
    /// Of how many values a decimator puts one.
    Every,
    Factor,
    Parent,
    Steps,
    /// `block=` and the steps of a block.
    Block,
    /// This very word.
    Sign(&'static str),
    /// Nothing, or what this says.
    End(&'static str),
}

/// Whether the word is one of the grammar, and so no name.
fn is_of_grammar(word: &[u8]) -> bool {
    is_kind_word(word) || is_mark(word) || is_third_word(word)
}

/// The kind of a line that this word is but for capital letters.
fn kind_in_capitals(word: &[u8]) -> Option<&'static str> {
    for kind in [
        "phaser", "source", "fir", "delay", "decimate", "split", "join", "peer", "sink",
    ] {
        if word.eq_ignore_ascii_case(kind.as_bytes()) {
            return Some(kind);
        }
    }
    None
}

/// Whether the word is an arrow.
fn is_arrow(word: &[u8]) -> bool {
    word == b"->".as_slice() || word == b"<->".as_slice()
}

/// Whether the word is the function of a single.
fn is_function(word: &[u8]) -> bool {
    word == b"neg".as_slice()
        || word == b"abs".as_slice()
        || word == b"halve".as_slice()
        || word == b"clamp".as_slice()
}

/// Whether the word is `block=` and a whole number without a sign.
fn is_block(word: &[u8]) -> bool {
    match word.strip_prefix(b"block=") {
        Some(steps) => is_nat(steps),
        None => false,
    }
}

impl Part {
    /// Whether the word may stand there.
    pub(crate) fn fits(self, word: &[u8]) -> bool {
        match self {
            Part::Kind => is_kind_word(word),
            Part::LaterKind => {
                is_kind_word(word) || word == b"delay".as_slice() || word == b"decimate".as_slice()
            }
            Part::Version => word == b"2".as_slice() || word == b"3".as_slice(),
            Part::Own | Part::Parent => is_name(word),
            Part::Input | Part::Inputs | Part::Exchange => is_name(word),
            Part::Output | Part::Outputs => is_name(word),
            Part::Operation => Op::read(word).is_some(),
            Part::File => is_file(word),
            Part::Function => is_function(word),
            Part::Bound | Part::Shift | Part::Delay | Part::Every | Part::Steps => is_nat(word),
            Part::Block => is_block(word),
            Part::Low | Part::High | Part::Plus | Part::Factor => is_int(word),
            Part::Taps | Part::Again => is_int(word),
            Part::Sign(sign) => word == sign.as_bytes(),
            Part::End(_) => false,
        }
    }

    /// Whether more words may stand there.
    pub(crate) fn is_repeated(self) -> bool {
        matches!(
            self,
            Part::Inputs | Part::Outputs | Part::Taps | Part::Again
        )
    }

    /// Whether a phaser stands there that the task waits for.
    pub(crate) fn is_input(self) -> bool {
        matches!(self, Part::Input | Part::Inputs)
    }

    /// Whether a phaser stands there that the task signals.
    pub(crate) fn is_output(self) -> bool {
        matches!(self, Part::Output | Part::Outputs | Part::Exchange)
    }

    /// Whether a phaser stands there.
    fn is_of_phaser(self) -> bool {
        self.is_input() || self.is_output()
    }

    /// Whether a name stands there.
    fn is_named(self) -> bool {
        self.is_of_phaser() || matches!(self, Part::Own | Part::Parent)
    }

    /// What is missing there, for a person, where a name is.
    fn missing(self) -> &'static str {
        match self {
            Part::Own => "a name",
            Part::Parent => "the name of a task",
            _ => "the name of a phaser",
        }
    }

    /// What may stand there, for a person, of which a name has to be one of its letters.
    fn told(self) -> &'static str {
        match self {
            Part::Kind => "`phaser`, `source`, `fir`, `split`, `join`, `peer` or `sink`",
            Part::LaterKind => {
                "`phaser`, `source`, `fir`, `delay`, `decimate`, `split`, `join`, `peer` or `sink`"
            }
            Part::Version => "`2` or `3`",
            Part::Operation => "`sum`, `product`, `least`, `greatest` or `any`",
            Part::Function => "`neg`, `abs`, `halve` or `clamp`",
            Part::File => "the name of a file, of at most 255 bytes",
            Part::Bound | Part::Shift | Part::Delay | Part::Every | Part::Steps => {
                "a whole number without a sign"
            }
            Part::Block => "`block=` and, without a space, a whole number without a sign",
            Part::Low | Part::High | Part::Plus | Part::Factor => "a whole number",
            Part::Taps | Part::Again => "a whole number",
            Part::Sign(sign) => sign,
            Part::End(wanted) => wanted,
            _ => A_NAME,
        }
    }

    /// What is said of a comment that stands there.
    fn for_comment(self) -> Wanted<'static> {
        match self {
            Part::End(_) => Wanted::text("the end of the line: a comment has a line of its own"),
            Part::Sign(sign) => {
                Wanted::with_word(
                    "`",
                    sign,
                    b"".as_slice(),
                    "`; a comment has a line of its own",
                )
            }
            _ => Wanted::with_word(
                self.told(),
                "; a comment has a line of its own",
                b"".as_slice(),
                "",
            ),
        }
    }

    /// What is wanted there, for a person, where this word stands instead, or none, which is empty.
    pub(crate) fn wanted_for<'a>(self, word: &'a [u8]) -> Wanted<'a> {
        if word.starts_with(b"#") {
            return self.for_comment();
        }
        if self.is_named() && is_arrow(word) {
            return Wanted::with_word(self.missing(), " before `", word, "`");
        }
        if self.is_named() && is_of_grammar(word) {
            return Wanted::with_word("a name, and `", "", word, "` is a word of the grammar");
        }
        if word.is_empty() && (self.is_of_phaser() || matches!(self, Part::Parent)) {
            return Wanted::text(self.missing());
        }
        match self {
            Part::Sign(sign) => Wanted::with_word("`", sign, b"".as_slice(), "`"),
            Part::Kind | Part::LaterKind => match kind_in_capitals(word) {
                Some(kind) => Wanted::with_word("`", kind, b"".as_slice(), "`, in small letters"),
                None => Wanted::text(self.told()),
            },
            Part::Taps | Part::Again if word.contains(&b'.') => {
                Wanted::text("a whole number: a fraction times 2^S and rounded, with `shift S`")
            }
            Part::Taps | Part::Again if word.contains(&b',') => {
                Wanted::text("a whole number, and between two of them a space and no comma")
            }
            _ => Wanted::text(self.told()),
        }
    }
}
