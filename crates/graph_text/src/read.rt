//! Reading the words of a line, one after another.
ghost use Rattle.std.specs.Prelude.{◌≡◌, ◌≤◌, map, length, option_map, codes, IfSome, IfNone};
ghost use Rattle.graph_text.specs.Plain.{plain};
ghost use Rattle.phase_base.specs.Words.{is_name as is_name_word, is_file as is_file_word};
ghost use Rattle.phase_base.specs.Numbers.{is_nat as is_nat_word, is_int as is_int_word};
ghost use Rattle.graph_text.specs.Decls.{Decl, Spells, may_have_parent, may_join_now, may_have_blocks};
ghost use Rattle.std.specs.List.{prefix_len};
ghost use Rattle.graph_text.specs.WordReading.{found_word, found_words, found_operation, found_function, found_single, found_now, found_by, found_number, found_filter, found_body, word_at, after, begins, some_at, operation_at, clamp_at, function_named, function_at, single_at, now_at, by_at, until_at, block_number, block_at, ends_at, source_at, signed_at, again_at, applied_at, filter_at, fir_at, delay_at, decimate_at, split_at, join_at, peer_at, sink_at, body_at, phaser_words_at, task_words_at, decl_at};
ghost use Rattle.graph_text.specs.Versions.{may_declare};
ghost use Rattle.graph_text.specs.Lines.{word_of, body_of, ends_of, decl_of};

use crate::line::{Body, By, Ends, Filter, Function, Line, PhaserWords, TaskWords};
use crate::version::Version;
use phase_base::{Op, is_file, is_int, is_name, is_nat};

// ---- words

/// The first word, where it is a name, and the words after it.
#[tactic(auto, unfolding(crate::specs::WordReading::word_at))]
fn name_at<'w, 'a>(words: &'w [&'a [u8]]) -> Option<(&'a [u8], &'w [&'a [u8]])>
    ensures { option_map found_word result ≡ word_at is_name_word (plain words.now) }
{
    match words {
        [word, rest @ ..] if is_name(word) => Some((*word, rest)),
        _ => None,
    }
}

/// The first word, where a line of this version may declare it as a name, and the words after it.
#[tactic(auto, unfolding(crate::specs::WordReading::word_at))]
fn declared_at<'w, 'a>(
    version: Version,
    words: &'w [&'a [u8]],
) -> Option<(&'a [u8], &'w [&'a [u8]])>
    ensures { option_map found_word result ≡ word_at (may_declare version) (plain words.now) }
{
    match words {
        [word, rest @ ..] if version.may_declare(word) => Some((*word, rest)),
        _ => None,
    }
}

/// The first word, where it is one that may name a file, and the words after it.
#[tactic(auto, unfolding(crate::specs::WordReading::word_at))]
fn file_at<'w, 'a>(words: &'w [&'a [u8]]) -> Option<(&'a [u8], &'w [&'a [u8]])>
    ensures { option_map found_word result ≡ word_at is_file_word (plain words.now) }
{
    match words {
        [word, rest @ ..] if is_file(word) => Some((*word, rest)),
        _ => None,
    }
}

/// The first word, where it is a number without a sign, and the words after it.
#[tactic(auto, unfolding(crate::specs::WordReading::word_at))]
fn nat_at<'w, 'a>(words: &'w [&'a [u8]]) -> Option<(&'a [u8], &'w [&'a [u8]])>
    ensures { option_map found_word result ≡ word_at is_nat_word (plain words.now) }
{
    match words {
        [word, rest @ ..] if is_nat(word) => Some((*word, rest)),
        _ => None,
    }
}

/// The first word, where it is a number, and the words after it.
#[tactic(auto, unfolding(crate::specs::WordReading::word_at))]
fn int_at<'w, 'a>(words: &'w [&'a [u8]]) -> Option<(&'a [u8], &'w [&'a [u8]])>
    ensures { option_map found_word result ≡ word_at is_int_word (plain words.now) }
{
    match words {
        [word, rest @ ..] if is_int(word) => Some((*word, rest)),
        _ => None,
    }
}

/// The operation that the first word stands for, and the words after it.
#[tactic(auto, unfolding(crate::specs::WordReading::operation_at))]
fn operation_at<'w, 'a>(words: &'w [&'a [u8]]) -> Option<(Op, &'w [&'a [u8]])>
    ensures { option_map found_operation result ≡ operation_at (plain words.now) }
{
    match words {
        [] => None,
        [word, rest @ ..] => Some((Op::read(word)?, rest)),
    }
}

/// The words after this one, where it stands first.
#[tactic(auto, unfolding(crate::specs::WordReading::after))]
fn after<'w, 'a>(sign: &[u8], words: &'w [&'a [u8]]) -> Option<&'w [&'a [u8]]>
    ensures { option_map (λ rest. plain rest.now) result ≡ after sign.now (plain words.now) }
{
    match words {
        [word, rest @ ..] if *word == sign => Some(rest),
        _ => None,
    }
}

/// Whether this word stands first.
#[tactic(auto, unfolding(crate::specs::WordReading::begins))]
fn begins(sign: &[u8], words: &[&[u8]]) -> bool
    ensures { result ≡ begins sign.now (plain words.now) }
{
    match words {
        [word, ..] => *word == sign,
        [] => false,
    }
}

/// How many names stand in front.
fn names_in_front(words: &[&[u8]]) -> usize
    ensures count { result ≡ prefix_len is_name_word (plain words.now) }
    ensures within { result ≤ length words.now }
{
    let mut count = 0;
    for word in words {
        if !is_name(word) {
            return count;
        }
        count += 1;
    }
    count
}

/// The names in front, at least one, and the words after them.
fn names_at<'w, 'a>(words: &'w [&'a [u8]]) -> Option<(&'w [&'a [u8]], &'w [&'a [u8]])>
    ensures { option_map found_words result ≡ some_at is_name_word (plain words.now) }
{
    let count = names_in_front(words);
    if count == 0 {
        None
    } else {
        Some(words.split_at(count))
    }
}

/// How many numbers stand in front.
fn ints_in_front(words: &[&[u8]]) -> usize
    ensures count { result ≡ prefix_len is_int_word (plain words.now) }
    ensures within { result ≤ length words.now }
{
    let mut count = 0;
    for word in words {
        if !is_int(word) {
            return count;
        }
        count += 1;
    }
    count
}

/// The numbers in front, at least one, and the words after them.
fn ints_at<'w, 'a>(words: &'w [&'a [u8]]) -> Option<(&'w [&'a [u8]], &'w [&'a [u8]])>
    ensures { option_map found_words result ≡ some_at is_int_word (plain words.now) }
{
    let count = ints_in_front(words);
    if count == 0 {
        None
    } else {
        Some(words.split_at(count))
    }
}

// ---- parts of a line

/// A clamp with its ends, and the words after them.
#[tactic(auto, unfolding(crate::specs::WordReading::clamp_at))]
fn clamp_at<'w, 'a>(words: &'w [&'a [u8]]) -> Option<(Function<'a>, &'w [&'a [u8]])>
    ensures { option_map found_function result ≡ clamp_at (plain words.now) }
{
    let (low, rest) = int_at(words)?;
    let (high, rest) = int_at(rest)?;
    Some((Function::Clamp(low, high), rest))
}

/// The function of a single, by its first word, and the words after it.
#[tactic(auto, unfolding(crate::specs::WordReading::function_named))]
fn function_named<'w, 'a>(
    word: &[u8],
    words: &'w [&'a [u8]],
) -> Option<(Function<'a>, &'w [&'a [u8]])>
    ensures { option_map found_function result ≡ function_named word.now (plain words.now) }
{
    if word == b"neg".as_slice() {
        Some((Function::Neg, words))
    } else if word == b"abs".as_slice() {
        Some((Function::Abs, words))
    } else if word == b"halve".as_slice() {
        Some((Function::Halve, words))
    } else if word == b"clamp".as_slice() {
        clamp_at(words)
    } else {
        None
    }
}

/// The function of a single, and the words after it.
#[tactic(auto, unfolding(crate::specs::WordReading::function_at))]
fn function_at<'w, 'a>(words: &'w [&'a [u8]]) -> Option<(Function<'a>, &'w [&'a [u8]])>
    ensures { option_map found_function result ≡ function_at (plain words.now) }
{
    match words {
        [] => None,
        [word, rest @ ..] => function_named(word, rest),
    }
}

/// `single FN`, or nothing, and the words after it.
#[tactic(auto, unfolding(crate::specs::WordReading::single_at))]
fn single_at<'w, 'a>(words: &'w [&'a [u8]]) -> Option<(Option<Function<'a>>, &'w [&'a [u8]])>
    ensures { option_map found_single result ≡ single_at (plain words.now) }
{
    if begins(b"single", words) {
        let rest = after(b"single", words)?;
        let (function, rest) = function_at(rest)?;
        Some((Some(function), rest))
    } else {
        Some((None, words))
    }
}

/// Whether `now` stands first where that is allowed, and the words after it.
#[tactic(auto, unfolding(crate::specs::WordReading::now_at))]
fn now_at<'w, 'a>(allowed: bool, words: &'w [&'a [u8]]) -> (bool, &'w [&'a [u8]])
    ensures { found_now result ≡ now_at allowed (plain words.now) }
{
    match words {
        [word, rest @ ..] if allowed && *word == b"now".as_slice() => (true, rest),
        _ => (false, words),
    }
}

/// `by P at N` where that is allowed, with `now` where it joins so, or nothing, and the words after
/// it.
#[tactic(auto, unfolding(crate::specs::WordReading::by_at))]
fn by_at<'w, 'a>(
    allowed: bool,
    joins: bool,
    words: &'w [&'a [u8]],
) -> Option<(Option<By<'a>>, &'w [&'a [u8]])>
    ensures { option_map found_by result ≡ by_at allowed joins (plain words.now) }
{
    if allowed && begins(b"by", words) {
        let rest = after(b"by", words)?;
        let (parent, rest) = name_at(rest)?;
        let rest = after(b"at", rest)?;
        let (at, rest) = nat_at(rest)?;
        let (now, rest) = now_at(joins, rest);
        Some((Some(By { parent, at, now }), rest))
    } else {
        Some((None, words))
    }
}

/// `until M`, or nothing, and the words after it.
#[tactic(auto, unfolding(crate::specs::WordReading::until_at))]
fn until_at<'w, 'a>(words: &'w [&'a [u8]]) -> Option<(Option<&'a [u8]>, &'w [&'a [u8]])>
    ensures { option_map found_number result ≡ until_at (plain words.now) }
{
    if begins(b"until", words) {
        let rest = after(b"until", words)?;
        let (steps, rest) = nat_at(rest)?;
        Some((Some(steps), rest))
    } else {
        Some((None, words))
    }
}

/// The number of a word `block=N`.
#[tactic(auto, unfolding(crate::specs::WordReading::block_number))]
fn block_number(word: &[u8]) -> Option<&[u8]>
    ensures { word_of result ≡ block_number word.now }
{
    let steps = word.strip_prefix(b"block=")?;
    if is_nat(steps) { Some(steps) } else { None }
}

/// The number of `block=N` where that is allowed and the last word, or none where no word is left.
#[tactic(auto, unfolding(crate::specs::WordReading::block_at))]
fn block_at<'a>(allowed: bool, words: &[&'a [u8]]) -> Option<Option<&'a [u8]>>
    ensures { option_map word_of result ≡ block_at allowed (plain words.now) }
{
    match words {
        [] => Some(None),
        [word] if allowed => Some(Some(block_number(word)?)),
        _ => None,
    }
}

/// The optional ends of a line of this version, with nothing after them.
#[tactic(auto, unfolding(crate::specs::WordReading::ends_at))]
fn ends_at<'a>(version: Version, body: Body<'_, '_>, words: &[&'a [u8]]) -> Option<Ends<'a>>
    ensures { option_map ends_of result
        ≡ ends_at version (body_of body.entry) (plain words.now) }
{
    let (by, rest) = by_at(may_have_parent(body), may_join_now(version, body), words)?;
    let (until, rest) = until_at(rest)?;
    let block = block_at(may_have_blocks(version, body), rest)?;
    Some(Ends { by, until, block })
}

// ---- what a task does

/// `FILE -> Y`, and the words after it.
#[tactic(auto, unfolding(crate::specs::WordReading::source_at))]
fn source_at<'w, 'a>(words: &'w [&'a [u8]]) -> Option<(Body<'w, 'a>, &'w [&'a [u8]])>
    ensures { option_map found_body result ≡ source_at (plain words.now) }
{
    let (file, rest) = file_at(words)?;
    let rest = after(b"->", rest)?;
    let (output, rest) = name_at(rest)?;
    Some((Body::Source(file, output), rest))
}

/// `of D` where that is allowed, or nothing, and the words after it.
#[tactic(auto, unfolding(crate::specs::WordReading::signed_at))]
fn age_at<'w, 'a>(
    allowed: bool,
    words: &'w [&'a [u8]],
) -> Option<(Option<&'a [u8]>, &'w [&'a [u8]])>
    ensures { option_map found_number result
        ≡ signed_at (codes "of") is_nat_word allowed (plain words.now) }
{
    if allowed && begins(b"of", words) {
        let rest = after(b"of", words)?;
        let (steps, rest) = nat_at(rest)?;
        Some((Some(steps), rest))
    } else {
        Some((None, words))
    }
}

/// `plus C` where that is allowed, or nothing, and the words after it.
#[tactic(auto, unfolding(crate::specs::WordReading::signed_at))]
fn plus_at<'w, 'a>(
    allowed: bool,
    words: &'w [&'a [u8]],
) -> Option<(Option<&'a [u8]>, &'w [&'a [u8]])>
    ensures { option_map found_number result
        ≡ signed_at (codes "plus") is_int_word allowed (plain words.now) }
{
    if allowed && begins(b"plus", words) {
        let rest = after(b"plus", words)?;
        let (plus, rest) = int_at(rest)?;
        Some((Some(plus), rest))
    } else {
        Some((None, words))
    }
}

/// `again A1 A2 ..` where that is allowed, or nothing, and the words after it.
#[tactic(auto, unfolding(crate::specs::WordReading::again_at))]
fn again_at<'w, 'a>(
    allowed: bool,
    words: &'w [&'a [u8]],
) -> Option<(&'w [&'a [u8]], &'w [&'a [u8]])>
    ensures { option_map found_words result ≡ again_at allowed (plain words.now) }
{
    if allowed && begins(b"again", words) {
        ints_at(after(b"again", words)?)
    } else {
        Some((&words[..0], words))
    }
}

/// `single FN` where that is allowed, or nothing, and the words after it.
#[tactic(auto, unfolding(crate::specs::WordReading::applied_at))]
fn applied_at<'w, 'a>(
    allowed: bool,
    words: &'w [&'a [u8]],
) -> Option<(Option<Function<'a>>, &'w [&'a [u8]])>
    ensures { option_map found_single result ≡ applied_at allowed (plain words.now) }
{
    if allowed {
        single_at(words)
    } else {
        Some((None, words))
    }
}

/// `of D shift S plus C taps T1 T2 .. again A1 A2 .. single FN`, without the optional ones where
/// they are not allowed, and the words after it.
#[tactic(auto, unfolding(crate::specs::WordReading::filter_at))]
fn filter_at<'w, 'a>(more: bool, words: &'w [&'a [u8]]) -> Option<(Filter<'w, 'a>, &'w [&'a [u8]])>
    ensures { option_map found_filter result ≡ filter_at more (plain words.now) }
{
    let (delay, rest) = age_at(more, words)?;
    let rest = after(b"shift", rest)?;
    let (shift, rest) = nat_at(rest)?;
    let (plus, rest) = plus_at(more, rest)?;
    let rest = after(b"taps", rest)?;
    let (taps, rest) = ints_at(rest)?;
    let (again, rest) = again_at(more, rest)?;
    let (single, rest) = applied_at(more, rest)?;
    let filter = Filter {
        delay,
        shift,
        plus,
        taps,
        again,
        single,
    };
    Some((filter, rest))
}

/// `X -> Y` and what a filter does, and the words after it.
#[tactic(auto, unfolding(crate::specs::WordReading::fir_at))]
fn fir_at<'w, 'a>(more: bool, words: &'w [&'a [u8]]) -> Option<(Body<'w, 'a>, &'w [&'a [u8]])>
    ensures { option_map found_body result ≡ fir_at more (plain words.now) }
{
    let (input, rest) = name_at(words)?;
    let rest = after(b"->", rest)?;
    let (output, rest) = name_at(rest)?;
    let (filter, rest) = filter_at(more, rest)?;
    Some((Body::Fir(input, output, filter), rest))
}

/// `X -> Y of N`, and the words after it.
#[tactic(auto, unfolding(crate::specs::WordReading::delay_at))]
fn delay_at<'w, 'a>(words: &'w [&'a [u8]]) -> Option<(Body<'w, 'a>, &'w [&'a [u8]])>
    ensures { option_map found_body result ≡ delay_at (plain words.now) }
{
    let (input, rest) = name_at(words)?;
    let rest = after(b"->", rest)?;
    let (output, rest) = name_at(rest)?;
    let rest = after(b"of", rest)?;
    let (steps, rest) = nat_at(rest)?;
    Some((Body::Delay(input, output, steps), rest))
}

/// `X -> Y every N`, and the words after it.
#[tactic(auto, unfolding(crate::specs::WordReading::decimate_at))]
fn decimate_at<'w, 'a>(words: &'w [&'a [u8]]) -> Option<(Body<'w, 'a>, &'w [&'a [u8]])>
    ensures { option_map found_body result ≡ decimate_at (plain words.now) }
{
    let (input, rest) = name_at(words)?;
    let rest = after(b"->", rest)?;
    let (output, rest) = name_at(rest)?;
    let rest = after(b"every", rest)?;
    let (every, rest) = nat_at(rest)?;
    Some((Body::Decimate(input, output, every), rest))
}

/// `X -> Y0 Y1 ..`, and the words after it.
#[tactic(auto, unfolding(crate::specs::WordReading::split_at))]
fn split_at<'w, 'a>(words: &'w [&'a [u8]]) -> Option<(Body<'w, 'a>, &'w [&'a [u8]])>
    ensures { option_map found_body result ≡ split_at (plain words.now) }
{
    let (input, rest) = name_at(words)?;
    let rest = after(b"->", rest)?;
    let (outputs, rest) = names_at(rest)?;
    Some((Body::Split(input, outputs), rest))
}

/// `X0 X1 .. -> Y`, and the words after it.
#[tactic(auto, unfolding(crate::specs::WordReading::join_at))]
fn join_at<'w, 'a>(words: &'w [&'a [u8]]) -> Option<(Body<'w, 'a>, &'w [&'a [u8]])>
    ensures { option_map found_body result ≡ join_at (plain words.now) }
{
    let (inputs, rest) = names_at(words)?;
    let rest = after(b"->", rest)?;
    let (output, rest) = name_at(rest)?;
    Some((Body::Join(inputs, output), rest))
}

/// `X <-> E -> Y mul A`, and the words after it.
#[tactic(auto, unfolding(crate::specs::WordReading::peer_at))]
fn peer_at<'w, 'a>(words: &'w [&'a [u8]]) -> Option<(Body<'w, 'a>, &'w [&'a [u8]])>
    ensures { option_map found_body result ≡ peer_at (plain words.now) }
{
    let (input, rest) = name_at(words)?;
    let rest = after(b"<->", rest)?;
    let (exchange, rest) = name_at(rest)?;
    let rest = after(b"->", rest)?;
    let (output, rest) = name_at(rest)?;
    let rest = after(b"mul", rest)?;
    let (factor, rest) = int_at(rest)?;
    Some((Body::Peer(input, exchange, output, factor), rest))
}

/// `X`, and the words after it.
#[tactic(auto, unfolding(crate::specs::WordReading::sink_at))]
fn sink_at<'w, 'a>(words: &'w [&'a [u8]]) -> Option<(Body<'w, 'a>, &'w [&'a [u8]])>
    ensures { option_map found_body result ≡ sink_at (plain words.now) }
{
    let (input, rest) = name_at(words)?;
    Some((Body::Sink(input), rest))
}

/// What a task does, by the first word of its line, and the words after it; a delay, a decimator
/// and a filter that does more than weigh where they are allowed.
#[tactic(auto, unfolding(crate::specs::WordReading::body_at))]
fn body_at<'w, 'a>(
    more: bool,
    kind: &[u8],
    words: &'w [&'a [u8]],
) -> Option<(Body<'w, 'a>, &'w [&'a [u8]])>
    ensures { option_map found_body result ≡ body_at more kind.now (plain words.now) }
{
    if kind == b"source".as_slice() {
        source_at(words)
    } else if kind == b"fir".as_slice() {
        fir_at(more, words)
    } else if kind == b"split".as_slice() {
        split_at(words)
    } else if kind == b"join".as_slice() {
        join_at(words)
    } else if kind == b"peer".as_slice() {
        peer_at(words)
    } else if kind == b"sink".as_slice() {
        sink_at(words)
    } else if more && kind == b"delay".as_slice() {
        delay_at(words)
    } else if more && kind == b"decimate".as_slice() {
        decimate_at(words)
    } else {
        None
    }
}

/// Whether a line of the kind may name a parent.
fn may_have_parent(body: Body<'_, '_>) -> bool
    ensures { result ≡ may_have_parent (body_of body.entry) }
{
    matches!(
        body,
        Body::Source(..) | Body::Fir(..) | Body::Delay(..) | Body::Sink(..)
    )
}

/// Whether a line of this version, of the kind, may say that its task joins now.
fn may_join_now(version: Version, body: Body<'_, '_>) -> bool
    ensures { result ≡ may_join_now version (body_of body.entry) }
{
    version.has_second() && matches!(body, Body::Sink(..))
}

/// Whether a line of this version, of the kind, may say how many steps a block has.
fn may_have_blocks(version: Version, body: Body<'_, '_>) -> bool
    ensures { result ≡ may_have_blocks version (body_of body.entry) }
{
    version.has_second()
        && matches!(
            body,
            Body::Source(..) | Body::Fir(..) | Body::Delay(..) | Body::Sink(..)
        )
}

// ---- a line

/// What the words after `phaser` declare.
#[tactic(auto, unfolding(crate::specs::WordReading::phaser_words_at))]
fn phaser_at<'w, 'a>(version: Version, words: &'w [&'a [u8]]) -> Option<Line<'w, 'a>>
    ensures { option_map decl_of result
        ≡ phaser_words_at (may_declare version) (plain words.now) }
{
    let (name, rest) = declared_at(version, words)?;
    let (operation, rest) = operation_at(rest)?;
    let (bound, rest) = nat_at(rest)?;
    let (single, rest) = single_at(rest)?;
    if rest.is_empty() {
        Some(Line::Phaser(PhaserWords {
            name,
            operation,
            bound,
            single,
        }))
    } else {
        None
    }
}

/// What the words after the kind of a task declare.
#[tactic(auto, unfolding(crate::specs::WordReading::task_words_at))]
fn task_at<'w, 'a>(version: Version, kind: &[u8], words: &'w [&'a [u8]]) -> Option<Line<'w, 'a>>
    ensures { option_map decl_of result
        ≡ task_words_at (may_declare version) version kind.now (plain words.now) }
{
    let (name, rest) = declared_at(version, words)?;
    let (body, rest) = body_at(version.has_third(), kind, rest)?;
    let ends = ends_at(version, body, rest)?;
    Some(Line::Task(TaskWords { name, body, ends }))
}

/// What the words declare, read one after another.
#[tactic(auto, unfolding(crate::specs::WordReading::decl_by))]
fn read<'w, 'a>(words: &'w [&'a [u8]], version: Version) -> Option<Line<'w, 'a>>
    ensures { option_map decl_of result ≡ decl_at version (plain words.now) }
{
    match words {
        [] => None,
        [kind, rest @ ..] => {
            if *kind == b"phaser".as_slice() {
                phaser_at(version, rest)
            } else {
                task_at(version, kind, rest)
            }
        }
    }
}

/// Returns what the words of a line declare in a text of this version, or that they declare
/// nothing. The heading of a text declares nothing. It takes no memory.
pub fn line_at<'w, 'a>(words: &'w [&'a [u8]], version: Version) -> Option<Line<'w, 'a>>
    ensures found { IfSome result (λ line. Spells version (plain words.now) (decl_of line)) }
    ensures none { IfNone result ((d : Decl) → ¬ (Spells version (plain words.now) d)) }
{
    read(words, version)
}
