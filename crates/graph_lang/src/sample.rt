//! Samples of a text and of a reader.
ghost use Rattle.std.specs.Prelude.{◌≡◌, ◌≢◌, ◌⊎◌, ◌∷◌, [], ◌≤◌, ◌<◌, ℕ, ℤ, length, true, IfOk, OnOk, IfSome, IfNone, IsErrOf, Err};
ghost use Rattle.std.specs.Fmt.{signed_decimal};
ghost use Rattle.csv.specs.Records.{fields_of};
ghost use Rattle.phase_accum.specs.Sends.{IsSend, AreSends};
ghost use Rattle.graph_lang.specs.PlainLines.{ArePlainLines};
ghost use Rattle.graph_lang.specs.TextInside.{IsThroughComma};
ghost use Rattle.graph_lang.specs.Samples.{AreRecordsOfValues, IsBadSample, AreShortSamples, IsBadShortSample, ReadsSamples, ReadsBadSample};
ghost use Rattle.watched_io.specs.States.{ReadsTooMuch, ReadsWithin, reader_state};
ghost use Rattle.watched_io.specs.Watched.{has_failed_of, inner_of};
ghost use Rattle.watched_io.specs.declared.text.TheConstants.{CHUNK_MAX};

use crate::SampleFault;
use crate::number::value_of;
use crate::plain::{parts_have_samples, plain_samples};
use csv::{ByteRecord, ReaderBuilder};
use memchr::memchr;
use std::alloc::Global;
use std::io::Read;
use watched_io::{Watched, read_text};

/// The longest text of samples that is read, in bytes.
pub const TEXT_MAX: usize = 67_108_864;

/// The value of a record of one field.
fn sample_of(row: &ByteRecord) -> Option<i64>
    ensures some { IfSome result (λ v. (fields_of row.now ≡ signed_decimal v ∷ []) × IsSend v) }
    ensures none { IfNone result ((v : ℤ) → IsSend v
        → fields_of row.now ≡ signed_decimal v ∷ [] → ⊥) }
{
    let fields = row.len();
    if fields != 1 {
        return None;
    }
    match row.get(0) {
        None => None,
        Some(field) => value_of(field),
    }
}

/// The text up to its first comma and with it, or the whole text where it has none.
fn through_comma(text: &[u8]) -> &[u8]
    ensures part { IsThroughComma text.now result.now }
{
    match memchr(b',', text) {
        Some(at) => &text[..at + 1],
        None => text,
    }
}

/// The samples of a text, whose records are of one number each.
///
/// Records are those that `csv` reads with its default settings and no header row. It answers no
/// `ReadFault`.
///
/// A record with a comma is no sample, so what stands behind the first one is not read, and takes
/// no memory.
pub fn samples_of(alloc: Global, text: &[u8]) -> Result<Vec<i64>, SampleFault>
    ensures ok { IfOk result (λ values. AreRecordsOfValues text.now values.items) }
    ensures values { IfOk result (λ values. AreSends values.items
        × (length values.items ≤ length text.now)) }
    ensures bad { (n : ℕ) → IsErrOf result (SampleFault.BadSample n) → IsBadSample text.now n }
    ensures read { IsErrOf result SampleFault.ReadFault → ⊥ }
{
    match plain_samples(alloc, text) {
        Err(_) => Err(SampleFault::OutOfMemory),
        Ok(plain) => samples_with(alloc, text, plain),
    }
}

/// The samples of a text, as `samples_of` answers them, where its plain lines were read: these are
/// their samples, or some line is not plain.
pub fn samples_with(
    alloc: Global,
    text: &[u8],
    plain: Option<Vec<i64>>,
) -> Result<Vec<i64>, SampleFault>
    requires { IfSome plain (λ values. ArePlainLines text.now 0 (length text.now) values.items) }
    ensures ok { IfOk result (λ values. AreRecordsOfValues text.now values.items) }
    ensures values { IfOk result (λ values. AreSends values.items
        × (length values.items ≤ length text.now)) }
    ensures bad { (n : ℕ) → IsErrOf result (SampleFault.BadSample n) → IsBadSample text.now n }
    ensures read { IsErrOf result SampleFault.ReadFault → ⊥ }
{
    parts_have_samples();
    match plain {
        Some(values) => Ok(values),
        None => records_of(alloc, through_comma(text)),
    }
}

/// The values of all records of a text.
fn records_of(alloc: Global, text: &[u8]) -> Result<Vec<i64>, SampleFault>
    ensures ok { IfOk result (λ values. AreRecordsOfValues text.now values.items) }
    ensures values { IfOk result (λ values. AreSends values.items
        × (length values.items ≤ length text.now)) }
    ensures bad { (n : ℕ) → IsErrOf result (SampleFault.BadSample n) → IsBadSample text.now n }
    ensures read { IsErrOf result SampleFault.ReadFault → ⊥ }
{
    let mut records = ReaderBuilder::new()
        .has_headers(false)
        .flexible(true)
        .from_reader(alloc, text);
    let mut row = ByteRecord::new(alloc);
    let mut values = Vec::new(alloc);
    loop {
        match records.read_byte_record(&mut row) {
            Err(_) => return Err(SampleFault::OutOfMemory),
            Ok(false) => return Ok(values),
            Ok(true) => match sample_of(&row) {
                None => {
                    let number = values.len() + 1;
                    return Err(SampleFault::BadSample { number });
                }
                Some(value) => {
                    if values.push(value).is_err() {
                        return Err(SampleFault::OutOfMemory);
                    }
                }
            },
        }
    }
}

/// Reads the samples that the reader has left, the whole text before the first record.
///
/// Records are those that `csv` reads with its default settings and no header row. A text of more
/// than `TEXT_MAX` bytes is a `ReadFault`, whatever its records are.
pub fn read_samples<R: Read>(
    alloc: Global,
    reader: &mut Watched<R>,
) -> Result<Vec<i64>, SampleFault>
    ensures ok { IfOk result (λ values. IfSome (R.remaining (inner_of reader.old))
        (AreShortSamples values.items)) }

    ensures values { IfOk result (λ values. AreSends values.items
        × (length values.items ≤ TEXT_MAX)) }

    ensures bad { (n : ℕ) → IsErrOf result (SampleFault.BadSample n)
        → IfSome (R.remaining (inner_of reader.old)) (IsBadShortSample n) }

    // The same where the reader's bytes are not known beforehand: some text was read, and its
    // length is the count's.
    ensures all { IfOk result (λ values. ReadsSamples
        (reader_state R.remaining reader.old) (reader_state R.remaining reader.new) values.items) }

    ensures all_bad { (n : ℕ) → IsErrOf result (SampleFault.BadSample n) → ReadsBadSample
        (reader_state R.remaining reader.old) (reader_state R.remaining reader.new) n }

    ensures read { IsErrOf result SampleFault.ReadFault → (has_failed_of reader.new ≡ true)
        ⊎ ReadsTooMuch TEXT_MAX CHUNK_MAX
        (reader_state R.remaining reader.old) (reader_state R.remaining reader.new) }

    // A text that is too long is no want of memory.
    ensures memory { IsErrOf result SampleFault.OutOfMemory → ReadsWithin TEXT_MAX
        (reader_state R.remaining reader.old) (reader_state R.remaining reader.new) }

    // Where a read fails, that is the answer.
    ensures same { (result ≢ Err SampleFault.ReadFault)
        → has_failed_of reader.new ≡ has_failed_of reader.old }
{
    let text = read_text(alloc, reader, TEXT_MAX)?;
    samples_of(alloc, text.as_slice())
}
