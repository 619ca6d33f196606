//! The file of a source, read piece by piece.
ghost use Rattle.std.specs.Prelude.{◌≡◌, ◌≤◌, ◌+◌, ◌++◌, [], take, ℕ, ℤ, List, Option, Some, OnOk, IfOk, IfErr, IfSome, length, false, true};
ghost use Rattle.std.specs.Io.KnownBytes.{IsAtEnd, Keeps};
ghost use Rattle.watched_io.specs.Watched.{inner_of};
ghost use Rattle.phase_stream.specs.Sources.{PieceGives, GivesSource, HasBadFrom, IsBehind, IsOpenFile, IsSource, IsTextOfFile, Lacks, IsKeptOf, TellsOfFile};

use crate::opens::Opens;
use crate::record_text::RecordText;
use graph_commands::OutputBuffer;
use graph_lang::text_laws;
use sample_pieces::{Found, SampleReader, laws};
use std::alloc::Global;
use std::io::Read;
use watched_io::{Explain, ReadFailed, Watched};

/// The most bytes that are read at once: no more records can end in them than a source has room
/// for.
pub const PIECE: usize = 8_192;

/// What a piece is read into, and its samples; and what the text of values is collected in.
#[derive(Drop)]
pub struct Room {
    pub piece: [u8; PIECE],
    pub values: [i64; PIECE],
    pub text: OutputBuffer,
}

impl Room {
    /// One that holds zeros and no text.
    pub fn empty() -> Room {
        Room {
            piece: [0; PIECE],
            values: [0; PIECE],
            text: OutputBuffer::new(),
        }
    }
}

/// What a read gave.
#[derive(Clone, Copy, Debug, PartialEq, Eq)]
pub struct Piece {
    /// How many samples, in the first places.
    pub count: usize,
    /// Whether the file has ended behind them.
    pub is_last: bool,
}

/// Why a source got no more samples.
#[derive(Debug, Drop)]
pub enum Lack {
    /// Its file could not be opened, or a read failed, or there are more samples than a stream may
    /// have.
    ReadFault,
    /// A record is no sample.
    BadRecord {
        /// Its number, counted from 1.
        number: usize,
        /// Where it stands and why it is none, as lines for a person; nothing where that is not
        /// asked for, or memory ran out over them.
        told: Option<Vec<u8>>,
    },
}

impl From<ReadFailed> for Lack {
    ghost use Rattle.phase_stream.specs.declared.source.Lack.{Lack};

    ghost from_gives = { λ _ lack. lack ≡ Lack.ReadFault };

    fn from(_failed: ReadFailed) -> Lack {
        Lack::ReadFault
    }
}

/// The file of a source, how far it was read, and how many samples came of it.
#[derive(Drop)]
pub struct OpenFile<R> {
    input: Watched<R>,
    reader: SampleReader,
    is_bad: bool,
    count: usize,
    /// What a record that is no sample is told by, where that is asked for and memory did not run
    /// out over it.
    text: Option<RecordText>,
}

impl<R: Read + Drop> OpenFile<R> {
    /// Makes it of a file that was just opened.
    pub fn new(alloc: Global, reader: R, explain: Explain) -> OpenFile<R>
        ensures { (known : Option (List ℕ)) → Keeps known (R.remaining reader)
            → IsOpenFile R.remaining known [] result }
    {
        OpenFile {
            input: Watched::new(reader),
            reader: SampleReader::new(),
            is_bad: false,
            count: 0,
            text: first_text(alloc, explain),
        }
    }

    /// Reads on, once, or answers that no more samples can come of the file, which has this name.
    pub fn read(&mut self, alloc: Global, name: &str, room: &mut Room) -> Result<Piece, Lack>
        ensures got { IfOk result (λ piece. (known : Option (List ℕ)) (values : List ℤ)
            → IsOpenFile R.remaining known values self.old
            → PieceGives R.remaining known values room.new.values piece self.new) }
        ensures lacks { IfErr result (λ lack. (known : Option (List ℕ)) (values : List ℤ)
            → IsOpenFile R.remaining known values self.old
            → Lacks known name.now (length values) lack) }
    {
        if self.is_bad {
            return Err(self.bad_record(alloc, name));
        }
        let bytes = self.input.read(room.piece.as_mut_slice())?;
        if bytes == 0 {
            return self.end(alloc, name, room);
        }
        self.pass(alloc, bytes, room)
    }

    /// Reads the samples of a piece of so many bytes.
    fn pass(&mut self, alloc: Global, bytes: usize, room: &mut Room) -> Result<Piece, Lack>
        requires { bytes ≤ length room.old.piece }
        ensures got { IfOk result (λ piece. (known : Option (List ℕ)) (values : List ℤ)
            → IsBehind R.remaining known values (take bytes room.old.piece) self.old
            → PieceGives R.remaining known values room.new.values piece self.new) }
        ensures lacks { IfErr result (λ lack. lack ≡ Lack.ReadFault) }
    {
        laws::what_was_read_begins();
        text_laws::one_reading();
        let taken = self
            .reader
            .read(&room.piece[..bytes], room.values.as_mut_slice());
        if !taken.is_bad && taken.bytes < bytes {
            return Err(Lack::ReadFault);
        }
        let Some(count) = self.count.checked_add(taken.values) else {
            return Err(Lack::ReadFault);
        };
        self.is_bad = taken.is_bad;
        self.count = count;
        self.text = text_behind(alloc, self.text.take(), &room.piece[..bytes], taken.values);
        Ok(Piece {
            count: taken.values,
            is_last: false,
        })
    }

    /// Reads the last sample, where the file, which has this name, has ended.
    fn end(&self, alloc: Global, name: &str, room: &mut Room) -> Result<Piece, Lack>
        ensures got { IfOk result (λ piece. (known : Option (List ℕ)) (values : List ℤ)
            → IsBehind R.remaining known values [] self.now
            → IsAtEnd (R.remaining (inner_of self.now.input))
            → PieceGives R.remaining known values room.new.values piece self.now) }
        ensures lacks { IfErr result (λ lack. (known : Option (List ℕ)) (values : List ℤ)
            → IsBehind R.remaining known values [] self.now
            → Lacks known name.now (length values) lack) }
    {
        match self.reader.end() {
            Found::Nothing => Ok(Piece {
                count: 0,
                is_last: true,
            }),
            Found::Value(value) => {
                room.values[0] = value;
                Ok(Piece {
                    count: 1,
                    is_last: true,
                })
            }
            Found::Bad => Err(self.bad_record(alloc, name)),
        }
    }

    /// The record behind the samples that came of the file, which has this name, is none.
    fn bad_record(&self, alloc: Global, name: &str) -> Lack
        ensures { (known : Option (List ℕ)) → HasBadFrom known (self.now.count + 1)
            → IfSome self.now.text (IsTextOfFile known)
            → Lacks known name.now self.now.count result }
    {
        match self.count.checked_add(1) {
            Some(number) => Lack::BadRecord {
                number,
                told: self.told(alloc, name, number),
            },
            None => Lack::ReadFault,
        }
    }

    /// Tells the record at hand, of this number in the file of this name, where that is asked for
    /// and memory does not run out.
    fn told(&self, alloc: Global, name: &str, number: usize) -> Option<Vec<u8>>
        ensures { (known : Option (List ℕ)) → IfSome self.now.text (IsTextOfFile known)
            → IfSome result (λ told. TellsOfFile known name.now number told.items) }
    {
        match &self.text {
            Some(text) => text.told(alloc, name, number),
            None => None,
        }
    }
}

/// What a record is told by of a file of which nothing was read, where that is asked for.
fn first_text(alloc: Global, explain: Explain) -> Option<RecordText>
    ensures { IfSome result (IsKeptOf []) }
{
    match explain {
        Explain::No => None,
        Explain::Yes => Some(RecordText::new(alloc)),
    }
}

/// What a record is told by, behind a piece in which so many records end, where it was kept.
fn text_behind(
    alloc: Global,
    text: Option<RecordText>,
    piece: &[u8],
    records: usize,
) -> Option<RecordText>
    ensures { (read : List ℕ) → IfSome text (IsKeptOf read)
        → IfSome result (IsKeptOf (read ++ piece.now)) }
{
    let mut text = text?;
    match text.pass(alloc, piece, records) {
        Ok(()) => Some(text),
        Err(_) => None,
    }
}

/// A source of a graph: its task, its file while it is open, and whether that was opened.
#[derive(Drop)]
pub struct Source<R> {
    /// The number of its task.
    pub task: usize,
    pub file: Option<OpenFile<R>>,
    pub was_opened: bool,
}

impl<R: Read + Drop> Source<R> {
    /// One whose file is still to be opened.
    pub fn unopened(task: usize) -> Source<R>
        ensures task { result.task ≡ task }
        ensures fresh { (known : Option (List ℕ)) → IsSource R.remaining known [] result }
    {
        Source {
            task,
            file: None,
            was_opened: false,
        }
    }

    /// Opens the file of this name, where it was not opened yet.
    fn open<F: Opens<Reader = R>>(
        &mut self,
        alloc: Global,
        files: &mut F,
        name: &str,
        explain: Explain,
    ) -> Result<(), ReadFailed>
        ensures ok { OnOk result ((values : List ℤ)
            → IsSource R.remaining (F.file files.old name.now) values self.old
            → IsSource R.remaining (F.file files.old name.now) values self.new) }
        ensures opened { OnOk result (self.new.was_opened ≡ true) }
        ensures task { self.new.task ≡ self.old.task }
        ensures same { (other : List ℕ) → F.file files.new other ≡ F.file files.old other }
    {
        if self.was_opened {
            return Ok(());
        }
        self.was_opened = true;
        let reader = files.open(alloc, name)?;
        self.file = Some(OpenFile::new(alloc, reader, explain));
        Ok(())
    }

    /// Reads on of the file of this name, once, which is opened before where it was not; and closes
    /// it where it has ended. Where a record is explained, it is told with the lack.
    pub fn read<F: Opens<Reader = R>>(
        &mut self,
        alloc: Global,
        files: &mut F,
        name: &str,
        explain: Explain,
        room: &mut Room,
    ) -> Result<Piece, Lack>
        ensures got { IfOk result (λ piece. (values : List ℤ)
            → IsSource R.remaining (F.file files.old name.now) values self.old
            → GivesSource R.remaining (F.file files.old name.now) values room.new.values piece
            self.new) }
        ensures lacks { IfErr result (λ lack. (values : List ℤ)
            → IsSource R.remaining (F.file files.old name.now) values self.old
            → Lacks (F.file files.old name.now) name.now (length values) lack) }
        ensures task { self.new.task ≡ self.old.task }
        ensures same { (other : List ℕ) → F.file files.new other ≡ F.file files.old other }
    {
        self.open(alloc, files, name, explain)?;
        let Some(file) = &mut self.file else {
            return Err(Lack::ReadFault);
        };
        let piece = file.read(alloc, name, room)?;
        if piece.is_last {
            self.file = None;
            return Ok(piece);
        }
        Ok(piece)
    }
}
