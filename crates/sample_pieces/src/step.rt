//! What a byte does to a reader of records.
ghost use Rattle.std.specs.Prelude.{◌≡◌};
ghost use Rattle.csv.specs.Machine.{step, in_field, start_record};
ghost use Rattle.csv.specs.Reading.{default_config};
ghost use Rattle.sample_pieces.specs.Pieces.{csv_state, done_by, IsSignUnlessCopied};

/// Where a reader stands in a record of one field.
#[derive(Clone, Copy, Debug, PartialEq, Eq)]
pub enum Where {
    /// Between two records.
    Between,
    /// Behind the carriage return that ended a record.
    AfterReturn,
    /// In a field.
    Field,
    /// Between quotes.
    Quotes,
    /// Behind a quote that ends those, or that is the first of two.
    AfterQuote,
}

/// What a byte does.
#[derive(Clone, Copy, Debug, PartialEq, Eq)]
pub enum Move {
    /// Nothing but to go on.
    Skips(Where),
    /// It is a byte of the field.
    Copies(Where),
    /// It ends the record.
    Ends(Where),
    /// It ends the field, and another follows.
    Separates,
}

/// What the byte does to a reader that stands there. It takes no memory.
pub fn step(at: Where, byte: u8) -> Move
    ensures sign { IsSignUnlessCopied byte result }
    ensures done { done_by result ≡ step default_config (csv_state at) byte }
{
    match at {
        Where::Between | Where::AfterReturn => before_record(byte),
        Where::Field => in_field(byte),
        Where::Quotes if byte == b'"' => Move::Skips(Where::AfterQuote),
        Where::Quotes => Move::Copies(Where::Quotes),
        Where::AfterQuote if byte == b'"' => Move::Copies(Where::Quotes),
        Where::AfterQuote => in_field(byte),
    }
}

/// What the byte does before a record.
fn before_record(byte: u8) -> Move
    ensures sign { IsSignUnlessCopied byte result }
    ensures done { done_by result ≡ start_record default_config byte }
{
    match byte {
        b'\r' | b'\n' => Move::Skips(Where::Between),
        b'"' => Move::Skips(Where::Quotes),
        _ => in_field(byte),
    }
}

/// What the byte does in a field.
fn in_field(byte: u8) -> Move
    ensures sign { IsSignUnlessCopied byte result }
    ensures done { done_by result ≡ in_field default_config byte }
{
    match byte {
        b',' => Move::Separates,
        b'\r' => Move::Ends(Where::AfterReturn),
        b'\n' => Move::Ends(Where::Between),
        _ => Move::Copies(Where::Field),
    }
}
