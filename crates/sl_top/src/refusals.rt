//! The lines that tell faults of source files.

ghost use Rattle.std.specs.Prelude.{◌≡◌, OnOk, OnErr};
ghost use Rattle.sl_io.specs.Counts.{Rose};
ghost use Rattle.sl_io.specs.Gains.{Gains, GainsFront};
ghost use Rattle.sl_io.specs.SinkFault.{OnSinkFailed, OnSinkMemory};
ghost use Rattle.sl_top.specs.Refusals.{lex_word, parse_word, spot_line, byte_line, refusal_line};

use crate::outcome::write_parts;
use itoa::Buffer;
use sl_io::{Sink, SinkFault, write_all};
use sl_lexer::LexKind;
use sl_parse_tmpl::ParseKind;
use sl_source::Refusal;
use sl_text::Spot;

// The word of a kind of lexical fault.
fn lex_word(kind: LexKind) -> &'static [u8]
    ensures { result.now ≡ lex_word kind }
{
    match kind {
        LexKind::BadChar => b"BadChar",
        LexKind::OpenText => b"OpenText",
        LexKind::OpenComment => b"OpenComment",
        LexKind::BadEscape => b"BadEscape",
        LexKind::Dollar => b"Dollar",
        LexKind::Number => b"Number",
        LexKind::TooMany => b"TooMany",
        LexKind::LongText => b"LongText",
        LexKind::Memory => b"",
    }
}

// The word of a kind of fault of the parser.
fn parse_word(kind: ParseKind) -> &'static [u8]
    ensures { result.now ≡ parse_word kind }
{
    match kind {
        ParseKind::Unexpected => b"Unexpected",
        ParseKind::TooDeep => b"TooDeep",
        ParseKind::Memory => b"",
    }
}

// Writes the line of a fault at its line and column.
fn write_spot_line<E: Sink>(
    err: &mut E,
    name: &[u8],
    spot: Spot,
    phase: &[u8],
    word: &[u8],
) -> Result<(), SinkFault>
    ensures whole { OnOk result
        (Gains (E.contents err.old) (spot_line name.now spot phase.now word.now) (E.contents err.new)) }
    ensures front { OnErr result
        (GainsFront (E.contents err.old) (spot_line name.now spot phase.now word.now) (E.contents err.new)) }
    ensures failed { OnSinkFailed result (Rose (E.faults err.old) (E.faults err.new)) }
    ensures quiet { OnOk result (E.faults err.new ≡ E.faults err.old) }
    ensures memory { OnSinkMemory result (E.faults err.new ≡ E.faults err.old) }
{
    let mut line = Buffer::new();
    let mut column = Buffer::new();
    write_parts(err, name, b":", line.format(spot.line).as_bytes())?;
    write_parts(err, b":", column.format(spot.column).as_bytes(), phase)?;
    write_parts(err, b"", word, b"\n")
}

// Writes the line of bytes that are no UTF-8.
fn write_byte<E: Sink>(err: &mut E, name: &[u8], at: u32) -> Result<(), SinkFault>
    ensures whole { OnOk result (Gains (E.contents err.old) (byte_line name.now at) (E.contents err.new)) }
    ensures front { OnErr result (GainsFront (E.contents err.old) (byte_line name.now at) (E.contents err.new)) }
    ensures failed { OnSinkFailed result (Rose (E.faults err.old) (E.faults err.new)) }
    ensures quiet { OnOk result (E.faults err.new ≡ E.faults err.old) }
    ensures memory { OnSinkMemory result (E.faults err.new ≡ E.faults err.old) }
{
    let mut number = Buffer::new();
    write_parts(err, name, b": byte ", number.format(at).as_bytes())?;
    write_all(err, b": not UTF-8\n")
}

/// Writes the line of the first fault of a file.
pub fn write_refusal<E: Sink>(err: &mut E, name: &[u8], refusal: Refusal) -> Result<(), SinkFault>
    ensures whole { OnOk result (Gains (E.contents err.old) (refusal_line name.now refusal) (E.contents err.new)) }
    ensures front { OnErr result (GainsFront (E.contents err.old) (refusal_line name.now refusal) (E.contents err.new)) }
    ensures failed { OnSinkFailed result (Rose (E.faults err.old) (E.faults err.new)) }
    ensures quiet { OnOk result (E.faults err.new ≡ E.faults err.old) }
    ensures memory { OnSinkMemory result (E.faults err.new ≡ E.faults err.old) }
{
    match refusal {
        Refusal::NotUtf8 { at } => write_byte(err, name, at),
        Refusal::Lex { fault, spot } => {
            write_spot_line(err, name, spot, b": lex ", lex_word(fault.kind))
        }
        Refusal::Parse { fault, spot } => {
            write_spot_line(err, name, spot, b": parse ", parse_word(fault.kind))
        }
    }
}
