// A whole play: its header, and the lines behind it.
ghost use Rattle.std.specs.Prelude.{◌≡◌, ℕ, ◌<◌, ◌≤◌, ◌==◌, T, length, position, OnOk};
ghost use Rattle.play.specs.Letters.{letter_of};
ghost use Rattle.play.specs.Lines.{LF, lines_of};
ghost use Rattle.play.specs.Promise.{PlayRead};
ghost use Rattle.play.specs.Text.{TextLaw};
ghost use Rattle.play.specs.Play.{first_letter, first_whole, first_header};

use crate::body::{LF, first_fault};
use crate::fault::*;
use crate::header::Header;
use crate::letter::Letter;
use crate::line::read_header;

// A play without fault. Its body is the lines behind the header's.
#[derive(Clone, Copy)]
pub struct Play<'a> {
    pub header: Header,
    pub body: &'a [u8],
}

// The most bytes that a play may have.
pub const LONGEST: usize = 60000;

// How many bytes the header's line has, with its LF.
const HEADER_LINE: usize = 15;

// The letter of the first line. A header is asked for here and nowhere else, so that it is no twin of `open_order`.
fn open_first(letter: char) -> Result<(), PlayFault>
    ensures { result ≡ first_letter (letter_of letter) }
{
    let unknown = PlayFault::Line {
        line: 1,
        fault: LineFault::Letter,
    };
    match Letter::of(letter).ok_or(unknown)? {
        Letter::Ring => Ok(()),
        Letter::Order(_) => Err(PlayFault::Header { line: 1 }),
    }
}

// Where the first line ends.
fn line_end(bytes: &[u8]) -> Option<usize>
    ensures { result ≡ position (λ b. b == LF) bytes.now }
{
    bytes.iter().position(|byte| *byte == LF)
}

// Whether the first line has just `width` columns, with an LF behind them.
fn is_whole(bytes: &[u8], width: usize) -> bool
    ensures value { result ≡ first_whole width (lines_of bytes.now) }
    ensures room { T result → width < length bytes.now }
{
    if bytes.len() <= width {
        return false;
    }
    // no byte behind a whole line is read: the first line may be as long as the play
    line_end(&bytes[..=width]) == Some(width)
}

// The header that the first line says.
fn read_first_line(bytes: &[u8]) -> Result<Header, PlayFault>
    ensures value { result ≡ first_header (lines_of bytes.now) }
    ensures bound { OnOk result (15 ≤ length bytes.now) }
{
    // a test, as the others of this line: with `first()?` each later goal would have to find again that there is a byte
    if bytes.len() == 0 {
        return Err(PlayFault::Header { line: 1 });
    }
    open_first(char::from(bytes[0]))?;
    let width = Letter::Ring.width();
    if !is_whole(bytes, width) {
        return Err(PlayFault::Line {
            line: 1,
            fault: LineFault::Cut,
        });
    }
    read_header(&bytes[0..width]).map_err(|fault| PlayFault::Line { line: 1, fault })
}

// Reads a whole play: its header and body, or its first fault in line order.
pub fn read_play<'a>(bytes: &'a [u8]) -> Result<Play<'a>, PlayFault>
    ensures reads { PlayRead bytes.now result }
    ensures text { TextLaw bytes.now }
{
    if bytes.len() > LONGEST {
        return Err(PlayFault::Long);
    }
    let header = read_first_line(bytes)?;
    let body = &bytes[HEADER_LINE..];
    // a match, not `map_or`: the fault comes first, before the play that it rules out
    match first_fault(header.items, body) {
        Some(fault) => Err(fault),
        None => Ok(Play { header, body }),
    }
}
