// What an operator reads of a record file: the text that `snaplist` prints, and the map that `snapmap` draws.
//
// Document 01, "Snapshot and resume", the paragraph on `snaplist`. The map is the port's own.
//
//   lib      a file's text, into a lent output
//   lines    the line of a record, and the lines of all records
//   map      a file's map, into a lent output
//   tiles    the tile of a page, and the tiles of all pages
//   pages    what a file says of a page, and how many pages it says that of
//   writer   a lent output with its text: numbers as decimals, lines, texts with gaps for numbers
//
// What the text is, is `listing` (specs/Listing.antt), what the map is, `map` (specs/Map.antt); Session A's text is
// proofs/Examples.antt.
#![tactic(auto)]

mod lines;
pub mod map;
mod pages;
mod tiles;
mod writer;

ghost use Rattle.std.specs.Prelude.{◌≡◌, ◌∷◌, [], ◌≤◌, length, IfOk};
ghost use Rattle.outcome.specs.Numbers.{refusal_number};
ghost use Rattle.listing.specs.Listing.{letter_e, line, told, laid, list_into, most_line};
ghost use Rattle.listing.specs.Writer.{Adds, Room, SameOutput};

use outcome::Refusal;
use recordfile::form::needed_pages;
use recordfile::{MOST_RECORDS, RECORD_BYTES};
use writer::{MOST_DIGITS, MOST_NUMBERS, Writer};

// The most bytes of a line: a letter, five numbers of twenty digits after their spaces, and the line's end.
pub const MOST_LINE: usize = 1 + MOST_NUMBERS * (1 + MOST_DIGITS) + 1;

// The most bytes of a file's text.
pub const MOST_TEXT: usize = MOST_RECORDS * MOST_LINE;

// The bytes that are read of a file, one more than the largest has: a longer one is read up to there, and that is not whole records.
pub const MOST_READ: usize = MOST_RECORDS * RECORD_BYTES + 1;

// The most pages of a machine.
pub const MOST_PAGES: u64 = 1024;

// The line of a file that is refused.
fn put_refusal(text: &mut Writer, refusal: Refusal)
    requires { Room text.old most_line }
    ensures wrote { Adds text.old text.new (line letter_e (refusal_number refusal ∷ [])) }
    ensures same { SameOutput text.old text.new }
{
    text.line(b'E', &[u64::from(u32::from(refusal))]);
}

// A record file's text, at the front of a lent output; answers its size.
pub fn list(file: &[u8], out: &mut [u8]) -> Result<usize, Refusal>
    ensures out_after { told result out.new ≡ laid out.old (list_into file.now (length out.old)) }
    ensures size_in_bounds { IfOk result (λ size. size ≤ length out.new) }
{
    if out.len() < MOST_TEXT {
        return Err(Refusal::OutputTooShort);
    }
    let mut text = Writer { out, end: 0 };
    if let Err(refusal) = needed_pages(file) {
        put_refusal(&mut text, refusal);
        return Ok(text.end);
    }
    lines::put_records(&mut text, file);
    Ok(text.end)
}
