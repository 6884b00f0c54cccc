// snapmap: draws the record file on standard input as a map of the machine's pages, in SVG.
//
// The picture is `listing`'s; the program reads and writes. Its one argument, which may be left out, is the machine's pages.
// Given others it says how it is used, and does nothing else. Its buffers are local arrays of a fixed size: no heap.
#![tactic(auto)]

ghost use Rattle.std.specs.Prelude.{◌≡◌, ◌≤◌, length, take, IfSome, OnOk};
ghost use Rattle.std.specs.Counts.{IsPrefixLen};
ghost use Rattle.std.specs.Io.KnownBytes.{Appends};
ghost use Rattle.streams.specs.Fronts.{AppendsFront};
ghost use Rattle.listing.specs.Map.{map, most_map};
ghost use Rattle.listing.specs.Pages.{most_pages};
ghost use Rattle.snapmap.specs.Numerals.{Pushes, AsksFor, AreFew};

use listing::map::MOST_MAP;
use listing::{MOST_PAGES, MOST_READ};
use std::env::{Env, FillError};
use std::io;
use std::io::{Read, Write};

// The bytes of the longest argument.
const MOST_WORD: usize = 4;

// A number of at most MOST_PAGES with a digit behind it; none where that is more, or no digit.
fn with_digit(pages: u64, byte: u8) -> Option<u64>
    requires { pages ≤ most_pages }
    ensures { Pushes pages byte result }
{
    if !byte.is_ascii_digit() {
        return None;
    }
    let more = pages * 10 + u64::from(byte - b'0');
    if MOST_PAGES < more {
        return None;
    }
    Some(more)
}

// A word as a decimal number of at most MOST_PAGES. Not by std's `parse`, which takes a sign: what the program makes of a word stays.
fn pages_in(word: &[u8]) -> Option<u64>
    ensures { AsksFor word.now result }
{
    if word.is_empty() {
        return None;
    }
    let mut pages = 0;
    for byte in word {
        pages = with_digit(pages, *byte)?;
    }
    Some(pages)
}

// The machine's pages as the arguments ask for them: at most one, of at most MOST_WORD bytes.
fn from_arguments(rt: &HostRuntime) -> Option<u64>
    ensures { AreFew result }
{
    // Arrays of a fixed size, here and below: no heap.
    let mut word = [0u8; MOST_WORD];
    let Err(FillError::NotPresent) = rt.arg(2, &mut word) else {
        return None;
    };
    match rt.arg(1, &mut word) {
        Ok(size) => pages_in(&word[..size]),
        Err(FillError::NotPresent) => Some(MOST_PAGES),
        Err(FillError::TooLong) => None,
    }
}

fn usage<W: Write>(writer: &mut W) -> io::Result<()> {
    writer.write_all(
        b"usage: snapmap [PAGES] < RECORDS > MAP.svg\n\
          Draws the record file of a snapshot as a map of the machine's pages: dirty, from a source, left out.\n\
          PAGES: how many pages the machine has, 0 to 1024; 1024 where it is left out.\n\
          A record file that is not in the form gives only E 11.\n",
    )
}

// A record file's map, at the front of `out`; answers its size. The pages are a number, as `draw` takes them: a struct round it for
// two contracts is no plainer. No one function for it and snaplist's `put_text`: `map` or `listing` of the promise would be a
// parameter, no plainer.
fn put_map(file: &[u8], out: &mut [u8], pages: u64) -> usize
    requires pages_le_most_pages { pages ≤ most_pages }
    requires most_map_in_bounds { most_map ≤ length out.old }
    ensures out_after { take result out.new ≡ map pages file.now }
    ensures prefix_len { IsPrefixLen result out.new }
{
    listing::map::draw(file, out, pages).unwrap_or(0)
}

// Reads a record file to its end, and then writes its map. A file that can't be read to its end gives an error and no map;
// after a failed write a front of the map is written. One function for it and snaplist's `list_input` is no plainer: it takes both
// buffers, a closure and what that promises.
fn draw_input<R: Read, W: Write>(reader: &mut R, writer: &mut W, pages: u64) -> io::Result<()>
    ensures all { pages ≤ most_pages → OnOk result (IfSome (R.remaining reader.old) (λ input.
        Appends (W.contents writer.old) (W.contents writer.new) (map pages input))) }
    ensures front { IfSome (R.remaining reader.old) (λ input.
        AppendsFront (W.contents writer.old) (W.contents writer.new) (map pages input)) }
{
    if MOST_PAGES < pages {
        return Ok(());
    }
    let mut file = [0u8; MOST_READ];
    let mut out = [0u8; MOST_MAP];
    let count = streams::read_full(reader, &mut file)?;
    let size = put_map(&file[..count], &mut out, pages);
    streams::write_full(writer, &out[..size])?;
    writer.flush()
}

fn main(rt: HostRuntime) -> io::Result<()> {
    let Some(pages) = from_arguments(&rt) else {
        return usage(&mut rt.stderr());
    };
    draw_input(&mut rt.stdin(), &mut rt.stdout(), pages)
}
