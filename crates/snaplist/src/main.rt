// snaplist: lists the record file on standard input.
//
// Document 01, "Snapshot and resume", the paragraph on `snaplist`. The text is `listing`'s; the program reads and writes. It
// takes no argument: given one it says how it is used, and does nothing else. Its buffers are local arrays of a fixed size: no heap.
#![tactic(auto)]

ghost use Rattle.std.specs.Prelude.{◌≡◌, ◌≤◌, length, take, IfSome, OnOk};
ghost use Rattle.std.specs.Counts.{IsPrefixLen};
ghost use Rattle.std.specs.Io.KnownBytes.{Appends};
ghost use Rattle.streams.specs.Fronts.{AppendsFront};
ghost use Rattle.listing.specs.Listing.{listing, most_text};

use listing::{MOST_READ, MOST_TEXT};
use std::env::{Env, FillError};
use std::io;
use std::io::{Read, Write};

// A record file's text, at the front of `text`; answers its size. No one function for it and snapmap's `put_map`: `listing` or `map`
// of the promise would be a parameter, no plainer.
fn put_text(file: &[u8], text: &mut [u8]) -> usize
    requires { most_text ≤ length text.old }
    ensures text_after { take result text.new ≡ listing file.now }
    ensures prefix_len { IsPrefixLen result text.new }
{
    listing::list(file, text).unwrap_or(0)
}

fn usage<W: Write>(writer: &mut W) -> io::Result<()> {
    writer.write_all(
        b"usage: snaplist < RECORDS\n\
          Lists the record file of a snapshot: M, S and D lines, or only E 11 where it is not in the form.\n",
    )
}

// Reads a record file to its end, and then writes its text. A file that can't be read to its end gives an error and no text;
// after a failed write a front of the text is written. One function for it and snapmap's `draw_input` is no plainer: it takes both
// buffers, a closure and what that promises.
#[tactic(auto, using(listing::proofs::Front::listing_front))]
fn list_input<R: Read, W: Write>(reader: &mut R, writer: &mut W) -> io::Result<()>
    ensures all { OnOk result (IfSome (R.remaining reader.old) (λ input.
        Appends (W.contents writer.old) (W.contents writer.new) (listing input))) }
    ensures front { IfSome (R.remaining reader.old) (λ input.
        AppendsFront (W.contents writer.old) (W.contents writer.new) (listing input)) }
{
    // Arrays of a fixed size: no heap.
    let mut file = [0u8; MOST_READ];
    let mut text = [0u8; MOST_TEXT];
    let count = streams::read_full(reader, &mut file)?;
    let size = put_text(&file[..count], &mut text);
    streams::write_full(writer, &text[..size])?;
    writer.flush()
}

fn main(rt: HostRuntime) -> io::Result<()> {
    let Err(FillError::NotPresent) = rt.arg(1, &mut []) else {
        return usage(&mut rt.stderr());
    };
    list_input(&mut rt.stdin(), &mut rt.stdout())
}
