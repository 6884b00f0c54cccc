// Session A of document 01, told: a machine loads readings from a source, is stopped, and goes on elsewhere.
//
// "Session A: 4 pages, version 1, maximum 1,000, fresh; item 7 has 10,000 bytes; context store at 100, offset 0, length 10,000, size
// address 16,376." Its record file is printed by snaplist's own functions; the files are then resumed on a second machine, and
// everything that a call can see of the two is compared. What is lent stands in local arrays of a fixed size: no heap.
#![tactic(auto)]

ghost use Rattle.std.specs.Prelude.{◌≡◌, take, OnOk};
ghost use Rattle.std.specs.Bool.{Decides};
ghost use Rattle.std.specs.Io.KnownBytes.{Appends};
ghost use Rattle.session.specs.Alike.{TrackedAlike};
ghost use Rattle.session.specs.Said.{said, compared, listed};
ghost use Rattle.streams.specs.Fronts.{AppendsFront};

use bits::RISCV_PAGESIZE;
use listing::MOST_TEXT;
use machine::Machine;
use memory::storage::{Lent, Storage};
use outcome::Refusal;
use recordfile::{MOST_RECORDS, RECORD_BYTES};
use snapshot::make::{Made, Outputs};
use snapshot::resume::Files;
use std::env::{Env, FillError};
use std::io;
use std::io::Write;
use tracking::records::entry_at;
use tracking::sources::Sources;
use tracking::storage::{TrackedLent, TrackedStorage};

// The pages of both machines, and their bytes.
const PAGES: usize = 4;

const BYTES: usize = 16384;

// The words of their records.
const RECORDS: usize = 12;

// Item 7, of 10,000 bytes.
const ITEM: u64 = 7;

const ITEM_BYTES: usize = 10000;

const VERSION: u32 = 1;

const MAXIMUM: u64 = 1000;

// Where the item is stored, and where its full length.
const ADDRESS: u64 = 100;

const SIZE_ADDRESS: u64 = 16376;

// The bytes lent for a record file.
const FILE: usize = 1024;

// A machine, and what it is lent.
#[derive(Clone, Copy)]
struct Host {
    slots: [u16; PAGES],
    flags: [u8; PAGES],
    area: [u8; BYTES],
    records: [u64; RECORDS],
    machine: Machine,
}

impl Host {
    // A fresh machine.
    fn fresh(maximum: u64) -> Result<Self, Refusal> {
        // Arrays of a fixed size, here and below: no heap.
        let mut slots = [0u16; PAGES];
        let mut flags = [0u8; PAGES];
        let mut area = [0u8; BYTES];
        let mut records = [0u64; RECORDS];
        let mut storage = Storage {
            slots: &mut slots,
            flags: &mut flags,
            area: &mut area,
        };
        let machine = Machine::fresh(&mut storage, &mut records, BYTES as u64, VERSION, maximum)?;
        Ok(Host {
            slots,
            flags,
            area,
            records,
            machine,
        })
    }

    // What is lent, to be read.
    fn lent(&self) -> TrackedLent<'_> {
        TrackedLent {
            slots: &self.slots,
            flags: &self.flags,
            area: &self.area,
            records: &self.records,
        }
    }

    // It stores the item.
    fn store(&mut self, sources: Sources) -> Result<(), Refusal> {
        let mut tracked = TrackedStorage {
            slots: &mut self.slots,
            flags: &mut self.flags,
            area: &mut self.area,
            records: &mut self.records,
        };
        tracked.store_bytes(
            &mut self.machine.memory,
            sources,
            ADDRESS,
            ITEM,
            0,
            ITEM_BYTES as u64,
            SIZE_ADDRESS,
        )?;
        Ok(())
    }

    // It is resumed.
    fn resume(&mut self, sources: Sources, files: Files) -> Result<(), Refusal> {
        let mut tracked = TrackedStorage {
            slots: &mut self.slots,
            flags: &mut self.flags,
            area: &mut self.area,
            records: &mut self.records,
        };
        snapshot::resume::resume(&mut tracked, sources, files, &mut self.machine)
    }

    // All bytes of its memory, read by its own call; where that refuses, the output stays as it was.
    fn read_all(&self, out: &mut [u8]) -> Result<(), Refusal> {
        let lent = Lent {
            slots: &self.slots,
            flags: &self.flags,
            area: &self.area,
        };
        self.machine.memory.load_bytes(lent, out, 0, BYTES as u64)
    }
}

// The front of a slice, as far as it is there.
#[tactic(auto, using(std::proofs::lemmas::List::take_min))]
fn front(bytes: &[u8], size: usize) -> &[u8]
    ensures { result.now ≡ take size bytes.now }
{
    &bytes[..size.min(bytes.len())]
}

// ---- said

// What a call answered.
fn say_outcome<W: Write>(writer: &mut W, outcome: Result<(), Refusal>) -> io::Result<()> {
    let Err(refusal) = outcome else {
        return writeln!(writer, "done");
    };
    let number = u32::from(refusal);
    writeln!(writer, "refused, {number}")
}

// Whether what was compared is equal, in words. No `Display`: `said` of specs/Said is promised of it.
#[tactic(auto, unfolding(crate::specs::Said::said))]
fn said(equal: bool) -> &'static str
    ensures { result.now ≡ said equal }
{
    if equal { "equal" } else { "NOT EQUAL" }
}

// What was compared, and whether it is equal. After a failed write a front of the line is written.
// Part by part: `writeln!` promises no front, and a list of the parts was tried: the check covers no array of slices of several
// lifetimes.
fn say_equal<W: Write>(writer: &mut W, what: &[u8], equal: bool) -> io::Result<()>
    ensures all { OnOk result (Appends (W.contents writer.old) (W.contents writer.new) (compared what.now equal)) }
    ensures front { AppendsFront (W.contents writer.old) (W.contents writer.new) (compared what.now equal) }
{
    let verdict = said(equal);
    streams::write_full(writer, b"  ")?;
    streams::write_full(writer, what)?;
    streams::write_full(writer, b": ")?;
    streams::write_full(writer, verdict.as_bytes())?;
    streams::write_full(writer, b"\n")
}

// The text of a record file. After a failed write a front of it is written.
fn list<W: Write>(writer: &mut W, file: &[u8]) -> io::Result<()>
    ensures all { OnOk result (Appends (W.contents writer.old) (W.contents writer.new) (listed file.now)) }
    ensures front { AppendsFront (W.contents writer.old) (W.contents writer.new) (listed file.now) }
{
    let mut text = [0u8; MOST_TEXT];
    let size = listing::list(file, &mut text).unwrap_or(0);
    streams::write_full(writer, b"The record file, as snaplist lists it:\n")?;
    streams::write_full(writer, front(&text, size))
}

// ---- compared

fn same_tracking(one: TrackedLent, two: TrackedLent) -> bool
    ensures { Decides result (TrackedAlike 4 one.entry.flags.now one.entry.records.now two.entry.flags.now two.entry.records.now) }
{
    for page in 0..PAGES as u64 {
        if entry_at(one.flags, one.records, page) != entry_at(two.flags, two.records, page) {
            return false;
        }
    }
    true
}

fn same_registers(one: Machine, two: Machine) -> bool
    ensures { Decides result (one.registers ≡ two.registers) }
{
    one.registers == two.registers
}

fn same_numbers(one: Machine, two: Machine) -> bool
    ensures { Decides result ((one.pc ≡ two.pc) × (one.next_pc ≡ two.next_pc) × (one.version ≡ two.version)
        × (one.cycles ≡ two.cycles) × (one.max_cycles ≡ two.max_cycles) × (one.memory.reservation ≡ two.memory.reservation)) }
{
    (
        one.pc,
        one.next_pc,
        one.version,
        one.cycles,
        one.max_cycles,
        one.memory.lr(),
    ) == (
        two.pc,
        two.next_pc,
        two.version,
        two.cycles,
        two.max_cycles,
        two.memory.lr(),
    )
}

// Everything that a call can see of two machines.
fn compare<W: Write>(writer: &mut W, one: &Host, two: &Host) -> io::Result<()> {
    let mut bytes = [0u8; BYTES];
    let mut others = [0u8; BYTES];
    let read = one.read_all(&mut bytes).and(two.read_all(&mut others));
    writeln!(writer, "The two machines:")?;
    say_equal(writer, b"bytes", read.is_ok() && bytes == others)?;
    say_equal(writer, b"flags", one.flags == two.flags)?;
    say_equal(
        writer,
        b"tracked pages",
        same_tracking(one.lent(), two.lent()),
    )?;
    say_equal(
        writer,
        b"registers",
        same_registers(one.machine, two.machine),
    )?;
    say_equal(
        writer,
        b"pc, version, cycles, maximum, reservation",
        same_numbers(one.machine, two.machine),
    )
}

// ---- told

// Readings: bytes that a page of zeros or a shifted page would not match.
fn readings() -> [u8; ITEM_BYTES] {
    let mut bytes = [0u8; ITEM_BYTES];
    let mut x: u64 = 1;
    for byte in &mut bytes {
        x = (x * 1103515245 + 12345) % 2147483648;
        *byte = (x / 65536 % 256) as u8;
    }
    bytes
}

// A machine is fresh, if that is not refused.
fn start<W: Write>(writer: &mut W, maximum: u64) -> io::Result<Option<Host>> {
    let fresh = Host::fresh(maximum);
    say_outcome(writer, fresh.map(|_| ()))?;
    Ok(fresh.ok())
}

// The first machine, until it is stopped.
fn first<W: Write>(
    writer: &mut W,
    sources: Sources,
    outputs: &mut Outputs,
) -> io::Result<Option<(Host, Made)>> {
    write!(
        writer,
        "A machine of 4 pages, version 1, 1000 cycles at most, is fresh: "
    )?;
    let Some(mut one) = start(writer, MAXIMUM)? else {
        return Ok(None);
    };
    write!(
        writer,
        "It stores the 10000 bytes of item 7 at 100, and how many they are at 16376: "
    )?;
    say_outcome(writer, one.store(sources))?;
    write!(writer, "It is stopped, and a snapshot taken: ")?;
    let made = snapshot::make::make_snapshot(one.lent(), outputs, one.machine);
    say_outcome(writer, made.map(|_| ()))?;
    Ok(made.ok().map(|made| (one, made)))
}

// A second machine, elsewhere, goes on.
fn second<W: Write>(writer: &mut W, sources: Sources, files: Files) -> io::Result<Option<Host>> {
    write!(writer, "A second machine, elsewhere, is fresh: ")?;
    let Some(mut two) = start(writer, 0)? else {
        return Ok(None);
    };
    write!(writer, "It is resumed from the two files and the sources: ")?;
    say_outcome(writer, two.resume(sources, files))?;
    Ok(Some(two))
}

// All of it; where no machine or no snapshot is made, as far as that.
fn tell<W: Write>(writer: &mut W) -> io::Result<()> {
    let bytes = readings();
    let sources = Sources {
        directory: &[ITEM, 0, ITEM_BYTES as u64],
        bytes: &bytes,
    };
    let mut file = [0u8; FILE];
    let mut pages = [0u8; BYTES];
    let mut outputs = Outputs {
        file: &mut file,
        pages: &mut pages,
    };
    let Some((one, made)) = first(writer, sources, &mut outputs)? else {
        return writer.flush();
    };
    let files = Files {
        file: front(
            &file,
            (made.records as usize).min(MOST_RECORDS) * RECORD_BYTES,
        ),
        pages: front(&pages, (made.pages as usize).min(PAGES) * RISCV_PAGESIZE),
    };
    list(writer, files.file)?;
    if let Some(two) = second(writer, sources, files)? {
        compare(writer, &one, &two)?;
    }
    writer.flush()
}

fn usage<W: Write>(writer: &mut W) -> io::Result<()> {
    writer.write_all(
        b"usage: session\n\
          Tells document 01's Session A: a machine that is stopped and goes on elsewhere. It takes no argument.\n",
    )
}

fn main(rt: HostRuntime) -> io::Result<()> {
    let Err(FillError::NotPresent) = rt.arg(1, &mut []) else {
        return usage(&mut rt.stderr());
    };
    tell(&mut rt.stdout())
}
