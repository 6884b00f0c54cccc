// Resume: a machine made equal to the one that a snapshot was taken of, in document 01's order.
ghost use Rattle.std.specs.Prelude.{◌≡◌, ◌≢◌, ◌∷◌, ◌++◌, ◌+◌, ◌*◌, ◌^◌, ◌<◌, length};
ghost use Rattle.bits.specs.Rounding.{page_size};
ghost use Rattle.outcome.specs.Numbers.{number_of};
ghost use Rattle.words.specs.Bytes.{part};
ghost use Rattle.program.specs.Program.{run};
ghost use Rattle.memory.specs.Operations as memory-op;
ghost use Rattle.memory.specs.Storage.{state_of};
ghost use Rattle.memory.specs.Lent.{flags_in, SameFlags};
ghost use Rattle.memory.specs.WXorX.{store_bytes};
ghost use Rattle.recordfile.specs.Form.{malformed, register_records, records_need, registers_need, runs_need};
ghost use Rattle.recordfile.specs.Reader.{left};
ghost use Rattle.recordfile.specs.Snapshots.{source_run, dirty_run, sources_in, dirty_in, state_record, register_records_of};
ghost use Rattle.tracking.specs.Operations.{does, machine_does, on_memory};
ghost use Rattle.tracking.specs.Answers.{tracked_in, SameTracked};
ghost use Rattle.snapshot.specs.Resume.{set_flags, store_run, store_source, restore_source, restore_dirty, restore_record, restore_runs, restore, resume};
ghost use Rattle.snapshot.specs.Answers.{lent_in, kept_of_file, snapshot_left};

use machine::{Machine, RISCV_GENERAL_REGISTER_NUMBER};
use memory::layer::{Layer, WXorX};
use memory::storage::{Bytes, LentFlags, Storage};
use memory::{Memory, PAGE};
use outcome::Refusal;
use recordfile::reader::Reader;
use recordfile::{REGISTER_RECORDS, REGISTERS_A_RECORD, Record};
use tracking::sources::{Sources, load_data};
use tracking::storage::TrackedStorage;

// The files of a snapshot: the record file, and the page file.
#[derive(Clone, Copy)]
pub struct Files<'a> {
    pub file: &'a [u8],
    pub pages: &'a [u8],
}

// The numbers of a state record. Not a field of `Record::State`: the definitions speak of five fields there.
#[derive(Clone, Copy)]
pub struct Kept {
    pub version: u32,
    pub pc: u64,
    pub cycles: u64,
    pub maximum: u64,
    pub reservation: u64,
}

// A source run: where its bytes go, the flag of their pages, and the item that they come from. Not a field of `Record::Source`, for
// the same reason.
#[derive(Clone, Copy)]
struct SourceRun {
    address: u64,
    flag: u8,
    id: u64,
    offset: u64,
    size: u64,
}

// ---- what the files hold

// The numbers of the state record, which stands next: the file is in the form. It moves the reader on, so it is no `From`.
#[tactic(auto, using(crate::proofs::RestoredRuns::state_missing, crate::proofs::RestoredRuns::state_other))]
fn kept_in(records: &mut Reader) -> Kept
    requires { records_need (left records.old) ≢ malformed }
    ensures { left records.old ≡ state_record (kept_of_file result) ∷ left records.new }
{
    let Some(entry) = records.next() else {
        unreachable!()
    };
    let Record::State {
        version,
        pc,
        cycles,
        maximum,
        reservation,
    } = entry
    else {
        unreachable!()
    };
    Kept {
        version,
        pc,
        cycles,
        maximum,
        reservation,
    }
}

// The registers of the register records, which stand next: the file is in the form. Four fields each and no array: the definitions
// speak of those of `Record`.
#[tactic(auto, using(crate::proofs::RestoredRuns::read_first, crate::proofs::RestoredRuns::read_missing, crate::proofs::RestoredRuns::read_end))]
fn registers_in(records: &mut Reader) -> [u64; RISCV_GENERAL_REGISTER_NUMBER]
    requires { registers_need 0 register_records (left records.old) ≢ malformed }
    ensures { left records.old ≡ register_records_of result 0 register_records ++ left records.new }
{
    let mut registers = [0u64; RISCV_GENERAL_REGISTER_NUMBER];
    for i in 0..REGISTER_RECORDS {
        let Some(entry) = records.next() else {
            unreachable!()
        };
        let Record::Registers {
            one,
            two,
            three,
            four,
            ..
        } = entry
        else {
            unreachable!()
        };
        let at = i * REGISTERS_A_RECORD as usize;
        registers[at] = one;
        registers[at + 1] = two;
        registers[at + 2] = three;
        registers[at + 3] = four;
    }
    registers
}

// So many pages of a page file, from a place on, as far as they are there.
fn pages_at(pages: &[u8], place: u64, count: u64) -> &[u8]
    ensures { result.now ≡ part pages.now (place * page_size) (count * page_size) }
{
    let size = pages.len() as u64;
    let start = place.saturating_mul(PAGE).min(size);
    let end = start + count.saturating_mul(PAGE).min(size - start);
    &pages[start as usize..end as usize]
}

// ---- a run
//
// Storage, the memory's numbers, the sources and the page file go beside each other: what stores and sets flags takes the first two,
// what finds an item the third, what cuts pages the fourth, so that a struct of the four would be taken apart in each: no plainer.

// The flag set on `count` pages from `first` on.
#[tactic(auto, using(crate::proofs::Restored::setting_first, crate::proofs::Restored::setting_next, crate::proofs::Restored::set_all))]
fn set_flags(
    lent: &mut LentFlags,
    memory: Memory,
    first: u64,
    count: u64,
    flag: u8,
) -> Result<(), Refusal>
    requires ends { first + count < 2 ^ 64 }
    ensures value { (number_of result, flags_in lent.new memory) ≡ run memory-op.does (set_flags first count flag) (flags_in lent.old memory) }
    ensures same { SameFlags lent.old lent.new }
{
    for page in first..first + count {
        memory.set_flag(lent, page, flag)?;
    }
    Ok(())
}

// The same with the slices apart: a `LentFlags` made of `tracked`'s fields in place was tried, and the check doesn't cover it.
fn set_flags_apart(
    slots: &mut [u16],
    flags: &mut [u8],
    area: &mut [u8],
    memory: Memory,
    first: u64,
    count: u64,
    flag: u8,
) -> Result<(), Refusal>
    requires ends { first + count < 2 ^ 64 }
    ensures { (number_of result, state_of slots.new flags.new area.new memory) ≡ run memory-op.does (set_flags first count flag) (state_of slots.old flags.old area.old memory) }
{
    let mut lent = LentFlags { slots, flags, area };
    set_flags(&mut lent, memory, first, count, flag)
}

// Bytes stored with the slices apart, for the same reason.
fn store_over_apart(
    slots: &mut [u16],
    flags: &mut [u8],
    area: &mut [u8],
    memory: &mut Memory,
    bytes: &[u8],
    address: u64,
) -> Result<(), Refusal>
    ensures { (number_of result, state_of slots.new flags.new area.new memory.new) ≡ run memory-op.does (store_bytes address bytes.now) (state_of slots.old flags.old area.old memory.old) }
{
    let mut storage = Storage { slots, flags, area };
    WXorX::store_over(memory, &mut storage, address, Bytes::These(bytes))
}

// Stores bytes, and sets the flag of their pages.
fn store_run(
    tracked: &mut TrackedStorage,
    memory: &mut Memory,
    bytes: &[u8],
    address: u64,
    flag: u8,
) -> Result<(), Refusal>
    ensures value { (number_of result, tracked_in tracked.new memory.new) ≡ run does (on_memory (store_run address flag bytes.now)) (tracked_in tracked.old memory.old) }
    ensures same { SameTracked tracked.old tracked.new }
{
    store_over_apart(
        tracked.slots,
        tracked.flags,
        tracked.area,
        memory,
        bytes,
        address,
    )?;
    set_flags_apart(
        tracked.slots,
        tracked.flags,
        tracked.area,
        *memory,
        address / PAGE,
        bytes.len() as u64 / PAGE,
        flag,
    )
}

// The same, and tracks the pages.
#[tactic(auto, using(crate::proofs::Restored::source_stored))]
fn store_source(
    tracked: &mut TrackedStorage,
    memory: &mut Memory,
    bytes: &[u8],
    source: SourceRun,
) -> Result<(), Refusal>
    ensures value { (number_of result, tracked_in tracked.new memory.new) ≡ run does (store_source source.address source.flag source.id source.offset bytes.now) (tracked_in tracked.old memory.old) }
    ensures same { SameTracked tracked.old tracked.new }
{
    store_run(tracked, memory, bytes, source.address, source.flag)?;
    let size = bytes.len() as u64;
    tracked.track_pages(*memory, source.address, size, source.id, source.offset)
}

// A source run.
#[tactic(auto, using(crate::proofs::Restored::source_unaligned, crate::proofs::Restored::source_missing, crate::proofs::Restored::data_cut, crate::proofs::Restored::data_whole))]
fn restore_source(
    tracked: &mut TrackedStorage,
    memory: &mut Memory,
    sources: Sources,
    source: SourceRun,
) -> Result<(), Refusal>
    ensures value { (number_of result, tracked_in tracked.new memory.new) ≡ run does (restore_source sources.entry.directory.now sources.entry.bytes.now (source_run source.address source.flag source.id source.offset source.size)) (tracked_in tracked.old memory.old) }
    ensures same { SameTracked tracked.old tracked.new }
{
    if source.address % PAGE != 0 {
        return Err(Refusal::MemPageUnalignedAccess);
    }
    let found = sources.find_data(source.id, source.offset, source.size);
    let Some(_) = found else {
        return Err(Refusal::SnapshotDataLoadError);
    };
    let data = load_data(sources.bytes, found);
    if data.len() as u64 % PAGE != 0 {
        return Err(Refusal::MemPageUnalignedAccess);
    }
    store_source(tracked, memory, data, source)
}

// A dirty run.
#[tactic(auto, using(crate::proofs::Restored::dirty_unaligned, crate::proofs::Restored::dirty_aligned))]
fn restore_dirty(
    tracked: &mut TrackedStorage,
    memory: &mut Memory,
    content: &[u8],
    address: u64,
    flag: u8,
) -> Result<(), Refusal>
    ensures value { (number_of result, tracked_in tracked.new memory.new) ≡ run does (on_memory (restore_dirty (dirty_run address flag content.now))) (tracked_in tracked.old memory.old) }
    ensures same { SameTracked tracked.old tracked.new }
{
    if address % PAGE != 0 {
        return Err(Refusal::MemPageUnalignedAccess);
    }
    store_run(tracked, memory, content, address, flag)
}

// The run of a record; one that is no run does nothing. A match has each kind's fields by name; a table of calls would hand them on
// as numbers.
#[tactic(auto, using(crate::proofs::Restored::other_record))]
fn restore_record(
    tracked: &mut TrackedStorage,
    memory: &mut Memory,
    sources: Sources,
    pages: &[u8],
    entry: Record,
) -> Result<(), Refusal>
    ensures value { (number_of result, tracked_in tracked.new memory.new) ≡ run does (restore_record sources.entry.directory.now sources.entry.bytes.now pages.now entry) (tracked_in tracked.old memory.old) }
    ensures same { SameTracked tracked.old tracked.new }
{
    match entry {
        Record::Source {
            address,
            flag,
            id,
            offset,
            size,
        } => {
            let source = SourceRun {
                address,
                flag,
                id,
                offset,
                size,
            };
            restore_source(tracked, memory, sources, source)
        }
        Record::Dirty {
            address,
            flag,
            pages: count,
            place,
        } => restore_dirty(
            tracked,
            memory,
            pages_at(pages, place, count),
            address,
            flag,
        ),
        _ => Ok(()),
    }
}

// ---- all runs
//
// The same go beside each other here, and the reader of the runs, which `restore` takes from the state and the registers.

// The runs that a reader has left, in the order of their records: source runs, then dirty runs.
fn restore_runs(
    tracked: &mut TrackedStorage,
    memory: &mut Memory,
    sources: Sources,
    pages: &[u8],
    records: Reader,
) -> Result<(), Refusal>
    requires { runs_need (left records) ≢ malformed }
    ensures value { (number_of result, tracked_in tracked.new memory.new) ≡ run does (restore_runs sources.entry.directory.now sources.entry.bytes.now (sources_in (left records.entry)) (dirty_in pages.now (left records.entry))) (tracked_in tracked.old memory.old) }
    ensures same { SameTracked tracked.old tracked.new }
{
    for entry in records {
        restore_record(tracked, memory, sources, pages, entry)?;
    }
    Ok(())
}

// Tracking dropped, the machine's numbers set, then its pages, and last the reservation.
fn restore(
    tracked: &mut TrackedStorage,
    sources: Sources,
    pages: &[u8],
    machine: &mut Machine,
    kept: Kept,
    registers: [u64; RISCV_GENERAL_REGISTER_NUMBER],
    records: Reader,
) -> Result<(), Refusal>
    requires { runs_need (left records) ≢ malformed }
    ensures value { (number_of result, lent_in tracked.new machine.new) ≡ run machine_does (restore sources.entry.directory.now sources.entry.bytes.now (snapshot_left kept registers pages.now (left records.entry))) (lent_in tracked.old machine.old) }
    ensures same { SameTracked tracked.old tracked.new }
{
    machine::untrack_all(tracked.records);
    *machine = machine
        .with_registers(registers)
        .update_pc(kept.pc)
        .commit_pc()
        .set_cycles(kept.cycles)
        .set_max_cycles(kept.maximum);
    restore_runs(tracked, &mut machine.memory, sources, pages, records)?;
    machine.memory = machine.memory.set_lr(kept.reservation);
    Ok(())
}

// Resumes a machine from a snapshot's record file and page file.
pub fn resume(
    tracked: &mut TrackedStorage,
    sources: Sources,
    files: Files,
    machine: &mut Machine,
) -> Result<(), Refusal>
    ensures value { (number_of result, lent_in tracked.new machine.new) ≡ run machine_does (resume sources.entry.directory.now sources.entry.bytes.now files.entry.file.now files.entry.pages.now) (lent_in tracked.old machine.old) }
    ensures same { SameTracked tracked.old tracked.new }
{
    if !tracked.fits(machine.memory) {
        return Err(Refusal::BadStorage);
    }
    recordfile::form::in_form(files.file, files.pages.len())?;
    let mut records = Reader::new(files.file);
    let kept = kept_in(&mut records);
    if machine.version != kept.version {
        return Err(Refusal::InvalidVersion);
    }
    let registers = registers_in(&mut records);
    restore(
        tracked,
        sources,
        files.pages,
        machine,
        kept,
        registers,
        records,
    )
}
