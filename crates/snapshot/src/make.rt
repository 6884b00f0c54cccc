// A snapshot, in two passes: the runs are counted and the dirty pages' slots met; then the files are written.
ghost use Rattle.std.specs.Prelude.{◌≡◌, cond, false, [], ◌∷◌, ◌+◌, ◌*◌, ◌^◌, ◌≤◌, ◌<◌, leb, length};
ghost use Rattle.bits.specs.Rounding.{page_size};
ghost use Rattle.outcome.specs.Numbers.{number_of};
ghost use Rattle.words.specs.Bytes.{written};
ghost use Rattle.program.specs.Program.{run};
ghost use Rattle.memory.specs.Pages.{maximum};
ghost use Rattle.memory.specs.Lent.{FitsRead};
ghost use Rattle.recordfile.specs.Words.{record_bytes};
ghost use Rattle.recordfile.specs.Form.{least_records, register_records};
ghost use Rattle.recordfile.specs.Snapshots.{register_records_of, source_records, dirty_records, image_of, contents, file_of, page_file_of};
ghost use Rattle.tracking.specs.Operations.{machine_does};
ghost use Rattle.snapshot.specs.Runs.{dirty_from, sources_from, total};
ghost use Rattle.snapshot.specs.Walk.{run_of};
ghost use Rattle.snapshot.specs.MakeSnapshot.{make_snapshot};
ghost use Rattle.snapshot.specs.Answers.{lent_read, made_of, laid, SameOutputs, counted_of, met_run, tally, Room, head_records, read_out, dirty_out, run_records, snapshot_read};

use super::runs::{DirtyPages, DirtySpan, Runs, SourcePages};
use bits::RISCV_PAGESIZE;
use machine::Machine;
use memory::storage::Lent;
use memory::{Memory, PAGE};
use outcome::Refusal;
use recordfile::{LEAST_RECORDS, RECORD_BYTES, REGISTER_RECORDS, REGISTERS_A_RECORD, Record};
use tracking::storage::TrackedLent;

// What a snapshot answers: the records of the record file, and the pages of the page file.
#[derive(Clone, Copy)]
pub struct Made {
    pub records: u64,
    pub pages: u64,
}

// The lent outputs of a snapshot: for the record file, and for the page file.
#[derive(Drop)]
pub struct Outputs<'a> {
    pub file: &'a mut [u8],
    pub pages: &'a mut [u8],
}

// Dirty runs and their pages, counted.
#[derive(Clone, Copy)]
struct Counted {
    runs: usize,
    pages: usize,
}

// ---- the first pass

// Whether the pages of a run can be read.
fn meet_run(slots: &[u16], used: u64, run: DirtySpan) -> Result<(), Refusal>
    requires { run.page + run.pages < 2 ^ 64 }
    ensures { number_of result ≡ met_run slots.now used run.pages run.page }
{
    for page in run.page..run.page + run.pages {
        memory::meet(slots, used, page)?;
    }
    Ok(())
}

// The dirty pages are met, and their runs counted.
fn count_dirty(tracked: TrackedLent, used: u64) -> Result<Counted, Refusal>
    ensures { counted_of result ≡ tally tracked.entry.slots.now used 0 0 (dirty_from tracked.entry.flags.now 0) }
{
    let mut runs: usize = 0;
    let mut pages: usize = 0;
    let dirty = DirtyPages {
        flags: tracked.flags,
    };
    for run in Runs::new(dirty) {
        meet_run(tracked.slots, used, run)?;
        runs += 1;
        pages += run.pages;
    }
    Ok(Counted { runs, pages })
}

// How many runs of tracked clean pages there are.
fn count_sources(source_pages: SourcePages) -> usize
    ensures { result ≡ length (sources_from source_pages.entry.flags.now source_pages.entry.records.now 0) }
{
    Runs::new(source_pages).count()
}

impl<'a> Outputs<'a> {
    // Whether both hold so many records and pages.
    fn hold(&self, records: usize, pages: usize) -> bool
        ensures { result ≡ cond (leb (records * record_bytes) (length self.now.file.now)) (leb (pages * page_size) (length self.now.pages.now)) false }
    {
        records <= self.file.len() / RECORD_BYTES && pages <= self.pages.len() / RISCV_PAGESIZE
    }
}

// ---- the second pass

// The register records, after the first record. Four fields each and no array: the definitions speak of those of `Record`.
fn write_registers(file: &mut [u8], machine: Machine)
    requires { least_records * record_bytes ≤ length file.old }
    ensures { file.new ≡ written file.old record_bytes (image_of (register_records_of machine.registers 0 register_records)) }
{
    let registers = machine.registers;
    for i in 0..REGISTER_RECORDS {
        let first = i * REGISTERS_A_RECORD as usize;
        recordfile::encode(
            file,
            i + 1,
            Record::Registers {
                first: first as u64,
                one: registers[first],
                two: registers[first + 1],
                three: registers[first + 2],
                four: registers[first + 3],
            },
        );
    }
}

// The records of the machine's numbers.
#[tactic(auto, using(crate::proofs::Writing::head_written))]
fn write_head(file: &mut [u8], machine: Machine)
    requires { least_records * record_bytes ≤ length file.old }
    ensures { file.new ≡ written file.old 0 (image_of (head_records machine)) }
{
    let memory = machine.memory;
    recordfile::encode(
        file,
        0,
        Record::State {
            version: machine.version,
            pc: machine.pc,
            cycles: machine.cycles,
            maximum: machine.max_cycles,
            reservation: memory.reservation,
        },
    );
    write_registers(file, machine);
}

// The records of the source runs, of which there are `count`, from a record on: by a record's number, as `encode` takes it.
fn write_sources(source_pages: SourcePages, file: &mut [u8], from: usize, count: usize)
    requires small { length source_pages.flags.now * page_size ≤ maximum }
    requires count { count ≡ length (sources_from source_pages.flags.now source_pages.records.now 0) }
    requires room { (from + count) * record_bytes ≤ length file.old }
    ensures { file.new ≡ written file.old (from * record_bytes) (image_of (source_records (sources_from source_pages.entry.flags.now source_pages.entry.records.now 0))) }
{
    for (at, run) in (from..from + count).zip(Runs::new(source_pages)) {
        recordfile::encode(
            file,
            at,
            Record::Source {
                address: run.page as u64 * PAGE,
                flag: run.flag,
                id: run.id,
                offset: run.offset,
                size: run.pages as u64 * PAGE,
            },
        );
    }
}

// The record of a dirty run, and the bytes of its pages: by a record's number, as `encode` takes it.
fn write_run(
    lent: Lent,
    outputs: &mut Outputs,
    memory: Memory,
    at: usize,
    place: usize,
    run: DirtySpan,
)
    requires fitting { FitsRead lent memory }
    requires within { run.page + run.pages ≤ length lent.slots.now }
    requires some { 0 < run.pages }
    requires meet { met_run lent.slots.now memory.used run.pages run.page ≡ 0 }
    requires file_holds { (at + 1) * record_bytes ≤ length outputs.old.file.now }
    requires pages_hold { (place + run.pages) * page_size ≤ length outputs.old.pages.now }
    ensures file { outputs.new.file.now ≡ written outputs.old.file.now (at * record_bytes) (image_of (dirty_records place (read_out lent.entry.slots.now lent.entry.area.now (run_of run) ∷ []))) }
    ensures pages { outputs.new.pages.now ≡ written outputs.old.pages.now (place * page_size) (read_out lent.entry.slots.now lent.entry.area.now (run_of run)).content }
    ensures same { SameOutputs outputs.old outputs.new }
{
    let address = run.page as u64 * PAGE;
    recordfile::encode(
        outputs.file,
        at,
        Record::Dirty {
            address,
            flag: run.flag,
            pages: run.pages as u64,
            place: place as u64,
        },
    );
    let start = place * RISCV_PAGESIZE;
    let size = run.pages * RISCV_PAGESIZE;
    // Its pages are met, so this is done.
    let _ = memory.load_bytes(
        lent,
        &mut outputs.pages[start..start + size],
        address,
        size as u64,
    );
}

// The records of the dirty runs, of which there are `count`, from a record on, and the bytes of their pages: by a record's number,
// as `encode` takes it.
fn write_dirty(lent: Lent, outputs: &mut Outputs, memory: Memory, from: usize, count: usize)
    requires fitting { FitsRead lent memory }
    requires count { count ≡ length (dirty_from lent.flags.now 0) }
    requires meet { (tally lent.slots.now memory.used 0 0 (dirty_from lent.flags.now 0)).number ≡ 0 }
    requires file_holds { (from + count) * record_bytes ≤ length outputs.old.file.now }
    requires pages_hold { total (dirty_from lent.flags.now 0) * page_size ≤ length outputs.old.pages.now }
    ensures file { outputs.new.file.now ≡ written outputs.old.file.now (from * record_bytes) (image_of (dirty_records 0 (dirty_out lent.entry.slots.now lent.entry.flags.now lent.entry.area.now))) }
    ensures pages { outputs.new.pages.now ≡ written outputs.old.pages.now 0 (contents (dirty_out lent.entry.slots.now lent.entry.flags.now lent.entry.area.now)) }
    ensures same { SameOutputs outputs.old outputs.new }
{
    let runs = Runs::new(DirtyPages { flags: lent.flags });
    let mut place: usize = 0;
    for (at, run) in (from..from + count).zip(runs) {
        write_run(lent, outputs, memory, at, place, run);
        place += run.pages;
    }
}

// Both files, with so many source runs and dirty runs.
fn write_files(
    tracked: TrackedLent,
    outputs: &mut Outputs,
    machine: Machine,
    sources: usize,
    dirty: usize,
)
    requires { Room tracked outputs.old machine.memory sources dirty }
    ensures file { outputs.new.file.now ≡ written outputs.old.file.now 0 (file_of (snapshot_read tracked.entry machine)) }
    ensures pages { outputs.new.pages.now ≡ written outputs.old.pages.now 0 (page_file_of (snapshot_read tracked.entry machine)) }
    ensures same { SameOutputs outputs.old outputs.new }
{
    write_head(outputs.file, machine);
    let source_pages = SourcePages {
        flags: tracked.flags,
        records: tracked.records,
    };
    write_sources(source_pages, outputs.file, LEAST_RECORDS, sources);
    let lent = Lent {
        slots: tracked.slots,
        flags: tracked.flags,
        area: tracked.area,
    };
    let from = LEAST_RECORDS + sources;
    write_dirty(lent, outputs, machine.memory, from, dirty);
}

// ---- the call

// A snapshot of a machine, at the front of two lent outputs.
pub fn make_snapshot(
    tracked: TrackedLent,
    outputs: &mut Outputs,
    machine: Machine,
) -> Result<Made, Refusal>
    ensures value { made_of result outputs.new.file.now outputs.new.pages.now (lent_read tracked.entry machine) ≡ laid outputs.old.file.now outputs.old.pages.now (run machine_does (make_snapshot (length outputs.old.file.now) (length outputs.old.pages.now)) (lent_read tracked.entry machine)) }
    ensures same { SameOutputs outputs.old outputs.new }
{
    if !tracked.fits(machine.memory) {
        return Err(Refusal::BadStorage);
    }
    let dirty = count_dirty(tracked, machine.memory.used)?;
    let sources = count_sources(SourcePages {
        flags: tracked.flags,
        records: tracked.records,
    });
    let found = LEAST_RECORDS + sources + dirty.runs;
    if !outputs.hold(found, dirty.pages) {
        return Err(Refusal::OutputTooShort);
    }
    write_files(tracked, outputs, machine, sources, dirty.runs);
    Ok(Made {
        records: found as u64,
        pages: dirty.pages as u64,
    })
}
