// What a host links: the calls as C functions, for hosts/ and for other programs.
//
// Each hands on one call of a crate below with that call's promise. An outcome is handed out as its number (document 01's
// table). A slice is a pointer and a length. A memory goes in as two numbers: its size (`extent`), and last of all its slots in
// use. A store hands back the slots then in use, and nothing else of a memory changes. The reservation stays with the host.
// A machine goes in by value and comes back whole. A call that looks at records is lent them beside the memory's storage.
// Parameters lie apart, an answer is a number with values, and each layer has a function for each call: the C interface.
#![tactic(auto)]

ghost use Rattle.std.specs.Prelude.{◌≡◌, ◌/◌, List, ℕ, length};
ghost use Rattle.bits.specs.Rounding.{page_size, rounded_up, rounded_down};
ghost use Rattle.outcome.specs.Numbers.{number_of};
ghost use Rattle.program.specs.Program.{run};
ghost use Rattle.memory.specs.Pages.{page_indices};
ghost use Rattle.memory.specs.Storage.{fresh, no_memory, reserved};
ghost use Rattle.memory.specs.Operations.{does};
ghost use Rattle.memory.specs.Sparse.{fetch_flag, set_flag, clear_flag, check_permission, set_dirty, fill_page_data, load_wide, load_bytes, load_c_string, store_byte, store_bytes, store_wide};
ghost use Rattle.memory.specs.WXorX as wx;
ghost use Rattle.memory.specs.Answers.{wrote, laid, value_of, indices_of};
ghost use Rattle.memory.specs.Lent as memories;
ghost use Rattle.machine.specs.Numbers.{no_numbers, numbers_of, machine_of, changed, register, set_register, update_pc, commit_pc, set_cycles, set_max_cycles};
ghost use Rattle.machine.specs.Fresh.{LentMachine};
ghost use Rattle.machine.specs.Fresh as machines;
ghost use Rattle.tracking.specs.Sources.{find_data, placed};
ghost use Rattle.tracking.specs.Operations as tracking;
ghost use Rattle.tracking.specs.Tracking.{track_pages, untrack_pages, mark_program, page_record};
ghost use Rattle.tracking.specs.Tracking as context;
ghost use Rattle.tracking.specs.Answers.{stored_of, recorded_of};
ghost use Rattle.snapshot.specs.MakeSnapshot.{make_snapshot};
ghost use Rattle.snapshot.specs.Resume.{resume};
ghost use Rattle.snapshot.specs.Answers.{lent_of};
ghost use Rattle.snapshot.specs.Answers as snapshots;
ghost use Rattle.host.specs.Handed.{handed_made, memory_of, lent, left, handed, handed_fresh, handed_value, handed_indices, handed_machine, handed_found, lent_tracked, left_context, handed_context, shown, handed_record, shown_of};

use machine::{Machine, RISCV_GENERAL_REGISTER_NUMBER};
use memory::Memory;
use memory::layer::{Layer, Sparse, WXorX};
use memory::storage::{Lent, LentFlags, Storage};
use outcome::Refusal;
use snapshot::make::Outputs;
use snapshot::resume::Files;
use tracking::records::{PageRecord, Tracking};
use tracking::sources::{Place, Sources};
use tracking::storage::{TrackedFlags, TrackedLent, TrackedStorage};

// A number of document 01's table, and the slots in use.
#[derive(Clone, Copy)]
#[repr(C)]
pub struct Stored {
    pub number: u32,
    pub used: u64,
}

// A number of document 01's table, and a memory.
#[derive(Clone, Copy)]
#[repr(C)]
pub struct Fresh {
    pub number: u32,
    pub memory: Memory,
}

// A number of document 01's table, and a value.
#[derive(Clone, Copy)]
#[repr(C)]
pub struct Value {
    pub number: u32,
    pub value: u64,
}

// A number of document 01's table, and the first and the last page.
#[derive(Clone, Copy)]
#[repr(C)]
pub struct Indices {
    pub number: u32,
    pub first: u64,
    pub last: u64,
}

// A number of document 01's table, and a machine.
#[derive(Clone, Copy)]
#[repr(C)]
pub struct MachineAnswer {
    pub number: u32,
    pub machine: Machine,
}

// A number of document 01's table; where data starts in the source bytes, how many bytes it has, and the full length that remains.
#[derive(Clone, Copy)]
#[repr(C)]
pub struct Found {
    pub number: u32,
    pub start: u64,
    pub count: u64,
    pub full: u64,
}

// A number of document 01's table, the slots in use, the bytes stored, and the full length that remained.
#[derive(Clone, Copy)]
#[repr(C)]
pub struct ContextStored {
    pub number: u32,
    pub used: u64,
    pub stored: u64,
    pub full: u64,
}

// A number of document 01's table; 1 for a page that is tracked, and then id, offset and flag; 0 for each otherwise.
#[derive(Clone, Copy)]
#[repr(C)]
pub struct Recorded {
    pub number: u32,
    pub tracked: u32,
    pub id: u64,
    pub offset: u64,
    pub flag: u32,
}

// A number of document 01's table, and the records and pages that a snapshot wrote.
#[derive(Clone, Copy)]
#[repr(C)]
pub struct Made {
    pub number: u32,
    pub records: u64,
    pub pages: u64,
}

// A memory of a host's two numbers.
fn memory_of(extent: u64, used: u64) -> Memory
    ensures { result ≡ memory_of extent used }
{
    Memory {
        size: extent,
        used,
        reservation: 0,
    }
}

impl Stored {
    // What a store came to; the slots in use on a refusal too. Of an answer and a memory, so no `From`.
    fn after(outcome: Result<(), Refusal>, memory: Memory) -> Stored
        ensures { (result.number ≡ number_of outcome) × (result.used ≡ memory.used) }
    {
        Stored {
            number: outcome::number(outcome),
            used: memory.used,
        }
    }
}

impl From<Result<Memory, Refusal>> for Fresh {
    ghost use Rattle.memory.specs.declared.storage.Storage.{Storage};

    ghost from_gives = { λ answer fresh. (s : Storage) → handed_fresh fresh s.slots.now s.flags.now s.area.now ≡ memories.made answer s };

    fn from(answer: Result<Memory, Refusal>) -> Fresh {
        match answer {
            Ok(memory) => Fresh { number: 0, memory },
            Err(refusal) => Fresh {
                number: u32::from(refusal),
                memory: memory_of(0, 0),
            },
        }
    }
}

impl From<Result<u64, Refusal>> for Value {
    ghost from_gives = { λ answer value. handed_value value ≡ value_of answer };

    fn from(answer: Result<u64, Refusal>) -> Value {
        match answer {
            Ok(value) => Value { number: 0, value },
            Err(refusal) => Value {
                number: u32::from(refusal),
                value: 0,
            },
        }
    }
}

impl From<Result<memory::Indices, Refusal>> for Indices {
    ghost from_gives = { λ answer indices. handed_indices indices ≡ indices_of answer };

    fn from(answer: Result<memory::Indices, Refusal>) -> Indices {
        match answer {
            Ok(indices) => Indices {
                number: 0,
                first: indices.first,
                last: indices.last,
            },
            Err(refusal) => Indices {
                number: u32::from(refusal),
                first: 0,
                last: 0,
            },
        }
    }
}

// What a fresh machine is on a refusal.
#[tactic(auto, unfolding(words::specs::Bytes::filled))]
fn no_machine() -> Machine
    ensures { result ≡ machine_of no_numbers no_memory }
{
    Machine {
        registers: [0u64; RISCV_GENERAL_REGISTER_NUMBER],
        pc: 0,
        next_pc: 0,
        version: 0,
        cycles: 0,
        max_cycles: 0,
        memory: memory_of(0, 0),
    }
}

impl MachineAnswer {
    // What a call on a machine came to, and the machine that it left. Of the two, so no `From`.
    fn after(outcome: Result<(), Refusal>, machine: Machine) -> MachineAnswer
        ensures { (result.number ≡ number_of outcome) × (result.machine ≡ machine) }
    {
        MachineAnswer {
            number: outcome::number(outcome),
            machine,
        }
    }
}

impl From<Option<Place>> for Found {
    ghost from_gives = { λ place found. handed_found found ≡ placed place };

    fn from(place: Option<Place>) -> Found {
        match place {
            Some(place) => Found {
                number: 0,
                start: place.start as u64,
                count: place.count as u64,
                full: place.full,
            },
            None => Found {
                number: u32::from(Refusal::SnapshotDataLoadError),
                start: 0,
                count: 0,
                full: 0,
            },
        }
    }
}

impl ContextStored {
    // What a context store came to; the slots in use on a refusal too. Of an answer and a memory, so no `From`.
    fn after(answer: Result<tracking::context::Stored, Refusal>, memory: Memory) -> ContextStored
        ensures { (result.number ≡ (stored_of answer).number) × (result.used ≡ memory.used) × (result.stored ≡ (stored_of answer).stored) × (result.full ≡ (stored_of answer).full) }
    {
        match answer {
            Ok(answer) => ContextStored {
                number: 0,
                used: memory.used,
                stored: answer.stored,
                full: answer.full,
            },
            Err(refusal) => ContextStored {
                number: u32::from(refusal),
                used: memory.used,
                stored: 0,
                full: 0,
            },
        }
    }
}

impl From<Result<PageRecord, Refusal>> for Recorded {
    ghost from_gives = { λ answer recorded. handed_record recorded ≡ shown_of (recorded_of answer).number (recorded_of answer).tracking };

    fn from(answer: Result<PageRecord, Refusal>) -> Recorded {
        let (number, tracking) = match answer {
            Ok(entry) => (0, entry.tracking),
            Err(refusal) => (u32::from(refusal), Tracking::Untracked),
        };
        match tracking {
            Tracking::Tracked(id, offset, flag) => Recorded {
                number,
                tracked: 1,
                id,
                offset,
                flag: u32::from(flag),
            },
            Tracking::Untracked => Recorded {
                number,
                tracked: 0,
                id: 0,
                offset: 0,
                flag: 0,
            },
        }
    }
}

impl From<Result<snapshot::make::Made, Refusal>> for Made {
    ghost from_gives = { λ answer made. (file pages : List ℕ) (m : LentMachine) → handed_made made file pages m ≡ snapshots.made_of answer file pages m };

    fn from(answer: Result<snapshot::make::Made, Refusal>) -> Made {
        match answer {
            Ok(made) => Made {
                number: 0,
                records: made.records,
                pages: made.pages,
            },
            Err(refusal) => Made {
                number: u32::from(refusal),
                records: 0,
                pages: 0,
            },
        }
    }
}

#[unsafe(no_mangle)]
pub extern "C" fn latchpebble_round_page_up(x: u64) -> u64
    ensures { result ≡ rounded_up x }
{
    bits::round_page_up(x)
}

#[unsafe(no_mangle)]
pub extern "C" fn latchpebble_round_page_down(x: u64) -> u64
    ensures { result ≡ rounded_down x }
{
    bits::round_page_down(x)
}

#[unsafe(no_mangle)]
pub extern "C" fn latchpebble_get_page_indices(address: u64, size: u64) -> Indices
    ensures { handed_indices result ≡ page_indices address size }
{
    Indices::from(memory::get_page_indices(address, size))
}

#[unsafe(no_mangle)]
pub extern "C" fn latchpebble_check_permission(
    slots: &[u16],
    flags: &[u8],
    area: &[u8],
    extent: u64,
    first: u64,
    last: u64,
    flag: u8,
    used: u64,
) -> u32
    ensures { (result, lent slots.now flags.now area.now extent used) ≡ run does (check_permission first last flag) (lent slots.now flags.now area.now extent used) }
{
    let lent = Lent { slots, flags, area };
    outcome::number(memory_of(extent, used).check_permission(lent, first, last, flag))
}

#[unsafe(no_mangle)]
pub extern "C" fn latchpebble_set_dirty(
    slots: &[u16],
    flags: &mut [u8],
    area: &[u8],
    extent: u64,
    first: u64,
    last: u64,
    used: u64,
) -> u32
    ensures { (result, lent slots.now flags.new area.now extent used) ≡ run does (set_dirty first last) (lent slots.now flags.old area.now extent used) }
{
    let mut lent = LentFlags { slots, flags, area };
    outcome::number(memory_of(extent, used).set_dirty(&mut lent, first, last))
}

#[unsafe(no_mangle)]
pub extern "C" fn latchpebble_fill_page_data(
    slots: &mut [u16],
    flags: &mut [u8],
    area: &mut [u8],
    source: &[u8],
    extent: u64,
    address: u64,
    size: u64,
    lead: u64,
    used: u64,
) -> Stored
    ensures { handed result slots.new flags.new area.new ≡ left (run does (fill_page_data address size lead source.now) (lent slots.old flags.old area.old extent used)) }
{
    let mut memory = memory_of(extent, used);
    let mut storage = Storage { slots, flags, area };
    let outcome = memory.fill_page_data(&mut storage, source, address, size, lead);
    Stored::after(outcome, memory)
}

#[unsafe(no_mangle)]
pub extern "C" fn latchpebble_sparse_fresh(
    slots: &mut [u16],
    flags: &mut [u8],
    area: &mut [u8],
    size: u64,
) -> Fresh
    ensures { handed_fresh result slots.new flags.new area.new ≡ fresh slots.old flags.old area.old size }
{
    let mut storage = Storage { slots, flags, area };
    Fresh::from(Memory::fresh(&mut storage, size))
}

#[unsafe(no_mangle)]
pub extern "C" fn latchpebble_sparse_init_pages(
    slots: &mut [u16],
    flags: &mut [u8],
    area: &mut [u8],
    source: &[u8],
    extent: u64,
    address: u64,
    size: u64,
    flag: u8,
    lead: u64,
    used: u64,
) -> Stored
    ensures { handed result slots.new flags.new area.new ≡ left (run does (fill_page_data address size lead source.now) (lent slots.old flags.old area.old extent used)) }
{
    let mut memory = memory_of(extent, used);
    let mut storage = Storage { slots, flags, area };
    let outcome = Sparse::init_pages(&mut memory, &mut storage, source, address, size, flag, lead);
    Stored::after(outcome, memory)
}

#[unsafe(no_mangle)]
pub extern "C" fn latchpebble_sparse_fetch_flag(
    slots: &[u16],
    flags: &[u8],
    area: &[u8],
    extent: u64,
    page: u64,
    used: u64,
) -> Value
    ensures { (handed_value result, lent slots.now flags.now area.now extent used) ≡ run does (fetch_flag page) (lent slots.now flags.now area.now extent used) }
{
    let lent = Lent { slots, flags, area };
    Value::from(memory_of(extent, used).fetch_flag(lent, page))
}

#[unsafe(no_mangle)]
pub extern "C" fn latchpebble_sparse_set_flag(
    slots: &[u16],
    flags: &mut [u8],
    area: &[u8],
    extent: u64,
    page: u64,
    flag: u8,
    used: u64,
) -> u32
    ensures { (result, lent slots.now flags.new area.now extent used) ≡ run does (set_flag page flag) (lent slots.now flags.old area.now extent used) }
{
    let mut lent = LentFlags { slots, flags, area };
    outcome::number(memory_of(extent, used).set_flag(&mut lent, page, flag))
}

#[unsafe(no_mangle)]
pub extern "C" fn latchpebble_sparse_clear_flag(
    slots: &[u16],
    flags: &mut [u8],
    area: &[u8],
    extent: u64,
    page: u64,
    flag: u8,
    used: u64,
) -> u32
    ensures { (result, lent slots.now flags.new area.now extent used) ≡ clear_flag page flag (lent slots.now flags.old area.now extent used) }
{
    let mut lent = LentFlags { slots, flags, area };
    outcome::number(memory_of(extent, used).clear_flag(&mut lent, page, flag))
}

#[unsafe(no_mangle)]
pub extern "C" fn latchpebble_sparse_memory_size(memory: Memory) -> u64
    ensures { result ≡ memory.size }
{
    memory.memory_size()
}

#[unsafe(no_mangle)]
pub extern "C" fn latchpebble_sparse_memory_pages(memory: Memory) -> u64
    ensures { result ≡ memory.size / page_size }
{
    memory.memory_pages()
}

#[tactic(auto, unfolding(memory::specs::Sparse::store_byte))]
#[unsafe(no_mangle)]
pub extern "C" fn latchpebble_sparse_store_byte(
    slots: &mut [u16],
    flags: &mut [u8],
    area: &mut [u8],
    extent: u64,
    address: u64,
    size: u64,
    value: u8,
    used: u64,
) -> Stored
    ensures { handed result slots.new flags.new area.new ≡ left (run does (store_byte address size value) (lent slots.old flags.old area.old extent used)) }
{
    let mut memory = memory_of(extent, used);
    let mut storage = Storage { slots, flags, area };
    let outcome = Sparse::store_byte(&mut memory, &mut storage, address, size, value);
    Stored::after(outcome, memory)
}

#[unsafe(no_mangle)]
pub extern "C" fn latchpebble_sparse_store_bytes(
    slots: &mut [u16],
    flags: &mut [u8],
    area: &mut [u8],
    bytes: &[u8],
    extent: u64,
    address: u64,
    used: u64,
) -> Stored
    ensures { handed result slots.new flags.new area.new ≡ left (run does (store_bytes address bytes.now) (lent slots.old flags.old area.old extent used)) }
{
    let mut memory = memory_of(extent, used);
    let mut storage = Storage { slots, flags, area };
    let outcome = Sparse::store_bytes(&mut memory, &mut storage, address, bytes);
    Stored::after(outcome, memory)
}

#[tactic(auto, unfolding(memory::specs::Sparse::store_wide))]
#[unsafe(no_mangle)]
pub extern "C" fn latchpebble_sparse_store8(
    slots: &mut [u16],
    flags: &mut [u8],
    area: &mut [u8],
    extent: u64,
    address: u64,
    value: u64,
    used: u64,
) -> Stored
    ensures { handed result slots.new flags.new area.new ≡ left (run does (store_wide 1 address value) (lent slots.old flags.old area.old extent used)) }
{
    let mut memory = memory_of(extent, used);
    let mut storage = Storage { slots, flags, area };
    let outcome = Sparse::store8(&mut memory, &mut storage, address, value);
    Stored::after(outcome, memory)
}

#[tactic(auto, unfolding(memory::specs::Sparse::store_wide))]
#[unsafe(no_mangle)]
pub extern "C" fn latchpebble_sparse_store16(
    slots: &mut [u16],
    flags: &mut [u8],
    area: &mut [u8],
    extent: u64,
    address: u64,
    value: u64,
    used: u64,
) -> Stored
    ensures { handed result slots.new flags.new area.new ≡ left (run does (store_wide 2 address value) (lent slots.old flags.old area.old extent used)) }
{
    let mut memory = memory_of(extent, used);
    let mut storage = Storage { slots, flags, area };
    let outcome = Sparse::store16(&mut memory, &mut storage, address, value);
    Stored::after(outcome, memory)
}

#[tactic(auto, unfolding(memory::specs::Sparse::store_wide))]
#[unsafe(no_mangle)]
pub extern "C" fn latchpebble_sparse_store32(
    slots: &mut [u16],
    flags: &mut [u8],
    area: &mut [u8],
    extent: u64,
    address: u64,
    value: u64,
    used: u64,
) -> Stored
    ensures { handed result slots.new flags.new area.new ≡ left (run does (store_wide 4 address value) (lent slots.old flags.old area.old extent used)) }
{
    let mut memory = memory_of(extent, used);
    let mut storage = Storage { slots, flags, area };
    let outcome = Sparse::store32(&mut memory, &mut storage, address, value);
    Stored::after(outcome, memory)
}

#[tactic(auto, unfolding(memory::specs::Sparse::store_wide))]
#[unsafe(no_mangle)]
pub extern "C" fn latchpebble_sparse_store64(
    slots: &mut [u16],
    flags: &mut [u8],
    area: &mut [u8],
    extent: u64,
    address: u64,
    value: u64,
    used: u64,
) -> Stored
    ensures { handed result slots.new flags.new area.new ≡ left (run does (store_wide 8 address value) (lent slots.old flags.old area.old extent used)) }
{
    let mut memory = memory_of(extent, used);
    let mut storage = Storage { slots, flags, area };
    let outcome = Sparse::store64(&mut memory, &mut storage, address, value);
    Stored::after(outcome, memory)
}

#[unsafe(no_mangle)]
pub extern "C" fn latchpebble_sparse_load8(
    slots: &[u16],
    flags: &[u8],
    area: &[u8],
    extent: u64,
    address: u64,
    used: u64,
) -> Value
    ensures { (handed_value result, lent slots.now flags.now area.now extent used) ≡ run does (load_wide 1 address) (lent slots.now flags.now area.now extent used) }
{
    let lent = Lent { slots, flags, area };
    Value::from(memory_of(extent, used).load8(lent, address))
}

#[unsafe(no_mangle)]
pub extern "C" fn latchpebble_sparse_load16(
    slots: &[u16],
    flags: &[u8],
    area: &[u8],
    extent: u64,
    address: u64,
    used: u64,
) -> Value
    ensures { (handed_value result, lent slots.now flags.now area.now extent used) ≡ run does (load_wide 2 address) (lent slots.now flags.now area.now extent used) }
{
    let lent = Lent { slots, flags, area };
    Value::from(memory_of(extent, used).load16(lent, address))
}

#[unsafe(no_mangle)]
pub extern "C" fn latchpebble_sparse_load32(
    slots: &[u16],
    flags: &[u8],
    area: &[u8],
    extent: u64,
    address: u64,
    used: u64,
) -> Value
    ensures { (handed_value result, lent slots.now flags.now area.now extent used) ≡ run does (load_wide 4 address) (lent slots.now flags.now area.now extent used) }
{
    let lent = Lent { slots, flags, area };
    Value::from(memory_of(extent, used).load32(lent, address))
}

#[unsafe(no_mangle)]
pub extern "C" fn latchpebble_sparse_load64(
    slots: &[u16],
    flags: &[u8],
    area: &[u8],
    extent: u64,
    address: u64,
    used: u64,
) -> Value
    ensures { (handed_value result, lent slots.now flags.now area.now extent used) ≡ run does (load_wide 8 address) (lent slots.now flags.now area.now extent used) }
{
    let lent = Lent { slots, flags, area };
    Value::from(memory_of(extent, used).load64(lent, address))
}

#[unsafe(no_mangle)]
pub extern "C" fn latchpebble_sparse_execute_load16(
    slots: &[u16],
    flags: &[u8],
    area: &[u8],
    extent: u64,
    address: u64,
    used: u64,
) -> Value
    ensures { (handed_value result, lent slots.now flags.now area.now extent used) ≡ run does (load_wide 2 address) (lent slots.now flags.now area.now extent used) }
{
    let lent = Lent { slots, flags, area };
    Value::from(Sparse::execute_load16(memory_of(extent, used), lent, address))
}

#[unsafe(no_mangle)]
pub extern "C" fn latchpebble_sparse_execute_load32(
    slots: &[u16],
    flags: &[u8],
    area: &[u8],
    extent: u64,
    address: u64,
    used: u64,
) -> Value
    ensures { (handed_value result, lent slots.now flags.now area.now extent used) ≡ run does (load_wide 4 address) (lent slots.now flags.now area.now extent used) }
{
    let lent = Lent { slots, flags, area };
    Value::from(Sparse::execute_load32(memory_of(extent, used), lent, address))
}

#[unsafe(no_mangle)]
pub extern "C" fn latchpebble_sparse_load_bytes(
    slots: &[u16],
    flags: &[u8],
    area: &[u8],
    out: &mut [u8],
    extent: u64,
    address: u64,
    size: u64,
    used: u64,
) -> u32
    ensures { wrote result 0 out.new (lent slots.now flags.now area.now extent used) ≡ laid out.old (run does (load_bytes address size (length out.old)) (lent slots.now flags.now area.now extent used)) }
{
    let lent = Lent { slots, flags, area };
    outcome::number(memory_of(extent, used).load_bytes(lent, out, address, size))
}

#[unsafe(no_mangle)]
pub extern "C" fn latchpebble_sparse_load_c_string(
    slots: &[u16],
    flags: &[u8],
    area: &[u8],
    out: &mut [u8],
    extent: u64,
    address: u64,
    used: u64,
) -> Value
    ensures { wrote result.number result.value out.new (lent slots.now flags.now area.now extent used) ≡ laid out.old (run does (load_c_string address (length out.old)) (lent slots.now flags.now area.now extent used)) }
{
    let lent = Lent { slots, flags, area };
    Value::from(memory_of(extent, used).load_c_string(lent, out, address))
}

#[unsafe(no_mangle)]
pub extern "C" fn latchpebble_sparse_lr(memory: Memory) -> u64
    ensures { result ≡ memory.reservation }
{
    memory.lr()
}

#[unsafe(no_mangle)]
pub extern "C" fn latchpebble_sparse_set_lr(memory: Memory, value: u64) -> Memory
    ensures { result ≡ reserved memory value }
{
    memory.set_lr(value)
}

#[unsafe(no_mangle)]
pub extern "C" fn latchpebble_wxorx_fresh(
    slots: &mut [u16],
    flags: &mut [u8],
    area: &mut [u8],
    size: u64,
) -> Fresh
    ensures { handed_fresh result slots.new flags.new area.new ≡ fresh slots.old flags.old area.old size }
{
    let mut storage = Storage { slots, flags, area };
    Fresh::from(Memory::fresh(&mut storage, size))
}

#[unsafe(no_mangle)]
pub extern "C" fn latchpebble_wxorx_init_pages(
    slots: &mut [u16],
    flags: &mut [u8],
    area: &mut [u8],
    source: &[u8],
    extent: u64,
    address: u64,
    size: u64,
    flag: u8,
    lead: u64,
    used: u64,
) -> Stored
    ensures { handed result slots.new flags.new area.new ≡ left (run does (wx.init_pages address size flag lead source.now) (lent slots.old flags.old area.old extent used)) }
{
    let mut memory = memory_of(extent, used);
    let mut storage = Storage { slots, flags, area };
    let outcome = WXorX::init_pages(&mut memory, &mut storage, source, address, size, flag, lead);
    Stored::after(outcome, memory)
}

#[unsafe(no_mangle)]
pub extern "C" fn latchpebble_wxorx_fetch_flag(
    slots: &[u16],
    flags: &[u8],
    area: &[u8],
    extent: u64,
    page: u64,
    used: u64,
) -> Value
    ensures { (handed_value result, lent slots.now flags.now area.now extent used) ≡ run does (fetch_flag page) (lent slots.now flags.now area.now extent used) }
{
    let lent = Lent { slots, flags, area };
    Value::from(memory_of(extent, used).fetch_flag(lent, page))
}

#[unsafe(no_mangle)]
pub extern "C" fn latchpebble_wxorx_set_flag(
    slots: &[u16],
    flags: &mut [u8],
    area: &[u8],
    extent: u64,
    page: u64,
    flag: u8,
    used: u64,
) -> u32
    ensures { (result, lent slots.now flags.new area.now extent used) ≡ run does (set_flag page flag) (lent slots.now flags.old area.now extent used) }
{
    let mut lent = LentFlags { slots, flags, area };
    outcome::number(memory_of(extent, used).set_flag(&mut lent, page, flag))
}

#[unsafe(no_mangle)]
pub extern "C" fn latchpebble_wxorx_clear_flag(
    slots: &[u16],
    flags: &mut [u8],
    area: &[u8],
    extent: u64,
    page: u64,
    flag: u8,
    used: u64,
) -> u32
    ensures { (result, lent slots.now flags.new area.now extent used) ≡ clear_flag page flag (lent slots.now flags.old area.now extent used) }
{
    let mut lent = LentFlags { slots, flags, area };
    outcome::number(memory_of(extent, used).clear_flag(&mut lent, page, flag))
}

#[unsafe(no_mangle)]
pub extern "C" fn latchpebble_wxorx_memory_size(memory: Memory) -> u64
    ensures { result ≡ memory.size }
{
    memory.memory_size()
}

#[unsafe(no_mangle)]
pub extern "C" fn latchpebble_wxorx_memory_pages(memory: Memory) -> u64
    ensures { result ≡ memory.size / page_size }
{
    memory.memory_pages()
}

#[tactic(auto, unfolding(memory::specs::WXorX::store_byte))]
#[unsafe(no_mangle)]
pub extern "C" fn latchpebble_wxorx_store_byte(
    slots: &mut [u16],
    flags: &mut [u8],
    area: &mut [u8],
    extent: u64,
    address: u64,
    size: u64,
    value: u8,
    used: u64,
) -> Stored
    ensures { handed result slots.new flags.new area.new ≡ left (run does (wx.store_byte address size value) (lent slots.old flags.old area.old extent used)) }
{
    let mut memory = memory_of(extent, used);
    let mut storage = Storage { slots, flags, area };
    let outcome = WXorX::store_byte(&mut memory, &mut storage, address, size, value);
    Stored::after(outcome, memory)
}

#[unsafe(no_mangle)]
pub extern "C" fn latchpebble_wxorx_store_bytes(
    slots: &mut [u16],
    flags: &mut [u8],
    area: &mut [u8],
    bytes: &[u8],
    extent: u64,
    address: u64,
    used: u64,
) -> Stored
    ensures { handed result slots.new flags.new area.new ≡ left (run does (wx.store_bytes address bytes.now) (lent slots.old flags.old area.old extent used)) }
{
    let mut memory = memory_of(extent, used);
    let mut storage = Storage { slots, flags, area };
    let outcome = WXorX::store_bytes(&mut memory, &mut storage, address, bytes);
    Stored::after(outcome, memory)
}

#[tactic(auto, unfolding(memory::specs::WXorX::store_wide))]
#[unsafe(no_mangle)]
pub extern "C" fn latchpebble_wxorx_store8(
    slots: &mut [u16],
    flags: &mut [u8],
    area: &mut [u8],
    extent: u64,
    address: u64,
    value: u64,
    used: u64,
) -> Stored
    ensures { handed result slots.new flags.new area.new ≡ left (run does (wx.store_wide 1 address value) (lent slots.old flags.old area.old extent used)) }
{
    let mut memory = memory_of(extent, used);
    let mut storage = Storage { slots, flags, area };
    let outcome = WXorX::store8(&mut memory, &mut storage, address, value);
    Stored::after(outcome, memory)
}

#[tactic(auto, unfolding(memory::specs::WXorX::store_wide))]
#[unsafe(no_mangle)]
pub extern "C" fn latchpebble_wxorx_store16(
    slots: &mut [u16],
    flags: &mut [u8],
    area: &mut [u8],
    extent: u64,
    address: u64,
    value: u64,
    used: u64,
) -> Stored
    ensures { handed result slots.new flags.new area.new ≡ left (run does (wx.store_wide 2 address value) (lent slots.old flags.old area.old extent used)) }
{
    let mut memory = memory_of(extent, used);
    let mut storage = Storage { slots, flags, area };
    let outcome = WXorX::store16(&mut memory, &mut storage, address, value);
    Stored::after(outcome, memory)
}

#[tactic(auto, unfolding(memory::specs::WXorX::store_wide))]
#[unsafe(no_mangle)]
pub extern "C" fn latchpebble_wxorx_store32(
    slots: &mut [u16],
    flags: &mut [u8],
    area: &mut [u8],
    extent: u64,
    address: u64,
    value: u64,
    used: u64,
) -> Stored
    ensures { handed result slots.new flags.new area.new ≡ left (run does (wx.store_wide 4 address value) (lent slots.old flags.old area.old extent used)) }
{
    let mut memory = memory_of(extent, used);
    let mut storage = Storage { slots, flags, area };
    let outcome = WXorX::store32(&mut memory, &mut storage, address, value);
    Stored::after(outcome, memory)
}

#[tactic(auto, unfolding(memory::specs::WXorX::store_wide))]
#[unsafe(no_mangle)]
pub extern "C" fn latchpebble_wxorx_store64(
    slots: &mut [u16],
    flags: &mut [u8],
    area: &mut [u8],
    extent: u64,
    address: u64,
    value: u64,
    used: u64,
) -> Stored
    ensures { handed result slots.new flags.new area.new ≡ left (run does (wx.store_wide 8 address value) (lent slots.old flags.old area.old extent used)) }
{
    let mut memory = memory_of(extent, used);
    let mut storage = Storage { slots, flags, area };
    let outcome = WXorX::store64(&mut memory, &mut storage, address, value);
    Stored::after(outcome, memory)
}

#[unsafe(no_mangle)]
pub extern "C" fn latchpebble_wxorx_load8(
    slots: &[u16],
    flags: &[u8],
    area: &[u8],
    extent: u64,
    address: u64,
    used: u64,
) -> Value
    ensures { (handed_value result, lent slots.now flags.now area.now extent used) ≡ run does (load_wide 1 address) (lent slots.now flags.now area.now extent used) }
{
    let lent = Lent { slots, flags, area };
    Value::from(memory_of(extent, used).load8(lent, address))
}

#[unsafe(no_mangle)]
pub extern "C" fn latchpebble_wxorx_load16(
    slots: &[u16],
    flags: &[u8],
    area: &[u8],
    extent: u64,
    address: u64,
    used: u64,
) -> Value
    ensures { (handed_value result, lent slots.now flags.now area.now extent used) ≡ run does (load_wide 2 address) (lent slots.now flags.now area.now extent used) }
{
    let lent = Lent { slots, flags, area };
    Value::from(memory_of(extent, used).load16(lent, address))
}

#[unsafe(no_mangle)]
pub extern "C" fn latchpebble_wxorx_load32(
    slots: &[u16],
    flags: &[u8],
    area: &[u8],
    extent: u64,
    address: u64,
    used: u64,
) -> Value
    ensures { (handed_value result, lent slots.now flags.now area.now extent used) ≡ run does (load_wide 4 address) (lent slots.now flags.now area.now extent used) }
{
    let lent = Lent { slots, flags, area };
    Value::from(memory_of(extent, used).load32(lent, address))
}

#[unsafe(no_mangle)]
pub extern "C" fn latchpebble_wxorx_load64(
    slots: &[u16],
    flags: &[u8],
    area: &[u8],
    extent: u64,
    address: u64,
    used: u64,
) -> Value
    ensures { (handed_value result, lent slots.now flags.now area.now extent used) ≡ run does (load_wide 8 address) (lent slots.now flags.now area.now extent used) }
{
    let lent = Lent { slots, flags, area };
    Value::from(memory_of(extent, used).load64(lent, address))
}

#[unsafe(no_mangle)]
pub extern "C" fn latchpebble_wxorx_execute_load16(
    slots: &[u16],
    flags: &[u8],
    area: &[u8],
    extent: u64,
    address: u64,
    used: u64,
) -> Value
    ensures { (handed_value result, lent slots.now flags.now area.now extent used) ≡ run does (wx.execute_load 2 address) (lent slots.now flags.now area.now extent used) }
{
    let lent = Lent { slots, flags, area };
    Value::from(WXorX::execute_load16(memory_of(extent, used), lent, address))
}

#[unsafe(no_mangle)]
pub extern "C" fn latchpebble_wxorx_execute_load32(
    slots: &[u16],
    flags: &[u8],
    area: &[u8],
    extent: u64,
    address: u64,
    used: u64,
) -> Value
    ensures { (handed_value result, lent slots.now flags.now area.now extent used) ≡ run does (wx.execute_load 4 address) (lent slots.now flags.now area.now extent used) }
{
    let lent = Lent { slots, flags, area };
    Value::from(WXorX::execute_load32(memory_of(extent, used), lent, address))
}

#[unsafe(no_mangle)]
pub extern "C" fn latchpebble_wxorx_load_bytes(
    slots: &[u16],
    flags: &[u8],
    area: &[u8],
    out: &mut [u8],
    extent: u64,
    address: u64,
    size: u64,
    used: u64,
) -> u32
    ensures { wrote result 0 out.new (lent slots.now flags.now area.now extent used) ≡ laid out.old (run does (load_bytes address size (length out.old)) (lent slots.now flags.now area.now extent used)) }
{
    let lent = Lent { slots, flags, area };
    outcome::number(memory_of(extent, used).load_bytes(lent, out, address, size))
}

#[unsafe(no_mangle)]
pub extern "C" fn latchpebble_wxorx_load_c_string(
    slots: &[u16],
    flags: &[u8],
    area: &[u8],
    out: &mut [u8],
    extent: u64,
    address: u64,
    used: u64,
) -> Value
    ensures { wrote result.number result.value out.new (lent slots.now flags.now area.now extent used) ≡ laid out.old (run does (load_c_string address (length out.old)) (lent slots.now flags.now area.now extent used)) }
{
    let lent = Lent { slots, flags, area };
    Value::from(memory_of(extent, used).load_c_string(lent, out, address))
}

#[unsafe(no_mangle)]
pub extern "C" fn latchpebble_wxorx_lr(memory: Memory) -> u64
    ensures { result ≡ memory.reservation }
{
    memory.lr()
}

#[unsafe(no_mangle)]
pub extern "C" fn latchpebble_wxorx_set_lr(memory: Memory, value: u64) -> Memory
    ensures { result ≡ reserved memory value }
{
    memory.set_lr(value)
}

#[unsafe(no_mangle)]
pub extern "C" fn latchpebble_machine_fresh(
    slots: &mut [u16],
    flags: &mut [u8],
    area: &mut [u8],
    records: &mut [u64],
    size: u64,
    version: u32,
    maximum: u64,
) -> MachineAnswer
    ensures { handed_machine result slots.new flags.new area.new records.new ≡ machines.fresh slots.old flags.old area.old records.old size version maximum }
{
    let mut storage = Storage { slots, flags, area };
    match Machine::fresh(&mut storage, records, size, version, maximum) {
        Ok(machine) => MachineAnswer { number: 0, machine },
        Err(refusal) => MachineAnswer {
            number: u32::from(refusal),
            machine: no_machine(),
        },
    }
}

#[unsafe(no_mangle)]
pub extern "C" fn latchpebble_machine_register(machine: Machine, i: u64) -> Value
    ensures { handed_value result ≡ register i (numbers_of machine) }
{
    Value::from(machine.register(i))
}

#[unsafe(no_mangle)]
pub extern "C" fn latchpebble_machine_set_register(
    machine: Machine,
    i: u64,
    value: u64,
) -> MachineAnswer
    ensures { (result.number, result.machine) ≡ changed (set_register i value (numbers_of machine)) machine.memory }
{
    let answer = machine.set_register(i, value);
    MachineAnswer::after(answer.outcome, answer.machine)
}

#[unsafe(no_mangle)]
pub extern "C" fn latchpebble_machine_pc(machine: Machine) -> u64
    ensures { result ≡ (numbers_of machine).pc }
{
    machine.pc()
}

#[unsafe(no_mangle)]
pub extern "C" fn latchpebble_machine_update_pc(machine: Machine, pc: u64) -> Machine
    ensures { result ≡ machine_of (update_pc pc (numbers_of machine)) machine.memory }
{
    machine.update_pc(pc)
}

#[unsafe(no_mangle)]
pub extern "C" fn latchpebble_machine_commit_pc(machine: Machine) -> Machine
    ensures { result ≡ machine_of (commit_pc (numbers_of machine)) machine.memory }
{
    machine.commit_pc()
}

#[unsafe(no_mangle)]
pub extern "C" fn latchpebble_machine_version(machine: Machine) -> u32
    ensures { result ≡ (numbers_of machine).version }
{
    machine.version()
}

#[unsafe(no_mangle)]
pub extern "C" fn latchpebble_machine_cycles(machine: Machine) -> u64
    ensures { result ≡ (numbers_of machine).cycles }
{
    machine.cycles()
}

#[unsafe(no_mangle)]
pub extern "C" fn latchpebble_machine_set_cycles(machine: Machine, cycles: u64) -> Machine
    ensures { result ≡ machine_of (set_cycles cycles (numbers_of machine)) machine.memory }
{
    machine.set_cycles(cycles)
}

#[unsafe(no_mangle)]
pub extern "C" fn latchpebble_machine_max_cycles(machine: Machine) -> u64
    ensures { result ≡ (numbers_of machine).max_cycles }
{
    machine.max_cycles()
}

#[unsafe(no_mangle)]
pub extern "C" fn latchpebble_machine_set_max_cycles(machine: Machine, cycles: u64) -> Machine
    ensures { result ≡ machine_of (set_max_cycles cycles (numbers_of machine)) machine.memory }
{
    machine.set_max_cycles(cycles)
}

#[unsafe(no_mangle)]
pub extern "C" fn latchpebble_find_data(
    directory: &[u64],
    sources: &[u8],
    id: u64,
    offset: u64,
    size: u64,
) -> Found
    ensures { handed_found result ≡ find_data directory.now (length sources.now) id offset size }
{
    let sources = Sources {
        directory,
        bytes: sources,
    };
    Found::from(sources.find_data(id, offset, size))
}

#[unsafe(no_mangle)]
pub extern "C" fn latchpebble_track_pages(
    slots: &[u16],
    flags: &mut [u8],
    area: &[u8],
    records: &mut [u64],
    extent: u64,
    start: u64,
    size: u64,
    id: u64,
    offset: u64,
    used: u64,
) -> u32
    ensures { (result, lent_tracked slots.now flags.new area.now records.new extent used) ≡ run tracking.does (track_pages start size id offset) (lent_tracked slots.now flags.old area.now records.old extent used) }
{
    let mut tracked = TrackedFlags {
        slots,
        flags,
        area,
        records,
    };
    outcome::number(tracked.track_pages(memory_of(extent, used), start, size, id, offset))
}

#[unsafe(no_mangle)]
pub extern "C" fn latchpebble_untrack_pages(
    slots: &[u16],
    flags: &mut [u8],
    area: &[u8],
    records: &mut [u64],
    extent: u64,
    start: u64,
    size: u64,
    used: u64,
) -> u32
    ensures { (result, lent_tracked slots.now flags.new area.now records.new extent used) ≡ run tracking.does (untrack_pages start size) (lent_tracked slots.now flags.old area.now records.old extent used) }
{
    let mut tracked = TrackedFlags {
        slots,
        flags,
        area,
        records,
    };
    outcome::number(tracked.untrack_pages(memory_of(extent, used), start, size))
}

#[unsafe(no_mangle)]
pub extern "C" fn latchpebble_context_store_bytes(
    slots: &mut [u16],
    flags: &mut [u8],
    area: &mut [u8],
    records: &mut [u64],
    directory: &[u64],
    sources: &[u8],
    extent: u64,
    address: u64,
    id: u64,
    offset: u64,
    size: u64,
    place: u64,
    used: u64,
) -> ContextStored
    ensures { handed_context result slots.new flags.new area.new records.new ≡ left_context (run tracking.does (context.store_bytes directory.now sources.now address id offset size place) (lent_tracked slots.old flags.old area.old records.old extent used)) }
{
    let mut memory = memory_of(extent, used);
    let mut tracked = TrackedStorage {
        slots,
        flags,
        area,
        records,
    };
    let sources = Sources {
        directory,
        bytes: sources,
    };
    let answer = tracked.store_bytes(&mut memory, sources, address, id, offset, size, place);
    ContextStored::after(answer, memory)
}

#[unsafe(no_mangle)]
pub extern "C" fn latchpebble_mark_program(
    slots: &[u16],
    flags: &mut [u8],
    area: &[u8],
    records: &mut [u64],
    actions: &[u64],
    extent: u64,
    id: u64,
    offset: u64,
    used: u64,
) -> u32
    ensures { (result, lent_tracked slots.now flags.new area.now records.new extent used) ≡ run tracking.does (mark_program actions.now id offset) (lent_tracked slots.now flags.old area.now records.old extent used) }
{
    let mut tracked = TrackedFlags {
        slots,
        flags,
        area,
        records,
    };
    outcome::number(tracked.mark_program(memory_of(extent, used), actions, id, offset))
}

#[unsafe(no_mangle)]
pub extern "C" fn latchpebble_page_record(
    slots: &[u16],
    flags: &[u8],
    area: &[u8],
    records: &[u64],
    extent: u64,
    page: u64,
    used: u64,
) -> Recorded
    ensures { (handed_record result, lent_tracked slots.now flags.now area.now records.now extent used) ≡ shown (run tracking.does (page_record page) (lent_tracked slots.now flags.now area.now records.now extent used)) }
{
    let tracked = TrackedLent {
        slots,
        flags,
        area,
        records,
    };
    Recorded::from(tracked.page_record(memory_of(extent, used), page))
}

#[unsafe(no_mangle)]
pub extern "C" fn latchpebble_make_snapshot(
    slots: &[u16],
    flags: &[u8],
    area: &[u8],
    records: &[u64],
    file: &mut [u8],
    pages: &mut [u8],
    machine: Machine,
) -> Made
    ensures { handed_made result file.new pages.new (lent_of slots.now flags.now area.now records.now machine) ≡ snapshots.laid file.old pages.old (run tracking.machine_does (make_snapshot (length file.old) (length pages.old)) (lent_of slots.now flags.now area.now records.now machine)) }
{
    let tracked = TrackedLent {
        slots,
        flags,
        area,
        records,
    };
    let mut outputs = Outputs { file, pages };
    Made::from(snapshot::make::make_snapshot(tracked, &mut outputs, machine))
}

#[unsafe(no_mangle)]
pub extern "C" fn latchpebble_resume(
    slots: &mut [u16],
    flags: &mut [u8],
    area: &mut [u8],
    records: &mut [u64],
    directory: &[u64],
    sources: &[u8],
    file: &[u8],
    pages: &[u8],
    machine: Machine,
) -> MachineAnswer
    ensures { handed_machine result slots.new flags.new area.new records.new ≡ run tracking.machine_does (resume directory.now sources.now file.now pages.now) (lent_of slots.old flags.old area.old records.old machine) }
{
    let mut machine = machine;
    let mut tracked = TrackedStorage {
        slots,
        flags,
        area,
        records,
    };
    let sources = Sources {
        directory,
        bytes: sources,
    };
    let outcome = snapshot::resume::resume(
        &mut tracked,
        sources,
        Files { file, pages },
        &mut machine,
    );
    MachineAnswer::after(outcome, machine)
}
