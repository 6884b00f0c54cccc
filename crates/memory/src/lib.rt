// The memory over lent, bounded storage: memory/mod.rs, sparse.rs and wxorx.rs.
//
// Document 01, "Rounding and pages". A memory's pages lie in slices that the caller lends to every call: a slot number and a
// flag for each page, and the slot area, of whole pages. `Memory` has its size, the count of slots in use and the reservation.
// A page is absent until it is first written; then it takes the lowest slot not in use.
//
//   storage   what is lent: `Storage` to be written, `LentFlags` for its flags alone, `Lent` to be read; bytes and widths
//   layer     `Layer`, the calls that the two memories answer each in its own way: `Sparse`, pages in slots with no permission
//             check, and `WXorX`, the same with the W^X check on stores and execute loads, and frozen pages
//   shared    what both answer alike, as methods of `Memory`; loads are in load.rt
//   lib       page indices, whether a page can be read, the permission check and set_dirty, as memory/mod.rs has them
//
// Every call answers on every input, and looks at the lengths of the lent storage first (refusal 9). What it answers and
// leaves is one program of specs/ (Sparse.antt, WXorX.antt), run on the lent lists. Stores of bytes and stores and loads of
// numbers first try what most of them are, bytes in one page that is in a slot (here.rt).
#![tactic(auto)]

mod here;
pub mod layer;
mod load;
mod page;
mod shared;
pub mod storage;

ghost use Rattle.std.specs.Prelude.{◌≡◌, ◌+◌, ◌<◌, ◌≤◌, List, ℕ, length};
ghost use Rattle.outcome.specs.Numbers.{number_of};
ghost use Rattle.program.specs.Program.{run};
ghost use Rattle.memory.specs.declared.Memory.{Memory};
ghost use Rattle.memory.specs.Pages.{pages_within, page_indices};
ghost use Rattle.memory.specs.Storage.{state_of, fits_lengths, met};
ghost use Rattle.memory.specs.Operations.{does};
ghost use Rattle.memory.specs.Sparse.{permits, check_permission, marks, set_dirty};
ghost use Rattle.memory.specs.WXorX.{permitted};
ghost use Rattle.memory.specs.Answers.{indices_of};
ghost use Rattle.memory.specs.Lent.{read_in, flags_in, SameFlags};

use bits::RISCV_PAGESIZE;
use outcome::Refusal;
use storage::{Lent, LentFlags};

// The most bytes of a memory.
pub const RISCV_MAX_MEMORY: u64 = 4194304;

// The bytes of a page, as a number of 64 bits: a cast at each use is no plainer.
pub const PAGE: u64 = RISCV_PAGESIZE as u64;

// The bits of a page's flag, a byte in lent storage: numbers, as C sees them there.
pub const FLAG_FREEZED: u8 = 1;

pub const FLAG_EXECUTABLE: u8 = 2;

pub const FLAG_WXORX_BIT: u8 = 2;

pub const FLAG_WRITABLE: u8 = 0;

pub const FLAG_DIRTY: u8 = 4;

// The slot number of an absent page: a number, as C sees it in the lent slots.
pub const INVALID_PAGE_INDEX: usize = 65535;

// The most slots that may be lent.
pub const MOST_SLOTS: usize = 65535;

// The reservation of a fresh memory: a number, as C holds it.
pub const NO_RESERVATION: u64 = 18446744073709551615;

// A memory's own numbers: its bytes, its slots in use (the lowest so many), and the reservation.
#[repr(C)]
#[derive(Clone, Copy)]
pub struct Memory {
    pub size: u64,
    pub used: u64,
    pub reservation: u64,
}

// The first and the last page of bytes from an address on.
#[derive(Clone, Copy)]
pub struct Indices {
    pub first: u64,
    pub last: u64,
}

// Whether the lent lengths are right. By themselves, for `Storage`, `LentFlags`, `Lent` and tracking's
// `lengths_fit` ask it alike; docs/PROMISES.md has it. One at a time: by `&&` a sparse store takes 1.8 times as long.
#[inline]
pub fn storage_fits(slots: usize, flags: usize, area: usize, memory: Memory) -> bool
    ensures { result ≡ fits_lengths slots flags area memory }
{
    let size = memory.size;
    let used = memory.used;
    if size % PAGE != 0 {
        return false;
    }
    if size > RISCV_MAX_MEMORY {
        return false;
    }
    let pages = (size / PAGE) as usize;
    if slots != pages {
        return false;
    }
    if flags != pages {
        return false;
    }
    if area % RISCV_PAGESIZE != 0 {
        return false;
    }
    let room = area / RISCV_PAGESIZE;
    if room > MOST_SLOTS {
        return false;
    }
    if used as usize > room {
        return false;
    }
    true
}

// The pages of `size` bytes from an address on, where their end doesn't pass a bound.
fn pages_within(address: u64, size: u64, bound: u64) -> Result<Indices, Refusal>
    ensures { indices_of result ≡ pages_within bound address size }
{
    if size == 0 {
        return Err(Refusal::MemOutOfBound);
    }
    let Some(end) = address.checked_add(size) else {
        return Err(Refusal::MemOutOfBound);
    };
    if end > bound {
        return Err(Refusal::MemOutOfBound);
    }
    Ok(Indices {
        first: address / PAGE,
        last: (end - 1) / PAGE,
    })
}

// The pages of `size` bytes from an address on; the bound is the maximum, not a memory's size.
pub fn get_page_indices(address: u64, size: u64) -> Result<Indices, Refusal>
    ensures { indices_of result ≡ page_indices address size }
{
    pages_within(address, size, RISCV_MAX_MEMORY)
}

// Whether bytes of a page can be read.
#[inline]
pub fn meet(slots: &[u16], used: u64, page: usize) -> Result<(), Refusal>
    ensures { number_of result ≡ met slots.now used page }
{
    if page >= slots.len() {
        return Err(Refusal::MemOutOfBound);
    }
    let slot = storage::slot_of(slots, page);
    if slot == INVALID_PAGE_INDEX {
        return Ok(());
    }
    if slot < used as usize {
        return Ok(());
    }
    Err(Refusal::BadStorage)
}

// Every page from first to last has the W^X bit of `flag`: a flag's own bits, and two numbers, as `check_permission` and C have
// them, here and in the calls below.
fn permits_pages(flags: &[u8], first: u64, last: u64, flag: u8) -> Result<(), Refusal>
    ensures { (sl ar : List ℕ) (m : Memory) → (number_of result, state_of sl flags.now ar m) ≡ run does (permits first last flag) (state_of sl flags.now ar m) }
{
    for page in first..=last {
        let p = page as usize;
        if p >= flags.len() {
            return Err(Refusal::MemOutOfBound);
        }
        if flags[p] & FLAG_WXORX_BIT != flag & FLAG_WXORX_BIT {
            return Err(Refusal::MemWriteOnExecutablePage);
        }
    }
    Ok(())
}

// Dirty is set on every page from first to last.
fn mark_pages(flags: &mut [u8], first: u64, last: u64) -> Result<(), Refusal>
    ensures { (sl ar : List ℕ) (m : Memory) → (number_of result, state_of sl flags.new ar m) ≡ run does (marks first last) (state_of sl flags.old ar m) }
{
    for page in first..=last {
        let p = page as usize;
        if p >= flags.len() {
            return Err(Refusal::MemOutOfBound);
        }
        flags[p] |= FLAG_DIRTY;
    }
    Ok(())
}

// Which permission is asked goes as a flag's own bits in all calls on flags, as memory/mod.rs has it.
impl Memory {
    // The pages of `size` bytes from an address on, and the W^X bit of each.
    fn permits_bytes(self, flags: &[u8], address: u64, size: u64, flag: u8) -> Result<(), Refusal>
        ensures { (sl ar : List ℕ) → (number_of result, state_of sl flags.now ar self) ≡ run does (permitted flag address size) (state_of sl flags.now ar self) }
    {
        let indices = get_page_indices(address, size)?;
        permits_pages(flags, indices.first, indices.last, flag)
    }

    // The W^X bit of each page from first to last.
    pub fn check_permission(
        self,
        lent: Lent,
        first: u64,
        last: u64,
        flag: u8,
    ) -> Result<(), Refusal>
        ensures { (number_of result, read_in lent.entry self) ≡ run does (check_permission first last flag) (read_in lent.entry self) }
    {
        if !lent.fits(self) {
            return Err(Refusal::BadStorage);
        }
        permits_pages(lent.flags, first, last, flag)
    }

    // Dirty set on each page from first to last.
    pub fn set_dirty(self, lent: &mut LentFlags, first: u64, last: u64) -> Result<(), Refusal>
        ensures value { (number_of result, flags_in lent.new self) ≡ run does (set_dirty first last) (flags_in lent.old self) }
        ensures same { SameFlags lent.old lent.new }
    {
        if !lent.fits(self) {
            return Err(Refusal::BadStorage);
        }
        mark_pages(lent.flags, first, last)
    }
}
