// Lent storage: a slot number and a flag for each page, and the slot area, of whole pages; lists and numbers, as C lends them.
ghost use Rattle.std.specs.Prelude.{◌≡◌, ◌+◌, ◌-◌, ◌*◌, ◌/◌, ◌<◌, ◌≤◌, length, take, drop, bit_or, slice_index, slice_set};
ghost use Rattle.bits.specs.Rounding.{page_size};
ghost use Rattle.words.specs.Bytes.{written, filled};
ghost use Rattle.memory.specs.Pages.{dirty};
ghost use Rattle.memory.specs.Storage.{slot_in, fits_lengths};
ghost use Rattle.memory.specs.Ready.{Ready};

use super::{FLAG_DIRTY, INVALID_PAGE_INDEX, Memory, storage_fits};
use bits::RISCV_PAGESIZE;

// Storage that calls write to. That its lengths are right stands in clauses, as one record: an invariant of a struct of `&mut`
// slices is not led back to the slices that a caller lends.
#[derive(Drop)]
pub struct Storage<'a> {
    pub slots: &'a mut [u16],
    pub flags: &'a mut [u8],
    pub area: &'a mut [u8],
}

// Storage that is only read, which C lends `const`.
#[derive(Clone, Copy)]
pub struct Lent<'a> {
    pub slots: &'a [u16],
    pub flags: &'a [u8],
    pub area: &'a [u8],
}

// Storage of which flags alone are written: slots and area are lent `const` by C there.
#[derive(Drop)]
pub struct LentFlags<'a> {
    pub slots: &'a [u16],
    pub flags: &'a mut [u8],
    pub area: &'a [u8],
}

// Bytes to be stored: those of a slice, or so many of one value.
#[derive(Clone, Copy)]
pub enum Bytes<'a> {
    These(&'a [u8]),
    Filled(u8, usize),
}

impl<'a> Bytes<'a> {
    ghost use Rattle.memory.specs.Lent.{bytes_of};

    pub fn len(self) -> usize
        ensures { result ≡ length (bytes_of self.entry) }
    {
        match self {
            Bytes::These(bytes) => bytes.len(),
            Bytes::Filled(_, count) => count,
        }
    }

    // The first n.
    pub(crate) fn first(self, n: usize) -> Bytes<'a>
        requires { n ≤ length (bytes_of self) }
        ensures { bytes_of result ≡ take n (bytes_of self.entry) }
    {
        match self {
            Bytes::These(bytes) => Bytes::These(&bytes[..n]),
            Bytes::Filled(value, _) => Bytes::Filled(value, n),
        }
    }

    // Those after the first n.
    pub(crate) fn after(self, n: usize) -> Bytes<'a>
        requires { n ≤ length (bytes_of self) }
        ensures { bytes_of result ≡ drop n (bytes_of self.entry) }
    {
        match self {
            Bytes::These(bytes) => Bytes::These(&bytes[n..]),
            Bytes::Filled(value, count) => Bytes::Filled(value, count - n),
        }
    }

    // They are laid into a page, from index `at` on: the whole page, which is the part that document 01 lends to a copy or a fill.
    fn lay(self, page: &mut [u8], at: usize)
        requires within { at + length (bytes_of self) ≤ length page.old }
        requires page { length page.old ≤ page_size }
        ensures { page.new ≡ written page.old at (bytes_of self.entry) }
    {
        let end = at + self.len();
        match self {
            Bytes::These(bytes) => words::copy(&mut page[at..end], bytes),
            Bytes::Filled(value, _) => words::fill(&mut page[at..end], value),
        }
    }
}

// The slot number of a page; past the machine as absent. A number and no `Option`, as C sees it in the lent slots.
pub(crate) fn slot_of(slots: &[u16], page: usize) -> usize
    ensures value { result ≡ slot_in slots.now page }
    ensures small { result < 65536 }
{
    if page < slots.len() {
        usize::from(slots[page])
    } else {
        INVALID_PAGE_INDEX
    }
}

impl<'a> Lent<'a> {
    // Whether the lent lengths are right.
    pub(crate) fn fits(self, memory: Memory) -> bool
        ensures { result ≡ fits_lengths (length self.entry.slots.now) (length self.entry.flags.now) (length self.entry.area.now) memory }
    {
        storage_fits(self.slots.len(), self.flags.len(), self.area.len(), memory)
    }
}

impl<'a> LentFlags<'a> {
    // Whether the lent lengths are right.
    pub(crate) fn fits(&self, memory: Memory) -> bool
        ensures { result ≡ fits_lengths (length self.now.slots.now) (length self.now.flags.now) (length self.now.area.now) memory }
    {
        storage_fits(self.slots.len(), self.flags.len(), self.area.len(), memory)
    }
}

impl<'a> Storage<'a> {
    ghost use Rattle.memory.specs.Lent.{SameSlices, bytes_of};

    // The same, to be read.
    pub(crate) fn lent(&self) -> Lent<'_>
        ensures slots { result.slots.now ≡ self.now.slots.now }
        ensures flags { result.flags.now ≡ self.now.flags.now }
        ensures area { result.area.now ≡ self.now.area.now }
    {
        Lent {
            slots: self.slots,
            flags: self.flags,
            area: self.area,
        }
    }

    // Whether the lent lengths are right.
    pub(crate) fn fits(&self, memory: Memory) -> bool
        ensures { result ≡ fits_lengths (length self.now.slots.now) (length self.now.flags.now) (length self.now.area.now) memory }
    {
        storage_fits(self.slots.len(), self.flags.len(), self.area.len(), memory)
    }

    // Bytes into a slot from index `at` on, and page `p` marked dirty.
    pub(crate) fn write(&mut self, p: usize, slot: usize, at: usize, bytes: Bytes)
        requires page { p < length self.old.flags.now }
        requires slot { slot < length self.old.area.now / page_size }
        requires room { at + length (bytes_of bytes) ≤ page_size }
        ensures slots { self.new.slots.now ≡ self.old.slots.now }
        ensures flags { self.new.flags.now ≡ slice_set self.old.flags.now p (bit_or (slice_index self.old.flags.now p) dirty) }
        ensures area { self.new.area.now ≡ written self.old.area.now (slot * page_size + at) (bytes_of bytes.entry) }
        ensures same { SameSlices self.old self.new }
    {
        self.flags[p] |= FLAG_DIRTY;
        let start = slot * RISCV_PAGESIZE;
        bytes.lay(&mut self.area[start..start + RISCV_PAGESIZE], at);
    }

    // Zeros a slot that `n` bytes are to be stored in, unless they are all its bytes.
    pub(crate) fn ready(&mut self, slot: usize, n: usize)
        requires { slot < length self.old.area.now / page_size }
        ensures slots { self.new.slots.now ≡ self.old.slots.now }
        ensures flags { self.new.flags.now ≡ self.old.flags.now }
        ensures area { Ready 0 n slot (written self.old.area.now (slot * page_size) (filled page_size 0)) self.new.area.now }
        ensures same { SameSlices self.old self.new }
    {
        if n != RISCV_PAGESIZE {
            let start = slot * RISCV_PAGESIZE;
            words::fill(&mut self.area[start..start + RISCV_PAGESIZE], 0);
        }
    }
}

// The bytes of a number that is stored or loaded.
#[derive(Clone, Copy)]
pub enum Width {
    One,
    Two,
    Four,
    Eight,
}

impl Width {
    ghost use Rattle.memory.specs.Lent.{width_of};

    pub fn bytes(self) -> usize
        ensures value { result ≡ width_of self }
        ensures some { 0 < result }
        ensures few { result ≤ 8 }
    {
        match self {
            Width::One => 1,
            Width::Two => 2,
            Width::Four => 4,
            Width::Eight => 8,
        }
    }
}
