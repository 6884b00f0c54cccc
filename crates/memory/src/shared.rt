// What both layers answer alike: a fresh memory, its own numbers, its pages' flags, and a fill of pages.
ghost use Rattle.std.specs.Prelude.{◌≡◌, ◌/◌, length};
ghost use Rattle.bits.specs.Rounding.{page_size};
ghost use Rattle.words.specs.Bytes.{filled};
ghost use Rattle.outcome.specs.Numbers.{number_of};
ghost use Rattle.program.specs.Program.{run};
ghost use Rattle.memory.specs.Storage.{absent, fresh, reserved};
ghost use Rattle.memory.specs.Operations.{does};
ghost use Rattle.memory.specs.Sparse.{fetch_flag, set_flag, clear_flag, fill_page_data};
ghost use Rattle.memory.specs.Answers.{value_of};
ghost use Rattle.memory.specs.Lent.{seen, read_in, flags_in, made, SameSlices, SameFlags};

use super::storage::{Lent, LentFlags, Storage};
use super::{INVALID_PAGE_INDEX, Memory, NO_RESERVATION, PAGE};
use outcome::Refusal;

// Sets every slot number to absent.
#[tactic(auto, unfolding(words::specs::Bytes::filled))]
fn clear_slots(slots: &mut [u16])
    ensures { slots.new ≡ filled (length slots.old) absent }
{
    for slot in slots {
        *slot = INVALID_PAGE_INDEX as u16;
    }
}

impl Memory {
    // A fresh memory of `size` bytes: every page absent, every flag 0, the slot area untouched.
    pub fn fresh(storage: &mut Storage, size: u64) -> Result<Memory, Refusal>
        ensures value { made result storage.new ≡ fresh storage.old.slots.now storage.old.flags.now storage.old.area.now size }
        ensures same { SameSlices storage.old storage.new }
    {
        let memory = Memory {
            size,
            used: 0,
            reservation: NO_RESERVATION,
        };
        if !storage.fits(memory) {
            return Err(Refusal::BadStorage);
        }
        clear_slots(storage.slots);
        words::fill(storage.flags, 0);
        Ok(memory)
    }

    // The flag of a page.
    pub fn fetch_flag(self, lent: Lent, page: u64) -> Result<u64, Refusal>
        ensures { (value_of result, read_in lent.entry self) ≡ run does (fetch_flag page) (read_in lent.entry self) }
    {
        if !lent.fits(self) {
            return Err(Refusal::BadStorage);
        }
        let p = page as usize;
        if p < lent.flags.len() {
            Ok(u64::from(lent.flags[p]))
        } else {
            Err(Refusal::MemOutOfBound)
        }
    }

    // ORs a page's flag.
    pub fn set_flag(self, lent: &mut LentFlags, page: u64, flag: u8) -> Result<(), Refusal>
        ensures value { (number_of result, flags_in lent.new self) ≡ run does (set_flag page flag) (flags_in lent.old self) }
        ensures same { SameFlags lent.old lent.new }
    {
        if !lent.fits(self) {
            return Err(Refusal::BadStorage);
        }
        let p = page as usize;
        if p >= lent.flags.len() {
            return Err(Refusal::MemOutOfBound);
        }
        lent.flags[p] |= flag;
        Ok(())
    }

    // Clears bits of a page's flag.
    pub fn clear_flag(self, lent: &mut LentFlags, page: u64, flag: u8) -> Result<(), Refusal>
        ensures value { (number_of result, flags_in lent.new self) ≡ clear_flag page flag (flags_in lent.old self) }
        ensures same { SameFlags lent.old lent.new }
    {
        if !lent.fits(self) {
            return Err(Refusal::BadStorage);
        }
        let p = page as usize;
        if p >= lent.flags.len() {
            return Err(Refusal::MemOutOfBound);
        }
        lent.flags[p] &= !flag;
        Ok(())
    }

    // Zeros up to the lead, the source, and zeros to the end of `size` bytes: three sparse stores.
    pub fn fill_page_data(
        &mut self,
        storage: &mut Storage,
        source: &[u8],
        address: u64,
        size: u64,
        lead: u64,
    ) -> Result<(), Refusal>
        ensures value { (number_of result, seen storage.new self.new) ≡ run does (fill_page_data address size lead source.now) (seen storage.old self.old) }
        ensures same { SameSlices storage.old storage.new }
    {
        if !storage.fits(*self) {
            return Err(Refusal::BadStorage);
        }
        self.fill_data(storage, source, address, size as usize, lead as usize)
    }

    // The bytes of a memory.
    pub fn memory_size(self) -> u64
        ensures { result ≡ self.size }
    {
        self.size
    }

    // The pages of a memory.
    pub fn memory_pages(self) -> u64
        ensures { result ≡ self.size / page_size }
    {
        self.size / PAGE
    }

    // The reservation.
    pub fn lr(self) -> u64
        ensures { result ≡ self.reservation }
    {
        self.reservation
    }

    // The memory with another reservation.
    pub fn set_lr(mut self, value: u64) -> Self
        ensures { result ≡ reserved self value }
    {
        self.reservation = value;
        self
    }
}
