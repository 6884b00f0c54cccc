// One page of the memory, and stores page by page. Lengths are right here.
ghost use Rattle.std.specs.Prelude.{◌≡◌, ◌+◌, ◌*◌, ◌<◌, ◌≤◌, length};
ghost use Rattle.bits.specs.Rounding.{page_size};
ghost use Rattle.outcome.specs.Numbers.{number_of};
ghost use Rattle.words.specs.Bytes.{filled};
ghost use Rattle.program.specs.Program.{run};
ghost use Rattle.memory.specs.Storage.{state_of, fetch_page, store_page};
ghost use Rattle.memory.specs.Operations.{does};
ghost use Rattle.memory.specs.Sparse.{store, fill_rest, fill};
ghost use Rattle.memory.specs.Answers.{value_of};
ghost use Rattle.memory.specs.Lent.{seen, Fits, SameSlices, bytes_of};
ghost use Rattle.memory.specs.Inner.{Kept, Fetch, At};
ghost use Rattle.memory.specs.Ready.{Ready};

use super::storage::{Bytes, Storage};
use super::{INVALID_PAGE_INDEX, Memory, PAGE};
use bits::RISCV_PAGESIZE;
use outcome::Refusal;

// An address, taken apart: a page and an index in it.
#[derive(Clone, Copy)]
pub struct Place {
    pub page: u64,
    pub at: usize,
}

// The place of the byte `n` bytes past an address. Of two numbers, so no `From`: their sum may be no u64.
#[inline]
fn place_of(address: u64, n: usize) -> Place
    ensures { At result.page result.at (address + n) }
{
    let low = address % PAGE + n as u64 % PAGE;
    Place {
        page: address / PAGE + n as u64 / PAGE + low / PAGE,
        at: (low % PAGE) as usize,
    }
}

impl Memory {
    // The slot of a page that `n` bytes are to be stored in: an absent page takes the lowest slot not in use, made ready. Slot
    // numbers and flags are two lists, and a slot an index, as C lends them.
    fn fetch_page(&mut self, storage: &mut Storage, page: u64, n: usize) -> Result<usize, Refusal>
        requires { Fits storage.old self.old }
        ensures page_after { ((value_of result).number, state_of storage.new.slots.now storage.old.flags.now (fetch_page (seen storage.old self.old) page).1.area self.new) ≡ fetch_page (seen storage.old self.old) page }
        ensures flags { storage.new.flags.now ≡ storage.old.flags.now }
        ensures ready { Ready (value_of result).number n (value_of result).value (fetch_page (seen storage.old self.old) page).1.area storage.new.area.now }
        ensures fetch { Fetch (value_of result).number page (value_of result).value storage.new.slots.now (length storage.old.area.now) self.old self.new }
        ensures same { SameSlices storage.old storage.new }
    {
        if page >= self.size / PAGE {
            return Err(Refusal::MemOutOfBound);
        }
        let p = page as usize;
        let found = usize::from(storage.slots[p]);
        if found == INVALID_PAGE_INDEX {
            let slot = self.used as usize;
            if slot >= storage.area.len() / RISCV_PAGESIZE {
                return Err(Refusal::AllSlotsInUse);
            }
            storage.ready(slot, n);
            storage.slots[p] = slot as u16;
            self.used += 1;
            return Ok(slot);
        }
        if found >= self.used as usize {
            return Err(Refusal::BadStorage);
        }
        Ok(found)
    }

    // Stores bytes at index `at` of one page. No `Place`: the loop that calls it has the two apart, and sets each by itself.
    fn store_part(
        &mut self,
        storage: &mut Storage,
        bytes: Bytes,
        page: u64,
        at: usize,
    ) -> Result<(), Refusal>
        requires fitting { Fits storage.old self.old }
        requires room { at + length (bytes_of bytes) ≤ page_size }
        ensures value { (number_of result, seen storage.new self.new) ≡ store_page (seen storage.old self.old) page at (bytes_of bytes.entry) }
        ensures kept { Kept (length storage.old.area.now) self.old self.new }
        ensures same { SameSlices storage.old storage.new }
    {
        let slot = self.fetch_page(storage, page, bytes.len())?;
        storage.write(page as usize, slot, at, bytes);
        Ok(())
    }

    // Stores bytes from index `from` of page `first` on, page by page. Not by `for`: the first piece may be shorter than the
    // others, and chunks of the rest beside it are no plainer.
    #[inline(always)]
    pub(crate) fn store_pages(
        &mut self,
        storage: &mut Storage,
        bytes: Bytes,
        first: u64,
        from: usize,
    ) -> Result<(), Refusal>
        requires fitting { Fits storage.old self.old }
        requires from_lt_page_size { from < page_size }
        ensures value { (number_of result, seen storage.new self.new) ≡ run does (store (first * page_size + from) (bytes_of bytes.entry)) (seen storage.old self.old) }
        ensures kept { Kept (length storage.old.area.now) self.old self.new }
        ensures same { SameSlices storage.old storage.new }
    {
        let mut rest = bytes;
        let mut page = first;
        let mut at = from;
        while rest.len() > 0 {
            let n = (RISCV_PAGESIZE - at).min(rest.len());
            self.store_part(storage, rest.first(n), page, at)?;
            page += 1;
            at = 0;
            rest = rest.after(n);
        }
        Ok(())
    }

    // The source from `front` bytes past an address on, and zeros to the end of `left` bytes.
    fn fill_source(
        &mut self,
        storage: &mut Storage,
        source: &[u8],
        address: u64,
        front: usize,
        left: usize,
    ) -> Result<(), Refusal>
        requires fitting { Fits storage.old self.old }
        requires source_len_bound { length source.now ≤ left }
        requires left_bound { front + left < 18446744073709551616 }
        ensures value { (number_of result, seen storage.new self.new) ≡ run does (fill_rest address front left source.now) (seen storage.old self.old) }
        ensures same { SameSlices storage.old storage.new }
    {
        let place = place_of(address, front);
        self.store_pages(storage, Bytes::These(source), place.page, place.at)?;
        let end = place_of(address, front + source.len());
        let zeros = left - source.len();
        self.store_pages(storage, Bytes::Filled(0, zeros), end.page, end.at)
    }

    // Zeros up to the lead, the source, and zeros to the end of `size` bytes.
    pub(crate) fn fill_data(
        &mut self,
        storage: &mut Storage,
        source: &[u8],
        address: u64,
        size: usize,
        lead: usize,
    ) -> Result<(), Refusal>
        requires { Fits storage.old self.old }
        ensures value { (number_of result, seen storage.new self.new) ≡ run does (fill address size lead source.now) (seen storage.old self.old) }
        ensures same { SameSlices storage.old storage.new }
    {
        let front = size.min(lead);
        let left = size - front;
        let place = place_of(address, 0);
        self.store_pages(storage, Bytes::Filled(0, front), place.page, place.at)?;
        let n = left.min(source.len());
        self.fill_source(storage, &source[..n], address, front, left)
    }
}
