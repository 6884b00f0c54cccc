// Bytes read, from pages in slots.
ghost use Rattle.std.specs.Prelude.{◌≡◌, ◌+◌, ◌*◌, ◌%◌, ◌<◌, ◌≤◌, [], length};
ghost use Rattle.bits.specs.Rounding.{page_size};
ghost use Rattle.outcome.specs.Numbers.{number_of};
ghost use Rattle.words.specs.Bytes.{written};
ghost use Rattle.program.specs.Program.{run};
ghost use Rattle.memory.specs.Pages.{maximum};
ghost use Rattle.memory.specs.Storage.{byte_in, span};
ghost use Rattle.memory.specs.Operations.{does};
ghost use Rattle.memory.specs.Sparse.{load, load_wide, meets, reach, c_string, load_bytes, load_c_string};
ghost use Rattle.memory.specs.Answers.{value_of, wrote, laid};
ghost use Rattle.memory.specs.Lent.{read_in, FitsRead, width_of};

use super::storage::{Lent, Width, slot_of};
use super::{INVALID_PAGE_INDEX, Memory, PAGE, meet};
use bits::RISCV_PAGESIZE;
use outcome::Refusal;

impl<'a> Lent<'a> {
    // The byte at an address.
    #[inline]
    fn byte_at(self, address: u64) -> u8
        ensures { result ≡ byte_in self.entry.slots.now self.entry.area.now address }
    {
        let slot = slot_of(self.slots, (address / PAGE) as usize);
        if slot == INVALID_PAGE_INDEX {
            return 0;
        }
        let at = slot * RISCV_PAGESIZE + (address % PAGE) as usize;
        if at < self.area.len() {
            self.area[at]
        } else {
            0
        }
    }

    // Bytes of one page from index `at` on, as many as the output holds. A page and an index: a struct for one caller is no plainer.
    fn load_part(self, out: &mut [u8], page: usize, at: usize)
        requires out_bound { at + length out.old ≤ page_size }
        requires page_size_len { length self.area.now % page_size ≡ 0 }
        ensures { out.new ≡ span (byte_in self.entry.slots.now self.entry.area.now) (page * page_size + at) (length out.old) }
    {
        let slot = slot_of(self.slots, page);
        if slot == INVALID_PAGE_INDEX {
            words::fill(out, 0);
            return;
        }
        let start = slot * RISCV_PAGESIZE + at;
        if start >= self.area.len() {
            words::fill(out, 0);
            return;
        }
        let end = start + out.len();
        words::copy(out, &self.area[start..end]);
    }

    // The first n bytes of the output are those from an address on, page by page. By `for` over the pages a load of 64 bytes takes
    // 1.3 times as long.
    fn load_pages(self, out: &mut [u8], address: u64, n: usize)
        requires n_in_bounds { n ≤ length out.old }
        requires n_bound { address + n ≤ maximum }
        requires page_size_len { length self.area.now % page_size ≡ 0 }
        ensures { out.new ≡ written out.old 0 (span (byte_in self.entry.slots.now self.entry.area.now) address n) }
    {
        let mut i: usize = 0;
        while i < n {
            let a = address + i as u64;
            let at = (a % PAGE) as usize;
            let end = i + (RISCV_PAGESIZE - at).min(n - i);
            self.load_part(&mut out[i..end], (a / PAGE) as usize, at);
            i = end;
        }
    }
}

impl Memory {
    // The number in n bytes from an address on, of one page or two. Out of line, so that what most loads are stays small.
    #[inline(never)]
    pub(crate) fn load_over(self, lent: Lent, address: u64, n: usize) -> Result<u64, Refusal>
        requires fitting { FitsRead lent self }
        requires width { (0 < n) × (n ≤ 8) }
        ensures { (value_of result, read_in lent.entry self) ≡ run does (load n address) (read_in lent.entry self) }
    {
        let page = (address / PAGE) as usize;
        let at = (address % PAGE) as usize;
        meet(lent.slots, self.used, page)?;
        if at + n <= RISCV_PAGESIZE {
            let slot = slot_of(lent.slots, page);
            if slot == INVALID_PAGE_INDEX {
                return Ok(0);
            }
            return Ok(words::read_le(lent.area, slot * RISCV_PAGESIZE + at, n));
        }
        meet(lent.slots, self.used, page + 1)?;
        // The bytes lie in two pages, and are put together first, with zeros behind them.
        let mut bytes = [0u8; 8];
        lent.load_pages(&mut bytes, address, n);
        Ok(u64::from_le_bytes(bytes))
    }

    // The pages from first to last can be read.
    fn meet_pages(self, lent: Lent, address: u64, n: u64) -> Result<(), Refusal>
        requires fitting { FitsRead lent self }
        requires n_nonzero { 0 < n }
        requires n_bound { address + n ≤ self.size }
        ensures { (number_of result, read_in lent.entry self) ≡ run does (meets address n) (read_in lent.entry self) }
    {
        let first = (address / PAGE) as usize;
        let last = ((address + n - 1) / PAGE) as usize;
        for page in first..last + 1 {
            meet(lent.slots, self.used, page)?;
        }
        Ok(())
    }

    // Whether n bytes from an address on can be read into an output of `room` bytes.
    fn reachable(self, lent: Lent, address: u64, n: u64, room: usize) -> Result<(), Refusal>
        requires fitting { FitsRead lent self }
        requires n_nonzero { 0 < n }
        ensures { (number_of result, read_in lent.entry self) ≡ run does (reach address n room) (read_in lent.entry self) }
    {
        if n > self.size.saturating_sub(address) {
            return Err(Refusal::MemOutOfBound);
        }
        self.meet_pages(lent, address, n)?;
        if room < n as usize {
            return Err(Refusal::OutputTooShort);
        }
        Ok(())
    }

    // The bytes from an address on, at the front of a lent output.
    pub fn load_bytes(
        self,
        lent: Lent,
        out: &mut [u8],
        address: u64,
        size: u64,
    ) -> Result<(), Refusal>
        ensures { wrote (number_of result) 0 out.new (read_in lent.entry self) ≡ laid out.old (run does (load_bytes address size (length out.old)) (read_in lent.entry self)) }
    {
        if !lent.fits(self) {
            return Err(Refusal::BadStorage);
        }
        if size == 0 {
            return Ok(());
        }
        self.reachable(lent, address, size, out.len())?;
        lent.load_pages(out, address, size as usize);
        Ok(())
    }

    // The bytes from an address on up to a zero byte, at the front of a lent output, and how many they are.
    pub fn load_c_string(self, lent: Lent, out: &mut [u8], address: u64) -> Result<u64, Refusal>
        ensures { wrote (value_of result).number (value_of result).value out.new (read_in lent.entry self) ≡ laid out.old (run does (load_c_string address (length out.old)) (read_in lent.entry self)) }
    {
        if !lent.fits(self) {
            return Err(Refusal::BadStorage);
        }
        self.load_text(lent, out, address)
    }

    // The same where the lengths are right. Not by `for`: over `0..=out.len()`, as the byte after the last that finds room is read
    // too, the loop would have an end that is never reached and must be answered.
    fn load_text(self, lent: Lent, out: &mut [u8], address: u64) -> Result<u64, Refusal>
        requires { FitsRead lent self }
        ensures { wrote (value_of result).number (value_of result).value out.new (read_in lent.entry self) ≡ laid out.old (run does (c_string (length out.old) address []) (read_in lent.entry self)) }
    {
        let mut i: usize = 0;
        let mut at = address;
        loop {
            meet(lent.slots, self.used, (at / PAGE) as usize)?;
            let byte = lent.byte_at(at);
            if byte == 0 {
                return Ok(i as u64);
            }
            if i >= out.len() {
                return Err(Refusal::OutputTooShort);
            }
            out[i] = byte;
            i += 1;
            at += 1;
        }
    }
}

impl Memory {
    // The number in the bytes from an address on.
    #[inline(always)]
    pub fn load_number(self, lent: Lent, address: u64, width: Width) -> Result<u64, Refusal>
        ensures { (value_of result, read_in lent.entry self) ≡ run does (load_wide (width_of width) address) (read_in lent.entry self) }
    {
        let n = width.bytes();
        if !lent.fits(self) {
            return Err(Refusal::BadStorage);
        }
        if let Some(value) = self.load_here(lent, address, n) {
            return Ok(value);
        }
        self.load_over(lent, address, n)
    }

    // The byte at an address as a number. These four keep the names of memory/mod.rs, which docs/PROMISES.md has.
    #[inline]
    pub fn load8(self, lent: Lent, address: u64) -> Result<u64, Refusal>
        ensures { (value_of result, read_in lent.entry self) ≡ run does (load_wide 1 address) (read_in lent.entry self) }
    {
        self.load_number(lent, address, Width::One)
    }

    // The 2 bytes at an address as a number.
    #[inline]
    pub fn load16(self, lent: Lent, address: u64) -> Result<u64, Refusal>
        ensures { (value_of result, read_in lent.entry self) ≡ run does (load_wide 2 address) (read_in lent.entry self) }
    {
        self.load_number(lent, address, Width::Two)
    }

    // The 4 bytes at an address as a number.
    #[inline]
    pub fn load32(self, lent: Lent, address: u64) -> Result<u64, Refusal>
        ensures { (value_of result, read_in lent.entry self) ≡ run does (load_wide 4 address) (read_in lent.entry self) }
    {
        self.load_number(lent, address, Width::Four)
    }

    // The 8 bytes at an address as a number.
    #[inline]
    pub fn load64(self, lent: Lent, address: u64) -> Result<u64, Refusal>
        ensures { (value_of result, read_in lent.entry self) ≡ run does (load_wide 8 address) (read_in lent.entry self) }
    {
        self.load_number(lent, address, Width::Eight)
    }
}
