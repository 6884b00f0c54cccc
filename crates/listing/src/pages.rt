// What a record file says of a machine's pages, and how many of each kind there are.
ghost use Rattle.std.specs.Prelude.{◌≡◌, cond, ◌*◌, ◌-◌, ◌^◌, ◌≤◌, ◌<◌, min};
ghost use Rattle.bits.specs.Rounding.{page_size};
ghost use Rattle.recordfile.specs.Records.{records_in};
ghost use Rattle.listing.specs.Pages.{most_pages, covers as covers_page, said_by, said_of, is_dirty, is_source, is_left_out, pages_that, partly as partly_drawn, partly_by, runs_partly};

use bits::RISCV_PAGESIZE;
use recordfile::Record;
use recordfile::reader::Reader;

// The bytes of a page: bits' number, as a number of 64 bits: a cast at each use is no plainer.
const PAGE_BYTES: u64 = RISCV_PAGESIZE as u64;

// A page of a machine, by its number.
#[derive(Clone, Copy)]
pub struct Page {
    pub number: u64,
    ghost few: { number < most_pages },
}

impl Page {
    // The address of its first byte.
    pub fn start(self) -> u64
        ensures { result ≡ self.number * page_size }
    {
        self.number * PAGE_BYTES
    }
}

// What a file says of a page: nothing; a source's, by a run with these numbers; or dirty. Not an Option: specs/Pages and Map
// speak of `LeftOut`.
#[derive(Clone, Copy)]
pub enum Said {
    LeftOut,
    Source {
        flag: u8,
        id: u64,
        address: u64,
        offset: u64,
    },
    Dirty {
        flag: u8,
    },
}

// A record file, to be drawn on so many pages.
#[derive(Clone, Copy)]
pub struct Picture<'a> {
    pub file: &'a [u8],
    pub pages: u64,
    ghost few: { pages ≤ most_pages },
}

// How many pages are dirty, from a source, left out.
#[derive(Clone, Copy)]
pub struct Counts {
    pub dirty: u64,
    pub source: u64,
    pub none: u64,
}

// Whether a run of so many bytes covers a page.
fn covers(address: u64, size: u64, page: Page) -> bool
    ensures { result ≡ covers_page address size page.number }
{
    let start = page.start();
    if start < address {
        return false;
    }
    start - address + PAGE_BYTES <= size
}

// The bytes of so many pages; where they pass 2^64-1, that.
fn bytes_of(pages: u64) -> u64
    ensures { result ≡ min (pages * page_size) (2 ^ 64 - 1) }
{
    pages.saturating_mul(PAGE_BYTES)
}

// What a record says of a page, or else what was said before.
#[tactic(auto, unfolding(crate::specs::Pages::said_by))]
fn said_by(page: Page, before: Said, entry: Record) -> Said
    ensures { result ≡ said_by page.number before entry }
{
    match entry {
        Record::Source {
            address,
            flag,
            id,
            offset,
            size,
        } if covers(address, size, page) => Said::Source {
            flag,
            id,
            address,
            offset,
        },
        Record::Dirty {
            address,
            flag,
            pages,
            ..
        } if covers(address, bytes_of(pages), page) => Said::Dirty { flag },
        _ => before,
    }
}

// What a file says of a page.
pub fn said_of(file: &[u8], page: Page) -> Said
    ensures { result ≡ said_of (records_in file.now) page.number }
{
    let mut said = Said::LeftOut;
    for entry in Reader::new(file) {
        said = said_by(page, said, entry);
    }
    said
}

impl<'a> Picture<'a> {
    // How many of its pages are dirty, from a source, left out.
    pub fn count_pages(self) -> Counts
        ensures dirty_value { result.dirty ≡ pages_that is_dirty (records_in self.entry.file.now) self.entry.pages }
        ensures source_value { result.source ≡ pages_that is_source (records_in self.entry.file.now) self.entry.pages }
        ensures none_value { result.none ≡ pages_that is_left_out (records_in self.entry.file.now) self.entry.pages }
    {
        let mut counts = Counts {
            dirty: 0,
            source: 0,
            none: 0,
        };
        for number in 0..self.pages {
            match said_of(self.file, Page { number }) {
                Said::Dirty { .. } => counts.dirty += 1,
                Said::Source { .. } => counts.source += 1,
                Said::LeftOut => counts.none += 1,
            }
        }
        counts
    }

    // Whether a run of so many bytes is not drawn whole.
    fn partly(self, address: u64, size: u64) -> bool
        ensures { cond result 1 0 ≡ partly_drawn self.entry.pages address size }
    {
        let end = self.pages * PAGE_BYTES;
        if address % PAGE_BYTES != 0 {
            return true;
        }
        if size % PAGE_BYTES != 0 {
            return true;
        }
        if end < address {
            return true;
        }
        if end - address < size {
            return true;
        }
        false
    }

    // The same for a record.
    fn partly_by(self, entry: Record) -> bool
        ensures { cond result 1 0 ≡ partly_by self.entry.pages entry }
    {
        match entry {
            Record::Source { address, size, .. } => self.partly(address, size),
            Record::Dirty { address, pages, .. } => self.partly(address, bytes_of(pages)),
            _ => false,
        }
    }

    // How many runs of its file are not drawn whole.
    pub fn count_partly(self) -> u64
        ensures { result ≡ runs_partly self.entry.pages (records_in self.entry.file.now) }
    {
        let mut runs = 0;
        for entry in Reader::new(self.file) {
            if self.partly_by(entry) {
                runs += 1;
            }
        }
        runs
    }
}
