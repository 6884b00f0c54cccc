// A page's record, in three lent words: id, offset, mark.
ghost use Rattle.std.specs.Prelude.{◌≡◌, ◌+◌, ◌*◌, ◌<◌, length};
ghost use Rattle.program.specs.Program.{run};
ghost use Rattle.machine.specs.Fresh.{record_words};
ghost use Rattle.tracking.specs.Records.{record_at, record_in, words_of, with_record};
ghost use Rattle.tracking.specs.Operations.{does, entry_in};
ghost use Rattle.tracking.specs.Tracking.{page_record};
ghost use Rattle.tracking.specs.Answers.{tracked_read, recorded_of};

use super::storage::TrackedLent;
use memory::{FLAG_DIRTY, Memory};
use outcome::Refusal;

// The words of a record: machine's number, as an index: a cast at each use is no plainer.
pub const WORDS: usize = machine::RECORD_WORDS as usize;

// A mark from here on is that of a tracked page, with the flag in its low eight bits: a number, as C sees it in the lent records.
pub const TRACKED: u64 = 256;

// Where a page's bytes come from: nowhere, or an item of the sources, by its id and an offset in it, with the page's flag. Document
// 01 names the record as an enum of its own.
#[derive(Clone, Copy, Debug, PartialEq, Eq)]
pub enum Tracking {
    Untracked,
    Tracked(u64, u64, u8),
}

// A page and its record.
#[derive(Clone, Copy)]
pub struct PageRecord {
    pub page: u64,
    pub tracking: Tracking,
}

impl From<[u64; 3]> for Tracking {
    ghost from_gives = { λ words tracking. tracking ≡ record_in words };

    fn from(words: [u64; 3]) -> Tracking {
        let mark = words[2];
        if mark < TRACKED {
            return Tracking::Untracked;
        }
        Tracking::Tracked(words[0], words[1], (mark % TRACKED) as u8)
    }
}

impl From<Tracking> for [u64; 3] {
    ghost from_gives = { λ tracking words. words ≡ words_of tracking };

    fn from(tracking: Tracking) -> [u64; 3] {
        match tracking {
            Tracking::Untracked => [0, 0, 0],
            Tracking::Tracked(id, offset, flag) => [id, offset, TRACKED + u64::from(flag)],
        }
    }
}

// A page's record, read out of its words: three of the array that C lends.
fn read_record(records: &[u64], page: u64) -> PageRecord
    requires { page * record_words + 2 < length records.now }
    ensures { (result.page ≡ page) × (result.tracking ≡ record_at records.now page) }
{
    let at = page as usize * WORDS;
    PageRecord {
        page,
        tracking: Tracking::from([records[at], records[at + 1], records[at + 2]]),
    }
}

// A page's record, written into its words.
pub(crate) fn write_record(records: &mut [u64], page: u64, tracking: Tracking)
    requires { page * record_words + 2 < length records.old }
    ensures { records.new ≡ with_record records.old page tracking }
{
    let at = page as usize * WORDS;
    // A word at a time: copied as a slice, the words go through memory, and a page is tracked in twice the time.
    let words = <[u64; 3]>::from(tracking);
    records[at] = words[0];
    records[at + 1] = words[1];
    records[at + 2] = words[2];
}

// Where the bytes of a page come from; of a dirty page nothing is shown. A method of `TrackedLent` would ask for slots and area too;
// docs/PROMISES.md has it.
pub fn entry_at(flags: &[u8], records: &[u64], page: u64) -> Tracking
    ensures { result ≡ entry_in flags.now records.now page }
{
    let p = page as usize;
    if p >= records.len() / WORDS {
        return Tracking::Untracked;
    }
    let found = read_record(records, page).tracking;
    if p < flags.len() && flags[p] & FLAG_DIRTY != 0 {
        return Tracking::Untracked;
    }
    found
}

impl<'a> TrackedLent<'a> {
    // What is tracked of a page. The record of a dirty page is not shown.
    pub fn page_record(self, memory: Memory, page: u64) -> Result<PageRecord, Refusal>
        ensures { (recorded_of result, tracked_read self.entry memory) ≡ run does (page_record page) (tracked_read self.entry memory) }
    {
        if !self.fits(memory) {
            return Err(Refusal::BadStorage);
        }
        if page as usize >= self.flags.len() {
            return Err(Refusal::MemOutOfBound);
        }
        Ok(PageRecord {
            page,
            tracking: entry_at(self.flags, self.records, page),
        })
    }
}
