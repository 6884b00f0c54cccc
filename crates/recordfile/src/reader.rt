// A reader that holds a record file and its position: the file's records one by one, as an iterator.
ghost use Rattle.std.specs.Prelude.{◌≡◌};
ghost use Rattle.std.specs.Iterator.{item_count};
ghost use Rattle.recordfile.specs.Records.{record_at};
ghost use Rattle.recordfile.specs.Reader.{next_to, left, TakesNext};

use super::{RECORD_BYTES, Record};

// A record file, and the number of the record that is read next: the two fields of which the clauses of `start`, `peek` and
// `moved` speak, which docs/PROMISES.md has.
#[derive(Clone, Copy)]
pub struct Reader<'a> {
    pub file: &'a [u8],
    pub at: usize,
}

impl<'a> Reader<'a> {
    // A reader at a record.
    pub fn start(file: &'a [u8], at: usize) -> Self
        ensures same_file { result.file ≡ file.entry }
        ensures position { result.at ≡ at }
    {
        Reader { file, at }
    }

    // A reader at the first record: a name of its own, as docs/PROMISES.md has both.
    pub fn new(file: &'a [u8]) -> Self
        ensures same_file { result.file ≡ file.entry }
        ensures position { result.at ≡ 0 }
    {
        Reader::start(file, 0)
    }

    // The record at its position; past the last, none.
    pub fn peek(&self) -> Record
        ensures { result ≡ record_at self.now.file.now self.now.at }
    {
        super::decode(self.file, self.at)
    }

    // The reader one record further; the last position that there is stays.
    pub fn moved(self) -> Self
        ensures same_file { result.file ≡ self.entry.file }
        ensures position { result.at ≡ next_to self.entry.at }
    {
        Reader::start(self.file, self.at.saturating_add(1))
    }
}

// The records from its position on.
impl<'a> Iterator for Reader<'a> {
    type Item = Record;

    ghost next_gives = { TakesNext };

    ghost remaining = { item_count left };

    #[tactic(auto, unfolding(crate::specs::Records::records_from))]
    fn next(&mut self) -> Option<Record> {
        if self.at >= self.file.len() / RECORD_BYTES {
            return None;
        }
        let entry = self.peek();
        self.at += 1;
        Some(entry)
    }
}

// The record at a position of a file. With the promise of `decode`: it may not change, docs/PROMISES.md names both.
pub fn read_at(file: &[u8], at: usize) -> Record
    ensures { result ≡ record_at file.now at }
{
    Reader::start(file, at).peek()
}
