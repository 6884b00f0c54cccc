// Record files: the 48-byte records of a snapshot, the form of a whole file, and a reader of its records.
//
// Document 01, "Snapshot and resume", from "Record file" on. A record file is records with no header, each six little-endian
// words of 64 bits; the page file beside it holds the dirty pages one after another.
//
//   lib      a record, decoded from its words and encoded into them
//   form     whether a whole file, with its page file, is in the form
//   reader   a reader that holds a file and its position, and is the iterator of the records that are left
//
// What a record says is `record_at` (specs/Records.antt), the form is `judged` (specs/Form.antt), and the snapshot that two files
// hold is `snapshot_in` (specs/Snapshots.antt). That reading and writing undo each other is proofs/RoundTrip.antt.
#![tactic(auto)]

pub mod form;
pub mod reader;

ghost use Rattle.std.specs.Prelude.{◌≡◌, ◌+◌, ◌≤◌, length};
ghost use Rattle.words.specs.Bytes.{written};
ghost use Rattle.recordfile.specs.Words.{record_words, record_bytes, image, words_at};
ghost use Rattle.recordfile.specs.Records.{of_words, words_of, record_at, encoded};

// The bytes of a word.
pub const WORD_BYTES: usize = 8;

// The words of a record.
pub const RECORD_WORDS: usize = 6;

// The bytes of a record.
pub const RECORD_BYTES: usize = 48;

// The registers of a register record.
pub const REGISTERS_A_RECORD: u64 = 4;

// The register records of a file.
pub const REGISTER_RECORDS: usize = 8;

// The fewest and the most records of a file: the state's, the registers' and a run for every page.
pub const LEAST_RECORDS: usize = 9;

pub const MOST_RECORDS: usize = 1033;

// The kinds, word 0. Constants: an enum of them would be `Record` once more, without its fields.
const STATE: u64 = 1;

const REGISTERS: u64 = 2;

const SOURCE: u64 = 3;

const DIRTY: u64 = 4;

// A version is below this, a flag below that.
const VERSIONS: u64 = 4294967296;

const FLAGS: u64 = 256;

// A record; `Bad` is what is none. Not an Option, four registers and no array, fields and no structs in the variants: specs/Records,
// Form and Snapshots, and the theorems on them, speak of these variants and fields.
#[derive(Clone, Copy)]
pub enum Record {
    State {
        version: u32,
        pc: u64,
        cycles: u64,
        maximum: u64,
        reservation: u64,
    },
    Registers {
        first: u64,
        one: u64,
        two: u64,
        three: u64,
        four: u64,
    },
    Source {
        address: u64,
        flag: u8,
        id: u64,
        offset: u64,
        size: u64,
    },
    Dirty {
        address: u64,
        flag: u8,
        pages: u64,
        place: u64,
    },
    Bad,
}

// The words from a byte on. A part of the file is no plainer: `record_at` reads the whole file at a position, and `read_le` too.
fn read_words(file: &[u8], at: usize) -> [u64; RECORD_WORDS]
    requires { at + record_bytes ≤ length file.now }
    ensures { result ≡ words_at file.now at record_words }
{
    let mut words = [0u64; RECORD_WORDS];
    for i in 0..RECORD_WORDS {
        words[i] = words::read_le(file, at + i * WORD_BYTES, WORD_BYTES);
    }
    words
}

// Words, written from a byte on. A part of the file is no plainer: `encoded` writes into the whole file, and `write_le` too.
#[tactic(auto, using(crate::proofs::Decoding::write_none, crate::proofs::Decoding::write_more, crate::proofs::Decoding::write_done))]
fn write_words(file: &mut [u8], at: usize, words: [u64; RECORD_WORDS])
    requires { at + record_bytes ≤ length file.old }
    ensures { file.new ≡ written file.old at (image words) }
{
    for i in 0..RECORD_WORDS {
        words::write_le(file, at + i * WORD_BYTES, WORD_BYTES, words[i]);
    }
}

// The record that six words are.
impl From<[u64; RECORD_WORDS]> for Record {
    ghost from_gives = { λ words entry. entry ≡ of_words words };

    #[tactic(auto, unfolding(crate::specs::Records::record_of))]
    fn from(words: [u64; RECORD_WORDS]) -> Self {
        let [kind, a, b, c, d, e] = words;
        match kind {
            STATE if a < VERSIONS => Record::State {
                version: a as u32,
                pc: b,
                cycles: c,
                maximum: d,
                reservation: e,
            },
            REGISTERS => Record::Registers {
                first: a,
                one: b,
                two: c,
                three: d,
                four: e,
            },
            SOURCE if b < FLAGS => Record::Source {
                address: a,
                flag: b as u8,
                id: c,
                offset: d,
                size: e,
            },
            DIRTY if b < FLAGS && e == 0 => Record::Dirty {
                address: a,
                flag: b as u8,
                pages: c,
                place: d,
            },
            _ => Record::Bad,
        }
    }
}

// Record `i` of a file. By its number, beside `read_at`: it may not change, docs/PROMISES.md names both.
#[tactic(auto, unfolding(crate::specs::Records::record_at))]
pub fn decode(file: &[u8], i: usize) -> Record
    ensures { result ≡ record_at file.now i }
{
    if i >= file.len() / RECORD_BYTES {
        return Record::Bad;
    }
    Record::from(read_words(file, i * RECORD_BYTES))
}

// A record's words; of `Bad`, which has none, zeros.
impl From<Record> for [u64; RECORD_WORDS] {
    ghost from_gives = { λ entry words. words ≡ words_of entry };

    fn from(entry: Record) -> Self {
        match entry {
            Record::State {
                version,
                pc,
                cycles,
                maximum,
                reservation,
            } => [STATE, u64::from(version), pc, cycles, maximum, reservation],
            Record::Registers {
                first,
                one,
                two,
                three,
                four,
            } => [REGISTERS, first, one, two, three, four],
            Record::Source {
                address,
                flag,
                id,
                offset,
                size,
            } => [SOURCE, address, u64::from(flag), id, offset, size],
            Record::Dirty {
                address,
                flag,
                pages,
                place,
            } => [DIRTY, address, u64::from(flag), pages, place, 0],
            Record::Bad => [0; RECORD_WORDS],
        }
    }
}

// Writes record `i` of a file; past the file's last record nothing. By its number: it may not change, docs/PROMISES.md names it.
#[tactic(auto, unfolding(crate::specs::Records::encoded))]
pub fn encode(file: &mut [u8], i: usize, entry: Record)
    ensures { file.new ≡ encoded file.old i entry }
{
    if i < file.len() / RECORD_BYTES {
        write_words(file, i * RECORD_BYTES, entry.into());
    }
}
