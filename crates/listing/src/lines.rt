// The lines of records.
ghost use Rattle.std.specs.Prelude.{◌≡◌, ◌+◌, ◌≤◌};
ghost use Rattle.recordfile.specs.Records.{count_in, records_in};
ghost use Rattle.recordfile.specs.Form.{most_records};
ghost use Rattle.listing.specs.Listing.{line_of, lines, most_line, most_text};
ghost use Rattle.listing.specs.Writer.{Adds, Room, SameOutput};

use super::writer::Writer;
use recordfile::Record;
use recordfile::reader::Reader;

// The line of a record, where it has one.
#[tactic(auto, using(crate::proofs::Fixed::nothing_put), unfolding(crate::specs::Listing::line_of))]
fn put_record(text: &mut Writer, entry: Record)
    requires { Room text.old most_line }
    ensures wrote { Adds text.old text.new (line_of entry) }
    ensures same { SameOutput text.old text.new }
{
    // A match has each kind's fields by name; a table of calls would hand them on as numbers.
    match entry {
        Record::State {
            version,
            pc,
            cycles,
            maximum,
            reservation,
        } => text.line(
            b'M',
            &[u64::from(version), pc, cycles, maximum, reservation],
        ),
        Record::Source {
            address,
            flag,
            id,
            offset,
            size,
        } => text.line(b'S', &[address, u64::from(flag), id, offset, size]),
        Record::Dirty {
            address,
            flag,
            pages,
            place,
        } => text.line(b'D', &[address, u64::from(flag), pages, place]),
        Record::Registers { .. } | Record::Bad => {}
    }
}

// The lines of a file's records.
pub fn put_records(text: &mut Writer, file: &[u8])
    requires file_bound { count_in file.now ≤ most_records }
    requires room { Room text.old most_text }
    ensures wrote { Adds text.old text.new (lines (records_in file.now)) }
    ensures same { SameOutput text.old text.new }
    ensures upper_bound { text.new.end ≤ text.old.end + most_text }
{
    for entry in Reader::new(file) {
        put_record(text, entry);
    }
}
