// The map of a snapshot's memory, from its record file: an SVG 1.1 picture with a tile for each page.
//
// The picture is `map` (specs/Map.antt): how high it is, the frame with its legend, the tiles, the numbers.
ghost use Rattle.std.specs.Prelude.{◌≡◌, ◌∷◌, [], ◌+◌, ◌≤◌, length, IfOk};
ghost use Rattle.recordfile.specs.Records.{records_in};
ghost use Rattle.listing.specs.Listing.{told, laid};
ghost use Rattle.listing.specs.Texts.{rows, filled};
ghost use Rattle.listing.specs.Writer.{Adds, Room, SameOutput};
ghost use Rattle.listing.specs.Pages.{most_pages};
ghost use Rattle.listing.specs.Map.{opened, numbers, closed, drawn, map_into, most_frame, most_map};

use super::pages::{Counts, Picture};
use super::tiles::{MOST_TILE, ROW_TILES};
use super::writer::Writer;
use super::{MOST_PAGES, put_refusal, tiles};
use outcome::Refusal;
use recordfile::form::needed_pages;

// The height of what stands above the tiles, of a row, and of the margin below.
const TOP: u64 = 160;

const ROW: u64 = 18;

const MARGIN: u64 = 10;

// The most bytes of what stands before the tiles, or after them.
const MOST_FRAME: usize = 2048;

// The most bytes of a map.
pub const MOST_MAP: usize = MOST_FRAME + MOST_PAGES as usize * MOST_TILE + MOST_FRAME;

// What stands before the tiles.
#[tactic(auto, unfolding(crate::specs::Map::opened, crate::specs::Map::frame, crate::specs::Texts::rows, crate::specs::Texts::text))]
fn put_opened(text: &mut Writer, picture: Picture)
    requires { Room text.old most_frame }
    ensures wrote { Adds text.old text.new (opened picture.entry.pages) }
    ensures same { SameOutput text.old text.new }
    ensures upper_bound { text.new.end ≤ text.old.end + most_frame }
{
    let height = TOP + ROW * ((picture.pages + (ROW_TILES - 1)) / ROW_TILES) + MARGIN;
    text.form(
        b"<svg xmlns='http://www.w3.org/2000/svg' version='1.1' width='600' height='@' viewBox='0 0 600 @'>\n\
          <title>Memory map of a snapshot</title>\n\
          <style type='text/css'>\n\
          text{font:12px sans-serif;fill:#222}\n\
          .head{font-size:17px;font-weight:bold}\n\
          .count{text-anchor:end}\n\
          .out{fill:#f4f4f4;stroke:#bbb;stroke-width:.04}\n\
          .source0{fill:#a9cfec}.source1{fill:#5fa3d6}.source2{fill:#236cb2}.source3{fill:#0a3468}\n\
          .dirty0{fill:#ffc37d}.dirty1{fill:#f0902c}.dirty2{fill:#bf5b08}.dirty3{fill:#6f3000}\n\
          </style>\n\
          <rect width='100%' height='100%' fill='#fff'/>\n\
          <text class='head' x='12' y='28'>Memory map of a snapshot</text>\n\
          <text x='12' y='56'>pages of the machine</text>\n\
          <text x='270' y='56'>neither</text>\n\
          <text x='342' y='56'>frozen</text>\n\
          <text x='414' y='56'>executable</text>\n\
          <text x='504' y='56'>both</text>\n\
          <text x='12' y='74'>pages dirty</text>\n\
          <text x='12' y='92'>pages from a source</text>\n\
          <text x='12' y='110'>pages left out</text>\n\
          <text x='12' y='128'>runs not drawn whole</text>\n\
          <text x='270' y='128'>not whole pages, or past the last page</text>\n\
          <text x='12' y='150'>A tile is a page of 4,096 bytes, 32 to a row. Its title has its number, address, source and flag.</text>\n\
          <g id='legend' transform='translate(270,61) scale(18)'>\n\
          <rect width='.9' height='.9' x='0' y='0' class='dirty0'/>\n\
          <rect width='.9' height='.9' x='4' y='0' class='dirty1'/>\n\
          <rect width='.9' height='.9' x='8' y='0' class='dirty2'/>\n\
          <rect width='.9' height='.9' x='13' y='0' class='dirty3'/>\n\
          <rect width='.9' height='.9' x='0' y='1' class='source0'/>\n\
          <rect width='.9' height='.9' x='4' y='1' class='source1'/>\n\
          <rect width='.9' height='.9' x='8' y='1' class='source2'/>\n\
          <rect width='.9' height='.9' x='13' y='1' class='source3'/>\n\
          <rect width='.9' height='.9' x='0' y='2' class='out'/>\n\
          </g>\n\
          <g id='pages' transform='translate(12,160) scale(18)'>\n",
        &[height, height],
    )
}

// The numbers, and the picture's end.
#[tactic(auto, unfolding(crate::specs::Map::numbers, crate::specs::Texts::rows, crate::specs::Texts::text))]
fn put_numbers(text: &mut Writer, pages: u64, counts: Counts, runs: u64)
    requires { Room text.old most_frame }
    ensures wrote { Adds text.old text.new (filled (rows numbers) (pages ∷ counts.dirty ∷ counts.source ∷ counts.none ∷ runs ∷ [])) }
    ensures same { SameOutput text.old text.new }
    ensures upper_bound { text.new.end ≤ text.old.end + most_frame }
{
    text.form(
        b"</g>\n\
          <text class='count' x='230' y='56'>@</text>\n\
          <text class='count' x='230' y='74'>@</text>\n\
          <text class='count' x='230' y='92'>@</text>\n\
          <text class='count' x='230' y='110'>@</text>\n\
          <text class='count' x='230' y='128'>@</text>\n\
          </svg>\n",
        &[pages, counts.dirty, counts.source, counts.none, runs],
    )
}

// What stands after the tiles.
fn put_closed(text: &mut Writer, picture: Picture)
    requires { Room text.old most_frame }
    ensures wrote { Adds text.old text.new (closed picture.entry.pages (records_in picture.entry.file.now)) }
    ensures same { SameOutput text.old text.new }
    ensures upper_bound { text.new.end ≤ text.old.end + most_frame }
{
    let counts = picture.count_pages();
    let runs = picture.count_partly();
    put_numbers(text, picture.pages, counts, runs);
}

// The picture.
fn put_map(text: &mut Writer, picture: Picture)
    requires { Room text.old most_map }
    ensures wrote { Adds text.old text.new (drawn picture.entry.pages (records_in picture.entry.file.now)) }
    ensures same { SameOutput text.old text.new }
    ensures upper_bound { text.new.end ≤ text.old.end + most_map }
{
    put_opened(text, picture);
    tiles::put_tiles(text, picture);
    put_closed(text, picture);
}

// The map of a record file for a machine of so many pages, at the front of a lent output; answers its size.
pub fn draw(file: &[u8], out: &mut [u8], pages: u64) -> Result<usize, Refusal>
    ensures out_after { told result out.new ≡ laid out.old (map_into pages file.now (length out.old)) }
    ensures size_in_bounds { IfOk result (λ size. size ≤ length out.new) }
{
    if MOST_PAGES < pages {
        return Err(Refusal::BadStorage);
    }
    if out.len() < MOST_MAP {
        return Err(Refusal::OutputTooShort);
    }
    let mut text = Writer { out, end: 0 };
    if let Err(refusal) = needed_pages(file) {
        put_refusal(&mut text, refusal);
        return Ok(text.end);
    }
    put_map(&mut text, Picture { file, pages });
    Ok(text.end)
}
