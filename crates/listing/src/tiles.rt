// The tile of a page, and the tiles of all pages.
ghost use Rattle.std.specs.Prelude.{◌≡◌, ◌+◌, ◌*◌, ◌<◌, ◌≤◌};
ghost use Rattle.recordfile.specs.Records.{records_in};
ghost use Rattle.listing.specs.Writer.{Adds, Room, SameOutput};
ghost use Rattle.listing.specs.Pages.{most_pages};
ghost use Rattle.listing.specs.Map.{tile, tiles, most_tile};

use super::pages;
use super::pages::{Page, Picture, Said};
use super::writer::Writer;

// The tiles of a row.
pub const ROW_TILES: u64 = 32;

// A shade for each value of the flag's bits frozen and executable.
const SHADES: u64 = 4;

// The most bytes of a tile.
pub const MOST_TILE: usize = 320;

// The tile of a page. An offset past 2^64-1 is not given.
#[tactic(auto, unfolding(crate::specs::Map::tile, crate::specs::Map::none_tile, crate::specs::Map::dirty_tile, crate::specs::Texts::text))]
fn put_tile(text: &mut Writer, page: Page, said: Said)
    requires { Room text.old most_tile }
    ensures wrote { Adds text.old text.new (tile page.number said) }
    ensures same { SameOutput text.old text.new }
    ensures upper_bound { text.new.end ≤ text.old.end + most_tile }
{
    let start = page.start();
    let page = page.number;
    let column = page % ROW_TILES;
    let row = page / ROW_TILES;
    // A match has each case's fields by name; a table of calls would hand them on as numbers.
    match said {
        Said::LeftOut => text.form(
            b"<rect width='.9' height='.9' x='@' y='@' class='out'><title>page @ at @: left out</title></rect>\n",
            &[column, row, page, start],
        ),
        Said::Dirty { flag } => {
            let flag = u64::from(flag);
            text.form(
                b"<rect width='.9' height='.9' x='@' y='@' class='dirty@'><title>page @ at @: dirty, flag @</title></rect>\n",
                &[column, row, flag % SHADES, page, start, flag],
            )
        }
        Said::Source {
            flag,
            id,
            address,
            offset,
        } => {
            let flag = u64::from(flag);
            let shade = flag % SHADES;
            match offset.checked_add(start.saturating_sub(address)) {
                Some(from) => text.form(
                    b"<rect width='.9' height='.9' x='@' y='@' class='source@'><title>page @ at @: source @ from @, flag @</title></rect>\n",
                    &[column, row, shade, page, start, id, from, flag],
                ),
                None => text.form(
                    b"<rect width='.9' height='.9' x='@' y='@' class='source@'><title>page @ at @: source @, flag @</title></rect>\n",
                    &[column, row, shade, page, start, id, flag],
                ),
            }
        }
    }
}

// The tiles of a picture.
pub fn put_tiles(text: &mut Writer, picture: Picture)
    requires { Room text.old (most_pages * most_tile) }
    ensures wrote { Adds text.old text.new (tiles (records_in picture.entry.file.now) 0 picture.entry.pages) }
    ensures same { SameOutput text.old text.new }
    ensures upper_bound { text.new.end ≤ text.old.end + most_pages * most_tile }
{
    for number in 0..picture.pages {
        let page = Page { number };
        put_tile(text, page, pages::said_of(picture.file, page));
    }
}
