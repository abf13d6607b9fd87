// The listing of a sound pool: a line for the screen, and one for each tile with entries. Each function puts its text at a place of a buffer, where there is
// room for it, and answers the place after it.
ghost use Rattle.std.specs.Prelude.{◌≡◌, ◌+◌, ◌^◌, ◌<◌, ◌≤◌, length};
ghost use Rattle.pool.specs.Words.{layout_of};
ghost use Rattle.pool.specs.Editions.{layout_for};
ghost use Rattle.pool.specs.Sound.{Sound, tiles_of};
ghost use Rattle.pool.specs.Lists.{list_of};
ghost use Rattle.pool.specs.Written.{Puts};
ghost use Rattle.audit.specs.Answer.{HeaderOf};
ghost use Rattle.lists.specs.Reach.{Among};
ghost use Rattle.lister.specs.Listing.{screen_line, entry_text, entries_text, line_of, tile_line, tile_lines, listing};

use crate::text::{put_field, put_text};
use audit::Header;
use lists::Lists;
use numbers::{is_flagged, plain, wide};
use screen::{Grid, Tile};

// The side of a tile, in pixels.
fn pixels(s: u32) -> u32
    requires { s ≤ 6 }
    ensures { result ≡ 2 ^ s }
{
    1 << s
}

// The screen, the side of a tile in pixels, how many blocks there are, and how many are free.
fn put_screen(grid: Grid, blocks: u32, free: u32, out: &mut [u8], at: usize) -> usize
    requires { at + length (screen_line grid.screen.width grid.screen.height (2 ^ grid.screen.s) blocks free) ≤ length out.old }
    ensures { Puts out.old at (screen_line grid.screen.width grid.screen.height (2 ^ grid.screen.s) blocks free) out.new result }
{
    let screen = grid.screen;
    let width = put_field(b"screen ", screen.width, out, at);
    let height = put_field(b" ", screen.height, out, width);
    let side = put_field(b" tile ", pixels(screen.s), out, height);
    let all = put_field(b" blocks ", blocks, out, side);
    let last = put_field(b" free ", free, out, all);
    put_text(b"\n", out, last)
}

// The id of an entry after a space, and a star behind it where its flag says that the tile is wholly covered.
fn put_entry(entry: u32, out: &mut [u8], at: usize) -> usize
    requires { at + length (entry_text entry) ≤ length out.old }
    ensures { Puts out.old at (entry_text entry) out.new result }
{
    let next = put_field(b" ", plain(entry), out, at);
    if is_flagged(entry) {
        return put_text(b"*", out, next);
    }
    next
}

// Each entry after a space.
fn put_entries(entries: &[u32], out: &mut [u8], at: usize) -> usize
    requires { at + length (entries_text entries.now) ≤ length out.old }
    ensures { Puts out.old at (entries_text entries.now) out.new result }
{
    let mut next = at;
    for entry in entries {
        next = put_entry(*entry, out, next);
    }
    next
}

// The line of a tile with these entries.
fn put_line(tile: Tile, entries: &[u32], out: &mut [u8], at: usize) -> usize
    requires { at + length (line_of tile.0 entries.now) ≤ length out.old }
    ensures { Puts out.old at (line_of tile.0 entries.now) out.new result }
{
    let named = put_field(b"tile ", tile.0, out, at);
    let parted = put_text(b":", out, named);
    let listed = put_entries(entries, out, parted);
    put_text(b"\n", out, listed)
}

// The line of a tile of a sound pool, and nothing where its list is empty. `list` has room for it.
fn put_tile(
    pool: &[u32],
    lists: Lists,
    tile: Tile,
    list: &mut [u32],
    out: &mut [u8],
    at: usize,
) -> usize
    requires among { Among (layout_for lists.layout) pool.now lists.tiles tile.0 }
    requires tile_in_bounds { length (list_of (layout_for lists.layout) lists.tiles pool.now tile.0) ≤ length list.old }
    requires tile_in_bounds_2 { at + length (tile_line tile.0 (list_of (layout_for lists.layout) lists.tiles pool.now tile.0)) ≤ length out.old }
    ensures { Puts out.old at (tile_line tile.0 (list_of (layout_for lists.layout) lists.tiles pool.now tile.0)) out.new result }
{
    let count = frame::put_list(pool, lists, tile, list, 0);
    if count == 0 {
        return at;
    }
    put_line(tile, &list[..count], out, at)
}

// The lines of all tiles of a sound pool with that header, which stays beside the pool as in `calls`. `list` has room for that of any tile.
fn put_tiles(pool: &[u32], header: Header, list: &mut [u32], out: &mut [u8], at: usize) -> usize
    requires sound { Sound (layout_of pool.now) pool.now }
    requires header_of { HeaderOf (layout_of pool.now) pool.now header }
    requires pool_in_bounds { length pool.now ≤ length list.old }
    requires pool_in_bounds_2 { at + length (tile_lines pool.now (tiles_of pool.now)) ≤ length out.old }
    ensures { Puts out.old at (tile_lines pool.now (tiles_of pool.now)) out.new result }
{
    let all = wide(header.tiles);
    let lists = Lists {
        layout: header.layout,
        tiles: all,
    };
    let mut next = at;
    for t in 0..header.tiles {
        next = put_tile(pool, lists, Tile(t), list, out, next);
    }
    next
}

// The whole listing of a sound pool with that header, at the start of the buffer.
pub fn put_listing(pool: &[u32], header: Header, list: &mut [u32], out: &mut [u8]) -> usize
    requires sound { Sound (layout_of pool.now) pool.now }
    requires header_of { HeaderOf (layout_of pool.now) pool.now header }
    requires pool_in_bounds { length pool.now ≤ length list.old }
    requires pool_in_bounds_2 { length (listing pool.now) ≤ length out.old }
    ensures { Puts out.old 0 (listing pool.now) out.new result }
{
    let at = put_screen(header.grid, header.blocks, pool[4], out, 0);
    put_tiles(pool, header, list, out, at)
}
