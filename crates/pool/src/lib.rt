#![tactic(auto)]
// The pool: a lent slice of words with a header, a table of tiles and blocks, and its opening. `specs/` says what a pool says and when it is sound.
ghost use Rattle.std.specs.Prelude.{◌≡◌, suc, ◌+◌, ◌*◌, ◌<◌, ◌≤◌, length, replicate};
ghost use Rattle.numbers.specs.Refusal.{number_in};
ghost use Rattle.screen.specs.Screen.{tiles};
ghost use Rattle.pool.specs.Words.{edition, second, Known, start, room};
ghost use Rattle.pool.specs.State.{link_to};
ghost use Rattle.pool.specs.Opening.{rising, header_rest, header_for, free_block, free_blocks, opening, OpenSays};
ghost use Rattle.pool.specs.Written.{written};
ghost use Rattle.pool.specs.Editions.{layout_for, Sized};

use numbers::{Refusal, narrow, wide};
use screen::{Block, Grid, Screen};

mod edition;

pub use edition::{Edition, TILE_WORDS};

// Ids are below this; and entries, which are ids with their flags, below twice as much.
pub const ID_LIMIT: u32 = 16777216;

pub const ENTRY_LIMIT: u32 = 33554432;

// What stands where no entry is.
pub const POISON: u32 = 0xDEADBEEF;

pub const MOST_BLOCKS: u32 = 2048;

// The same word in `count` places. The count stays beside the pool: what is promised is said of all its words.
fn fill(pool: &mut [u32], from: usize, count: usize, word: u32)
    requires { from + count ≤ length pool.old }
    ensures { pool.new ≡ written pool.old from (replicate count word) }
{
    pool[from..from + count].fill(word);
}

// The link to the first of `count` blocks in rising order from a block on, or 0 where there are none.
fn rising_link(block: Block, count: u32) -> u32
    requires { block.0 ≤ 2048 }
    ensures { result ≡ link_to (rising block.0 count) }
{
    if count == 0 { 0 } else { block.0 + 1 }
}

// What the header has after eight words.
fn write_rest(pool: &mut [u32], layout: Edition)
    requires { (Sized (layout_for layout)) × (layout.header ≤ length pool.old) }
    ensures { pool.new ≡ written pool.old 8 (header_rest (layout_for layout)) }
{
    if layout.header == 8 {
        return;
    }
    pool[8] = narrow(layout.ids + 1);
    pool[9] = 0;
}

// The header of a pool in which every block is free, with its blocks from a place on.
fn write_header(pool: &mut [u32], layout: Edition, grid: Grid, blocks: u32, from: usize)
    requires { (Sized (layout_for layout)) × (layout.header ≤ length pool.old) × (from ≡ start (layout_for layout) (tiles grid.screen)) }
    ensures { pool.new ≡ written pool.old 0 (header_for (layout_for layout) grid.screen blocks) }
{
    let Screen { width, height, s } = grid.screen;
    pool[0] = width;
    pool[1] = height;
    pool[2] = s;
    pool[3] = blocks;
    pool[4] = blocks;
    pool[5] = rising_link(Block(0), blocks);
    pool[6] = narrow(layout.header);
    pool[7] = narrow(from);
    write_rest(pool, layout);
}

// A free block, which `following` blocks follow, at a place of the pool.
fn free_block(pool: &mut [u32], layout: Edition, at: usize, block: Block, following: u32)
    requires { (at + suc layout.ids ≤ length pool.old) × (block.0 < 2048) }
    ensures { pool.new ≡ written pool.old at (free_block (layout_for layout) block.0 following) }
{
    pool[at + layout.ids] = rising_link(Block(block.0 + 1), following);
    fill(pool, at, layout.ids, POISON);
}

// All blocks free, in rising order.
fn free_blocks(pool: &mut [u32], layout: Edition, from: usize, blocks: u32)
    requires { (blocks ≤ 2048) × (from + suc layout.ids * blocks ≤ length pool.old) }
    ensures { pool.new ≡ written pool.old from (free_blocks (layout_for layout) 0 blocks) }
{
    for b in 0..blocks {
        let k = wide(b);
        let at = from + layout.ids * k + k;
        free_block(pool, layout, at, Block(b), blocks - (b + 1));
    }
}

// The same. The ids in a block are a constant either way.
fn write_blocks(pool: &mut [u32], layout: Edition, from: usize, blocks: u32)
    requires { (Sized (layout_for layout)) × (blocks ≤ 2048) × (from + suc layout.ids * blocks ≤ length pool.old) }
    ensures { pool.new ≡ written pool.old from (free_blocks (layout_for layout) 0 blocks) }
{
    let header = layout.header;
    if layout.ids == 31 {
        free_blocks(pool, Edition { header, ids: 31 }, from, blocks);
    } else {
        free_blocks(pool, Edition { header, ids: 63 }, from, blocks);
    }
}

// The words of an accepted opening, in a slice with room for them.
fn write_opening(pool: &mut [u32], layout: Edition, grid: Grid, blocks: u32)
    requires { (Known (layout_for layout)) × (blocks ≤ 2048) × (room (layout_for layout) (tiles grid.screen) blocks ≤ length pool.old) }
    ensures { pool.new ≡ opening (layout_for layout) grid.screen blocks pool.old }
{
    let count = wide(grid.tiles());
    let from = layout.start(count);
    write_header(pool, layout, grid, blocks, from);
    fill(pool, layout.header, TILE_WORDS * count, 0);
    write_blocks(pool, layout, from, blocks);
}

// Opens a pool of a layout that there is, and answers as `open` does.
fn open_as(pool: &mut [u32], layout: Edition, screen: Screen, blocks: u32) -> Result<(), Refusal>
    requires { Known (layout_for layout) }
    ensures { OpenSays (layout_for layout) pool.old screen blocks (number_in result) pool.new }
{
    if !screen::allowed(screen) {
        return Err(Refusal::Screen);
    }
    if MOST_BLOCKS < blocks {
        return Err(Refusal::Blocks);
    }
    let grid = Grid { screen };
    if pool.len() < layout.room(wide(grid.tiles()), wide(blocks)) {
        return Err(Refusal::ShortPool);
    }
    write_opening(pool, layout, grid, blocks);
    Ok(())
}

// Opens a pool of the first edition for a screen, with so many blocks: all tiles empty, all blocks free. Refuses a screen that is not allowed, too many
// blocks and a slice that is too short, in that order, and then changes nothing.
pub fn open(pool: &mut [u32], screen: Screen, blocks: u32) -> Result<(), Refusal>
    ensures { OpenSays edition pool.old screen blocks (number_in result) pool.new }
{
    open_as(pool, Edition::ONE, screen, blocks)
}

// The same of the second edition, with blocks of `size` words: a size that is neither 32 nor 64 is refused as too many blocks are.
pub fn open_two(pool: &mut [u32], screen: Screen, blocks: u32, size: u32) -> Result<(), Refusal>
    ensures { OpenSays (second size) pool.old screen blocks (number_in result) pool.new }
{
    match size {
        32 => open_as(pool, Edition::TWO_32, screen, blocks),
        64 => open_as(pool, Edition::TWO_64, screen, blocks),
        _ if screen::allowed(screen) => Err(Refusal::Blocks),
        _ => Err(Refusal::Screen),
    }
}
