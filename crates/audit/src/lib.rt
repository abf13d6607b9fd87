#![tactic(auto)]
// The audit of a pool: whether a slice of words is a sound pool, for any words and any length. It asks nothing of its caller and changes nothing.
// Each block is marked as it is met, and no chain is followed past a marked block: the time is linear in the room, whatever the words are. These marks are
// bytes on the stack; the mark of a tile is one of its words. The header goes beside the pool and not with it in one type: what is promised is said of any words
// and of a header's numbers.
ghost use Rattle.std.specs.Prelude.{◌≡◌, true, ℕ, ◌+◌, ◌^◌, ◌<◌, ◌≤◌, length, get_or};
ghost use Rattle.numbers.specs.Says.{Says};
ghost use Rattle.pool.specs.Words.{is_edition, edition, layout_of};
ghost use Rattle.pool.specs.Editions.{layout_for};
ghost use Rattle.pool.specs.State.{times};
ghost use Rattle.pool.specs.Sound.{screen_of, Opened};
ghost use Rattle.audit.specs.Chain.{Places, poison_in, times_in_first};
ghost use Rattle.audit.specs.Walk.{block_start, tile_start, block_word_from, WalkSays, Passes, chain_of, MarkRight, TileRight, TilesRight, ChainsRight};
ghost use Rattle.audit.specs.Answer.{HeaderOf, RestRight, Finds, AuditFinds};

use numbers::wide;
use pool::{ENTRY_LIMIT, Edition, MOST_BLOCKS, POISON, TILE_WORDS};
use screen::{Block, Grid, Screen, Tile};

mod header;

pub use header::Header;

// Whether all words are entries. All of them are looked at: without an early end the loop is compiled to vectors.
fn all_entries(words: &[u32]) -> bool
    ensures { Says result ((j : ℕ) → j < length words.now → get_or words.now j 0 < edition.limit) }
{
    let mut all = true;
    for word in words {
        all = all & (*word < ENTRY_LIMIT);
    }
    all
}

// How many words are poison, likewise. The count has 32 bits, as a word has, so that one vector holds as many of both.
fn poison_in(words: &[u32]) -> u32
    requires { length words.now < 2 ^ 32 }
    ensures { result ≡ poison_in edition (λ j. get_or words.now j 0) (length words.now) }
{
    let mut found: u32 = 0;
    for word in words {
        found += (*word == POISON) as u32;
    }
    found
}

// Where a block starts. Both sizes are constants, so that it is a shift: along a chain each link waits for it.
fn block_at(header: Header, block: Block) -> usize
    requires { block_start (layout_for header.layout) header.start (block.0 + 1) < 2 ^ 64 }
    ensures { result ≡ block_start (layout_for header.layout) header.start block.0 }
{
    let b = wide(block.0);
    if header.layout.ids == 31 {
        header.start + 32 * b
    } else {
        header.start + 64 * b
    }
}

// Whether the places of a block hold k entries, and then poison: the first k hold entries, and as many hold poison as are left, if any are. The count is over
// the whole block, less its link: 32 words are a whole number of vectors, and 31 are not.
fn block_right(pool: &[u32], header: Header, block: Block, k: usize) -> bool
    requires { (block_start (layout_for header.layout) header.start (block.0 + 1) ≤ length pool.now) × (k ≤ header.layout.ids) }
    ensures { Says result (Places (layout_for header.layout) (block_word_from (layout_for header.layout) pool.now header.start block.0) k) }
{
    let at = block_at(header, block);
    let ids = header.layout.ids;
    if k < ids {
        let link = (pool[at + ids] == POISON) as u32;
        if wide(poison_in(&pool[at..at + (ids + 1)]) - link) != ids - k {
            return false;
        }
    }
    all_entries(&pool[at..at + k])
}

// The link of a block.
fn link_of(pool: &[u32], header: Header, block: Block) -> u32
    requires { block_start (layout_for header.layout) header.start (block.0 + 1) ≤ length pool.now }
    ensures { result ≡ block_word_from (layout_for header.layout) pool.now header.start block.0 header.layout.ids }
{
    pool[block_at(header, block) + header.layout.ids]
}

// Walks `left` blocks from `link` on, which hold q entries, and marks each. Answers the link that named the last block, 0 where there is none; or nothing
// where they are no chain. It stops at a block that is marked already. 0 and no second
// Option: it is compared with the word of the tile, which has 0 for none.
fn walk(
    pool: &[u32],
    marks: &mut [u8],
    header: Header,
    mut link: u32,
    mut q: usize,
    mut left: usize,
) -> Option<u32>
    requires { (block_start (layout_for header.layout) header.start header.blocks ≤ length pool.now) × (header.blocks ≤ length marks.old) }
    ensures { WalkSays (layout_for header.layout) pool.now header.start header.blocks link q left marks.old marks.new result }
{
    let mut last = 0;
    // `while`: the loop follows the links of a chain.
    while left > 0 {
        if link == 0 {
            return None;
        }
        if link > header.blocks {
            return None;
        }
        let b = wide(link - 1);
        if marks[b] != 0 {
            return None;
        }
        let k = header.layout.ids.min(q);
        if !block_right(pool, header, Block(link - 1), k) {
            return None;
        }
        marks[b] = 1;
        last = link;
        link = link_of(pool, header, Block(link - 1));
        q -= k;
        left -= 1;
    }
    if link != 0 {
        return None;
    }
    Some(last)
}

// Whether a tile's mark is at least its entries, and at most what all blocks hold.
fn mark_right(pool: &[u32], header: Header, tile: Tile) -> bool
    requires { tile_start (layout_for header.layout) (tile.0 + 1) ≤ length pool.now }
    ensures { Says result (MarkRight (layout_for header.layout) pool.now header.blocks tile.0) }
{
    let at = header.layout.header + TILE_WORDS * wide(tile.0);
    let mark = wide(pool[at + 3]);
    if mark < wide(pool[at]) {
        return false;
    }
    mark <= header.layout.ids * wide(header.blocks)
}

// Whether a tile's mark is right, and it has its chain and names the last block of it. The chain's blocks are marked; an empty tile has none to walk along.
fn tile_right(pool: &[u32], marks: &mut [u8], header: Header, tile: Tile) -> bool
    requires { (block_start (layout_for header.layout) header.start header.blocks ≤ length pool.now)
        × (header.blocks ≤ length marks.old)
        × (tile_start (layout_for header.layout) (tile.0 + 1) ≤ length pool.now) }
    ensures { Passes result (TileRight (layout_for header.layout) pool.now header.start header.blocks tile.0) header.blocks marks.old marks.new
        (λ b. times b (chain_of (layout_for header.layout) pool.now header.start tile.0)) }
{
    if !mark_right(pool, header, tile) {
        return false;
    }
    let at = header.layout.header + TILE_WORDS * wide(tile.0);
    let q = wide(pool[at]);
    if q == 0 {
        return (pool[at + 1] == 0) & (pool[at + 2] == 0);
    }
    let steps = header.layout.blocks_for(q);
    let Some(last) = walk(pool, marks, header, pool[at + 1], q, steps) else {
        return false;
    };
    last == pool[at + 2]
}

// Whether each tile has its chain. All their blocks are marked.
fn tiles_right(pool: &[u32], marks: &mut [u8], header: Header) -> bool
    requires { (block_start (layout_for header.layout) header.start header.blocks ≤ length pool.now)
        × (header.blocks ≤ length marks.old)
        × (tile_start (layout_for header.layout) header.tiles ≤ length pool.now) }
    ensures { Passes result (TilesRight (layout_for header.layout) pool.now header.start header.blocks header.tiles) header.blocks marks.old marks.new
        (λ b. times_in_first b (chain_of (layout_for header.layout) pool.now header.start) header.tiles) }
{
    for t in 0..header.tiles {
        if !tile_right(pool, marks, header, Tile(t)) {
            return false;
        }
    }
    true
}

// Whether all blocks are marked. All marks are looked at, without an early end, likewise.
fn all_marked(marks: &[u8]) -> bool
    ensures { Says result ((b : ℕ) → b < length marks.now → get_or marks.now b 0 ≡ 1) }
{
    let mut all = true;
    for mark in marks {
        all = all & (*mark == 1);
    }
    all
}

// Whether the tiles and the free blocks have their chains, and every block stands in one of them, once.
fn chains_right(pool: &[u32], header: Header) -> bool
    requires { (8 ≤ length pool.now)
        × (block_start (layout_for header.layout) header.start header.blocks ≤ length pool.now)
        × (header.blocks ≤ 2048)
        × (tile_start (layout_for header.layout) header.tiles ≤ length pool.now) }
    ensures { Says result (ChainsRight (layout_for header.layout) pool.now header.start header.blocks header.tiles) }
{
    let mut marks = [0u8; 2048];
    if !tiles_right(pool, &mut marks, header) {
        return false;
    }
    let Some(_) = walk(pool, &mut marks, header, pool[5], 0, wide(pool[4])) else {
        return false;
    };
    all_marked(&marks[..wide(header.blocks)])
}

// The screen that the first words say.
fn screen_of(pool: &[u32]) -> Screen
    requires { 8 ≤ length pool.now }
    ensures { result ≡ screen_of pool.now }
{
    Screen {
        width: pool[0],
        height: pool[1],
        s: pool[2],
    }
}

// The header of a pool whose screen is within the rules.
fn header_of(pool: &[u32], layout: Edition, grid: Grid) -> Header
    requires { (8 ≤ length pool.now) × (grid.screen ≡ screen_of pool.now) × (is_edition layout.header layout.ids ≡ true) }
    ensures { HeaderOf (layout_for layout) pool.now result }
{
    let tiles = grid.tiles();
    Header {
        layout,
        grid,
        tiles,
        blocks: pool[3],
        start: layout.start(wide(tiles)),
    }
}

// Whether words 8 and 9, where the header has them, are the words of a block and 0.
fn rest_right(pool: &[u32], layout: Edition) -> bool
    requires { (is_edition layout.header layout.ids ≡ true) × (layout.header ≤ length pool.now) }
    ensures { Says result (RestRight (layout_for layout) pool.now) }
{
    if layout.header == 8 {
        return true;
    }
    if wide(pool[8]) != layout.ids + 1 {
        return false;
    }
    pool[9] == 0
}

// Whether words 3, 6 and 7 are those of an accepted opening with that header, and 8 and 9 where the header has them; and the slice is long enough.
fn opened(pool: &[u32], header: Header) -> bool
    requires { (header.layout.header ≤ length pool.now) × (HeaderOf (layout_for header.layout) pool.now header) }
    ensures { Says result (Opened (layout_for header.layout) pool.now) }
{
    if MOST_BLOCKS < header.blocks {
        return false;
    }
    if wide(pool[6]) != header.layout.header {
        return false;
    }
    if wide(pool[7]) != header.start {
        return false;
    }
    if !rest_right(pool, header.layout) {
        return false;
    }
    if pool.len() < header.layout.room(wide(header.tiles), wide(header.blocks)) {
        return false;
    }
    true
}

// Whether a slice is a sound pool of a layout, and what its header says if it is.
fn audit_as(pool: &[u32], layout: Edition) -> Option<Header>
    requires { is_edition layout.header layout.ids ≡ true }
    ensures { Finds (layout_for layout) pool.now result }
{
    if pool.len() < layout.header {
        return None;
    }
    let screen = screen_of(pool);
    if !screen::allowed(screen) {
        return None;
    }
    let header = header_of(pool, layout, Grid { screen });
    if !opened(pool, header) {
        return None;
    }
    if !chains_right(pool, header) {
        return None;
    }
    Some(header)
}

// The layout that the words say: word 6 tells the editions apart, and word 8, if there is one, the block sizes.
fn edition_of(pool: &[u32]) -> Edition
    requires { 8 ≤ length pool.now }
    ensures { (is_edition result.header result.ids ≡ true) × (layout_for result ≡ layout_of pool.now) }
{
    let size = pool.get(8).copied().unwrap_or(0);
    match (pool[6], size) {
        (10, 64) => Edition::TWO_64,
        (10, _) => Edition::TWO_32,
        _ => Edition::ONE,
    }
}

// Whether a slice is a sound pool of the layout that its words say, and what its header says if it is.
pub fn audit(pool: &[u32]) -> Option<Header>
    ensures { AuditFinds pool.now result }
{
    if pool.len() < 8 {
        return None;
    }
    audit_as(pool, edition_of(pool))
}
