#![tactic(auto)]
// The lists of a sound pool, read as a whole: one tile's, or all of them one after the other, and how many entries they have together. A chain is followed by
// stretches: the entries of a list that stand in one block, side by side.
ghost use Rattle.std.specs.Prelude.{◌≡◌, ◌+◌, ◌-◌, ◌<◌, ◌≤◌, length, take, drop};
ghost use Rattle.pool.specs.Editions.{layout_for, Sized};
ghost use Rattle.pool.specs.Sound.{Sound, tiles_of};
ghost use Rattle.pool.specs.Lists.{list_of};
ghost use Rattle.pool.specs.Written.{written, Puts};
ghost use Rattle.lists.specs.Reach.{BlockIn, Among};
ghost use Rattle.frame.specs.Frame.{lists_of, starts_of, Stretches};

use lists::Lists;
use numbers::{narrow, wide};
use screen::{Block, Tile};

// Where the entries start that stand in one block, how many they are, and the link to the next block, which stays a number as in `lists`.
#[derive(Clone, Copy)]
pub struct Stretch {
    pub at: usize,
    pub count: usize,
    pub link: u32,
}

// Of `left` entries, those in the block that a link names.
pub fn stretch_at(pool: &[u32], lists: Lists, link: u32, left: usize) -> Stretch
    requires { (0 < link) × BlockIn (layout_for lists.layout) lists.tiles pool.now (link - 1) (layout_for lists.layout).ids }
    ensures { Stretches (layout_for lists.layout) lists.tiles pool.now link left result }
{
    let block = Block(link - 1);
    Stretch {
        at: lists.block_index(block, 0),
        count: lists.layout.ids.min(left),
        link: lists.block_word(pool, block, lists.layout.ids),
    }
}

// `count` words, copied from a place of one slice to a place of another, one after the other. By index, for a bar of speed (docs/PERFORMANCE.md, the copy of a
// list): of `copy_from_slice` the compiler makes a test whether the two are apart, and it holds eight words in memory.
fn copy_singly(words: &[u32], from: usize, count: usize, list: &mut [u32], at: usize)
    requires { (from + count ≤ length words.now) × (at + count ≤ length list.old) }
    ensures { list.new ≡ written list.old at (take count (drop from words.now)) }
{
    for k in 0..count {
        list[at + k] = words[from + k];
    }
}

// Eight words, held on the way, where no other write is: the compiler makes two vectors of them.
fn copy_eight(words: &[u32], from: usize, list: &mut [u32], at: usize)
    requires { (from + 8 ≤ length words.now) × (at + 8 ≤ length list.old) }
    ensures { list.new ≡ written list.old at (take 8 (drop from words.now)) }
{
    let mut held = [0u32; 8];
    copy_singly(words, from, 8, &mut held, 0);
    copy_singly(&held, 0, 8, list, at);
}

// The first `count` words of a slice, eight at a time. The last eight end with the last word, and may have words in common with those before, which are then
// written twice.
fn copy(words: &[u32], count: usize, list: &mut [u32], at: usize)
    requires { (count ≤ length words.now) × (at + count ≤ length list.old) }
    ensures { list.new ≡ written list.old at (take count words.now) }
{
    if count < 8 {
        copy_singly(words, 0, count, list, at);
        return;
    }
    let last = count - 8;
    let mut done = 0;
    // A `while`: a `step_by` wants the same measure, and is no plainer. The count stays beside the slice: it may be less, and `copy_stretch` gives a constant.
    while done < count {
        let k = done.min(last);
        copy_eight(words, k, list, at + k);
        done = k + 8;
    }
}

// The same. The count of a full block of 32 words is a constant, so that the loop is unrolled.
fn copy_stretch(words: &[u32], count: usize, list: &mut [u32], at: usize)
    requires { (count ≤ length words.now) × (at + count ≤ length list.old) }
    ensures { list.new ≡ written list.old at (take count words.now) }
{
    if count == 31 {
        copy(words, 31, list, at);
    } else {
        copy(words, count, list, at);
    }
}

// Puts the list of a tile at a place of `list`, and answers the place after it. Its chain is followed once.
pub fn put_list(pool: &[u32], lists: Lists, tile: Tile, list: &mut [u32], at: usize) -> usize
    requires among { Among (layout_for lists.layout) pool.now lists.tiles tile.0 }
    requires tile_in_bounds { at + length (list_of (layout_for lists.layout) lists.tiles pool.now tile.0) ≤ length list.old }
    ensures { Puts list.old at (list_of (layout_for lists.layout) lists.tiles pool.now tile.0) list.new result }
{
    let end = at + wide(lists.entries(pool, tile));
    let mut link = lists.first(pool, tile);
    let mut next = at;
    // A `while`: it follows a chain.
    while next < end {
        let stretch = stretch_at(pool, lists, link, end - next);
        let from = stretch.at;
        copy_stretch(&pool[from..], stretch.count, list, next);
        link = stretch.link;
        next += stretch.count;
    }
    next
}

// How many entries the lists of all tiles have together.
pub fn total_entries(pool: &[u32], lists: Lists) -> u32
    requires { (Sound (layout_for lists.layout) pool.now) × (Sized (layout_for lists.layout)) × (lists.tiles ≡ tiles_of pool.now) }
    ensures { result ≡ length (lists_of (layout_for lists.layout) lists.tiles pool.now lists.tiles) }
{
    let mut total = 0;
    for t in 0..narrow(lists.tiles) {
        total += lists.entries(pool, Tile(t));
    }
    total
}

// Puts the lists of all tiles at the start of `entries`, one after the other, and where each of them starts, and where the last one ends, at that of `starts`.
pub fn put_lists(pool: &[u32], lists: Lists, starts: &mut [u32], entries: &mut [u32])
    requires sound { (Sound (layout_for lists.layout) pool.now) × (Sized (layout_for lists.layout)) × (lists.tiles ≡ tiles_of pool.now) × (lists.tiles < length starts.old) }
    requires tiles_in_bounds { length (lists_of (layout_for lists.layout) lists.tiles pool.now lists.tiles) ≤ length entries.old }
    ensures starts { starts.new ≡ written starts.old 0 (starts_of (layout_for lists.layout) lists.tiles pool.now) }
    ensures entries { entries.new ≡ written entries.old 0 (lists_of (layout_for lists.layout) lists.tiles pool.now lists.tiles) }
{
    let mut next = 0;
    for t in 0..narrow(lists.tiles) {
        starts[wide(t)] = narrow(next);
        next = put_list(pool, lists, Tile(t), entries, next);
    }
    starts[lists.tiles] = narrow(next);
}
