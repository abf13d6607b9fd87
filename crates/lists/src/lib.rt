#![tactic(auto)]
// The lists of a sound pool: the blocks that a list of tiles needs, an append to one tile or to several, a release, and the entry at a place.
// Each contract says the words that are left, whole; what they mean for the lists is in specs/Promises. What is asked speaks of the pool and of a tile or a
// block together, so that no type can say it: no value holds the pool while it is lent to be written.
ghost use Rattle.std.specs.Prelude.{◌≡◌, [], ◌∷◌, ◌+◌, ◌*◌, ◌^◌, ◌≤◌, ◌<◌, suc, length, get_or};
ghost use Rattle.numbers.specs.Ceil.{ceil};
ghost use Rattle.numbers.specs.Flag.{plains};
ghost use Rattle.pool.specs.Words.{start, header_word, tile_word, block_word};
ghost use Rattle.pool.specs.Editions.{layout_for, Sized};
ghost use Rattle.pool.specs.Sound.{Sound};
ghost use Rattle.pool.specs.Lists.{list_of};
ghost use Rattle.lists.specs.Appending.{need, append, counted, append_in, take_head, take_block, append_named};
ghost use Rattle.lists.specs.Releasing.{fill, give_block, release};
ghost use Rattle.lists.specs.Reach.{TileIn, BlockIn, Among, AllAmong, Appendable, Roomy, Takeable, Givable};

use numbers::{flagged, is_flagged, plain, wide};
use pool::{Edition, POISON, TILE_WORDS};
use screen::{Block, Tile};

// The words of the header that change: free blocks, and the first of them + 1.
const FREE: usize = 4;

const FIRST_FREE: usize = 5;

// The words of a tile: entries, first block + 1, last block + 1, mark.
const ENTRIES: usize = 0;

const FIRST: usize = 1;

const LAST: usize = 2;

const MARK: usize = 3;

// The lists of a pool of that layout and so many tiles.
#[derive(Clone, Copy)]
pub struct Lists {
    pub layout: Edition,
    pub tiles: usize,
}

impl Lists {
    // Where word i of a tile stands.
    fn tile_index(self, tile: Tile, i: usize) -> usize
        requires { (layout_for self.layout).header + (layout_for self.layout).tile * tile.0 + i < 2 ^ 64 }
        ensures { result ≡ (layout_for self.layout).header + (layout_for self.layout).tile * tile.0 + i }
    {
        self.layout.header + TILE_WORDS * wide(tile.0) + i
    }

    // Where word k of a block stands.
    pub fn block_index(self, block: Block, k: usize) -> usize
        requires { start (layout_for self.layout) self.tiles + suc (layout_for self.layout).ids * block.0 + k < 2 ^ 64 }
        ensures { result ≡ start (layout_for self.layout) self.tiles + suc (layout_for self.layout).ids * block.0 + k }
    {
        let b = wide(block.0);
        self.layout.header + TILE_WORDS * self.tiles + self.layout.ids * b + b + k
    }

    // Word i of a tile. It has its function beside `block_word`, since a tile and a block have places of their own.
    fn tile_word(self, pool: &[u32], tile: Tile, i: usize) -> u32
        requires { TileIn (layout_for self.layout) pool.now tile.0 i }
        ensures { result ≡ tile_word (layout_for self.layout) pool.now tile.0 i }
    {
        pool[self.tile_index(tile, i)]
    }

    // Word k of a block.
    pub fn block_word(self, pool: &[u32], block: Block, k: usize) -> u32
        requires { BlockIn (layout_for self.layout) self.tiles pool.now block.0 k }
        ensures { result ≡ block_word (layout_for self.layout) self.tiles pool.now block.0 k }
    {
        pool[self.block_index(block, k)]
    }

    // How many blocks are free.
    pub fn free(self, pool: &[u32]) -> u32
        requires { (Sound (layout_for self.layout) pool.now) × Sized (layout_for self.layout) }
        ensures { result ≡ header_word pool.now 4 }
    {
        pool[FREE]
    }

    // How many entries a tile's list has. This word of a tile, the next and the mark have a function each, since what each promises is its own.
    pub fn entries(self, pool: &[u32], tile: Tile) -> u32
        requires { Among (layout_for self.layout) pool.now self.tiles tile.0 }
        ensures word { result ≡ tile_word (layout_for self.layout) pool.now tile.0 0 }
        ensures list { result ≡ length (list_of (layout_for self.layout) self.tiles pool.now tile.0) }
    {
        self.tile_word(pool, tile, ENTRIES)
    }

    // The link to the first block of a tile, 0 where its list is empty. A link stays a number: it is compared with words of the pool, and written back.
    pub fn first(self, pool: &[u32], tile: Tile) -> u32
        requires { Among (layout_for self.layout) pool.now self.tiles tile.0 }
        ensures { result ≡ tile_word (layout_for self.layout) pool.now tile.0 1 }
    {
        self.tile_word(pool, tile, FIRST)
    }

    // The most entries that a tile's list had since the opening.
    pub fn mark(self, pool: &[u32], tile: Tile) -> u32
        requires { Among (layout_for self.layout) pool.now self.tiles tile.0 }
        ensures { result ≡ tile_word (layout_for self.layout) pool.now tile.0 3 }
    {
        self.tile_word(pool, tile, MARK)
    }

    // How many blocks an entry more in each of the named tiles takes. A name is the number of a tile, with a flag or without.
    pub fn need(self, pool: &[u32], named: &[u32]) -> usize
        requires { AllAmong (layout_for self.layout) pool.now self.tiles (plains named.now) }
        ensures { result ≡ need (layout_for self.layout) pool.now (plains named.now) }
    {
        let mut blocks = 0;
        for word in named {
            let entries = self.tile_word(pool, Tile(plain(*word)), ENTRIES);
            if self.layout.remainder(wide(entries)) == 0 {
                blocks += 1;
            }
        }
        blocks
    }

    // A tile has so many entries, and its mark is what it was or, where that is greater, so many.
    fn set_entries(self, pool: &mut [u32], tile: Tile, entries: u32)
        requires { TileIn (layout_for self.layout) pool.old tile.0 3 }
        ensures { pool.new ≡ counted (layout_for self.layout) pool.old tile.0 entries }
    {
        let mark = self.tile_word(pool, tile, MARK);
        pool[self.tile_index(tile, MARK)] = mark.max(entries);
        pool[self.tile_index(tile, ENTRIES)] = entries;
    }

    // One entry more in the last block of a tile, which has room.
    fn put_in_last(self, pool: &mut [u32], tile: Tile, entry: u32)
        requires { Roomy (layout_for self.layout) pool.old self.tiles tile.0 }
        ensures { pool.new ≡ append_in (layout_for self.layout) self.tiles pool.old tile.0 entry }
    {
        let entries = self.tile_word(pool, tile, ENTRIES);
        let last = self.tile_word(pool, tile, LAST);
        pool[self.block_index(Block(last - 1), self.layout.remainder(wide(entries)))] = entry;
        self.set_entries(pool, tile, entries + 1);
    }

    // A block, the head of the free chain, leaves it.
    fn take_head(self, pool: &mut [u32], block: Block)
        requires { BlockIn (layout_for self.layout) self.tiles pool.old block.0 (layout_for self.layout).ids × (0 < header_word pool.old 4) × Sized (layout_for self.layout) }
        ensures { pool.new ≡ take_head (layout_for self.layout) self.tiles pool.old block.0 }
    {
        let link = self.block_index(block, self.layout.ids);
        let free = pool[FREE];
        pool[FIRST_FREE] = pool[link];
        pool[FREE] = free - 1;
        pool[link] = 0;
    }

    // The head of the free chain is taken for a tile, with one entry in it.
    fn take_block(self, pool: &mut [u32], tile: Tile, block: Block, entry: u32)
        requires { Takeable (layout_for self.layout) pool.old self.tiles tile.0 block.0 }
        ensures { pool.new ≡ take_block (layout_for self.layout) self.tiles pool.old tile.0 block.0 entry }
    {
        let entries = self.tile_word(pool, tile, ENTRIES);
        self.take_head(pool, block);
        pool[self.block_index(block, 0)] = entry;
        pool[self.tile_index(tile, LAST)] = block.0 + 1;
        self.set_entries(pool, tile, entries + 1);
    }

    // One entry more at the end of a tile's list, where there is a free block if it takes one.
    pub fn append(self, pool: &mut [u32], tile: Tile, entry: u32)
        requires among { Among (layout_for self.layout) pool.old self.tiles tile.0 }
        requires tile_bound { need (layout_for self.layout) pool.old (tile.0 ∷ []) ≤ header_word pool.old 4 }
        ensures { pool.new ≡ append (layout_for self.layout) self.tiles pool.old tile.0 entry }
    {
        let entries = self.tile_word(pool, tile, ENTRIES);
        if self.layout.remainder(wide(entries)) != 0 {
            self.put_in_last(pool, tile, entry);
            return;
        }
        let head = pool[FIRST_FREE];
        let last = self.tile_word(pool, tile, LAST);
        self.take_block(pool, tile, Block(head - 1), entry);
        if entries == 0 {
            pool[self.tile_index(tile, FIRST)] = head;
        } else {
            pool[self.block_index(Block(last - 1), self.layout.ids)] = head;
        }
    }

    // One entry more at the end of the list of each of the named tiles, the id with the flag of the name, where there are as many free blocks as that needs.
    pub fn append_all(self, pool: &mut [u32], named: &[u32], id: u32)
        requires { Appendable (layout_for self.layout) pool.old self.tiles (plains named.now) id }
        ensures { pool.new ≡ append_named (layout_for self.layout) self.tiles pool.old named.now id }
    {
        for word in named {
            let entry = flagged(id, is_flagged(*word));
            self.append(pool, Tile(plain(*word)), entry);
        }
    }

    // Poison in the first `count` places of a block. The count is a constant, and stays beside the pool: what is promised is said of all its words.
    fn poison_first(self, pool: &mut [u32], block: Block, count: usize)
        requires { BlockIn (layout_for self.layout) self.tiles pool.old block.0 count }
        ensures { pool.new ≡ fill (layout_for self.layout) self.tiles pool.old block.0 count }
    {
        let from = self.block_index(block, 0);
        pool[from..from + count].fill(POISON);
    }

    // Poison in all of them. Both counts are constants.
    fn poison(self, pool: &mut [u32], block: Block)
        requires { BlockIn (layout_for self.layout) self.tiles pool.old block.0 (layout_for self.layout).ids × Sized (layout_for self.layout) }
        ensures { pool.new ≡ fill (layout_for self.layout) self.tiles pool.old block.0 (layout_for self.layout).ids }
    {
        if self.layout.ids == 31 {
            self.poison_first(pool, block, 31);
        } else {
            self.poison_first(pool, block, 63);
        }
    }

    // A block is poisoned and made the head of the free chain.
    fn give_block(self, pool: &mut [u32], block: Block)
        requires { Givable (layout_for self.layout) pool.old self.tiles block.0 }
        ensures { pool.new ≡ give_block (layout_for self.layout) self.tiles pool.old block.0 }
    {
        let head = pool[FIRST_FREE];
        let free = pool[FREE];
        self.poison(pool, block);
        pool[self.block_index(block, self.layout.ids)] = head;
        pool[FIRST_FREE] = block.0 + 1;
        pool[FREE] = free + 1;
    }

    // A tile's blocks go back to the free chain, in the order of its chain; the tile is empty and keeps its mark. Answers how many blocks these were.
    pub fn release(self, pool: &mut [u32], tile: Tile) -> u32
        requires { Among (layout_for self.layout) pool.old self.tiles tile.0 }
        ensures words { pool.new ≡ release (layout_for self.layout) self.tiles pool.old tile.0 }
        ensures given { result ≡ ceil (tile_word (layout_for self.layout) pool.old tile.0 0) (layout_for self.layout).ids }
    {
        let mut link = self.tile_word(pool, tile, FIRST);
        let mut given: u32 = 0;
        // A `while`: it follows a chain.
        while link != 0 {
            let block = Block(link - 1);
            link = self.block_word(pool, block, self.layout.ids);
            self.give_block(pool, block);
            given += 1;
        }
        pool[self.tile_index(tile, ENTRIES)] = 0;
        pool[self.tile_index(tile, FIRST)] = 0;
        pool[self.tile_index(tile, LAST)] = 0;
        given
    }

    // The entry at a place of a tile's list, places counted from 0. It passes from block to block, not from entry to entry.
    pub fn entry_at(self, pool: &[u32], tile: Tile, place: u32) -> u32
        requires among { Among (layout_for self.layout) pool.now self.tiles tile.0 }
        requires place_bound { place < tile_word (layout_for self.layout) pool.now tile.0 0 }
        ensures { result ≡ get_or (list_of (layout_for self.layout) self.tiles pool.now tile.0) place 0 }
    {
        let mut link = self.tile_word(pool, tile, FIRST);
        let mut left = wide(place);
        // A `while`: it follows a chain.
        while self.layout.ids <= left {
            link = self.block_word(pool, Block(link - 1), self.layout.ids);
            left -= self.layout.ids;
        }
        self.block_word(pool, Block(link - 1), left)
    }
}
