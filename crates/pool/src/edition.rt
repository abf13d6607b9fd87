#![tactic(auto)]
// What differs from one edition of the pool to another, and the sums that go by it.
ghost use Rattle.std.specs.Prelude.{◌≡◌, ◌%◌, ◌^◌, ◌<◌, ◌≤◌};
ghost use Rattle.numbers.specs.Ceil.{ceil};
ghost use Rattle.pool.specs.Words.{start, room};
ghost use Rattle.pool.specs.Editions.{layout_for, Sized};

// A tile has its entries, its first block + 1, its last block + 1 and the most entries since the opening.
pub const TILE_WORDS: usize = 4;

// What differs from one edition to another: the words of the header, and the ids in a block. Numbers and no cases, since most sums go by them; and no fact,
// since `lists` says where the words stand whatever these numbers are. That they are of an edition that there is, the audit's header carries.
#[derive(Clone, Copy)]
pub struct Edition {
    pub header: usize,
    pub ids: usize,
}

impl Edition {
    // The first edition.
    pub const ONE: Edition = Edition { header: 8, ids: 31 };

    // The second, with blocks of 32 words, and with blocks of 64.
    pub const TWO_32: Edition = Edition {
        header: 10,
        ids: 31,
    };

    pub const TWO_64: Edition = Edition {
        header: 10,
        ids: 63,
    };

    // What q leaves by the ids of a block. Both divisors are constants.
    pub fn remainder(self, q: usize) -> usize
        requires { Sized (layout_for self) }
        ensures { result ≡ q % self.ids }
    {
        if self.ids == 31 { q % 31 } else { q % 63 }
    }

    // How many blocks q entries take. Both divisors are constants.
    pub fn blocks_for(self, q: usize) -> usize
        requires { (Sized (layout_for self)) × (q < 2 ^ 32) }
        ensures { result ≡ ceil q self.ids }
    {
        if self.ids == 31 {
            q.div_ceil(31)
        } else {
            q.div_ceil(63)
        }
    }

    // Where the blocks start, after so many tiles.
    pub fn start(self, tiles: usize) -> usize
        requires { (Sized (layout_for self)) × (tiles ≤ 4096) }
        ensures { result ≡ start (layout_for self) tiles }
    {
        self.header + TILE_WORDS * tiles
    }

    // The room that so many tiles and blocks need.
    pub fn room(self, tiles: usize, blocks: usize) -> usize
        requires { (Sized (layout_for self)) × (tiles ≤ 4096) × (blocks ≤ 2048) }
        ensures { result ≡ room (layout_for self) tiles blocks }
    {
        self.start(tiles) + self.ids * blocks + blocks
    }
}
