#![tactic(auto)]
// What the audit tells of a sound pool.
ghost use Rattle.std.specs.Prelude.{◌≡◌, true};
ghost use Rattle.pool.specs.Words.{is_edition};

use pool::Edition;
use screen::Grid;

// What the header of a sound pool says: the layout, which is of an edition that there is, the grid, how many tiles and blocks there are, and where the blocks
// start.
#[derive(Clone, Copy)]
pub struct Header {
    pub layout: Edition,
    pub grid: Grid,
    pub tiles: u32,
    pub blocks: u32,
    pub start: usize,
    pub ghost known: { is_edition layout.header layout.ids ≡ true },
}
