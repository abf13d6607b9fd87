#![tactic(auto)]
// The map of the tiles that a shape touches, found by quarters: a square of tiles that is touched is split into four until single tiles are reached. One that
// is not touched, or is off the grid, is left out, and one that the shape covers wholly is filled without another test.
ghost use Rattle.std.specs.Prelude.{◌≡◌, ℕ, ◌+◌, ◌*◌, ◌^◌, ◌≤◌, ◌<◌, length};
ghost use Rattle.numbers.specs.Refusal.{number_in};
ghost use Rattle.screen.specs.Screen.{columns, rows, tiles};
ghost use Rattle.shape.specs.Shape.{InRange};
ghost use Rattle.walk.specs.Row.{outlined};
ghost use Rattle.quarters.specs.Square.{InSquare, StartsOnGrid, past_of, square_rectangle, SquareSays, InwardOn};
ghost use Rattle.quarters.specs.Square.{beside_of, first_quarter, TouchedInFirst, Small, Smallest, HoldsGrid};
ghost use Rattle.quarters.specs.Map.{Mapped, MapSays, BytesSet, RowSet, WithOnes};

use numbers::{Refusal, wide};
use screen::{Grid, Rectangle, Screen};
use shape::Shape;
use touch::{Cover, Figure, Inward, Looked};

// A square of 2^exponent by 2^exponent tiles, by the column and the row of its first. What is asked of it is asked by clauses: definitions make squares of any
// numbers.
#[derive(Clone, Copy)]
struct Square {
    column: u32,
    row: u32,
    exponent: u32,
}

impl Square {
    // The side, in tiles.
    fn side(self) -> u32
        requires { self.exponent ≤ 9 }
        ensures { (result ≡ 2 ^ self.exponent) × (result ≤ 512) }
    {
        1 << self.exponent
    }

    // Of n tiles along an axis, one past the last of a side from k on.
    fn past(self, n: u32, k: u32) -> u32
        requires { (k ≤ 512) × (self.exponent ≤ 9) }
        ensures { result ≡ past_of n k self.exponent }
    {
        let past = k + self.side();
        past.min(n)
    }

    // The rectangle of the tiles that are on the grid.
    fn rectangle(self, grid: Grid) -> Rectangle
        requires { (StartsOnGrid grid.screen self) × (self.exponent ≤ 9) }
        ensures { result ≡ square_rectangle grid.screen self }
    {
        let columns = self.past(grid.columns(), self.column);
        let rows = self.past(grid.rows(), self.row);
        Rectangle {
            left: grid.left(self.column),
            right: grid.right(columns - 1),
            top: grid.top(self.row),
            bottom: grid.bottom(rows - 1),
        }
    }

    // How the figure covers the tiles that are on the grid, taken as one; apart where there are none. Edges that are known to have the square on their inner
    // side are not looked at.
    fn look(self, grid: Grid, figure: Figure, known: Inward) -> Looked
        requires small { self.exponent ≤ 9 }
        requires inward_on { InwardOn known grid.screen figure.edges self }
        ensures cover { SquareSays result.cover grid.screen (outlined figure.edges) self }
        ensures inward { InwardOn result.inward grid.screen figure.edges self }
    {
        if (grid.columns() <= self.column) | (grid.rows() <= self.row) {
            return Looked {
                cover: Cover::Apart,
                inward: known,
            };
        }
        figure.look(known, self.rectangle(grid))
    }

    // Writes 1 for each tile of the square in a row, and no other byte.
    fn set_row(self, grid: Grid, row: u32, map: &mut [u8])
        requires { (Small self) × (row < rows grid.screen) × (tiles grid.screen ≤ length map.old) }
        ensures { RowSet grid.screen self row map.old map.new }
    {
        let columns = grid.columns();
        let start = self.column;
        let end = self.past(columns, start);
        let base = row * columns;
        set_bytes(map, wide(base + start), wide(base + end), 1);
    }

    // Writes 1 for each tile that is on the grid, and no other byte.
    fn set_tiles(self, grid: Grid, map: &mut [u8])
        requires { (Small self) × (tiles grid.screen ≤ length map.old) }
        ensures { WithOnes (InSquare grid.screen self) map.old map.new }
    {
        for row in self.row..self.past(grid.rows(), self.row) {
            self.set_row(grid, row, map);
        }
    }

    // Square k of four squares of one side, of which this is the first: 0 and 1 above, from the left, 2 and 3 below.
    fn beside(self, k: u32) -> Square
        requires { (Small (beside_of self k)) × (k < 4) }
        ensures { result ≡ beside_of self k }
    {
        let side = self.side();
        Square {
            column: self.column + k % 2 * side,
            row: self.row + k / 2 * side,
            exponent: self.exponent,
        }
    }

    // The first quarter.
    fn first_quarter(self) -> Square
        requires { 0 < self.exponent }
        ensures { result ≡ first_quarter self }
    {
        Square {
            exponent: self.exponent - 1,
            ..self
        }
    }
}

// Sets the bytes from start on and before end to a value; none where the end is not past the start.
fn set_bytes(map: &mut [u8], start: usize, end: usize, value: u8)
    requires { end ≤ length map.old }
    ensures { BytesSet value start end map.old map.new }
{
    // By index: std's `fill` writes the last byte by itself, and a map that is filled row by row then takes a quarter longer.
    for i in start..end {
        map[i] = value;
    }
}

// Writes 1 for each tile that the figure touches of so many of the four squares of which this is the first, and no other byte. Edges that are known to have all
// these squares on their inner side are not looked at. A call takes so many squares, and not one, for speed, and is lent the figure: a copy of it would be a call
// of memcpy, of which the archive has none.
fn fill_squares(
    grid: Grid,
    figure: &Figure,
    known: Inward,
    first: Square,
    count: u32,
    map: &mut [u8],
)
    requires allowed { (count ≤ 4) × (tiles grid.screen ≤ length map.old) }
    requires by_index { (k : ℕ) → k < count → Small (beside_of first k) × InwardOn known grid.screen figure.now.edges (beside_of first k) }
    ensures { WithOnes (TouchedInFirst grid.screen (outlined figure.now.edges) first count) map.old map.new }
{
    for k in 0..count {
        let square = first.beside(k);
        let looked = square.look(grid, *figure, known);
        let cover = looked.cover;
        if cover.is_touched() {
            if cover.is_whole() | (square.exponent == 0) {
                square.set_tiles(grid, map);
            } else {
                fill_squares(grid, figure, looked.inward, square.first_quarter(), 4, map);
            }
        }
    }
}

// The exponent of the smallest power of two that is no less than m and n.
fn exponent_of(m: u32, n: u32) -> u32
    requires { (m ≤ 512) × (n ≤ 512) }
    ensures { (Smallest m n result) × (result ≤ 9) }
{
    let most = m.max(n);
    most.next_power_of_two().ilog2()
}

// The smallest square that holds the grid.
fn square_of(grid: Grid) -> Square
    ensures { HoldsGrid grid.screen result }
{
    Square {
        column: 0,
        row: 0,
        exponent: exponent_of(grid.columns(), grid.rows()),
    }
}

// Writes the map of a shape: a byte for each tile, 1 where the shape touches it and 0 elsewhere. Bytes past the tiles stay.
fn map_touched(grid: Grid, shape: Shape, map: &mut [u8])
    requires { (InRange shape) × (tiles grid.screen ≤ length map.old) }
    ensures { Mapped grid.screen shape map.old map.new }
{
    set_bytes(map, 0, wide(grid.tiles()), 0);
    let known = Inward {
        ab: false,
        bc: false,
        ca: false,
    };
    let figure = touch::figure_of(touch::three_of(shape));
    fill_squares(grid, &figure, known, square_of(grid), 1, map);
}

// Writes the map of a whole-number shape. It is refused for the screen, for the shape, and for a map with fewer bytes than the screen has tiles, in that order,
// with no byte written.
pub fn map(screen: Screen, shape: Shape, map: &mut [u8]) -> Result<(), Refusal>
    ensures { MapSays screen shape map.old (number_in result) map.new }
{
    if !screen::allowed(screen) {
        return Err(Refusal::Screen);
    }
    if !shape::in_range(shape) {
        return Err(Refusal::OutOfRange);
    }
    let grid = Grid { screen };
    if map.len() < wide(grid.tiles()) {
        return Err(Refusal::ShortSlice);
    }
    map_touched(grid, shape, map);
    Ok(())
}
