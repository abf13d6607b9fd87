#![tactic(auto)]
// The screen, its tiles and their numbers, and the one place that knows the closed rectangle of a tile.
ghost use Rattle.std.specs.Prelude.{◌≡◌, pos, negsuc, ◌≤ℤ◌, ℕ, ◌+◌, ◌*◌, ◌/◌, ◌<◌, ◌≤◌};
ghost use Rattle.numbers.specs.Says.{Says};
ghost use Rattle.screen.specs.Screen.{Allowed, across, columns, rows, tiles, column_of, row_of};
ghost use Rattle.numbers.specs.Diff.{up};
ghost use Rattle.screen.specs.Rectangle.{side, near, far, rectangle_at, Meeting};
ghost use Rattle.screen.specs.Held.{held, rounded_down, rounded_up_less_one};

// The number of a tile, and that of a block: a type each, as document 01 has it, so that neither is taken for the other.
#[derive(Clone, Copy)]
pub struct Tile(pub u32);

// The number of a block.
#[derive(Clone, Copy)]
pub struct Block(pub u32);

// A screen of width by height pixels with tiles of 2^s by 2^s pixels.
#[derive(Clone, Copy)]
pub struct Screen {
    pub width: u32,
    pub height: u32,
    pub s: u32,
}

// A screen within the rules: it has a grid of tiles.
#[derive(Clone, Copy)]
pub struct Grid {
    pub screen: Screen,
    pub ghost allowed: { Allowed screen },
}

// A closed rectangle in units: from left to right and from top to bottom, all four sides included. It carries no fact, since definitions make one of any screen.
#[derive(Clone, Copy)]
pub struct Rectangle {
    pub left: i64,
    pub right: i64,
    pub top: i64,
    pub bottom: i64,
}

// Columns, or rows, from start on and before end.
#[derive(Clone, Copy)]
pub struct Span {
    pub start: u32,
    pub end: u32,
}

// Tiles of 2^s pixels along an axis of that many pixels. An axis by itself may have none.
#[derive(Clone, Copy)]
pub struct Axis {
    pub extent: u32,
    pub s: u32,
    pub ghost most_extent: { extent ≤ 4096 },
    pub ghost least_s: { 3 ≤ s },
    pub ghost most_s: { s ≤ 6 },
}

const MOST_PIXELS: u32 = 4096;

const MOST_TILES: u32 = 4096;

const LEAST_S: u32 = 3;

const MOST_S: u32 = 6;

// Whether the screen is within the rules: 1 to 4,096 pixels each way, s from 3 to 6, at most 4,096 tiles.
pub fn allowed(screen: Screen) -> bool
    ensures { Says result (Allowed screen) }
{
    if screen.width < 1 {
        return false;
    }
    if MOST_PIXELS < screen.width {
        return false;
    }
    if screen.height < 1 {
        return false;
    }
    if MOST_PIXELS < screen.height {
        return false;
    }
    if screen.s < LEAST_S {
        return false;
    }
    if MOST_S < screen.s {
        return false;
    }
    if MOST_TILES < tiles_across(screen.width, screen.s) * tiles_across(screen.height, screen.s) {
        return false;
    }
    true
}

// How many tiles of 2^s pixels cover an extent: the quotient, rounded up. By a shift: a `div_ceil` would divide by a variable.
fn tiles_across(extent: u32, s: u32) -> u32
    requires { (extent ≤ 4096) × (3 ≤ s) × (s ≤ 6) }
    ensures { (result ≡ across extent s) × (result ≤ 512) }
{
    (extent + ((1 << s) - 1)) >> s
}

// Where the glass ends along an axis of that extent.
pub fn glass_end(extent: u32) -> u32
    requires { extent ≤ 4096 }
    ensures { result ≡ 16 * extent }
{
    16 * extent
}

// x, and 0 where x is negative.
fn positive(x: i32) -> u32
    ensures { result ≡ up x }
{
    u32::try_from(x).unwrap_or(0)
}

// k, or the last of n tiles where there is no tile k.
fn held_to(n: u32, k: u32) -> u32
    requires { 0 < n }
    ensures { result ≡ held n k }
{
    k.min(n - 1)
}

impl Axis {
    // How many tiles there are.
    fn tiles(self) -> u32
        ensures { (result ≡ across self.extent self.s) × (result ≤ 512) }
    {
        tiles_across(self.extent, self.s)
    }

    // T, the side of a tile in units.
    fn side(self) -> u32
        ensures { (result ≡ side self.s) × (result ≤ 1024) }
    {
        16 << self.s
    }

    // How many whole sides of a tile there are in x units.
    fn sides_in(self, x: u32) -> u32
        ensures { result ≡ x / side self.s }
    {
        x >> (self.s + 4)
    }

    // k sides of a tile, in units.
    fn sides(self, k: u32) -> u32
        requires { k ≤ 512 }
        ensures { (result ≡ k * side self.s) × (result ≤ 524288) }
    {
        k * self.side()
    }

    // Where tile k begins.
    pub fn near(self, k: u32) -> i64
        requires { k < across self.extent self.s }
        ensures { result ≡ near self.extent self.s k }
    {
        self.sides(k) as i64
    }

    // Where tile k ends.
    pub fn far(self, k: u32) -> i64
        requires { k < across self.extent self.s }
        ensures { result ≡ far self.extent self.s k }
    {
        self.sides(k + 1).min(glass_end(self.extent)) as i64
    }

    // The first tile that does not end before m.
    fn first_reaching(self, m: u32) -> u32
        ensures reaches { (k : ℕ) → result ≤ k → m ≤ (k + 1) * side self.s }
        ensures first { (k : ℕ) → m ≤ (k + 1) * side self.s → result ≤ k }
    {
        if m == 0 { 0 } else { self.sides_in(m - 1) }
    }

    // How many of n tiles begin before m.
    fn beginning_before(self, m: u32, n: u32) -> u32
        requires { m ≤ 524288 }
        ensures within { result ≤ n }
        ensures before { (k : ℕ) → k < result → k * side self.s < m }
        ensures all { (k : ℕ) → k < n → k * side self.s < m → k < result }
    {
        self.sides_in(m + (self.side() - 1)).min(n)
    }

    // The tiles that meet the closed interval from low to high.
    pub fn meeting(self, low: i32, high: i32) -> Span
        requires { (negsuc 262143 ≤ℤ high) × (high ≤ℤ pos 262143) }
        ensures { Meeting self.extent self.s low high result }
    {
        let from = positive(low);
        if glass_end(self.extent) < from {
            return Span { start: 0, end: 0 };
        }
        let start = self.first_reaching(from);
        let end = self.beginning_before(positive(high + 1), self.tiles());
        Span { start, end }
    }

    // The tile at x sides, rounded down, held to the tiles, of which there is one.
    pub fn rounded_down(self, x: i32) -> u32
        requires { 1 ≤ self.extent }
        ensures { result ≡ rounded_down self.extent self.s x }
    {
        held_to(self.tiles(), self.sides_in(positive(x)))
    }

    // The tile at x sides, rounded up, less one, held likewise.
    pub fn rounded_up_less_one(self, x: i32) -> u32
        requires { (1 ≤ self.extent) × (x ≤ℤ pos 262143) }
        ensures { result ≡ rounded_up_less_one self.extent self.s x }
    {
        let up = self.sides_in(positive(x) + (self.side() - 1));
        held_to(self.tiles(), up.saturating_sub(1))
    }
}

// The two axes have a function each by name: one with a parameter that says which would be no plainer.
impl Grid {
    // The axis from left to right.
    fn across(self) -> Axis
        ensures { (result.extent ≡ self.screen.width) × (result.s ≡ self.screen.s) }
    {
        let Screen { width, s, .. } = self.screen;
        Axis { extent: width, s }
    }

    // The axis from top to bottom.
    fn down(self) -> Axis
        ensures { (result.extent ≡ self.screen.height) × (result.s ≡ self.screen.s) }
    {
        let Screen { height, s, .. } = self.screen;
        Axis { extent: height, s }
    }

    // How many columns there are.
    pub fn columns(self) -> u32
        ensures { result ≡ columns self.screen }
    {
        self.across().tiles()
    }

    // How many rows there are.
    pub fn rows(self) -> u32
        ensures { result ≡ rows self.screen }
    {
        self.down().tiles()
    }

    // How many tiles there are.
    pub fn tiles(self) -> u32
        ensures { result ≡ tiles self.screen }
    {
        self.columns() * self.rows()
    }

    // The column of a tile.
    pub fn column_of(self, tile: Tile) -> u32
        ensures { result ≡ column_of self.screen tile.0 }
    {
        let Tile(number) = tile;
        number % self.columns()
    }

    // The row of a tile.
    pub fn row_of(self, tile: Tile) -> u32
        ensures { result ≡ row_of self.screen tile.0 }
    {
        let Tile(number) = tile;
        number / self.columns()
    }

    // Where a column begins.
    pub fn left(self, column: u32) -> i64
        requires { column < columns self.screen }
        ensures { result ≡ near self.screen.width self.screen.s column }
    {
        self.across().near(column)
    }

    // Where a column ends.
    pub fn right(self, column: u32) -> i64
        requires { column < columns self.screen }
        ensures { result ≡ far self.screen.width self.screen.s column }
    {
        self.across().far(column)
    }

    // Where a row begins.
    pub fn top(self, row: u32) -> i64
        requires { row < rows self.screen }
        ensures { result ≡ near self.screen.height self.screen.s row }
    {
        self.down().near(row)
    }

    // Where a row ends.
    pub fn bottom(self, row: u32) -> i64
        requires { row < rows self.screen }
        ensures { result ≡ far self.screen.height self.screen.s row }
    {
        self.down().far(row)
    }

    // The closed rectangle of the tile in a column and a row.
    pub fn rectangle_at(self, column: u32, row: u32) -> Rectangle
        requires { (column < columns self.screen) × (row < rows self.screen) }
        ensures { result ≡ rectangle_at self.screen column row }
    {
        Rectangle {
            left: self.left(column),
            right: self.right(column),
            top: self.top(row),
            bottom: self.bottom(row),
        }
    }

    // The columns that meet the closed interval from low to high.
    pub fn columns_meeting(self, low: i32, high: i32) -> Span
        requires { (negsuc 262143 ≤ℤ high) × (high ≤ℤ pos 262143) }
        ensures { Meeting self.screen.width self.screen.s low high result }
    {
        self.across().meeting(low, high)
    }

    // The rows that meet the closed interval from low to high.
    pub fn rows_meeting(self, low: i32, high: i32) -> Span
        requires { (negsuc 262143 ≤ℤ high) × (high ≤ℤ pos 262143) }
        ensures { Meeting self.screen.height self.screen.s low high result }
    {
        self.down().meeting(low, high)
    }

    // The column of x, by the quotient rounded down, held to the grid.
    pub fn column_at(self, x: i32) -> u32
        ensures { result ≡ rounded_down self.screen.width self.screen.s x }
    {
        self.across().rounded_down(x)
    }

    // The row of y, by the quotient rounded up, less one, held to the grid.
    pub fn row_above(self, y: i32) -> u32
        requires { y ≤ℤ pos 262143 }
        ensures { result ≡ rounded_up_less_one self.screen.height self.screen.s y }
    {
        self.down().rounded_up_less_one(y)
    }
}
