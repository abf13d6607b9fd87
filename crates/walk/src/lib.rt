#![tactic(auto)]
// The row walk: the tiles that a shape touches, once each, in rising number, with a flag for those that it covers wholly. Row by row in the bounding box, left
// to right; a row is left after its run of touched tiles. No tile outside the box is tested, and none twice. The grid and the figure stay two values: one grid
// serves every shape, and definitions take the screen and the edges apart.
ghost use Rattle.std.specs.Prelude.{List, ℕ, ◌+◌, ◌*◌, ◌≤◌, ◌<◌, length};
ghost use Rattle.numbers.specs.Flag.{plains};
ghost use Rattle.numbers.specs.Says.{Says};
ghost use Rattle.screen.specs.Screen.{columns, rows};
ghost use Rattle.shape.specs.Shape.{InRange};
ghost use Rattle.touch.specs.Edges.{starts};
ghost use Rattle.walk.specs.Touched.{Walked};
ghost use Rattle.walk.specs.Lists.{IsTouched, Flagged, Lists, Words, Before};
ghost use Rattle.walk.specs.Row.{ClearIn, EnclosedIn, CoverIn, Tested, First, RunIn, InTheRow, outlined, MeetingBox, MeetingColumns, MeetsRow};

use numbers::{flagged, wide};
use screen::{Grid, Span};
use shape::Shape;
use touch::{Cover, Figure, Row};

// The columns and the rows of a block of tiles.
#[derive(Clone, Copy)]
pub struct Spans {
    pub columns: Span,
    pub rows: Span,
}

// Where the run of a row starts: its first column, and whether the tile there is wholly covered. It is no Option: the stepping walk knows that there is such a
// tile, and would have to open a case that cannot come.
#[derive(Clone, Copy)]
pub struct Start {
    pub column: u32,
    pub whole: bool,
}

// The edges in a row.
pub fn edges_in_row(grid: Grid, figure: Figure, row: u32) -> Row
    requires { row < rows grid.screen }
    ensures { InTheRow grid.screen figure.edges row result.edges }
{
    figure.in_row(grid.top(row), grid.bottom(row))
}

// How the shape covers the tile of a column. It and the function above name the sides of a row and of a column, and share nothing else.
pub fn cover_in(grid: Grid, row: Row, column: u32) -> Cover
    requires { column < columns grid.screen }
    ensures { CoverIn result grid.screen row.edges column }
{
    row.cover(grid.left(column), grid.right(column))
}

// The first column of a span whose tile is touched, or one past the span where there is none.
pub fn first_touched(grid: Grid, row: Row, span: Span) -> Start
    requires { span.end ≤ columns grid.screen }
    ensures column { First (ClearIn grid.screen row.edges) span result.column }
    ensures whole { result.column < span.end → Says result.whole (EnclosedIn grid.screen row.edges result.column) }
{
    for column in span.start..span.end {
        let cover = cover_in(grid, row, column);
        if cover.is_touched() {
            return Start {
                column,
                whole: cover.is_whole(),
            };
        }
    }
    Start {
        column: span.start.max(span.end),
        whole: false,
    }
}

// Writes the numbers of the tiles in the run that starts with the span, with their flags, from place count on, and answers the place after the last.
// The count stays beside the list, which is lent: the memory is fixed, and a caller reads the front alone. It goes on from the rows before, and so beside the
// columns.
fn append_run(grid: Grid, row: Row, base: u32, span: Span, list: &mut [u32], count: u32) -> u32
    requires in_columns { (span.end ≤ columns grid.screen) × (span.start ≤ span.end) }
    requires count_bound { (count ≤ base + span.start) × (base + span.end ≤ 4096) × (4096 ≤ length list.old) }
    ensures run { RunIn (ClearIn grid.screen row.edges) base span count result (plains list.old) (plains list.new) }
    ensures words { Words (Tested grid.screen row.edges base) count result list.old list.new }
{
    let mut n = count;
    for column in span.start..span.end {
        let next = cover_in(grid, row, column);
        if !next.is_touched() {
            return n;
        }
        list[wide(n)] = flagged(base + column, next.is_whole());
        n += 1;
    }
    n
}

// Adds the touched tiles of a row to those of the rows before it, of which there are count, and answers how many there are then. What is asked of the span
// speaks of the figure too.
fn walk_row(grid: Grid, figure: Figure, row: u32, span: Span, list: &mut [u32], count: u32) -> u32
    requires columns_meet { MeetingColumns grid.screen figure.edges span }
    requires row_bound { (row < rows grid.screen) × (MeetsRow grid.screen figure.edges row) }
    requires count_bound { (count ≤ row * columns grid.screen) × (4096 ≤ length list.old) }
    ensures { (old : List ℕ)
        → Before grid.screen (outlined figure.edges) row count old list.old
        → Before grid.screen (outlined figure.edges) (row + 1) result old list.new }
{
    let in_row = edges_in_row(grid, figure, row);
    let first = first_touched(grid, in_row, span);
    if span.end <= first.column {
        return count;
    }
    let base = row * grid.columns();
    list[wide(count)] = flagged(base + first.column, first.whole);
    let rest = Span {
        start: first.column + 1,
        end: span.end,
    };
    append_run(grid, in_row, base, rest, list, count + 1)
}

// Writes the numbers of the tiles that the figure touches, all in the columns and rows that its bounding box meets, at the front of the list, rising and each
// with its flag, and answers how many there are.
pub fn walk_rows(grid: Grid, figure: Figure, spans: Spans, list: &mut [u32]) -> u32
    requires meeting { MeetingBox grid.screen (starts figure.edges) spans }
    requires in_bounds { 4096 ≤ length list.old }
    ensures numbers { Lists (IsTouched grid.screen (outlined figure.edges)) result (plains list.old) (plains list.new) }
    ensures words { Words (Flagged grid.screen (outlined figure.edges)) 0 result list.old list.new }
{
    let mut count = 0;
    for row in spans.rows.start..spans.rows.end {
        count = walk_row(grid, figure, row, spans.columns, list, count);
    }
    count
}

// The columns and the rows that the bounding box of a figure meets.
pub fn box_spans(grid: Grid, figure: Figure) -> Spans
    ensures { MeetingBox grid.screen (starts figure.edges) result }
{
    let around = figure.around;
    Spans {
        columns: grid.columns_meeting(around.left, around.right),
        rows: grid.rows_meeting(around.top, around.bottom),
    }
}

// Writes the numbers of the tiles that the shape touches, rising, at the front of the list, each with a flag that says whether the shape covers the tile
// wholly, and answers how many there are. A slice is lent for them and no array, since a caller may have a longer one.
pub fn touched_tiles(grid: Grid, shape: Shape, list: &mut [u32]) -> u32
    requires { (InRange shape) × (4096 ≤ length list.old) }
    ensures { Walked grid.screen shape result list.old list.new }
{
    let figure = touch::figure_of(touch::three_of(shape));
    walk_rows(grid, figure, box_spans(grid, figure), list)
}
