#![tactic(auto)]
// The stepping walk: the tiles that a shape on the screen touches, once each, in rising number, with a flag for those that it covers wholly, and with a known
// number of tests. It starts in the tile of the topmost vertex. In a row it tests to the right and then to the left of the row's start tile; the next row
// starts with the first touched tile below the run. Shapes that reach off the screen are walked row by row in their bounding box, and no test of theirs counts.
ghost use Rattle.std.specs.Prelude.{◌≡◌, ℕ, ◌+◌, ◌*◌, ◌≤◌, ◌<◌, length};
ghost use Rattle.numbers.specs.Flag.{plains};
ghost use Rattle.numbers.specs.Says.{Says};
ghost use Rattle.screen.specs.Screen.{columns, rows};
ghost use Rattle.shape.specs.Shape.{InRange};
ghost use Rattle.touch.specs.Edges.{starts};
ghost use Rattle.walk.specs.Lists.{Words};
ghost use Rattle.walk.specs.Row.{ClearIn, EnclosedIn, Run, outlined, MeetingBox, MeetingColumns, MeetsRow};
ghost use Rattle.stepping.specs.Stepping.{OnAxis, OnGlass, OnScreen, upper, topmost, start_column, start_row};
ghost use Rattle.stepping.specs.Row.{Reach, Back, Hull, joined, grown, HitIn, FromAbove, Named};
ghost use Rattle.stepping.specs.Stepped.{WalkedThrough};

use numbers::{flagged, wide};
use screen::{Grid, Screen, Span};
use shape::{Shape, Vertex};
use touch::{Cover, Figure, Row, Three};
use walk::{Spans, Start};

// How many tiles are listed, and how many tests were made.
#[derive(Clone, Copy)]
pub struct Stepped {
    pub count: u32,
    pub tests: u32,
}

// Where the tests to one side of a start tile end, and the wholly covered tiles found so far.
#[derive(Clone, Copy)]
struct Side {
    end: u32,
    whole: Span,
}

// The run of a row, those of its tiles that are wholly covered, and the tests that it took.
#[derive(Clone, Copy)]
struct Step {
    run: Span,
    whole: Span,
    tests: u32,
}

// Whether a coordinate lies on an axis of that extent: from 0 to 16·extent.
fn on_axis(extent: u32, unit: i32) -> bool
    requires { extent ≤ 4096 }
    ensures { Says result (OnAxis extent unit) }
{
    let end = screen::glass_end(extent) as i32;
    (0 <= unit) & (unit <= end)
}

// Whether both coordinates lie on the screen.
fn on_glass(grid: Grid, vertex: Vertex) -> bool
    ensures { Says result (OnGlass grid.screen vertex) }
{
    let Screen { width, height, .. } = grid.screen;
    let Vertex { x, y } = vertex;
    on_axis(width, x) & on_axis(height, y)
}

// Whether every vertex lies on the screen.
pub fn on_screen(grid: Grid, shape: Shape) -> bool
    ensures { Says result (OnScreen grid.screen shape) }
{
    match shape {
        Shape::Point(a) => on_glass(grid, a),
        Shape::Line(a, b) => on_glass(grid, a) & on_glass(grid, b),
        Shape::Triangle(a, b, c) => on_glass(grid, a) & on_glass(grid, b) & on_glass(grid, c),
    }
}

// Of two vertices the upper one; of two at one height the left one.
#[tactic(auto, unfolding(crate::specs::Stepping::upper))]
fn upper_of(v: Vertex, w: Vertex) -> Vertex
    ensures { result ≡ upper v w }
{
    if (v.y, v.x) <= (w.y, w.x) { v } else { w }
}

// The topmost vertex, the leftmost of several.
fn topmost_of(vertices: Three) -> Vertex
    ensures { result ≡ topmost vertices }
{
    let Three { a, b, c } = vertices;
    upper_of(a, upper_of(b, c))
}

// The least span that has the columns of a span and one column more.
fn join(span: Span, column: u32) -> Span
    requires { column ≤ 4096 }
    ensures { result ≡ joined span column }
{
    let start = span.start.min(column);
    let end = span.end.max(column + 1);
    Span { start, end }
}

// The columns that are wholly covered as far as is known, and the one that a test told of.
fn grown(whole: Span, column: u32, cover: Cover) -> Span
    requires { column ≤ 4096 }
    ensures { result ≡ grown whole column cover }
{
    if cover.is_whole() {
        join(whole, column)
    } else {
        whole
    }
}

// To the right from a column and before `high`: the first that is missed, or `high`.
fn right_from(grid: Grid, row: Row, high: u32, column: u32, whole: Span) -> Side
    requires { (high ≤ columns grid.screen) × (column ≤ high) }
    ensures reach { Reach (ClearIn grid.screen row.edges) high column result.end }
    ensures whole { (n from : ℕ)
        → Hull (EnclosedIn grid.screen row.edges) n from column whole
        → Hull (EnclosedIn grid.screen row.edges) n from result.end result.whole }
{
    let mut found = whole;
    for end in column..high {
        let cover = walk::cover_in(grid, row, end);
        if !cover.is_touched() {
            return Side { end, whole: found };
        }
        found = grown(found, end, cover);
    }
    Side {
        end: high,
        whole: found,
    }
}

// To the left from the column before a column, and not past `low`: one past the first that is missed, or `low`.
// It is apart from `right_from` since what they promise, `Back` and `Reach`, is said of the two directions.
fn left_from(grid: Grid, row: Row, low: u32, column: u32, whole: Span) -> Side
    requires { (column ≤ columns grid.screen) × (low ≤ column) }
    ensures back { Back (ClearIn grid.screen row.edges) low column result.end }
    ensures whole { (n to : ℕ)
        → Hull (EnclosedIn grid.screen row.edges) n column to whole
        → Hull (EnclosedIn grid.screen row.edges) n result.end to result.whole }
{
    let mut found = whole;
    for before in (low..column).rev() {
        let cover = walk::cover_in(grid, row, before);
        if !cover.is_touched() {
            return Side {
                end: before + 1,
                whole: found,
            };
        }
        found = grown(found, before, cover);
    }
    Side {
        end: low,
        whole: found,
    }
}

// The run of a row that starts with the first touched tile below the run above. A test is made for each tile below that run up to this one, for each other tile
// of the row's run and for each miss beside it. No tile outside the columns of the bounding box is touched, so that these misses are known; and so is the one
// to the left of a tile that was not the first to be tested.
fn step_row(grid: Grid, figure: Figure, row: u32, span: Span, above: Span) -> Step
    requires meeting_columns { MeetingColumns grid.screen figure.edges span }
    requires row_bound { (row < rows grid.screen) × (MeetsRow grid.screen figure.edges row) × (span.start ≤ above.start) × (above.end ≤ span.end) }
    requires hit_in { HitIn grid.screen (outlined figure.edges) row above }
    ensures { FromAbove grid.screen (outlined figure.edges) row above result }
{
    let in_row = walk::edges_in_row(grid, figure, row);
    let Start { column, whole } = walk::first_touched(grid, in_row, above);
    let known = if whole {
        Span {
            start: column,
            end: column + 1,
        }
    } else {
        Span {
            start: span.end,
            end: 0,
        }
    };
    let right = right_from(grid, in_row, span.end, column + 1, known);
    let low = if above.start < column {
        column
    } else {
        span.start
    };
    let left = left_from(grid, in_row, low, column, right.whole);
    let run = Span {
        start: left.end,
        end: right.end,
    };
    let missed_right = (run.end < grid.columns()) as u32;
    let missed_left = (0 < run.start) as u32;
    Step {
        run,
        whole: left.whole,
        tests: (column - above.start) + (run.end - run.start) + missed_right + missed_left,
    }
}

// Writes the numbers of the tiles of a run, each with a flag that says whether its column is one of `whole`, from place count on, and answers the place after
// the last. There is no heap: the list is the caller's, so how far it is filled stands beside it, and goes on from the rows before beside the columns.
fn append(base: u32, run: Span, whole: Span, list: &mut [u32], count: u32) -> u32
    requires { (run.start ≤ run.end) × (count ≤ base + run.start) × (base + run.end ≤ 4096) × (4096 ≤ length list.old) }
    ensures run { Run (λ k. (run.start ≤ k) × (k < run.end)) base run.start run.end count result (plains list.old) (plains list.new) }
    ensures words { Words (Named base run whole) count result list.old list.new }
{
    let mut n = count;
    for column in run.start..run.end {
        let covered = (whole.start <= column) & (column < whole.end);
        list[wide(n)] = flagged(base + column, covered);
        n += 1;
    }
    n
}

// The walk from its start tile, in column `column` of row `first`, and before the end of the rows that meet the bounding box. The start tile is what a test
// finds below a run of itself, which tells its flag; that test is not counted.
fn step_rows(
    grid: Grid,
    figure: Figure,
    spans: Spans,
    first: u32,
    column: u32,
    list: &mut [u32],
) -> Stepped
    requires on_screen { OnScreen grid.screen (outlined figure.edges) }
    requires meeting { MeetingBox grid.screen (starts figure.edges) spans }
    requires start { (first ≡ start_row grid.screen (outlined figure.edges)) × (column ≡ start_column grid.screen (outlined figure.edges)) }
    requires in_bounds { 4096 ≤ length list.old }
    ensures { WalkedThrough grid.screen (outlined figure.edges) result list.old list.new }
{
    let columns = grid.columns();
    let mut run = Span {
        start: column,
        end: column + 1,
    };
    let mut tests = 0;
    let mut count = 0;
    for row in first..spans.rows.end {
        let step = step_row(grid, figure, row, spans.columns, run);
        run = step.run;
        tests += step.tests;
        count = append(row * columns, run, step.whole, list, count);
    }
    Stepped {
        count,
        tests: tests - 1,
    }
}

// Lists the tiles that a shape on the screen touches, rising, at the front of the list, each with a flag that says whether the shape covers the tile wholly,
// and answers how many there are and how many tests were made.
fn step_through(grid: Grid, shape: Shape, list: &mut [u32]) -> Stepped
    requires { (OnScreen grid.screen shape) × (4096 ≤ length list.old) }
    ensures { WalkedThrough grid.screen shape result list.old list.new }
{
    let vertices = touch::three_of(shape);
    let figure = touch::figure_of(vertices);
    let spans = walk::box_spans(grid, figure);
    let Vertex { x, y } = topmost_of(vertices);
    step_rows(
        grid,
        figure,
        spans,
        grid.row_above(y),
        grid.column_at(x),
        list,
    )
}

// Lists the tiles that a shape touches, as `step_through` does where it lies on the screen, and else row by row in its bounding box, which counts no test.
pub fn walk_through(grid: Grid, shape: Shape, list: &mut [u32]) -> Stepped
    requires { (InRange shape) × (4096 ≤ length list.old) }
    ensures { WalkedThrough grid.screen shape result list.old list.new }
{
    if on_screen(grid, shape) {
        return step_through(grid, shape, list);
    }
    let count = walk::touched_tiles(grid, shape, list);
    Stepped { count, tests: 0 }
}
