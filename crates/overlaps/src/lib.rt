#![tactic(auto)]
// Totals over a list of shapes: how many tiles their bounding boxes meet, how many they touch, and what is between.
ghost use Rattle.std.specs.Prelude.{◌≡◌, ◌-◌, ◌*◌, ◌≤◌, ◌<◌, length};
ghost use Rattle.shapes.specs.Shapes.{RightList, count_of, shape_at};
ghost use Rattle.shape.specs.Shape.{InRange};
ghost use Rattle.overlaps.specs.HowMany.{TilesByBox};
ghost use Rattle.overlaps.specs.Totals.{TotalsOf};
ghost use Rattle.overlaps.specs.Adding.{with_shape, with_other, With, Bounded};

use numbers::narrow;
use screen::{Grid, Span};
use shape::Shape;
use walk::Spans;

// The totals: shapes in range, shapes with a coordinate out of range, the tiles by box and by touching of those in range and the difference, and the most tiles
// that one of them touches, with the first place in the list, from 0, where it does.
#[derive(Clone, Copy, Default)]
pub struct Totals {
    pub shapes: u32,
    pub out_of_range: u32,
    pub box_tiles: u64,
    pub touched_tiles: u64,
    pub difference: u64,
    pub largest: u32,
    pub place: u32,
}

// How many columns, or rows, a span has.
fn extent_of(span: Span) -> u32
    ensures { result ≡ span.end - span.start }
{
    span.end.saturating_sub(span.start)
}

// How many tiles a block of them has.
fn tiles_in(spans: Spans) -> u32
    requires { (spans.columns.end - spans.columns.start) * (spans.rows.end - spans.rows.start) ≤ 4096 }
    ensures { result ≡ (spans.columns.end - spans.columns.start) * (spans.rows.end - spans.rows.start) }
{
    extent_of(spans.columns) * extent_of(spans.rows)
}

// How many tiles meet the shape's bounding box. The walk finds the box once more for itself: with this as its second caller, in whose hands the box is, its loops are
// compiled to take up to half as long again (docs/PERFORMANCE.md).
fn box_tiles(grid: Grid, shape: Shape) -> u32
    requires { InRange shape }
    ensures { TilesByBox grid.screen shape result }
{
    tiles_in(walk::box_spans(grid, touch::figure_of(touch::three_of(shape))))
}

// The totals with a shape in range more, which is at that place and has so many tiles by box and by touching.
fn with_shape(totals: Totals, place: u32, boxed: u32, touched: u32) -> Totals
    requires { (Bounded place totals) × (place < 1048576) × (boxed ≤ 4096) × (touched ≤ boxed) }
    ensures { result ≡ with_shape totals place boxed touched }
{
    let added = Totals {
        shapes: totals.shapes + 1,
        box_tiles: totals.box_tiles + boxed as u64,
        touched_tiles: totals.touched_tiles + touched as u64,
        difference: totals.difference + (boxed - touched) as u64,
        ..totals
    };
    if (totals.shapes == 0) | (totals.largest < touched) {
        Totals {
            largest: touched,
            place,
            ..added
        }
    } else {
        added
    }
}

// The totals with a shape out of range more.
fn with_other(totals: Totals) -> Totals
    requires { totals.out_of_range < 1048576 }
    ensures { result ≡ with_other totals }
{
    let more = totals.out_of_range + 1;
    Totals {
        out_of_range: more,
        ..totals
    }
}

// The totals with the shape at a place. The list is lent for the touched tiles.
fn with(totals: Totals, grid: Grid, shape: Shape, place: u32, touched: &mut [u32]) -> Totals
    requires { (Bounded place totals) × (place < 1048576) × (4096 ≤ length touched.old) }
    ensures { With grid.screen shape place totals result }
{
    if !shape::in_range(shape) {
        return with_other(totals);
    }
    let boxed = box_tiles(grid, shape);
    let count = walk::touched_tiles(grid, shape, touched);
    with_shape(totals, place, boxed, count)
}

// The totals of the shapes of a list, by their places, since a place is a part of the answer.
fn add_up(grid: Grid, list: &[i32], touched: &mut [u32]) -> Totals
    requires { (RightList 7 list.now) × (4096 ≤ length touched.old) }
    ensures { TotalsOf grid.screen (shape_at 7 list.now) (count_of 7 list.now) result }
{
    let mut totals = Totals::default();
    for place in 0..list.len() / shapes::WORDS {
        let shape = shapes::shape_at(list, place * shapes::WORDS);
        totals = with(totals, grid, shape, narrow(place), touched);
    }
    totals
}

// The totals of the shapes of a right list.
pub fn totals_of(grid: Grid, list: &[i32]) -> Totals
    requires { RightList 7 list.now }
    ensures { TotalsOf grid.screen (shape_at 7 list.now) (count_of 7 list.now) result }
{
    let mut touched = [0u32; 4096];
    add_up(grid, list, &mut touched)
}
