#![tactic(auto)]
// The public calls for C and Rust hosts, under their plain names: a slice passes as a pointer and a length, a shape as its coordinates, so that each call on a
// shape has a function for a point, a line and a triangle; and each answer but the number passes through a pointer, which is always written: zero where the
// call is refused. No function asks anything.
ghost use Rattle.std.specs.Prelude.{◌≡◌};
ghost use Rattle.numbers.specs.Refusal.{number_in};
ghost use Rattle.pool.specs.Words.{edition, second};
ghost use Rattle.pool.specs.Opening.{OpenSays};
ghost use Rattle.shape.specs.declared.Shape.TheVariants.{Point, Line, Triangle};
ghost use Rattle.quarters.specs.Map.{MapSays};
ghost use Rattle.inside.specs.Inside.{InsideSays};
ghost use Rattle.calls.specs.Told.{told_bin, told_cover, told_totals};
ghost use Rattle.calls.specs.Tables.{AuditSays, BinSays, BinPixelsSays, ReadSays, HighWaterSays, ReleaseSays};
ghost use Rattle.calls.specs.Frame.{ReadListSays, ReadAllSays, CountsSays};
ghost use Rattle.calls.specs.BinList.{BinListSays};
ghost use Rattle.calls.specs.Questions.{BoxSays, CornerSays};
ghost use Rattle.calls.specs.Units.{UnitSays};
ghost use Rattle.calls.specs.Overlaps.{OverlapsSays};
ghost use Rattle.capi.specs.Faces.{screen, vertex, pixel, binned, released, ToldFound, copied, pool_counts, high_water};
ghost use Rattle.capi.specs.Faces.{rounded, totals, counted, cover_number, Told, ToldNested};

use calls::Binned;
use numbers::{Refusal, number_in};
use overlaps::Totals;
use screen::{Screen, Tile};
use shape::{Shape, Vertex};
use snap::{PixelShape, PixelVertex};
use touch::Cover;

// Opens a pool of the first edition: 0, or 1, 2, 3 in that order.
#[unsafe(no_mangle)]
pub extern "C" fn flourscoop_open(
    pool: &mut [u32],
    width: u32,
    height: u32,
    s: u32,
    blocks: u32,
) -> u32
    ensures { OpenSays edition pool.old (screen width height s) blocks result pool.new }
{
    number_in(&calls::open(pool, Screen { width, height, s }, blocks))
}

// Opens a pool of the second edition: 0, or 1, 2, 3 in that order.
#[unsafe(no_mangle)]
pub extern "C" fn flourscoop_open_two(
    pool: &mut [u32],
    width: u32,
    height: u32,
    s: u32,
    blocks: u32,
    size: u32,
) -> u32
    ensures { OpenSays (second size) pool.old (screen width height s) blocks result pool.new }
{
    number_in(&calls::open_two(pool, Screen { width, height, s }, blocks, size))
}

// 0 where the pool is sound, and else 4.
#[unsafe(no_mangle)]
pub extern "C" fn flourscoop_audit(pool: &[u32]) -> u32
    ensures { AuditSays pool.now result }
{
    number_in(&calls::audit(pool))
}

// Reads the id at a place of a tile's list, and whether the tile is wholly covered, 1 for yes: 0, or 4, 9, 10 in that order.
#[unsafe(no_mangle)]
pub extern "C" fn flourscoop_read(
    pool: &[u32],
    tile: u32,
    place: u32,
    id: &mut u32,
    whole: &mut u32,
) -> u32
    ensures { ToldFound (ReadSays pool.now tile place) result id.new whole.new }
{
    let answer = calls::read(pool, Tile(tile), place);
    let found = answer.unwrap_or_default();
    *id = found.id;
    *whole = found.whole as u32;
    number_in(&answer)
}

// Writes a tile's list to the start of `entries`: 0 and how many entries there are, or 4, 9, 11 in that order.
#[unsafe(no_mangle)]
pub extern "C" fn flourscoop_read_list(
    pool: &[u32],
    tile: u32,
    entries: &mut [u32],
    count: &mut u32,
) -> u32
    ensures { ReadListSays pool.now tile entries.old (copied result count.new) entries.new }
{
    let answer = calls::read_list(pool, Tile(tile), entries);
    *count = answer.unwrap_or(0);
    number_in(&answer)
}

// Writes all lists to the start of `entries`, and where each starts and the last one ends to that of `starts`: 0 and how many entries there are, or 4, 11 in
// that order.
#[unsafe(no_mangle)]
pub extern "C" fn flourscoop_read_all(
    pool: &[u32],
    starts: &mut [u32],
    entries: &mut [u32],
    count: &mut u32,
) -> u32
    ensures { ReadAllSays pool.now starts.old entries.old (copied result count.new) starts.new entries.new }
{
    let answer = calls::read_all(pool, starts, entries);
    *count = answer.unwrap_or(0);
    number_in(&answer)
}

// How many tiles, blocks, free blocks and entries a pool has: 0, or 4.
#[unsafe(no_mangle)]
pub extern "C" fn flourscoop_counts(
    pool: &[u32],
    tiles: &mut u32,
    blocks: &mut u32,
    free: &mut u32,
    entries: &mut u32,
) -> u32
    ensures { CountsSays pool.now (pool_counts result tiles.new blocks.new free.new entries.new) }
{
    let answer = calls::counts(pool);
    let held = answer.unwrap_or_default();
    *tiles = held.tiles;
    *blocks = held.blocks;
    *free = held.free;
    *entries = held.entries;
    number_in(&answer)
}

// The most entries that a tile's list had since the opening: 0, or 4, 9 in that order.
#[unsafe(no_mangle)]
pub extern "C" fn flourscoop_high_water(pool: &[u32], tile: u32, entries: &mut u32) -> u32
    ensures { HighWaterSays pool.now tile (high_water result entries.new) }
{
    let answer = calls::high_water(pool, Tile(tile));
    *entries = answer.unwrap_or(0);
    number_in(&answer)
}

// Empties a tile's list: 0 and the blocks given back, or 4, 9 in that order. The C interface has a function for each call, also where two are alike.
#[unsafe(no_mangle)]
pub extern "C" fn flourscoop_release(pool: &mut [u32], tile: u32, blocks: &mut u32) -> u32
    ensures { ReleaseSays pool.old tile (released result blocks.new) pool.new }
{
    let answer = calls::release(pool, Tile(tile));
    *blocks = answer.unwrap_or(0);
    number_in(&answer)
}

// Writes what a bin answers, and tells its number.
fn tell_bin(
    answer: Result<Binned, Refusal>,
    tiles: &mut u32,
    blocks: &mut u32,
    tests: &mut u32,
) -> u32
    ensures { binned result tiles.new blocks.new tests.new ≡ told_bin answer }
{
    let told = answer.unwrap_or_default();
    *tiles = told.tiles;
    *blocks = told.blocks;
    *tests = told.tests;
    number_in(&answer)
}

// 0 for apart, 1 for partly, 2 for wholly: the C interface has a number for each.
fn cover_number(cover: Cover) -> u32
    ensures { result ≡ cover_number cover }
{
    match cover {
        Cover::Apart => 0,
        Cover::Partly => 1,
        Cover::Wholly => 2,
    }
}

// Writes how a shape covers a tile, and tells the number of the answer.
fn tell_cover(answer: Result<Cover, Refusal>, cover: &mut u32) -> u32
    ensures number { result ≡ (told_cover answer).number }
    ensures cover { cover.new ≡ cover_number (told_cover answer).cover }
{
    *cover = cover_number(answer.unwrap_or(Cover::Apart));
    number_in(&answer)
}

// The point of these coordinates.
fn point(x1: i32, y1: i32) -> Shape
    ensures { result ≡ Point (vertex x1 y1) }
{
    Shape::Point(Vertex { x: x1, y: y1 })
}

// The line of these coordinates.
fn line(x1: i32, y1: i32, x2: i32, y2: i32) -> Shape
    ensures { result ≡ Line (vertex x1 y1) (vertex x2 y2) }
{
    Shape::Line(Vertex { x: x1, y: y1 }, Vertex { x: x2, y: y2 })
}

// The triangle of these coordinates.
fn triangle(x1: i32, y1: i32, x2: i32, y2: i32, x3: i32, y3: i32) -> Shape
    ensures { result ≡ Triangle (vertex x1 y1) (vertex x2 y2) (vertex x3 y3) }
{
    Shape::Triangle(
        Vertex { x: x1, y: y1 },
        Vertex { x: x2, y: y2 },
        Vertex { x: x3, y: y3 },
    )
}

// Bins a point in units: 0, the tiles listed, the blocks taken and the tests made; or 4, 5, 7, 8 in that order.
#[unsafe(no_mangle)]
pub extern "C" fn flourscoop_bin_point(
    pool: &mut [u32],
    id: u32,
    x1: i32,
    y1: i32,
    tiles: &mut u32,
    blocks: &mut u32,
    tests: &mut u32,
) -> u32
    ensures { BinSays pool.old (Point (vertex x1 y1)) id (binned result tiles.new blocks.new tests.new) pool.new }
{
    tell_bin(calls::bin(pool, point(x1, y1), id), tiles, blocks, tests)
}

// Bins a line in units: 0, the tiles listed, the blocks taken and the tests made; or 4, 5, 7, 8 in that order.
#[unsafe(no_mangle)]
pub extern "C" fn flourscoop_bin_line(
    pool: &mut [u32],
    id: u32,
    x1: i32,
    y1: i32,
    x2: i32,
    y2: i32,
    tiles: &mut u32,
    blocks: &mut u32,
    tests: &mut u32,
) -> u32
    ensures { BinSays pool.old (Line (vertex x1 y1) (vertex x2 y2)) id (binned result tiles.new blocks.new tests.new) pool.new }
{
    tell_bin(
        calls::bin(pool, line(x1, y1, x2, y2), id),
        tiles,
        blocks,
        tests,
    )
}

// Bins a triangle in units: 0, the tiles listed, the blocks taken and the tests made; or 4, 5, 7, 8 in that order.
#[unsafe(no_mangle)]
pub extern "C" fn flourscoop_bin_triangle(
    pool: &mut [u32],
    id: u32,
    x1: i32,
    y1: i32,
    x2: i32,
    y2: i32,
    x3: i32,
    y3: i32,
    tiles: &mut u32,
    blocks: &mut u32,
    tests: &mut u32,
) -> u32
    ensures { BinSays pool.old (Triangle (vertex x1 y1) (vertex x2 y2) (vertex x3 y3)) id (binned result tiles.new blocks.new tests.new) pool.new }
{
    tell_bin(
        calls::bin(pool, triangle(x1, y1, x2, y2, x3, y3), id),
        tiles,
        blocks,
        tests,
    )
}

// Bins a list of shapes in units, eight words to a shape, the last of them its id, and writes a byte for each: 0, or 4, 15, 11 in that order.
#[unsafe(no_mangle)]
pub extern "C" fn flourscoop_bin_list(pool: &mut [u32], list: &[i32], answers: &mut [u8]) -> u32
    ensures { BinListSays pool.old list.now answers.old result pool.new answers.new }
{
    number_in(&calls::bin_list(pool, list, answers))
}

// Bins a point in pixels: 0, the tiles listed, the blocks taken and the tests made; or 4, 5, then 6 or 7 as its first offence decides, then 8.
#[unsafe(no_mangle)]
pub extern "C" fn flourscoop_bin_pixels_point(
    pool: &mut [u32],
    id: u32,
    x1: f32,
    y1: f32,
    tiles: &mut u32,
    blocks: &mut u32,
    tests: &mut u32,
) -> u32
    ensures { BinPixelsSays pool.old (PixelShape.Point (pixel x1 y1)) id (binned result tiles.new blocks.new tests.new) pool.new }
{
    tell_bin(
        calls::bin_pixels(pool, PixelShape::Point(PixelVertex { x: x1, y: y1 }), id),
        tiles,
        blocks,
        tests,
    )
}

// Bins a line in pixels: 0, the tiles listed, the blocks taken and the tests made; or 4, 5, then 6 or 7 as its first offence decides, then 8.
#[unsafe(no_mangle)]
pub extern "C" fn flourscoop_bin_pixels_line(
    pool: &mut [u32],
    id: u32,
    x1: f32,
    y1: f32,
    x2: f32,
    y2: f32,
    tiles: &mut u32,
    blocks: &mut u32,
    tests: &mut u32,
) -> u32
    ensures { BinPixelsSays pool.old (PixelShape.Line (pixel x1 y1) (pixel x2 y2)) id (binned result tiles.new blocks.new tests.new) pool.new }
{
    tell_bin(
        calls::bin_pixels(
            pool,
            PixelShape::Line(PixelVertex { x: x1, y: y1 }, PixelVertex { x: x2, y: y2 }),
            id,
        ),
        tiles,
        blocks,
        tests,
    )
}

// Bins a triangle in pixels: 0, the tiles listed, the blocks taken and the tests made; or 4, 5, then 6 or 7 as its first offence decides, then 8.
#[unsafe(no_mangle)]
pub extern "C" fn flourscoop_bin_pixels_triangle(
    pool: &mut [u32],
    id: u32,
    x1: f32,
    y1: f32,
    x2: f32,
    y2: f32,
    x3: f32,
    y3: f32,
    tiles: &mut u32,
    blocks: &mut u32,
    tests: &mut u32,
) -> u32
    ensures { BinPixelsSays pool.old (PixelShape.Triangle (pixel x1 y1) (pixel x2 y2) (pixel x3 y3)) id (binned result tiles.new blocks.new tests.new) pool.new }
{
    tell_bin(
        calls::bin_pixels(
            pool,
            PixelShape::Triangle(
                PixelVertex { x: x1, y: y1 },
                PixelVertex { x: x2, y: y2 },
                PixelVertex { x: x3, y: y3 },
            ),
            id,
        ),
        tiles,
        blocks,
        tests,
    )
}

// Whether a tile meets the bounding box of a point: 0 and the answer, 1 for yes; or 1, 9, 7 in that order. By box and by corner are two calls of the interface.
#[unsafe(no_mangle)]
pub extern "C" fn flourscoop_box_point(
    width: u32,
    height: u32,
    s: u32,
    tile: u32,
    x1: i32,
    y1: i32,
    cover: &mut u32,
) -> u32
    ensures { Told (BoxSays (screen width height s) tile (Point (vertex x1 y1))) result cover.new }
{
    tell_cover(
        calls::box_cover(Screen { width, height, s }, Tile(tile), point(x1, y1)),
        cover,
    )
}

// Whether a tile meets the bounding box of a line: 0 and the answer, 1 for yes; or 1, 9, 7 in that order.
#[unsafe(no_mangle)]
pub extern "C" fn flourscoop_box_line(
    width: u32,
    height: u32,
    s: u32,
    tile: u32,
    x1: i32,
    y1: i32,
    x2: i32,
    y2: i32,
    cover: &mut u32,
) -> u32
    ensures { Told (BoxSays (screen width height s) tile (Line (vertex x1 y1) (vertex x2 y2))) result cover.new }
{
    tell_cover(
        calls::box_cover(
            Screen { width, height, s },
            Tile(tile),
            line(x1, y1, x2, y2),
        ),
        cover,
    )
}

// Whether a tile meets the bounding box of a triangle: 0 and the answer, 1 for yes; or 1, 9, 7 in that order.
#[unsafe(no_mangle)]
pub extern "C" fn flourscoop_box_triangle(
    width: u32,
    height: u32,
    s: u32,
    tile: u32,
    x1: i32,
    y1: i32,
    x2: i32,
    y2: i32,
    x3: i32,
    y3: i32,
    cover: &mut u32,
) -> u32
    ensures { Told (BoxSays (screen width height s) tile (Triangle (vertex x1 y1) (vertex x2 y2) (vertex x3 y3))) result cover.new }
{
    tell_cover(
        calls::box_cover(
            Screen { width, height, s },
            Tile(tile),
            triangle(x1, y1, x2, y2, x3, y3),
        ),
        cover,
    )
}

// How a point covers a tile: 0 and the answer, 0 for apart, 1 for partly, 2 for wholly; or 1, 9, 7 in that order.
#[unsafe(no_mangle)]
pub extern "C" fn flourscoop_corner_point(
    width: u32,
    height: u32,
    s: u32,
    tile: u32,
    x1: i32,
    y1: i32,
    cover: &mut u32,
) -> u32
    ensures { Told (CornerSays (screen width height s) tile (Point (vertex x1 y1))) result cover.new }
{
    tell_cover(
        calls::corner_cover(Screen { width, height, s }, Tile(tile), point(x1, y1)),
        cover,
    )
}

// How a line covers a tile: 0 and the answer, 0 for apart, 1 for partly, 2 for wholly; or 1, 9, 7 in that order.
#[unsafe(no_mangle)]
pub extern "C" fn flourscoop_corner_line(
    width: u32,
    height: u32,
    s: u32,
    tile: u32,
    x1: i32,
    y1: i32,
    x2: i32,
    y2: i32,
    cover: &mut u32,
) -> u32
    ensures { Told (CornerSays (screen width height s) tile (Line (vertex x1 y1) (vertex x2 y2))) result cover.new }
{
    tell_cover(
        calls::corner_cover(
            Screen { width, height, s },
            Tile(tile),
            line(x1, y1, x2, y2),
        ),
        cover,
    )
}

// How a triangle covers a tile: 0 and the answer, 0 for apart, 1 for partly, 2 for wholly; or 1, 9, 7 in that order.
#[unsafe(no_mangle)]
pub extern "C" fn flourscoop_corner_triangle(
    width: u32,
    height: u32,
    s: u32,
    tile: u32,
    x1: i32,
    y1: i32,
    x2: i32,
    y2: i32,
    x3: i32,
    y3: i32,
    cover: &mut u32,
) -> u32
    ensures { Told (CornerSays (screen width height s) tile (Triangle (vertex x1 y1) (vertex x2 y2) (vertex x3 y3))) result cover.new }
{
    tell_cover(
        calls::corner_cover(
            Screen { width, height, s },
            Tile(tile),
            triangle(x1, y1, x2, y2, x3, y3),
        ),
        cover,
    )
}

// The unit of a coordinate in pixels: 0, or 6, 7.
#[unsafe(no_mangle)]
pub extern "C" fn flourscoop_unit(v: f32, unit: &mut i32) -> u32
    ensures { UnitSays v (rounded result unit.new) }
{
    let answer = calls::unit(v);
    *unit = answer.unwrap_or(0);
    number_in(&answer)
}

// The totals of an answer: those of no shape where it is refused.
fn totals_in(answer: Result<Totals, Refusal>) -> Totals
    ensures { counted (number_in answer) result ≡ told_totals answer }
{
    answer.unwrap_or_default()
}

// Totals over a list of shapes, seven words to a shape: 0, or 1, 15 in that order.
#[unsafe(no_mangle)]
pub extern "C" fn flourscoop_overlaps(
    list: &[i32],
    width: u32,
    height: u32,
    s: u32,
    shapes: &mut u32,
    out_of_range: &mut u32,
    box_tiles: &mut u64,
    touched_tiles: &mut u64,
    difference: &mut u64,
    largest: &mut u32,
    place: &mut u32,
) -> u32
    ensures { OverlapsSays list.now (screen width height s) (counted result (totals shapes.new out_of_range.new box_tiles.new touched_tiles.new difference.new largest.new place.new)) }
{
    let answer = calls::overlaps(list, Screen { width, height, s });
    let told = totals_in(answer);
    *shapes = told.shapes;
    *out_of_range = told.out_of_range;
    *box_tiles = told.box_tiles;
    *touched_tiles = told.touched_tiles;
    *difference = told.difference;
    *largest = told.largest;
    *place = told.place;
    number_in(&answer)
}

// Whether the one shape of the first list lies inside that of the second, seven words each, 1 for yes: 0, or 15, 7 in that order.
#[unsafe(no_mangle)]
pub extern "C" fn flourscoop_inside(first: &[i32], second: &[i32], inside: &mut u32) -> u32
    ensures { ToldNested (InsideSays first.now second.now) result inside.new }
{
    let answer = calls::inside(first, second);
    *inside = answer.unwrap_or(false) as u32;
    number_in(&answer)
}

// Writes the map of a point in units, a byte for each tile, 1 where it is touched: 0, or 1, 7, 11 in that order.
#[unsafe(no_mangle)]
pub extern "C" fn flourscoop_map_point(
    width: u32,
    height: u32,
    s: u32,
    x1: i32,
    y1: i32,
    map: &mut [u8],
) -> u32
    ensures { MapSays (screen width height s) (Point (vertex x1 y1)) map.old result map.new }
{
    number_in(&calls::map(Screen { width, height, s }, point(x1, y1), map))
}

// Writes the map of a line in units, a byte for each tile, 1 where it is touched: 0, or 1, 7, 11 in that order.
#[unsafe(no_mangle)]
pub extern "C" fn flourscoop_map_line(
    width: u32,
    height: u32,
    s: u32,
    x1: i32,
    y1: i32,
    x2: i32,
    y2: i32,
    map: &mut [u8],
) -> u32
    ensures { MapSays (screen width height s) (Line (vertex x1 y1) (vertex x2 y2)) map.old result map.new }
{
    number_in(&calls::map(Screen { width, height, s }, line(x1, y1, x2, y2), map))
}

// Writes the map of a triangle in units, a byte for each tile, 1 where it is touched: 0, or 1, 7, 11 in that order.
#[unsafe(no_mangle)]
pub extern "C" fn flourscoop_map_triangle(
    width: u32,
    height: u32,
    s: u32,
    x1: i32,
    y1: i32,
    x2: i32,
    y2: i32,
    x3: i32,
    y3: i32,
    map: &mut [u8],
) -> u32
    ensures { MapSays (screen width height s) (Triangle (vertex x1 y1) (vertex x2 y2) (vertex x3 y3)) map.old result map.new }
{
    number_in(&calls::map(
        Screen { width, height, s },
        triangle(x1, y1, x2, y2, x3, y3),
        map,
    ))
}
