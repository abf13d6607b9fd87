#![tactic(auto)]
// The public calls. None asks anything of its caller: any words in the pool, any shape and any number are answered, and a refusal gives its
// reason and changes no word. What number and which values the rules have for each answer, `Told` says.
// What the audit and the snap answer is taken apart by `let .. else`: document 01 has it so. Other answers are handed on, most by `?`.
ghost use Rattle.std.specs.Prelude.{◌≡◌, ◌≤◌, ◌<◌, length};
ghost use Rattle.numbers.specs.Refusal.{number_in};
ghost use Rattle.screen.specs.Rectangle.{rectangle};
ghost use Rattle.pool.specs.Words.{edition, id_limit, second, layout_of};
ghost use Rattle.pool.specs.Sound.{Sound};
ghost use Rattle.pool.specs.Opening.{OpenSays};
ghost use Rattle.shape.specs.Shape.{InRange};
ghost use Rattle.audit.specs.Answer.{HeaderOf};
ghost use Rattle.calls.specs.Told.{told_bin, told_release, told_read, told_mark, told_count, told_counts, told_cover, told_unit, told_totals};
ghost use Rattle.calls.specs.Tables.{AuditSays, PlaceSays, CauseSays, BinSays, BinPixelsSays, ReadSays, HighWaterSays, ReleaseSays};
ghost use Rattle.quarters.specs.Map.{MapSays};
ghost use Rattle.shapes.specs.Shapes.{RightList, count_of};
ghost use Rattle.inside.specs.Inside.{InsideSays, nested};
ghost use Rattle.calls.specs.Frame.{ReadListSays, ReadAllSays, CountsSays};
ghost use Rattle.calls.specs.BinList.{id_from, AllBinned, BinListSays};
ghost use Rattle.calls.specs.Questions.{InOrder, QuestionSays, AnswerSays, BoxSays, CornerSays};
ghost use Rattle.calls.specs.Units.{UnitSays};
ghost use Rattle.calls.specs.Overlaps.{OverlapsSays};

use audit::Header;
use lists::Lists;
use numbers::{Refusal, narrow, wide};
use overlaps::Totals;
use screen::{Grid, Rectangle, Screen, Tile};
use shape::Shape;
use snap::PixelShape;
use touch::Cover;

// The words of a shape in a list that is binned: those that say it, and its id.
const BIN_WORDS: usize = 8;

// What an accepted bin answers: the tiles listed, the blocks taken and the tests made.
#[derive(Clone, Copy, Default)]
pub struct Binned {
    pub tiles: u32,
    pub blocks: u32,
    pub tests: u32,
}

// What a read answers: the id, and whether the shape covers the tile wholly.
#[derive(Clone, Copy, Default)]
pub struct Found {
    pub id: u32,
    pub whole: bool,
}

// What a pool holds in sum: tiles, blocks, free blocks, and the entries of all lists.
#[derive(Clone, Copy, Default)]
pub struct PoolCounts {
    pub tiles: u32,
    pub blocks: u32,
    pub free: u32,
    pub entries: u32,
}

// Opens a pool for a screen with so many blocks; or refuses the screen, the blocks, or a slice that is too short, in that order.
pub fn open(pool: &mut [u32], screen: Screen, blocks: u32) -> Result<(), Refusal>
    ensures { OpenSays edition pool.old screen blocks (number_in result) pool.new }
{
    pool::open(pool, screen, blocks)
}

// The same of the second edition, with blocks of `size` words: the blocks are refused also where that is neither 32 nor 64.
pub fn open_two(pool: &mut [u32], screen: Screen, blocks: u32, size: u32) -> Result<(), Refusal>
    ensures { OpenSays (second size) pool.old screen blocks (number_in result) pool.new }
{
    pool::open_two(pool, screen, blocks, size)
}

// Whether the pool is sound.
pub fn audit(pool: &[u32]) -> Result<(), Refusal>
    ensures { AuditSays pool.now (number_in result) }
{
    let Some(_) = audit::audit(pool) else {
        return Err(Refusal::Unsound);
    };
    Ok(())
}

// The lists of the pool that has that header.
fn lists_of(header: Header) -> Lists
    ensures { (result.layout ≡ header.layout) × (result.tiles ≡ header.tiles) }
{
    Lists {
        layout: header.layout,
        tiles: wide(header.tiles),
    }
}

// Appends the id to the list of each tile that the shape touches, flagged where it covers the tile wholly, in rising number, where there are as many free
// blocks as that needs. Nothing is written before the blocks are counted. `touched` is lent for the tiles.
// That the pool is sound and the header its own is a clause here and below: no one value holds both while the pool is lent mutably.
fn place(
    pool: &mut [u32],
    header: Header,
    shape: Shape,
    id: u32,
    touched: &mut [u32],
) -> Result<Binned, Refusal>
    requires { (Sound (layout_of pool.old) pool.old) × (HeaderOf (layout_of pool.old) pool.old header) × (InRange shape) × (id < id_limit) × (4096 ≤ length touched.old) }
    ensures { PlaceSays pool.old shape id (told_bin result) pool.new }
{
    let walked = stepping::walk_through(header.grid, shape, touched);
    let count = walked.count;
    let named = &touched[..wide(count)];
    let lists = lists_of(header);
    let blocks = lists.need(pool, named);
    if wide(lists.free(pool)) < blocks {
        return Err(Refusal::NoRoom);
    }
    lists.append_all(pool, named, id);
    Ok(Binned {
        tiles: count,
        blocks: narrow(blocks),
        tests: walked.tests,
    })
}

// What a bin of the shape is refused for whatever the pool: the id, then the shape.
fn cause(shape: Shape, id: u32) -> Result<(), Refusal>
    ensures { CauseSays shape id (number_in result) }
{
    if pool::ID_LIMIT <= id {
        return Err(Refusal::Id);
    }
    if !shape::in_range(shape) {
        return Err(Refusal::OutOfRange);
    }
    Ok(())
}

// Bins a whole-number shape on a sound pool, as `bin` does. `touched` is lent for the tiles.
fn bin_sound(
    pool: &mut [u32],
    header: Header,
    shape: Shape,
    id: u32,
    touched: &mut [u32],
) -> Result<Binned, Refusal>
    requires { (Sound (layout_of pool.old) pool.old) × (HeaderOf (layout_of pool.old) pool.old header) × (4096 ≤ length touched.old) }
    ensures { BinSays pool.old shape id (told_bin result) pool.new }
{
    cause(shape, id)?;
    place(pool, header, shape, id, touched)
}

// Bins a whole-number shape: the tiles listed, the blocks taken and the tests made; or refuses the pool, the id, the shape, or for want of room, in that order.
pub fn bin(pool: &mut [u32], shape: Shape, id: u32) -> Result<Binned, Refusal>
    ensures { BinSays pool.old shape id (told_bin result) pool.new }
{
    let Some(header) = audit::audit(pool) else {
        return Err(Refusal::Unsound);
    };
    // Before the list of tiles is cleared, which a refusal needs not: so `bin` is not `bin_sound` behind an audit.
    cause(shape, id)?;
    let mut touched = [0u32; 4096];
    place(pool, header, shape, id, &mut touched)
}

// Bins a shape in pixels: the tiles listed, the blocks taken and the tests made; or refuses the pool, the id, the shape by its first offence, or for want of
// room, in that order.
pub fn bin_pixels(pool: &mut [u32], shape: PixelShape, id: u32) -> Result<Binned, Refusal>
    ensures { BinPixelsSays pool.old shape id (told_bin result) pool.new }
{
    let Some(header) = audit::audit(pool) else {
        return Err(Refusal::Unsound);
    };
    if pool::ID_LIMIT <= id {
        return Err(Refusal::Id);
    }
    let snapped = snap::snap_shape(shape);
    let Ok(whole) = snapped else {
        return Err(snapped.unwrap_err());
    };
    let mut touched = [0u32; 4096];
    place(pool, header, whole, id, &mut touched)
}

// The id that a word of a list says: for a word below 0, the first number past the ids.
fn id_from(word: i32) -> u32
    ensures { result ≡ id_from word }
{
    u32::try_from(word).unwrap_or(pool::ID_LIMIT)
}

// Bins the shapes of a right list one after the other on a sound pool, and writes the number of each one's answer to the byte at its place. `touched` is
// lent for the tiles.
fn bin_all(pool: &mut [u32], header: Header, list: &[i32], answers: &mut [u8], touched: &mut [u32])
    requires { (Sound (layout_of pool.old) pool.old) × (HeaderOf (layout_of pool.old) pool.old header) × (RightList 8 list.now) × (count_of 8 list.now ≤ length answers.old) × (4096 ≤ length touched.old) }
    ensures { AllBinned list.now answers.old answers.new pool.old pool.new }
{
    // By places: of a slice whose bytes are lent one by one, as by `zip`, a proof knows no byte afterwards.
    for place in 0..list.len() / BIN_WORDS {
        let at = place * BIN_WORDS;
        let shape = shapes::shape_at(list, at);
        let id = id_from(list[at + shapes::WORDS]);
        let binned = bin_sound(pool, header, shape, id, touched);
        answers[place] = numbers::number_in(&binned) as u8;
    }
}

// Bins a list of whole-number shapes, eight words to a shape, the last of them its id, and writes the number of each one's answer to the byte at its
// place: what single bins in this order would answer and leave; or refuses the pool, the list, or too few bytes, in that order, with nothing written.
pub fn bin_list(pool: &mut [u32], list: &[i32], answers: &mut [u8]) -> Result<(), Refusal>
    ensures { BinListSays pool.old list.now answers.old (number_in result) pool.new answers.new }
{
    let Some(header) = audit::audit(pool) else {
        return Err(Refusal::Unsound);
    };
    let count = shapes::check(list, BIN_WORDS)?;
    if answers.len() < count {
        return Err(Refusal::ShortSlice);
    }
    let mut touched = [0u32; 4096];
    bin_all(pool, header, list, answers, &mut touched);
    Ok(())
}

// This call and the others on one tile open the audit's answer each for itself, as document 01 has it, and ask for the tile then.
// Reads the id at a place of a tile's list, places counted from 0: the id and whether the tile is wholly covered; or refuses the pool, the tile or the place,
// in that order.
pub fn read(pool: &[u32], tile: Tile, place: u32) -> Result<Found, Refusal>
    ensures { ReadSays pool.now tile.0 place (told_read result) }
{
    let Some(header) = audit::audit(pool) else {
        return Err(Refusal::Unsound);
    };
    if header.tiles <= tile.0 {
        return Err(Refusal::NoTile);
    }
    let lists = lists_of(header);
    if lists.entries(pool, tile) <= place {
        return Err(Refusal::NoPlace);
    }
    let entry = lists.entry_at(pool, tile, place);
    Ok(Found {
        id: numbers::plain(entry),
        whole: numbers::is_flagged(entry),
    })
}

// Writes a tile's list to the start of `entries`, each entry an id with its flag: how many there are; or refuses the pool, the tile or a slice that is too
// short, in that order, with nothing written. Words past the list stay.
pub fn read_list(pool: &[u32], tile: Tile, entries: &mut [u32]) -> Result<u32, Refusal>
    ensures { ReadListSays pool.now tile.0 entries.old (told_count result) entries.new }
{
    let Some(header) = audit::audit(pool) else {
        return Err(Refusal::Unsound);
    };
    if header.tiles <= tile.0 {
        return Err(Refusal::NoTile); // a slice that is too short comes after it
    }
    let lists = lists_of(header);
    let count = lists.entries(pool, tile);
    if entries.len() < wide(count) {
        return Err(Refusal::ShortSlice);
    }
    frame::put_list(pool, lists, tile, entries, 0);
    Ok(count)
}

// Writes the lists of all tiles to the start of `entries`, one after the other, and where each of them starts, and where the last one ends, to that of
// `starts`: how many entries there are; or refuses the pool, or a slice that is too short, in that order, with nothing written. Words past these stay.
pub fn read_all(pool: &[u32], starts: &mut [u32], entries: &mut [u32]) -> Result<u32, Refusal>
    ensures { ReadAllSays pool.now starts.old entries.old (told_count result) starts.new entries.new }
{
    let Some(header) = audit::audit(pool) else {
        return Err(Refusal::Unsound);
    };
    if starts.len() <= wide(header.tiles) {
        return Err(Refusal::ShortSlice);
    }
    let lists = lists_of(header);
    let total = frame::total_entries(pool, lists);
    if entries.len() < wide(total) {
        return Err(Refusal::ShortSlice);
    }
    frame::put_lists(pool, lists, starts, entries);
    Ok(total)
}

// How many tiles, blocks, free blocks and entries a pool has; or refuses the pool.
pub fn counts(pool: &[u32]) -> Result<PoolCounts, Refusal>
    ensures { CountsSays pool.now (told_counts result) }
{
    let Some(header) = audit::audit(pool) else {
        return Err(Refusal::Unsound);
    };
    let lists = lists_of(header);
    Ok(PoolCounts {
        tiles: header.tiles,
        blocks: header.blocks,
        free: lists.free(pool),
        entries: frame::total_entries(pool, lists),
    })
}

// The most entries that a tile's list had since the opening; or refuses the pool or the tile, in that order.
pub fn high_water(pool: &[u32], tile: Tile) -> Result<u32, Refusal>
    ensures { HighWaterSays pool.now tile.0 (told_mark result) }
{
    let Some(header) = audit::audit(pool) else {
        return Err(Refusal::Unsound);
    };
    if header.tiles <= tile.0 {
        return Err(Refusal::NoTile);
    }
    Ok(lists_of(header).mark(pool, tile))
}

// Empties a tile's list and gives its blocks back: how many these were; or refuses the pool or the tile, in that order.
// It differs from `high_water` in what it is lent: that reads the pool.
pub fn release(pool: &mut [u32], tile: Tile) -> Result<u32, Refusal>
    ensures { ReleaseSays pool.old tile.0 (told_release result) pool.new }
{
    let Some(header) = audit::audit(pool) else {
        return Err(Refusal::Unsound);
    };
    if header.tiles <= tile.0 {
        return Err(Refusal::NoTile);
    }
    Ok(lists_of(header).release(pool, tile))
}

// The rectangle of a tile of the screen, which a question is about; or refuses the screen, the tile or the shape, in that order.
fn ask(screen: Screen, tile: Tile, shape: Shape) -> Result<Rectangle, Refusal>
    ensures { QuestionSays screen tile.0 shape result }
{
    if !screen::allowed(screen) {
        return Err(Refusal::Screen);
    }
    let grid = Grid { screen };
    if grid.tiles() <= tile.0 {
        return Err(Refusal::NoTile);
    }
    if !shape::in_range(shape) {
        return Err(Refusal::OutOfRange);
    }
    Ok(grid.rectangle_at(grid.column_of(tile), grid.row_of(tile)))
}

// What `cover` says of the shape and the rectangle of the tile, where the question is in order.
fn answer<F: Fn(Shape, Rectangle) -> Cover>(
    screen: Screen,
    tile: Tile,
    shape: Shape,
    cover: F,
) -> Result<Cover, Refusal>
    requires { InOrder screen tile.0 shape → F.pre cover shape (rectangle screen tile.0) }
    ensures { AnswerSays (λ r. F.post cover shape (rectangle screen tile.0) r) screen tile.0 shape (told_cover result) }
{
    let rectangle = ask(screen, tile, shape)?;
    Ok(cover(shape, rectangle))
}

// Whether the tile meets the bounding box of the shape, apart or partly; or refuses the screen, the tile or the shape, in that order. It and the next share all
// but the function that they name.
pub fn box_cover(screen: Screen, tile: Tile, shape: Shape) -> Result<Cover, Refusal>
    ensures { BoxSays screen tile.0 shape (told_cover result) }
{
    answer(screen, tile, shape, touch::box_cover)
}

// How the shape covers the tile, apart, partly or wholly; or refuses the screen, the tile or the shape, in that order.
pub fn corner_cover(screen: Screen, tile: Tile, shape: Shape) -> Result<Cover, Refusal>
    ensures { CornerSays screen tile.0 shape (told_cover result) }
{
    answer(screen, tile, shape, touch::corner_cover)
}

// The unit of a coordinate in pixels; or refuses what is infinite or no number, and a unit out of range.
pub fn unit(v: f32) -> Result<i32, Refusal>
    ensures { UnitSays v (told_unit result) }
{
    let snapped = snap::snap(v);
    let Ok(unit) = snapped else {
        return Err(snapped.unwrap_err());
    };
    Ok(unit)
}

// The totals over a list of shapes, seven words to a shape, of their tiles by box and by touching; or refuses the screen or the list, in that order.
pub fn overlaps(list: &[i32], screen: Screen) -> Result<Totals, Refusal>
    ensures { OverlapsSays list.now screen (told_totals result) }
{
    if !screen::allowed(screen) {
        return Err(Refusal::Screen);
    }
    shapes::check(list, shapes::WORDS)?;
    Ok(overlaps::totals_of(Grid { screen }, list))
}

// Writes the map of a whole-number shape, a byte for each tile, 1 where the shape touches it and 0 elsewhere; bytes past the tiles stay. Or refuses the screen,
// the shape, or too few bytes, in that order, with no byte written.
pub fn map(screen: Screen, shape: Shape, map: &mut [u8]) -> Result<(), Refusal>
    ensures { MapSays screen shape map.old (number_in result) map.new }
{
    quarters::map(screen, shape, map)
}

// Whether the one shape of the first list lies inside that of the second, seven words each; or refuses a list, or a shape, in that order.
pub fn inside(first: &[i32], second: &[i32]) -> Result<bool, Refusal>
    ensures { InsideSays first.now second.now (nested result) }
{
    inside::inside(first, second)
}
