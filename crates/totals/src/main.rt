#![tactic(auto)]
// Runs the twelve marked cases as one list, behind a shape that is out of range, and writes the totals; then the same list with a wrong kind, with an unused word
// that is not 0, and, as it then is, on a screen outside the rules.
use numbers::Refusal;
use overlaps::Totals;
use screen::Screen;
use std::io;

// A shape out of range, and behind it the marked cases M1 to M12: the kind, and x and y of each vertex.
const SHAPES: [[i32; 7]; 13] = [
    [1, 262144, 0, 0, 0, 0, 0],
    [1, 0, 0, 0, 0, 0, 0],
    [1, 256, 100, 0, 0, 0, 0],
    [1, 256, 256, 0, 0, 0, 0],
    [1, 1024, 10, 0, 0, 0, 0],
    [1, 1025, 10, 0, 0, 0, 0],
    [2, 100, 100, 300, 100, 0, 0],
    [2, 0, 0, 512, 512, 0, 0],
    [3, 0, 0, 512, 512, 256, 256],
    [3, 0, 0, 1024, 0, 0, 512],
    [3, 0, 0, 0, 512, 1024, 0],
    [3, 700, 0, 1024, 0, 1024, 300],
    [3, -1000, -1000, 5000, -1000, -1000, 5000],
];

// A line: a name, the number of an answer, and its totals, which are 0 where it is a refusal.
fn write_totals(rt: &impl Print, name: &str, answer: Result<Totals, Refusal>) -> io::Result<()> {
    let number = numbers::number_in(&answer);
    let totals = answer.unwrap_or_default();
    print!(rt;
        "{name}: number {number}, shapes {}, out of range {}",
        totals.shapes, totals.out_of_range
    )?;
    print!(rt;
        ", by box {}, by touching {}",
        totals.box_tiles, totals.touched_tiles
    )?;
    println!(rt;
        ", difference {}, largest {} at {}",
        totals.difference, totals.largest, totals.place
    )
}

fn main(rt: HostRuntime) -> io::Result<()> {
    let screen = Screen {
        width: 64,
        height: 32,
        s: 4,
    };
    let mut shapes = SHAPES;
    let list = shapes.as_flattened_mut();
    write_totals(&rt, "M1 to M12", calls::overlaps(list, screen))?;
    list[0] = 0;
    write_totals(&rt, "kind 0", calls::overlaps(list, screen))?;
    list[0] = 1;
    list[6] = 1;
    write_totals(&rt, "unused word 1", calls::overlaps(list, screen))?;
    let small = Screen { s: 2, ..screen };
    write_totals(&rt, "no tiles of 4 pixels", calls::overlaps(list, small))
}
