#![tactic(auto)]
// Runs the twelve marked cases through bin and through the two questions how a shape covers a tile, each on a freshly opened pool of the screen 64 by 32 with
// s = 4, then the cases of the screen 60 by 32, and then the pool case to its end. Writes for each marked case the tiles listed, those by corner and those by
// box, with a star behind those that are wholly covered.
use calls::{Binned, Found};
use numbers::{Refusal, number_in};
use screen::{Screen, Tile};
use shape::{Shape, Vertex};
use std::io;
use touch::Cover;

fn at(x: i32, y: i32) -> Vertex {
    Vertex { x, y }
}

fn point(x: i32, y: i32) -> Shape {
    Shape::Point(at(x, y))
}

fn line(ax: i32, ay: i32, bx: i32, by: i32) -> Shape {
    Shape::Line(at(ax, ay), at(bx, by))
}

fn triangle(ax: i32, ay: i32, bx: i32, by: i32, cx: i32, cy: i32) -> Shape {
    Shape::Triangle(at(ax, ay), at(bx, by), at(cx, cy))
}

// The number of the answer, and the tiles and blocks of a bin, which are 0 where it is refused.
fn write_binned(rt: &impl Print, answer: Result<Binned, Refusal>) -> io::Result<()> {
    let number = number_in(&answer);
    let binned = answer.unwrap_or_default();
    print!(rt;
        "bin {number}, tiles {}, blocks {}",
        binned.tiles, binned.blocks
    )
}

// The tile's number where the answer is not apart, and a star behind it where the tile is wholly covered.
fn write_cover(rt: &impl Print, tile: u32, answer: Result<Cover, Refusal>) -> io::Result<()> {
    match answer {
        Ok(Cover::Partly) => print!(rt; " {tile}"),
        Ok(Cover::Wholly) => print!(rt; " {tile}*"),
        _ => Ok(()),
    }
}

// The same of a tile whose list begins with the id 7.
fn write_found(rt: &impl Print, tile: u32, answer: Result<Found, Refusal>) -> io::Result<()> {
    match answer {
        Ok(
            Found {
                id: 7,
                whole: false,
            },
        ) => print!(rt; " {tile}"),
        Ok(Found { id: 7, whole: true }) => print!(rt; " {tile}*"),
        _ => Ok(()),
    }
}

// A line for a shape: what opening and bin answer, and the tiles listed, by corner and by box.
fn run(rt: &impl Print, name: &str, width: u32, shape: Shape) -> io::Result<()> {
    let screen = Screen {
        width,
        height: 32,
        s: 4,
    };
    let mut pool = [0; 296];
    print!(rt;
        "{name}: open {}, ",
        number_in(&calls::open(&mut pool, screen, 8))
    )?;
    write_binned(rt, calls::bin(&mut pool, shape, 7))?;
    print!(rt; "; listed")?;
    for t in 0..8 {
        write_found(rt, t, calls::read(&pool, Tile(t), 0))?;
    }
    print!(rt; "; corner")?;
    for t in 0..8 {
        write_cover(rt, t, calls::corner_cover(screen, Tile(t), shape))?;
    }
    print!(rt; "; box")?;
    for t in 0..8 {
        write_cover(rt, t, calls::box_cover(screen, Tile(t), shape))?;
    }
    println!(rt)
}

// The eight words of the header.
fn write_header(rt: &impl Print, pool: &[u32; 104]) -> io::Result<()> {
    print!(rt; "header")?;
    for word in &pool[..8] {
        print!(rt; " {word}")?;
    }
    println!(rt)
}

// A line: a name, and what the bin of a shape answers.
fn write_bin(
    rt: &impl Print,
    pool: &mut [u32],
    name: &str,
    shape: Shape,
    id: u32,
) -> io::Result<()> {
    print!(rt; "{name}: ")?;
    write_binned(rt, calls::bin(pool, shape, id))?;
    println!(rt)
}

// The pool case: two blocks, a bin that takes one, a bin that needs three, and a release.
fn pool_case(rt: &impl Print) -> io::Result<()> {
    let screen = Screen {
        width: 64,
        height: 32,
        s: 4,
    };
    let mut pool = [0; 104];
    if let Err(refusal) = calls::open(&mut pool, screen, 2) {
        return println!(rt; "open {}", refusal.number());
    }
    let opened = pool;
    write_header(rt, &pool)?;
    let mut before = pool;
    write_bin(rt, &mut pool, "id 7 at (0, 0)", point(0, 0), 7)?;
    write_bin(rt, &mut before, "the same in another pool", point(0, 0), 7)?;
    write_header(rt, &pool)?;
    write_bin(rt, &mut pool, "id 9 at (256, 256)", point(256, 256), 9)?;
    let same = pool == before;
    println!(rt;
        "{} as before",
        if same { "every word" } else { "some word not" }
    )?;
    let released = calls::release(&mut pool, Tile(0));
    println!(rt;
        "release of tile 0: {}, blocks {}",
        number_in(&released),
        released.unwrap_or_default()
    )?;
    let mark = calls::high_water(&pool, Tile(0));
    println!(rt;
        "mark of tile 0: {}, entries {}",
        number_in(&mark),
        mark.unwrap_or_default()
    )?;
    for (i, (word, was)) in pool.iter().zip(&opened).enumerate() {
        if word != was {
            println!(rt; "word {i} not as opened: {word}")?;
        }
    }
    Ok(())
}

fn main(rt: HostRuntime) -> io::Result<()> {
    let marked = [
        ("M1", point(0, 0)),
        ("M2", point(256, 100)),
        ("M3", point(256, 256)),
        ("M4", point(1024, 10)),
        ("M5", point(1025, 10)),
        ("M6", line(100, 100, 300, 100)),
        ("M7", line(0, 0, 512, 512)),
        ("M8", triangle(0, 0, 512, 512, 256, 256)),
        ("M9", triangle(0, 0, 1024, 0, 0, 512)),
        ("M10", triangle(0, 0, 0, 512, 1024, 0)),
        ("M11", triangle(700, 0, 1024, 0, 1024, 300)),
        ("M12", triangle(-1000, -1000, 5000, -1000, -1000, 5000)),
    ];
    for (name, shape) in marked {
        run(&rt, name, 64, shape)?;
    }
    let narrower = [
        ("past the glass", point(1000, 10)),
        ("at the glass", point(960, 10)),
        ("to the end of the glass", triangle(0, 0, 1920, 0, 0, 1024)),
        ("one unit less", triangle(0, 0, 1919, 0, 0, 1024)),
    ];
    for (name, shape) in narrower {
        print!(rt; "60 by 32, ")?;
        run(&rt, name, 60, shape)?;
    }
    pool_case(&rt)
}
