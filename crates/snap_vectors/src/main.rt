#![tactic(auto)]
// Runs the table of document 01, and further coordinates and shapes, through `snap`. Writes a line for each: what was given, and the answer.
use shape::Shape;
use snap::{PixelShape, PixelVertex};
use std::io;

const INFINITY: f32 = 1.0 / 0.0;

// The table of document 01.
const TABLE: [(&str, f32); 6] = [
    ("0.03125", 0.03125),
    ("-0.03125", -0.03125),
    ("-0.0", -0.0),
    ("0.09375", 0.09375),
    ("16383.96875", 16383.96875),
    ("-16384.03125", -16384.03125),
];

// From zero to the smallest normal number.
const AROUND_ZERO: [(&str, f32); 5] = [
    ("0.0", 0.0),
    ("smallest subnormal", 1.0e-45),
    ("smallest subnormal, negative", -1.0e-45),
    ("largest subnormal", 1.1754942e-38),
    ("smallest normal, negative", -1.1754944e-38),
];

// Halves of a unit go to the even one.
const HALVES: [(&str, f32); 5] = [
    ("-0.09375", -0.09375),
    ("0.15625", 0.15625),
    ("-0.15625", -0.15625),
    ("0.21875", 0.21875),
    ("-0.21875", -0.21875),
];

// What stands beside a half goes to the nearer one.
const BESIDE_HALVES: [(&str, f32); 5] = [
    ("just below half a unit", 0.031249998),
    ("just above half a unit", 0.031250004),
    ("just above half a unit, negative", -0.031250004),
    ("just below one and a half", 0.09374999),
    ("just above two and a half", 0.15625001),
];

const WHOLE_UNITS: [(&str, f32); 4] = [
    ("0.0625", 0.0625),
    ("-0.0625", -0.0625),
    ("1.0", 1.0),
    ("-1234.5", -1234.5),
];

// The upper end of the range, and what stands beside it.
const UPPER_END: [(&str, f32); 5] = [
    ("16383.9375", 16383.9375),
    ("just below 16383.96875", 16383.967773),
    ("just above 16383.96875", 16383.969727),
    ("16384.0", 16384.0),
    ("32768.0", 32768.0),
];

// The lower end of the range, and what stands beside it.
const LOWER_END: [(&str, f32); 4] = [
    ("-16384.0", -16384.0),
    ("just above -16384.03125", -16384.029297),
    ("just below -16384.03125", -16384.033203),
    ("-32768.0", -32768.0),
];

// Where the product is the largest, and where it is infinite.
const LARGE: [(&str, f32); 4] = [
    ("largest with a finite product", 2.1267647e37),
    ("smallest with an infinite product", 2.1267648e37),
    ("largest finite", 3.4028235e38),
    ("largest finite, negative", -3.4028235e38),
];

const NOT_FINITE: [(&str, f32); 4] = [
    ("infinity", INFINITY),
    ("infinity, negative", -INFINITY),
    ("infinity less infinity", INFINITY - INFINITY),
    ("zero by zero", 0.0 / 0.0),
];

// A line for each coordinate: its name, and the answer.
fn coordinates(rt: &impl Print, given: &[(&str, f32)]) -> io::Result<()> {
    for (name, v) in given {
        match snap::snap(*v) {
            Ok(unit) => println!(rt; "{name} {unit}")?,
            Err(refusal) => println!(rt; "{name} refused {}", refusal.number())?,
        }
    }
    Ok(())
}

fn at(x: f32, y: f32) -> PixelVertex {
    PixelVertex { x, y }
}

// A line for a shape: its name, and the answer.
fn shape(rt: &impl Print, name: &str, given: PixelShape) -> io::Result<()> {
    match snap::snap_shape(given) {
        Ok(Shape::Point(a)) => println!(rt; "{name} point {} {}", a.x, a.y),
        Ok(Shape::Line(a, b)) => println!(rt; "{name} line {} {} {} {}", a.x, a.y, b.x, b.y),
        Ok(Shape::Triangle(a, b, c)) => println!(rt;
            "{name} triangle {} {} {} {} {} {}",
            a.x, a.y, b.x, b.y, c.x, c.y
        ),
        Err(refusal) => println!(rt; "{name} refused {}", refusal.number()),
    }
}

fn point(rt: &impl Print, name: &str, a: PixelVertex) -> io::Result<()> {
    shape(rt, name, PixelShape::Point(a))
}

fn line(rt: &impl Print, name: &str, a: PixelVertex, b: PixelVertex) -> io::Result<()> {
    shape(rt, name, PixelShape::Line(a, b))
}

// A triangle whose first vertex is at the origin.
fn triangle(rt: &impl Print, name: &str, b: PixelVertex, c: PixelVertex) -> io::Result<()> {
    shape(rt, name, PixelShape::Triangle(at(0.0, 0.0), b, c))
}

fn whole_shapes(rt: &impl Print) -> io::Result<()> {
    point(rt, "a point", at(-0.0, 16383.9375))?;
    line(rt, "a line", at(1.5, -2.25), at(0.03125, 0.09375))?;
    triangle(rt, "a triangle", at(64.0, 0.0), at(0.0, -32.0))
}

// The first coordinate that is refused decides: x before y, and vertices in order.
fn refused_shapes(rt: &impl Print) -> io::Result<()> {
    point(rt, "x infinite, y far", at(INFINITY, 16384.0))?;
    point(rt, "x far, y infinite", at(16384.0, INFINITY))?;
    point(rt, "only y far", at(0.0, 16384.0))?;
    line(
        rt,
        "first y far, second x infinite",
        at(0.0, 16384.0),
        at(INFINITY, 0.0),
    )?;
    line(
        rt,
        "second x infinite, y far",
        at(0.0, 0.0),
        at(INFINITY, 16384.0),
    )?;
    triangle(
        rt,
        "second y far, third x infinite",
        at(0.0, 16384.0),
        at(INFINITY, 0.0),
    )?;
    triangle(
        rt,
        "third x far, y infinite",
        at(1.0, 1.0),
        at(16384.0, INFINITY),
    )
}

fn main(rt: HostRuntime) -> io::Result<()> {
    coordinates(&rt, &TABLE)?;
    coordinates(&rt, &AROUND_ZERO)?;
    coordinates(&rt, &HALVES)?;
    coordinates(&rt, &BESIDE_HALVES)?;
    coordinates(&rt, &WHOLE_UNITS)?;
    coordinates(&rt, &UPPER_END)?;
    coordinates(&rt, &LOWER_END)?;
    coordinates(&rt, &LARGE)?;
    coordinates(&rt, &NOT_FINITE)?;
    whole_shapes(&rt)?;
    refused_shapes(&rt)
}
