#![tactic(auto)]
// Shapes in f32 pixels to shapes in whole units, a sixteenth of a pixel each. A coordinate's unit is the whole number nearest to
// sixteen times it, a half going to the even one. Every f32 is answered: no public function asks anything. Answers are opened by `let .. else`, and a refusal
// is returned early: rule L4 has it so.
ghost use Rattle.std.specs.Prelude.{◌≡◌, not, T};
ghost use Rattle.std.specs.Float.Ieee.{is_nan};
ghost use Rattle.std.specs.Float.Ieee.Scale.{finite as is_finite};
ghost use Rattle.snap.specs.Scaled.{Scaled};
ghost use Rattle.snap.specs.Unit.{accept, rounded_of, unit_of};
ghost use Rattle.snap.specs.Shapes.{vertex_of, point_of, line_of, triangle_of, shape_of};

use numbers::Refusal;
use shape::{Shape, Vertex};

// A vertex in pixels; x to the right, y down. Document 01 names this form and that of `PixelShape`, so that neither is an instance of a generic one.
#[derive(Clone, Copy)]
pub struct PixelVertex {
    pub x: f32,
    pub y: f32,
}

#[derive(Clone, Copy)]
pub enum PixelShape {
    Point(PixelVertex),
    Line(PixelVertex, PixelVertex),
    Triangle(PixelVertex, PixelVertex, PixelVertex),
}

// No number of units above this size rounds into range, while 262,144.5 below zero still does. Up to it the sum with `SHIFT` lies
// from 2^23 to 2^24.
const LARGEST: f32 = 524_288.0;

// 1.5 * 2^23. From 2^23 to 2^24 the f32 are the whole numbers, so that the sum is rounded to one and the difference is exact; and as
// this is even, a half goes to the even one.
const SHIFT: f32 = 12_582_912.0;

// Whether v is a number and no infinity.
fn finite(v: f32) -> bool
    ensures { result ≡ is_finite v }
{
    let infinity = 1.0 / 0.0;
    -infinity < v && v < infinity
}

// Sixteen times v: exact wherever the product is finite, and an infinity where it is too large for an f32.
fn scaled(v: f32) -> f32
    ensures { Scaled v result }
{
    v * 16.0
}

// The unit where it is in range.
fn accepted(unit: i32) -> Result<i32, Refusal>
    ensures { result ≡ accept unit }
{
    if !shape::unit_in_range(unit) {
        return Err(Refusal::OutOfRange);
    }
    Ok(unit)
}

// The whole number nearest to a number of units, a half to the even one. It is out of range where the number is infinite.
fn rounded(units: f32) -> Result<i32, Refusal>
    requires { T (not (is_nan units)) }
    ensures { result ≡ rounded_of units }
{
    if units < -LARGEST || LARGEST < units {
        return Err(Refusal::OutOfRange);
    }
    let sum = units + SHIFT;
    let whole = sum - SHIFT;
    let unit = whole as i32;
    accepted(unit)
}

// The unit of a coordinate. It is out of range too where the product of a finite coordinate is infinite.
pub fn snap(v: f32) -> Result<i32, Refusal>
    ensures { result ≡ unit_of v }
{
    let units = scaled(v);
    if !finite(v) {
        return Err(Refusal::NotFinite);
    }
    rounded(units)
}

// A vertex in units, or the first refusal, x before y.
fn snap_vertex(vertex: PixelVertex) -> Result<Vertex, Refusal>
    ensures { result ≡ vertex_of vertex }
{
    let first = snap(vertex.x);
    let Ok(x) = first else {
        return Err(first.unwrap_err());
    };
    let second = snap(vertex.y);
    let Ok(y) = second else {
        return Err(second.unwrap_err());
    };
    Ok(Vertex { x, y })
}

// A point in units, or the first refusal.
fn snap_point(a: PixelVertex) -> Result<Shape, Refusal>
    ensures { result ≡ point_of a }
{
    let first = snap_vertex(a);
    let Ok(p) = first else {
        return Err(first.unwrap_err());
    };
    Ok(Shape::Point(p))
}

// A line in units, or the first refusal.
fn snap_line(a: PixelVertex, b: PixelVertex) -> Result<Shape, Refusal>
    ensures { result ≡ line_of a b }
{
    let first = snap_vertex(a);
    let Ok(p) = first else {
        return Err(first.unwrap_err());
    };
    let second = snap_vertex(b);
    let Ok(q) = second else {
        return Err(second.unwrap_err());
    };
    Ok(Shape::Line(p, q))
}

// A triangle in units, or the first refusal.
fn snap_triangle(a: PixelVertex, b: PixelVertex, c: PixelVertex) -> Result<Shape, Refusal>
    ensures { result ≡ triangle_of a b c }
{
    let first = snap_vertex(a);
    let Ok(p) = first else {
        return Err(first.unwrap_err());
    };
    let second = snap_vertex(b);
    let Ok(q) = second else {
        return Err(second.unwrap_err());
    };
    let third = snap_vertex(c);
    let Ok(r) = third else {
        return Err(third.unwrap_err());
    };
    Ok(Shape::Triangle(p, q, r))
}

// A shape in units. Its vertices are taken in order, and the first refusal is returned at once.
pub fn snap_shape(shape: PixelShape) -> Result<Shape, Refusal>
    ensures { result ≡ shape_of shape }
{
    match shape {
        PixelShape::Point(a) => snap_point(a),
        PixelShape::Line(a, b) => snap_line(a, b),
        PixelShape::Triangle(a, b, c) => snap_triangle(a, b, c),
    }
}
