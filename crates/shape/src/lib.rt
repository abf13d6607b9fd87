#![tactic(auto)]
// Shapes whose vertices are whole units: points, lines and triangles, in any winding and with any coincidence of vertices.
ghost use Rattle.numbers.specs.Says.{Says};
ghost use Rattle.shape.specs.Shape.{InUnits, Placed, InRange};

// A vertex in units, a sixteenth of a pixel each; x to the right, y down.
#[derive(Clone, Copy)]
pub struct Vertex {
    pub x: i32,
    pub y: i32,
}

#[derive(Clone, Copy)]
pub enum Shape {
    Point(Vertex),
    Line(Vertex, Vertex),
    Triangle(Vertex, Vertex, Vertex),
}

const LOW: i32 = -262144;

const HIGH: i32 = 262143;

// Whether a number is within the range of a vertex's units.
pub fn unit_in_range(unit: i32) -> bool
    ensures { Says result (InUnits unit) }
{
    if unit < LOW {
        return false;
    }
    if HIGH < unit {
        return false;
    }
    true
}

// Whether both coordinates are in range.
fn placed(vertex: Vertex) -> bool
    ensures { Says result (Placed vertex) }
{
    unit_in_range(vertex.x) & unit_in_range(vertex.y)
}

// Whether every coordinate of the shape is in range. Callees ask it by a clause and not by a type: the fact is by cases on the shape, and a type would have to
// carry a proof that two proofs of it are one.
pub fn in_range(shape: Shape) -> bool
    ensures { Says result (InRange shape) }
{
    match shape {
        Shape::Point(a) => placed(a),
        Shape::Line(a, b) => placed(a) & placed(b),
        Shape::Triangle(a, b, c) => placed(a) & placed(b) & placed(c),
    }
}
