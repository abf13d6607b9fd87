#![tactic(auto)]
// Whether a shape lies inside another: every vertex of the first is a point of the second, whose edges and vertices count.
ghost use Rattle.numbers.specs.Says.{Says};
ghost use Rattle.shape.specs.Shape.{InRange, Placed};
ghost use Rattle.touch.specs.Corner.{triangle};
ghost use Rattle.touch.specs.Edges.{starts, EdgeRange};
ghost use Rattle.touch.specs.Cover.{HasPoint};
ghost use Rattle.inside.specs.Inside.{Inside, OneShape, InsideSays, nested};
ghost use Rattle.inside.specs.Point.{InBox, BeyondEdge};

use numbers::Refusal;
use shape::{Shape, Vertex};
use touch::{Bounds, Edge, Edges, Figure, Three};

// Whether the box has the vertex.
fn in_box(around: Bounds, vertex: Vertex) -> bool
    ensures { Says result (InBox around vertex.x vertex.y) }
{
    ((vertex.x <= around.right) & (around.left <= vertex.x))
        & ((vertex.y <= around.bottom) & (around.top <= vertex.y))
}

// Whether the vertex lies strictly on a side of the edge on which the third vertex does not lie; on the edge itself it does not.
fn beyond_edge(edge: Edge, vertex: Vertex) -> bool
    requires { (EdgeRange edge) × (Placed vertex) }
    ensures { Says result (BeyondEdge edge vertex.x vertex.y) }
{
    let third = edge.third;
    let value = (vertex.x as i64 - edge.x) * edge.dy - (vertex.y as i64 - edge.y) * edge.dx;
    let above = (third <= 0) & (0 < value);
    let below = (0 <= third) & (value < 0);
    above | below
}

// Whether the vertex is a point of the shape of the figure.
fn has_point(figure: Figure, vertex: Vertex) -> bool
    requires { Placed vertex }
    ensures { Says result (HasPoint (triangle (starts figure.edges)) vertex.x vertex.y) }
{
    let Edges { ab, bc, ca } = figure.edges;
    in_box(figure.around, vertex)
        && !beyond_edge(ab, vertex)
        && !beyond_edge(bc, vertex)
        && !beyond_edge(ca, vertex)
}

// Whether every vertex of the first shape is a point of the second.
fn is_inside(first: Shape, second: Shape) -> bool
    requires { (InRange first) × (InRange second) }
    ensures { Says result (Inside first second) }
{
    let outer = touch::figure_of(touch::three_of(second));
    let Three { a, b, c } = touch::three_of(first);
    has_point(outer, a) && has_point(outer, b) && has_point(outer, c)
}

// Whether the list is right and has one shape.
fn one_shape(list: &[i32]) -> bool
    ensures { Says result (OneShape list.now) }
{
    list.len() == shapes::WORDS && shapes::check(list, shapes::WORDS).is_ok()
}

// Whether the one shape of the first list lies inside that of the second; a wrong list is told before a coordinate out of range.
pub fn inside(first: &[i32], second: &[i32]) -> Result<bool, Refusal>
    ensures { InsideSays first.now second.now (nested result) }
{
    if !(one_shape(first) & one_shape(second)) {
        return Err(Refusal::BadList);
    }
    let inner = shapes::shape_at(first, 0);
    let outer = shapes::shape_at(second, 0);
    if !(shape::in_range(inner) & shape::in_range(outer)) {
        return Err(Refusal::OutOfRange);
    }
    Ok(is_inside(inner, outer))
}
