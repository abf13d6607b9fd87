#![tactic(auto)]
// How a shape covers a closed rectangle: whether its bounding box meets it, and exactly, by the corners of the rectangle: apart, partly or wholly.
// The exact test comes in parts, so that what is the same for all rectangles, or for those of a row, is computed once.
ghost use Rattle.std.specs.Prelude.{◌≡◌, true};
ghost use Rattle.numbers.specs.Says.{Says};
ghost use Rattle.screen.specs.Rectangle.{Proper, HasArea};
ghost use Rattle.shape.specs.Shape.{InRange, Placed};
ghost use Rattle.touch.specs.Corner.{three, triangle, bounds, Overlap, Box};
ghost use Rattle.touch.specs.Edges.{AllPlaced, edge_of, edges_of, starts, Outline, row_edge, row_edges, Within, EdgeRange, RowEdgeRange, RowEdgesRange};
ghost use Rattle.touch.specs.Cover.{CoverSays, BoxCoverSays, is_touched, is_whole};
ghost use Rattle.touch.specs.Look.{OnSideOf, SideSays, InwardOf, InwardSays, whole_or_part};
ghost use Rattle.touch.specs.Inner.{AllApart, AllOnSide, corners_at, ends_at, Outer, Inner, CoverAt};

use screen::Rectangle;
use shape::{Shape, Vertex};

// Three vertices: those of a triangle, or of a line or a point with the last one repeated.
#[derive(Clone, Copy)]
pub struct Three {
    pub a: Vertex,
    pub b: Vertex,
    pub c: Vertex,
}

// A bounding box: from left to right and from top to bottom, all four sides included. It is no `Rectangle`: its sides are coordinates, and definitions make both.
#[derive(Clone, Copy)]
pub struct Bounds {
    pub left: i32,
    pub right: i32,
    pub top: i32,
    pub bottom: i32,
}

// An edge: where it starts, the differences to its end, and the edge value of the third vertex.
#[derive(Clone, Copy)]
pub struct Edge {
    pub x: i64,
    pub y: i64,
    pub dx: i64,
    pub dy: i64,
    pub third: i64,
}

// The three edges of a shape. It is a type of its own beside `RowEdges` and `Inward`: definitions of three crates name them, and have no short name for an
// instance of a generic one.
#[derive(Clone, Copy)]
pub struct Edges {
    pub ab: Edge,
    pub bc: Edge,
    pub ca: Edge,
}

// An edge in a row: upper and lower are the parts of its edge values that the top and the bottom of the row decide.
#[derive(Clone, Copy)]
pub struct RowEdge {
    pub x: i64,
    pub dy: i64,
    pub third: i64,
    pub upper: i64,
    pub lower: i64,
}

// The three edges of a shape in a row.
#[derive(Clone, Copy)]
pub struct RowEdges {
    pub ab: RowEdge,
    pub bc: RowEdge,
    pub ca: RowEdge,
}

// Edges and bounding box of three vertices in range: what is computed of a shape once.
#[derive(Clone, Copy)]
pub struct Figure {
    pub edges: Edges,
    pub around: Bounds,
    pub ghost outline: { Outline edges },
    pub ghost boxed: { around ≡ bounds (starts edges) },
}

// The edges of a shape in a row.
#[derive(Clone, Copy)]
pub struct Row {
    pub edges: RowEdges,
    pub ghost sized: { RowEdgesRange edges },
}

// The least and the greatest of the edge values at the four corners of a rectangle.
#[derive(Clone, Copy)]
pub struct Ends {
    pub least: i64,
    pub greatest: i64,
}

// The edge values at the four corners of a rectangle: left and right at the top, left and right at the bottom.
#[derive(Clone, Copy)]
struct Corners {
    p: i64,
    q: i64,
    r: i64,
    s: i64,
}

// Which edges of a shape have a rectangle on their inner side.
#[derive(Clone, Copy)]
pub struct Inward {
    pub ab: bool,
    pub bc: bool,
    pub ca: bool,
}

// What a look at a rectangle tells: how the shape covers it, and edges that have it on their inner side: those that were known, where it is apart. The cover is
// what is asked first, so that an Option of the edges would say it twice.
#[derive(Clone, Copy)]
pub struct Looked {
    pub cover: Cover,
    pub inward: Inward,
}

// How a shape covers a rectangle: it touches it nowhere, or not all four corners are points of it, or all four are.
#[derive(Clone, Copy)]
pub enum Cover {
    Apart,
    Partly,
    Wholly,
}

// The vertices of a shape, three of them.
pub fn three_of(shape: Shape) -> Three
    ensures { result ≡ three shape }
{
    match shape {
        Shape::Point(a) => Three { a, b: a, c: a },
        Shape::Line(a, b) => Three { a, b, c: b },
        Shape::Triangle(a, b, c) => Three { a, b, c },
    }
}

// The bounding box of three vertices.
pub fn bounds_of(vertices: Three) -> Bounds
    ensures { result ≡ bounds vertices }
{
    let Three { a, b, c } = vertices;
    Bounds {
        left: a.x.min(b.x.min(c.x)),
        right: a.x.max(b.x.max(c.x)),
        top: a.y.min(b.y.min(c.y)),
        bottom: a.y.max(b.y.max(c.y)),
    }
}

// Whether the box and the rectangle have a point in common.
fn overlap(around: Bounds, rectangle: Rectangle) -> bool
    ensures { Says result (Overlap around rectangle) }
{
    ((rectangle.left <= around.right as i64) & (around.left as i64 <= rectangle.right))
        & ((rectangle.top <= around.bottom as i64) & (around.top as i64 <= rectangle.bottom))
}

// Whether the rectangle meets the shape's bounding box.
fn box_touches(shape: Shape, rectangle: Rectangle) -> bool
    ensures { Says result (Box shape rectangle) }
{
    overlap(bounds_of(three_of(shape)), rectangle)
}

// What the bounding box says of the rectangle: partly where it meets it, and else apart.
pub fn box_cover(shape: Shape, rectangle: Rectangle) -> Cover
    ensures { BoxCoverSays result shape rectangle }
{
    if box_touches(shape, rectangle) {
        Cover::Partly
    } else {
        Cover::Apart
    }
}

// The edge from a to b, with the edge value of c. Its range is asked by a clause, since definitions make an edge of any vertices.
fn edge_of(a: Vertex, b: Vertex, c: Vertex) -> Edge
    requires { (Placed a) × (Placed b) × (Placed c) }
    ensures { result ≡ edge_of a b c }
{
    let x = a.x as i64;
    let y = a.y as i64;
    let dx = b.x as i64 - x;
    let dy = b.y as i64 - y;
    let third = (c.x as i64 - x) * dy - (c.y as i64 - y) * dx;
    Edge {
        x,
        y,
        dx,
        dy,
        third,
    }
}

// The three edges, each with the edge value of the vertex that it lacks.
fn edges_of(vertices: Three) -> Edges
    requires { AllPlaced vertices }
    ensures { result ≡ edges_of vertices }
{
    let Three { a, b, c } = vertices;
    Edges {
        ab: edge_of(a, b, c),
        bc: edge_of(b, c, a),
        ca: edge_of(c, a, b),
    }
}

// An edge, in the row from top to bottom. The sides stay plain numbers, since the definitions subtract them.
fn row_edge(edge: Edge, top: i64, bottom: i64) -> RowEdge
    requires { (EdgeRange edge) × (Within 524288 top) × (Within 524288 bottom) }
    ensures { result ≡ row_edge edge top bottom }
{
    RowEdge {
        x: edge.x,
        dy: edge.dy,
        third: edge.third,
        upper: (top - edge.y) * edge.dx,
        lower: (bottom - edge.y) * edge.dx,
    }
}

// The edges and the bounding box of three vertices.
pub fn figure_of(vertices: Three) -> Figure
    requires { AllPlaced vertices }
    ensures { result.edges ≡ edges_of vertices }
{
    Figure {
        edges: edges_of(vertices),
        around: bounds_of(vertices),
    }
}

// The least and the greatest edge value at the corners, in the row from left to right. An edge value is what its column gives less what its row gives, so that
// the lesser of two columns and the greater of two rows give the least.
fn ends_at(edge: RowEdge, left: i64, right: i64) -> Ends
    requires { (RowEdgeRange edge) × (Within 524288 left) × (Within 524288 right) }
    ensures { result ≡ ends_at edge left right }
{
    let near = (left - edge.x) * edge.dy;
    let far = (right - edge.x) * edge.dy;
    Ends {
        least: near.min(far) - edge.upper.max(edge.lower),
        greatest: near.max(far) - edge.upper.min(edge.lower),
    }
}

// Whether the four corners lie strictly on a side of the edge on which the third vertex does not lie.
fn outer(edge: RowEdge, ends: Ends) -> bool
    ensures { Says result (Outer edge.third ends) }
{
    let third = edge.third;
    let above = (third <= 0) & (0 < ends.least);
    let below = (0 <= third) & (ends.greatest < 0);
    above | below
}

// Whether the third vertex does not lie on the edge, and each of the four corners lies on its side or on the edge.
fn inner(edge: RowEdge, ends: Ends) -> bool
    ensures { Says result (Inner edge.third ends) }
{
    let third = edge.third;
    let over = (0 < third) & (0 <= ends.least);
    let under = (third < 0) & (ends.greatest <= 0);
    over | under
}

// The edge values at the four corners of what lies in the row from left to right.
fn corners_at(edge: RowEdge, left: i64, right: i64) -> Corners
    requires { (RowEdgeRange edge) × (Within 524288 left) × (Within 524288 right) }
    ensures { result ≡ corners_at edge left right }
{
    let near = (left - edge.x) * edge.dy;
    let far = (right - edge.x) * edge.dy;
    Corners {
        p: near - edge.upper,
        q: far - edge.upper,
        r: near - edge.lower,
        s: far - edge.lower,
    }
}

// Whether the signs at the four corners are all of a side on which the third vertex does not lie; zero counts as touching.
fn separates(edge: RowEdge, at: Corners) -> bool
    ensures { Says result (AllApart edge.third at) }
{
    let third = edge.third;
    let all_above = (third <= 0) & (((0 < at.p) & (0 < at.q)) & ((0 < at.r) & (0 < at.s)));
    let all_below = (0 <= third) & (((at.p < 0) & (at.q < 0)) & ((at.r < 0) & (at.s < 0)));
    all_above | all_below
}

// Whether the third vertex does not lie on the edge, and the signs at the four corners are all of its side, or zero.
fn keeps(edge: RowEdge, at: Corners) -> bool
    ensures { Says result (AllOnSide edge.third at) }
{
    let third = edge.third;
    let none_below = (0 < third) & (((0 <= at.p) & (0 <= at.q)) & ((0 <= at.r) & (0 <= at.s)));
    let none_above = (third < 0) & (((at.p <= 0) & (at.q <= 0)) & ((at.r <= 0) & (at.s <= 0)));
    none_below | none_above
}

// How the shape covers the rectangle, by the signs at its four corners.
pub fn corner_cover(shape: Shape, rectangle: Rectangle) -> Cover
    requires { (InRange shape) × (Proper rectangle) × (HasArea rectangle) }
    ensures { CoverSays result shape rectangle }
{
    let figure = figure_of(three_of(shape));
    if overlap(figure.around, rectangle) {
        let row = figure.in_row(rectangle.top, rectangle.bottom);
        row.cover_by_corners(rectangle.left, rectangle.right)
    } else {
        Cover::Apart
    }
}

// Wholly for yes, partly for no.
fn whole_or_part(whole: bool) -> Cover
    ensures { result ≡ whole_or_part whole }
{
    if whole { Cover::Wholly } else { Cover::Partly }
}

// Whether the rectangle lies on the inner side of the edge; nothing where the edge separates it from the shape. Where it is known to, nothing is computed.
fn inner_at(edge: Edge, rectangle: Rectangle, known: bool) -> Option<bool>
    requires { (EdgeRange edge) × (Proper rectangle) × (known ≡ true → OnSideOf edge rectangle) }
    ensures { SideSays result edge rectangle }
{
    if known {
        return Some(true);
    }
    let row = row_edge(edge, rectangle.top, rectangle.bottom);
    let ends = ends_at(row, rectangle.left, rectangle.right);
    if outer(row, ends) {
        return None;
    }
    Some(inner(row, ends))
}

impl Figure {
    // The edges in the row from top to bottom.
    pub fn in_row(self, top: i64, bottom: i64) -> Row
        requires { (Within 524288 top) × (Within 524288 bottom) }
        ensures { result.edges ≡ row_edges self.edges top bottom }
    {
        let Edges { ab, bc, ca } = self.edges;
        Row {
            edges: RowEdges {
                ab: row_edge(ab, top, bottom),
                bc: row_edge(bc, top, bottom),
                ca: row_edge(ca, top, bottom),
            },
        }
    }

    // Which edges have the rectangle on their inner side; nothing where the shape does not touch it.
    fn inward_at(self, known: Inward, rectangle: Rectangle) -> Option<Inward>
        requires proper { Proper rectangle }
        requires inward_of { InwardOf known self.edges rectangle }
        ensures { InwardSays result self.edges rectangle }
    {
        if !overlap(self.around, rectangle) {
            return None;
        }
        let ab = inner_at(self.edges.ab, rectangle, known.ab)?;
        let bc = inner_at(self.edges.bc, rectangle, known.bc)?;
        let ca = inner_at(self.edges.ca, rectangle, known.ca)?;
        Some(Inward { ab, bc, ca })
    }

    // How the shape covers the rectangle; edges that are known to have it on their inner side are not looked at.
    pub fn look(self, known: Inward, rectangle: Rectangle) -> Looked
        requires area { (Proper rectangle) × (HasArea rectangle) }
        requires inward_of { InwardOf known self.edges rectangle }
        ensures cover { CoverSays result.cover (triangle (starts self.edges)) rectangle }
        ensures inward { InwardOf result.inward self.edges rectangle }
    {
        let Some(inward) = self.inward_at(known, rectangle) else {
            return Looked {
                cover: Cover::Apart,
                inward: known,
            };
        };
        let Inward { ab, bc, ca } = inward;
        Looked {
            cover: whole_or_part(ab & bc & ca),
            inward,
        }
    }
}

impl Row {
    // How the shape covers what lies in the row from left to right, where that meets its bounding box: by the least and the greatest value of each edge.
    pub fn cover(self, left: i64, right: i64) -> Cover
        requires { (Within 524288 left) × (Within 524288 right) }
        ensures { CoverAt result self.edges left right }
    {
        let RowEdges { ab, bc, ca } = self.edges;
        let ab_ends = ends_at(ab, left, right);
        if outer(ab, ab_ends) {
            return Cover::Apart;
        }
        let bc_ends = ends_at(bc, left, right);
        if outer(bc, bc_ends) {
            return Cover::Apart;
        }
        let ca_ends = ends_at(ca, left, right);
        if outer(ca, ca_ends) {
            return Cover::Apart;
        }
        whole_or_part(inner(ab, ab_ends) & inner(bc, bc_ends) & inner(ca, ca_ends))
    }

    // The same, by the signs at the four corners.
    fn cover_by_corners(self, left: i64, right: i64) -> Cover
        requires { (Within 524288 left) × (Within 524288 right) }
        ensures { CoverAt result self.edges left right }
    {
        let RowEdges { ab, bc, ca } = self.edges;
        let ab_corners = corners_at(ab, left, right);
        let bc_corners = corners_at(bc, left, right);
        let ca_corners = corners_at(ca, left, right);
        if separates(ab, ab_corners) | separates(bc, bc_corners) | separates(ca, ca_corners) {
            return Cover::Apart;
        }
        whole_or_part(keeps(ab, ab_corners) & keeps(bc, bc_corners) & keeps(ca, ca_corners))
    }
}

impl Cover {
    // Whether an answer is not apart.
    pub fn is_touched(self) -> bool
        ensures { result ≡ is_touched self }
    {
        match self {
            Cover::Apart => false,
            Cover::Partly | Cover::Wholly => true,
        }
    }

    // Whether an answer is wholly.
    pub fn is_whole(self) -> bool
        ensures { result ≡ is_whole self }
    {
        match self {
            Cover::Apart | Cover::Partly => false,
            Cover::Wholly => true,
        }
    }
}
