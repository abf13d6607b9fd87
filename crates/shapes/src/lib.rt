#![tactic(auto)]
// Lent lists of shapes: so many i32 words to a shape, of which the first seven are its kind, 1 for a point, 2 for a line, 3 for a triangle, and six
// coordinates. Those of a vertex that the kind does not have are 0.
ghost use Rattle.std.specs.Prelude.{◌≡◌, ℕ, ◌+◌, ◌≤◌, ◌<◌, pos, length, get_or};
ghost use Rattle.numbers.specs.Says.{Says};
ghost use Rattle.shapes.specs.Shapes.{words_from, RightWords, shape_from, CheckSays};

use numbers::Refusal;
use shape::{Shape, Vertex};

const MOST_SHAPES: usize = 1048576;

// The words that say a shape: its kind and six coordinates.
pub const WORDS: usize = 7;

// Whether all words are 0.
fn all_zero(words: &[i32]) -> bool
    ensures { Says result ((k : ℕ) → k < length words.now → get_or words.now k (pos 0) ≡ pos 0) }
{
    words.iter().all(|word| *word == 0)
}

// Whether the first words of those of a shape are right: its kind and its unused coordinates.
fn right(words: &[i32]) -> bool
    requires { 7 ≤ length words.now }
    ensures { Says result (RightWords (words_from words.now 0)) }
{
    let kind = words[0];
    // The kinds stay numbers: they are the words of the C interface.
    match kind {
        1 => all_zero(&words[3..WORDS]),
        2 => all_zero(&words[5..WORDS]),
        3 => true,
        _ => false,
    }
}

// The shape whose words start at a place: for a kind up to 1 a point, for 2 a line, for another a triangle.
pub fn shape_at(list: &[i32], at: usize) -> Shape
    requires { at + 7 ≤ length list.now }
    ensures { result ≡ shape_from (words_from list.now at) }
{
    // The kind stays a number: it is a word of the C interface.
    let kind = list[at];
    let a = Vertex {
        x: list[at + 1],
        y: list[at + 2],
    };
    let b = Vertex {
        x: list[at + 3],
        y: list[at + 4],
    };
    let c = Vertex {
        x: list[at + 5],
        y: list[at + 6],
    };
    match kind {
        i32::MIN..=1 => Shape::Point(a),
        2 => Shape::Line(a, b),
        _ => Shape::Triangle(a, b, c),
    }
}

// How many shapes there are in a list of so many words to a shape, where it is right. Callees ask that it is by a clause, which speaks of a lent list and of the
// words to a shape, seven or eight.
pub fn check(list: &[i32], size: usize) -> Result<usize, Refusal>
    requires { 7 ≤ size }
    ensures { CheckSays size list.now result }
{
    let words = list.len();
    let count = words / size;
    if words % size != 0 || MOST_SHAPES < count {
        return Err(Refusal::BadList);
    }
    if list.chunks_exact(size).all(right) {
        Ok(count)
    } else {
        Err(Refusal::BadList)
    }
}
