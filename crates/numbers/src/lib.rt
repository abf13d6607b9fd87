#![tactic(auto)]
// What several crates share: a number in another type, a number and a flag in one word, and why a call is refused.
ghost use Rattle.std.specs.Prelude.{◌≡◌, ◌<◌, ◌^◌};
ghost use Rattle.numbers.specs.Flag.{flag, flagged, plain, is_flagged};
ghost use Rattle.numbers.specs.Refusal.{number_of, number_in};

// Why a call is refused, in the order of the numbers that the rules have for the reasons.
#[derive(Clone, Copy, Debug, PartialEq, Eq)]
pub enum Refusal {
    // 1: the screen is outside the rules.
    Screen,
    // 2: too many blocks, or blocks of a size that there is not.
    Blocks,
    // 3: the slice is too short for the pool.
    ShortPool,
    // 4: the words are no sound pool.
    Unsound,
    // 5: the id is too large.
    Id,
    // 6: a coordinate is infinite or no number.
    NotFinite,
    // 7: a unit is out of range.
    OutOfRange,
    // 8: more blocks are needed than are free.
    NoRoom,
    // 9: there is no such tile.
    NoTile,
    // 10: there is no entry at that place.
    NoPlace,
    // 11: a slice that is lent for the answer is too short.
    ShortSlice,
    // 15: the list of shapes is wrong.
    BadList,
}

impl Refusal {
    // The number that the rules have for the reason.
    pub fn number(self) -> u32
        ensures { result ≡ number_of self }
    {
        match self {
            Refusal::Screen => 1,
            Refusal::Blocks => 2,
            Refusal::ShortPool => 3,
            Refusal::Unsound => 4,
            Refusal::Id => 5,
            Refusal::NotFinite => 6,
            Refusal::OutOfRange => 7,
            Refusal::NoRoom => 8,
            Refusal::NoTile => 9,
            Refusal::NoPlace => 10,
            Refusal::ShortSlice => 11,
            Refusal::BadList => 15,
        }
    }
}

// The number of an answer: 0 where nothing is refused.
pub fn number_in<T: Drop>(answer: &Result<T, Refusal>) -> u32
    ensures { result ≡ number_in answer.now }
{
    match answer {
        Ok(_) => 0,
        Err(refusal) => refusal.number(),
    }
}

// What a set flag adds to a number below it.
const FLAG: u32 = 16777216;

// x, as an index. By hand: there is no `From` from a u32 to a usize, and a `TryFrom` would answer a refusal that cannot come.
pub fn wide(x: u32) -> usize
    ensures { result ≡ x }
{
    x as usize
}

// x, as a word. The caller knows that it is one, and a `TryFrom` would answer a refusal that cannot come.
pub fn narrow(x: usize) -> u32
    requires { x < 2 ^ 32 }
    ensures { result ≡ x }
{
    x as u32
}

// The word of a number and its flag.
pub fn flagged(n: u32, set: bool) -> u32
    requires { n < flag }
    ensures { result ≡ flagged n set }
{
    if set { n + FLAG } else { n }
}

// The number of a word.
pub fn plain(word: u32) -> u32
    ensures { result ≡ plain word }
{
    word % FLAG
}

// The flag of a word.
pub fn is_flagged(word: u32) -> bool
    ensures { result ≡ is_flagged word }
{
    FLAG <= word
}
