// From bytes to words, four to a word, the lowest first.
ghost use Rattle.std.specs.Prelude.{◌≡◌, ◌+◌, ◌*◌, ◌<◌, ◌≤◌, length, take};
ghost use Rattle.io.specs.Counts.{IsPrefixLen};
ghost use Rattle.lister.specs.Bytes.{word_of, word_at, words_of};

// Four bytes, the lowest first.
fn word(a: u8, b: u8, c: u8, d: u8) -> u32
    ensures { result ≡ word_of a b c d }
{
    u32::from_le_bytes([a, b, c, d])
}

// The word that starts at a byte.
fn word_at(bytes: &[u8], at: usize) -> u32
    requires { at + 3 < length bytes.now }
    ensures { result ≡ word_at bytes.now at }
{
    word(bytes[at], bytes[at + 1], bytes[at + 2], bytes[at + 3])
}

// Puts the words that the bytes say at the start of `words`, and answers how many there are. Up to three bytes that are left over say nothing.
pub fn words_from(bytes: &[u8], words: &mut [u32]) -> usize
    requires { length bytes.now ≤ 4 * length words.old }
    ensures within { IsPrefixLen result words.new }
    ensures whole { take result words.new ≡ words_of bytes.now }
{
    let count = bytes.len() / 4;
    // By index: of a slice that is lent item by item a proof knows no word afterwards.
    for k in 0..count {
        words[k] = word_at(bytes, 4 * k);
    }
    count
}
