#![tactic(auto)]
// Document 01's pool case: a screen of 64 by 32, s = 4, two blocks, in a slice of 108 words that held something else. Writes what each opening
// answers, and every word that it leaves.
use pool::Edition;
use screen::Screen;
use std::io;

// A line: a name, and words.
fn row(rt: &impl Print, name: &str, words: &[u32]) -> io::Result<()> {
    print!(rt; "{name}")?;
    for word in words {
        print!(rt; " {word}")?;
    }
    println!(rt)
}

// A line: a name, and the number that an opening answers.
fn opening(
    rt: &impl Print,
    name: &str,
    words: &mut [u32],
    screen: Screen,
    blocks: u32,
) -> io::Result<()> {
    println!(rt;
        "{name} {}",
        numbers::number_in(&pool::open(words, screen, blocks))
    )
}

fn main(rt: HostRuntime) -> io::Result<()> {
    let screen = Screen {
        width: 64,
        height: 32,
        s: 4,
    };
    let flat = Screen {
        height: 0,
        ..screen
    };
    let mut words = [7; 108];
    let mut short = [7; 103];
    opening(&rt, "no height:", &mut words, flat, 2)?;
    opening(&rt, "no height, too many blocks:", &mut words, flat, 2049)?;
    opening(&rt, "too many blocks:", &mut words, screen, 2049)?;
    opening(&rt, "one word too short:", &mut short, screen, 2)?;
    row(&rt, "as before:", &words[..8])?;
    println!(rt; "words needed: {}", Edition::ONE.room(8, 2))?;
    opening(&rt, "opened:", &mut words, screen, 2)?;
    row(&rt, "header:", &words[..8])?;
    row(&rt, "tiles:", &words[8..40])?;
    row(&rt, "block 0:", &words[40..72])?;
    row(&rt, "block 1:", &words[72..104])?;
    row(&rt, "tail:", &words[104..])?;
    opening(&rt, "opened without blocks:", &mut words, screen, 0)?;
    row(&rt, "header:", &words[..8])
}
