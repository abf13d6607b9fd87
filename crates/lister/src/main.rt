#![tactic(auto)]
// Lists a pool of little-endian words, read from standard input: a line for the screen, and one for each tile with entries. `specs/Answer.antt` says what is
// written for any bytes.
mod input;
mod listing;
mod text;
mod words;

ghost use Rattle.std.specs.Prelude.{◌≤◌, ◌<◌, length, take};
ghost use Rattle.io.specs.Counts.{IsPrefixLen};
ghost use Rattle.lister.specs.Answer.{WordsSay, BytesSay, Within, InputSays};

use crate::input::read_input;
use crate::listing::put_listing;
use crate::text::put_text;
use crate::words::words_from;
use std::io;

// The longest input that is listed, in bytes and in words.
const MOST_BYTES: usize = 65536;

const MOST_WORDS: usize = 16384;

// Room for the longest listing.
const MOST_TEXT: usize = 162000;

// Puts the text for these words at the start of `out`, and answers its length.
fn list_words(pool: &[u32], out: &mut [u8]) -> usize
    requires { (length pool.now ≤ 16384) × (162000 ≤ length out.old) }
    ensures within { IsPrefixLen result out.new }
    ensures text { WordsSay pool.now (take result out.new) }
{
    let Some(header) = audit::audit(pool) else {
        return put_text(b"damaged\n", out, 0);
    };
    // No heap: room for the list of one tile.
    let mut list = [0; MOST_WORDS];
    put_listing(pool, header, &mut list, out)
}

// Puts the text for these bytes at the start of `out`, and answers its length.
#[tactic(auto, using(crate::proofs::Said::said_long))]
fn list_bytes(bytes: &[u8], out: &mut [u8]) -> usize
    requires { 162000 ≤ length out.old }
    ensures within { IsPrefixLen result out.new }
    ensures text { BytesSay bytes.now (take result out.new) }
{
    if MOST_BYTES < bytes.len() {
        return put_text(b"too long\n", out, 0);
    }
    if bytes.len() % 4 != 0 {
        return put_text(b"damaged\n", out, 0);
    }
    // No heap: room for the words of the longest input.
    let mut words = [0; MOST_WORDS];
    let count = words_from(bytes, &mut words);
    list_words(&words[..count], out)
}

// Puts the text for what was read at the start of `out`, and answers its length. The buffer is longer than the longest input, so that a longer one is seen.
fn list_input(buffer: &[u8], input: io::Result<usize>, out: &mut [u8]) -> usize
    requires { (65536 < length buffer.now) × (Within input buffer.now) × (162000 ≤ length out.old) }
    ensures within { IsPrefixLen result out.new }
    ensures text { InputSays buffer.now input (take result out.new) }
{
    let Ok(count) = input else {
        return put_text(b"damaged\n", out, 0);
    };
    list_bytes(&buffer[..count], out)
}

// Writes the text for what it reads. Where that fails, a line on standard error says so.
fn main(rt: HostRuntime) {
    // No heap: room for an input that is too long, and for the longest listing.
    let mut buffer = [0u8; MOST_BYTES + 1];
    let input = read_input(&mut rt.stdin(), &mut buffer);
    let mut out = [0u8; MOST_TEXT];
    let end = list_input(&buffer, input, &mut out);
    if rt.write_all(&out[..end]).is_err() {
        let _ = rt.eprintln("lister: the listing was not written to its end");
    }
}
