// Text in a buffer, whose place stays beside it: no heap, and the contracts speak of both. Each function puts its text at a place of the buffer, where there is
// room for it, and answers the place after it.
ghost use Rattle.std.specs.Prelude.{◌+◌, ◌≤◌, length};
ghost use Rattle.pool.specs.Written.{Puts};
ghost use Rattle.lister.specs.Text.{numeral, field};

// The text itself.
pub fn put_text(text: &[u8], out: &mut [u8], at: usize) -> usize
    requires { at + length text.now ≤ length out.old }
    ensures { Puts out.old at text.now out.new result }
{
    let end = at + text.len();
    out[at..end].copy_from_slice(text);
    end
}

// The digits of n: those of `io::decimal`, whose contract gives them.
pub fn put_number(n: u32, out: &mut [u8], at: usize) -> usize
    requires { at + length (numeral n) ≤ length out.old }
    ensures { Puts out.old at (numeral n) out.new result }
{
    // No heap: as many digits as a u64 has.
    let mut digits = [0; 20];
    let count = io::decimal(u64::from(n), &mut digits);
    put_text(&digits[..count], out, at)
}

// A name, and the digits of n behind it.
pub fn put_field(name: &[u8], n: u32, out: &mut [u8], at: usize) -> usize
    requires { at + length (field name.now n) ≤ length out.old }
    ensures { Puts out.old at (field name.now n) out.new result }
{
    let named = put_text(name, out, at);
    put_number(n, out, named)
}
