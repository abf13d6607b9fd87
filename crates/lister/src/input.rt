// Standard input, read into a buffer.
ghost use Rattle.lister.specs.Answer.{Within};

use std::io;
use std::io::Read;

// Reads until the input ends or the buffer is full, and answers how many bytes stand at its start; or the error of the first read that fails.
pub fn read_input<R: Read>(reader: &mut R, buffer: &mut [u8]) -> io::Result<usize>
    ensures { Within result buffer.new }
{
    let mut done = 0;
    // A `while`: a read says how far it goes.
    while done < buffer.len() {
        let more = reader.read(&mut buffer[done..])?;
        if more == 0 {
            break;
        }
        done += more;
    }
    Ok(done)
}
