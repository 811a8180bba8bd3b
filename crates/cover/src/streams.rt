// The program's input and output.
ghost use Rattle.std.specs.Prelude.{◌+◌, ◌<◌, length};
ghost use Rattle.rules.specs.Cover.{printed};
ghost use Rattle.io.specs.Counts.{IsPrefixLen};
ghost use Rattle.knuth.specs.Written.{Due, Moved};

use crate::print::Buffer;
use std::io::Read;

// Reads until the input ends or the buffer is full, and answers how many bytes came. None did if a read failed: the
// front of a text is not the text.
pub fn read_text(rt: &HostRuntime, buf: &mut [u8]) -> usize
    ensures { IsPrefixLen result buf.new }
{
    let mut stdin = rt.stdin();
    let mut done = 0;
    while done < buf.len() {
        match stdin.read(&mut buf[done..]) {
            Ok(0) => break,
            Ok(more) => done += more,
            Err(_) => {
                let _ = rt.eprintln("cover: the input could not be read");
                return 0;
            }
        }
    }
    done
}

// The count of bytes sent after a write that failed: a number, since `pages_printed` speaks of what was sent as one.
pub const LOST: u64 = 18446744073709551615;

// Writes the bytes of the buffer, which are those of what is printed of the text from place `sent` on, and moves `sent`
// past them, or to LOST if the write fails. Nothing else writes to standard output, and nothing else moves `sent`.
pub fn put_page(rt: &HostRuntime, text: &[u8], out: &Buffer, sent: &mut u64)
    requires due { Due (printed text.now) sent.old out.now.items (length out.now.items) }
    requires used_bound { sent.old + length out.now.items < 18446744073709551616 }
    ensures { Moved sent.old (length out.now.items) sent.new }
{
    if rt.write_all(out.as_slice()).is_ok() {
        *sent += out.len() as u64;
    } else {
        *sent = LOST;
    }
}

// Says that the output could not be written.
pub fn say_unwritten(rt: &HostRuntime) {
    let _ = rt.eprintln("cover: the output could not be written");
}
