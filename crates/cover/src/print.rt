// Lines of decimal numbers, written into a buffer. An `as` here loses nothing, and no `From` makes a u64 of a usize.
ghost use Rattle.std.specs.Prelude.{cond, [], ◌∷◌, ◌++◌, map, ◌≡◌, ltb, ℕ, ◌+◌, ◌*◌, ◌<◌, ◌≤◌, length, take, Err};
ghost use Rattle.rules.specs.Words.{nat};
ghost use Rattle.rules.specs.Text.{read_said};
ghost use Rattle.rules.specs.Cover.{decimal, line, refusal_line};
ghost use Rattle.words.specs.Read.{Natural};

use arrayvec::ArrayVec;
use rules::Unread;
use words::link_at;

// Bytes that wait to be written.
pub type Buffer = ArrayVec<u8, 65536>;

fn put_bytes(out: &mut Buffer, new: &[u8])
    requires { length out.old.items + length new.now ≤ 65536 }
    ensures { out.new.items ≡ out.old.items ++ new.now }
{
    let _ = out.try_extend_from_slice(new);
}

// A number and the byte after it.
fn put_number(out: &mut Buffer, n: usize, after: u8)
    requires { length out.old.items + 21 ≤ 65536 }
    ensures { out.new.items ≡ out.old.items ++ (decimal n ++ (after ∷ [])) }
{
    let mut text = [0u8; 20];
    let count = io::decimal(n as u64, &mut text);
    put_bytes(out, &text[..count]);
    out.push(after);
}

// What stands after a number: a space, or LF after the last.
fn separator(next: usize, count: usize) -> u8
    ensures { result ≡ cond (ltb next count) 32 10 }
{
    if next < count { b' ' } else { b'\n' }
}

// A line with the first `count` words of a list.
pub fn put_line(out: &mut Buffer, list: &[i32], count: usize)
    requires by_index { (k : ℕ) → k < count → Natural list.now k }
    requires count_in_bounds { count ≤ length list.now }
    requires room { length out.old.items + 21 * count + 1 ≤ 65536 }
    ensures { out.new.items ≡ out.old.items ++ line (map nat (take count list.now)) }
{
    if count == 0 {
        out.push(b'\n');
        return;
    }
    for k in 0..count {
        put_number(out, link_at(list, k), separator(k + 1, count));
    }
}

// The line of a refusal that has a number alone.
fn put_refused(out: &mut Buffer, number: usize)
    requires { length out.old.items + 64 ≤ 65536 }
    ensures { out.new.items ≡ out.old.items ++ refusal_line (number ∷ []) }
{
    put_bytes(out, b"refused ");
    put_number(out, number, b'\n');
}

// The line of a refusal that has a number and a line's number.
fn put_faulty(out: &mut Buffer, number: usize, faulty: usize)
    requires { length out.old.items + 64 ≤ 65536 }
    ensures { out.new.items ≡ out.old.items ++ refusal_line (number ∷ faulty ∷ []) }
{
    put_bytes(out, b"refused ");
    put_number(out, number, b' ');
    put_number(out, faulty, b'\n');
}

// The line of a text that is refused.
pub fn put_unread(out: &mut Buffer, unread: Unread)
    requires { length out.old.items + 64 ≤ 65536 }
    ensures { out.new.items ≡ out.old.items ++ refusal_line (read_said (Err unread)) }
{
    match unread {
        Unread::Faulty(line) => put_faulty(out, 13, line),
        Unread::Refused(number) => put_refused(out, number as usize),
    }
}
