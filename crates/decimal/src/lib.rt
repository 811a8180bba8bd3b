// Decimal numbers as text. What is read is what the digits say, and what is written reads back as the number that it was.
// An `as` here loses nothing, which its proof shows: no `From` makes a usize of a u64, or a u64 of a usize.
#![tactic(auto)]

ghost use Rattle.std.specs.Prelude.{◌&&◌, ◌≡◌, ◌≤◌, ◌<◌, leb, length, Some, IfSome};
ghost use Rattle.rules.specs.Lists.{when};
ghost use Rattle.rules.specs.Words.{word};
ghost use Rattle.decimal.specs.Text.{digit, longer, told, unsigned, from_zero, under_zero, signed};
ghost use Rattle.decimal.specs.Text.{Stored, Wrote, WroteWord};
ghost use Rattle.decimal.specs.Text.{leads as Text·leads};

// ---- reading

// The number with one digit more, if the byte is one and the number is at most `most`.
fn extended(value: u64, byte: u8, most: u64) -> Option<u64>
    ensures { result ≡ when (digit byte && leb (longer value byte) most) (Some (longer value byte)) }
{
    if !byte.is_ascii_digit() {
        return None;
    }
    let longer = value.checked_mul(10)?.checked_add(u64::from(byte - b'0'))?;
    if longer <= most { Some(longer) } else { None }
}

// The number of a text of digits, which may begin with any.
fn read_digits(text: &[u8], most: u64) -> Option<u64>
    ensures value { result ≡ told most 0 text.now }
    ensures small { IfSome result (λ n. n ≤ most) }
{
    let mut value = 0;
    for &byte in text {
        value = extended(value, byte, most)?;
    }
    Some(value)
}

// Whether a text begins as a number does: with no 0 before another byte.
fn leads(text: &[u8]) -> bool
    ensures { result ≡ Text·leads text.now }
{
    match text {
        [] => false,
        [_] => true,
        [first, ..] => *first != b'0',
    }
}

// The number that the whole text says, if that is at most `most`.
pub fn read_unsigned(text: &[u8], most: u64) -> Option<u64>
    ensures value { result ≡ unsigned most text.now }
    ensures small { IfSome result (λ n. n ≤ most) }
{
    if !leads(text) {
        return None;
    }
    read_digits(text, most)
}

fn read_from_zero(text: &[u8]) -> Option<i32>
    ensures { result ≡ from_zero (unsigned 2147483647 text.now) }
{
    let value = read_unsigned(text, 2147483647)?;
    Some(words::link(value as usize))
}

fn read_under_zero(text: &[u8]) -> Option<i32>
    ensures { result ≡ under_zero (unsigned 2147483648 text.now) }
{
    match read_unsigned(text, 2147483648)? {
        0 => None,
        value => Some(words::spacer((value - 1) as usize)),
    }
}

// The word that the whole text says.
fn read_signed(text: &[u8]) -> Option<i32>
    ensures { result ≡ signed text.now }
{
    match text {
        [b'-', under @ ..] => read_under_zero(under),
        _ => read_from_zero(text),
    }
}

// Writes the word that the whole text says at a place of the list, and answers whether it says one. The bool stays for
// the clause, which says of both that they are as `Stored` has it.
pub fn read_word(text: &[u8], list: &mut [i32], at: usize) -> bool
    requires { at < length list.old }
    ensures { Stored (signed text.now) list.old at result list.new }
{
    match read_signed(text) {
        Some(word) => {
            list[at] = word;
            true
        }
        None => false,
    }
}

// ---- writing

// Writes the number over the front of `out`, and answers how many bytes it takes.
pub fn write_unsigned(value: u64, out: &mut [u8]) -> usize
    requires { 20 ≤ length out.old }
    ensures { Wrote value out.old out.new result }
{
    let mut text = [0u8; 20];
    let count = io::decimal(value, &mut text);
    out[..count].copy_from_slice(&text[..count]);
    count
}

// Writes the word at a place of the list over the front of `out`, and answers how many bytes it takes.
pub fn write_word(list: &[i32], at: usize, out: &mut [u8]) -> usize
    requires at_in_bounds { at < length list.now }
    requires in_bounds { 21 ≤ length out.old }
    ensures { WroteWord (word list.now at) out.old out.new result }
{
    if words::is_natural(list, at) {
        return write_unsigned(words::link_at(list, at) as u64, out);
    }
    out[0] = b'-';
    // `option_at` answers a negative word's magnitude, less one.
    let under = words::option_at(list, at);
    1 + write_unsigned(under as u64 + 1, &mut out[1..])
}
