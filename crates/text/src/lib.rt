// The reader of the text form: from bytes to problem words. It keeps no list of names: places in the text are enough.
#![tactic(auto)]

mod bytes;
mod items;
mod lines;
mod names;
mod options;
mod pieces;

ghost use Rattle.std.specs.Prelude.{◌≡◌};
ghost use Rattle.rules.specs.Text.{read_call};
ghost use Rattle.text.specs.Names.{known};
ghost use Rattle.text.specs.Read.{Room, under, heads};

use lines::{check_options, find_items, write_options};
use names::Names;
use pieces::{Lines, count};
use rules::Unread;
use words::put_link;

// Writes the words of a problem over the front of the list: so many options stand in the lines.
fn write_problem(names: &Names<'_>, lines: Lines<'_>, options: usize, words: &mut [i32])
    requires { Room (known names.now) lines options words.old }
    ensures { words.new ≡ heads (known names.now) lines.entry words.old }
{
    put_link(words, 0, names.primaries);
    put_link(words, 1, count(names.secondary));
    put_link(words, 2, options);
    write_options(names, lines, &mut words[3..]);
}

// The words of a text whose items are known, from the lines after theirs.
fn read_options(names: &Names<'_>, lines: Lines<'_>, words: &mut [i32]) -> Result<usize, Unread>
    ensures { record { answer = result; words = words.new } ≡ under names.now lines.entry words.old }
{
    match check_options(names, lines) {
        Err(line) => Err(Unread::Faulty(line)),
        Ok((options, count)) => {
            if options == 0 {
                return Err(Unread::Faulty(0));
            }
            if words.len() < 3 + count {
                return Err(Unread::Refused(9));
            }
            write_problem(names, lines, options, words);
            Ok(3 + count)
        }
    }
}

// Writes the problem words of a text over the front of the list, primary names with `#` first or last by the flag, and
// answers how many there are. A refusal writes nothing.
pub fn read(text: &[u8], front: bool, words: &mut [i32]) -> Result<usize, Unread>
    ensures { record { answer = result; words = words.new } ≡ read_call text.now front words.old }
{
    if 65536 < text.len() {
        return Err(Unread::Refused(3));
    }
    let mut lines = Lines::of(text);
    match find_items(&mut lines) {
        Err(line) => Err(Unread::Faulty(line)),
        Ok(None) => Err(Unread::Faulty(0)),
        Ok(Some(items)) => read_options(&Names::of(items, front), lines, words),
    }
}
