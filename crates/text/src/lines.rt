// The lines of a text.
ghost use Rattle.std.specs.Prelude.{[], ◌∷◌, ◌≡◌, ◌+◌, ◌≤◌, length, Some};
ghost use Rattle.std.proofs.lemmas.List.Edits.{sets};
ghost use Rattle.rules.specs.Text.{line_bad};
ghost use Rattle.text.specs.Pieces.{lines_left};
ghost use Rattle.text.specs.Names.{known};
ghost use Rattle.text.specs.Read.{Checks, Finds, options_words};

use crate::bytes::is_clean;
use crate::items::items_fault;
use crate::names::Names;
use crate::options::{option_fault, write_option};
use crate::pieces::{Lines, count, is_passed};

// The items line, or the number of a faulty line up to it. The lines after it are left.
pub fn find_items<'a>(lines: &mut Lines<'a>) -> Result<Option<&'a [u8]>, usize>
    ensures { Finds lines.old lines.new result }
{
    while let Some((number, line)) = lines.next() {
        if !is_clean(line) {
            return Err(number);
        }
        if !is_passed(line) {
            if items_fault(line) {
                return Err(number);
            }
            return Ok(Some(line));
        }
    }
    Ok(None)
}

// Whether a line after the items line is faulty.
fn line_fault(names: &Names<'_>, line: &[u8]) -> bool
    ensures { result ≡ line_bad (Some (known names.now)) line.now }
{
    !is_clean(line) || !is_passed(line) && option_fault(names, line)
}

// How many options the lines after the items line have, and how many words these; or the number of a faulty line.
pub fn check_options(names: &Names<'_>, lines: Lines<'_>) -> Result<(usize, usize), usize>
    ensures { Checks (known names.now) lines.entry result }
{
    let mut options = 0;
    let mut words = 0;
    for (number, line) in lines {
        if line_fault(names, line) {
            return Err(number);
        }
        if !is_passed(line) {
            options += 1;
            words += 1 + 2 * count(line);
        }
    }
    Ok((options, words))
}

// Writes the words of the options over the front of the list.
pub fn write_options(names: &Names<'_>, lines: Lines<'_>, words: &mut [i32])
    requires { length (options_words (known names.now) (lines_left lines.rest)) ≤ length words.old }
    ensures { words.new ≡ sets words.old 0 (options_words (known names.now) (lines_left lines.entry.rest)) }
{
    let mut next = 0;
    for (_, line) in lines {
        if !is_passed(line) {
            next += write_option(names, line, &mut words[next..]);
        }
    }
}
