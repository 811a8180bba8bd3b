// From the text to problem words that the host door's limits allow.
ghost use Rattle.std.specs.Prelude.{true, ◌≡◌, length};
ghost use Rattle.rules.specs.Problem.{door_limits, cut, sizes, judged, problem_refusal};
ghost use Rattle.cover.specs.Opening.{Opens};

use door::TABLE_WORDS;
use problem::room::accept;
use rules::{DOOR_ITEMS, Sizes, Unread, door};

// What the door's limits say of a problem.
fn judge(problem: &[i32]) -> Result<Sizes, u32>
    ensures { result ≡ judged (problem_refusal door_limits 1 (λ s. true) problem.now) (sizes (cut problem.now)) }
{
    let mut marks = [0usize; DOOR_ITEMS];
    accept(problem, door(), 1, TABLE_WORDS, DOOR_ITEMS, &mut marks)
}

// Reads a text into the list, and answers how many words the problem has, with its sizes. More words than the list has
// room for are more than the limits allow, so 9 is 3 here.
pub fn open(text: &[u8], words: &mut [i32]) -> Result<(usize, Sizes), Unread>
    requires { length words.old ≡ 579 }
    ensures { Opens text.now words.new result }
{
    match text::read(text, true, words) {
        Ok(count) => match judge(&words[..count]) {
            Ok(s) => Ok((count, s)),
            Err(number) => Err(Unread::Refused(number)),
        },
        Err(Unread::Faulty(line)) => Err(Unread::Faulty(line)),
        Err(Unread::Refused(_)) => Err(Unread::Refused(3)),
    }
}
