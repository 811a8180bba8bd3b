// The faults of an items line.
ghost use Rattle.std.specs.Prelude.{false, ◌≡◌};
ghost use Rattle.rules.specs.Lists.{has};
ghost use Rattle.rules.specs.Text.{tokens, items_bad, same_name};
ghost use Rattle.text.specs.Names.{item_bad};

use crate::bytes::{is_bar, is_name};
use crate::pieces::Tokens;

// Whether a name stands among the tokens of a line.
fn stands_in(line: &[u8], name: &[u8]) -> bool
    ensures { result ≡ has (same_name name.now) (tokens line.now) }
{
    Tokens::of(line).any(|t| name == t)
}

// Whether a token of the items line is at fault, before the rest of the line.
fn item_fault(token: &[u8], rest: &[u8], second: bool) -> bool
    ensures { result ≡ item_bad second token.now (tokens rest.now) }
{
    if is_bar(token) {
        return second || Tokens::of(rest).next().is_none();
    }
    !is_name(token) || stands_in(rest, token)
}

// Whether the items line is faulty.
#[tactic(auto, using(crate::proofs::Faults::item_more, crate::proofs::Faults::no_items))]
pub fn items_fault(items: &[u8]) -> bool
    ensures { result ≡ items_bad false (tokens items.now) }
{
    let mut second = false;
    let mut tokens = Tokens::of(items);
    while let Some(token) = tokens.next() {
        if item_fault(token, tokens.rest, second) {
            return true;
        }
        second |= is_bar(token);
    }
    false
}
