// The names of an items line, and their numbers.
ghost use Rattle.std.specs.Prelude.{◌≡◌, ◌≤◌, filter, length, take};
ghost use mathlib.Core.Bool.{beq};
ghost use Rattle.rules.specs.Text.{sharp, tokens};

use crate::bytes::{has_sharp, is_bar};
use crate::pieces::Tokens;

// The names of an items line: so many stand before its `|`, and others after it. Primary names with `#` are numbered
// first or last, by the flag. How many are numbered first is counted once, and not at each name that is looked up.
#[derive(Clone, Copy)]
pub struct Names<'a> {
    pub items: &'a [u8],
    pub primaries: usize,
    pub secondary: &'a [u8],
    pub front: bool,
    firsts: usize,
    ghost few: { (length (tokens items.now) ≤ 65536) × (length (tokens secondary.now) ≤ 65536) },
    ghost counted: { primaries ≤ length (tokens items.now) },
    ghost ahead: { firsts ≡ length (filter (λ t. beq (sharp t) front) (take primaries (tokens items.now))) },
}

// How many of so many names of an items line have a `#`, or have none.
fn count_of(items: &[u8], names: usize, with: bool) -> usize
    requires { length (tokens items.now) ≤ 65536 }
    ensures { result ≡ length (filter (λ t. beq (sharp t) with) (take names (tokens items.now))) }
{
    Tokens::of(items)
        .take(names)
        .filter(|t| has_sharp(t) == with)
        .count()
}

impl<'a> Names<'a> {
    ghost use Rattle.std.specs.Prelude.{◌≡◌, ◌≤◌, IfSome, filter, length};
    ghost use mathlib.Core.Bool.{beq};
    ghost use Rattle.rules.specs.Text.{items_of, place, sharp, tokens};
    ghost use Rattle.text.specs.Names.{known, place_in, primary_names};

    pub fn of(items: &'a [u8], front: bool) -> Names<'a>
        requires { length items.now ≤ 65536 }
        ensures value { known result ≡ items_of front (tokens items.entry.now) }
        ensures flag { result.front ≡ front }
    {
        let mut tokens = Tokens::of(items);
        let mut primaries = 0;
        while let Some(token) = tokens.next() {
            if is_bar(token) {
                break;
            }
            primaries += 1;
        }
        Names {
            items,
            primaries,
            secondary: tokens.rest,
            front,
            firsts: count_of(items, primaries, front),
        }
    }

    // Where a name stands among the primary names with `#`, or among those without. Stated here once: in `find_primary`
    // each of its three results would have to prove anew what the chain finds.
    fn place_among(&self, with: bool, name: &[u8]) -> Option<usize>
        ensures value { result ≡ place_in name.now (filter (λ t. beq (sharp t) with) (primary_names self.now)) }
        ensures low { IfSome result (λ k. k ≤ 65536) }
    {
        Tokens::of(self.items)
            .take(self.primaries)
            .filter(|t| has_sharp(t) == with)
            .position(|t| name == t)
    }

    // The number of a primary name.
    pub fn find_primary(&self, name: &[u8]) -> Option<usize>
        ensures value { result ≡ place 0 name.now (known self.now).primary }
        ensures low { IfSome result (λ k. k ≤ 131072) }
    {
        let with = has_sharp(name);
        let place = self.place_among(with, name)?;
        if with == self.front {
            Some(place)
        } else {
            Some(self.firsts + place)
        }
    }

    // The number of a secondary name.
    #[tactic(auto, using(crate::proofs::Naming::place_at))]
    pub fn find_secondary(&self, name: &[u8]) -> Option<usize>
        ensures value { result ≡ place self.now.primaries name.now (known self.now).secondary }
        ensures low { IfSome result (λ k. k ≤ 131072) }
    {
        let place = Tokens::of(self.secondary).position(|t| name == t)?;
        Some(self.primaries + place)
    }
}
