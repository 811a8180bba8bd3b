// An option's line.
ghost use Rattle.std.specs.Prelude.{map, ◌≡◌, ◌+◌, ◌<◌, ◌≤◌, length, IfSome, MatchOption, None};
ghost use Rattle.std.proofs.lemmas.List.Edits.{sets};
ghost use Rattle.rules.specs.Lists.{has};
ghost use Rattle.rules.specs.Text.{tokens, name_of, same_name, option_bad, option_words, entered, entry_words, written};
ghost use Rattle.text.specs.Names.{known};
ghost use Rattle.text.specs.Entries.{CutAs, told, named_as, token_bad, entries_words};

use crate::bytes::{name_len, name_of};
use crate::names::Names;
use crate::pieces::{Tokens, count};
use words::put_link;

// What an option's token stands for: an item, and its colour or 0.
#[derive(Clone, Copy)]
pub struct Entry {
    pub item: usize,
    pub colour: usize,
}

// The parts of `name` or `name:c`, with the colour 0 for none. The two `if`s could be one `match` on the rest as `[]`,
// `[_, c]` or another, but it doesn't prove: the last arm has lost how long the rest is.
fn cut(token: &[u8]) -> Option<(&[u8], usize)>
    ensures { MatchOption result (written token.now ≡ None) (CutAs token.now) }
{
    let (name, rest) = token.split_at(name_len(token));
    if rest.is_empty() {
        return Some((name, 0));
    }
    if rest.len() != 2 || rest[1] == b':' {
        return None;
    }
    Some((name, usize::from(rest[1])))
}

// The entry of a name and a colour. A primary item has no colour.
fn entry_named(names: &Names<'_>, name: &[u8], colour: usize) -> Option<Entry>
    requires { colour < 256 }
    ensures value { result ≡ told (named_as (known names.now) name.now colour) }
    ensures low { IfSome result (λ e. (e.item ≤ 131072) × (e.colour < 256)) }
{
    if let Some(item) = names.find_primary(name) {
        if colour != 0 {
            return None;
        }
        return Some(Entry { item, colour });
    }
    let item = names.find_secondary(name)?;
    Some(Entry { item, colour })
}

// The entry that a token stands for.
fn entry_of(names: &Names<'_>, token: &[u8]) -> Option<Entry>
    ensures value { result ≡ told (entered (known names.now) token.now) }
    ensures low { IfSome result (λ e. (e.item ≤ 131072) × (e.colour < 256)) }
{
    let (name, colour) = cut(token)?;
    entry_named(names, name, colour)
}

// Whether a token of a line has that name.
fn named_in(line: &[u8], name: &[u8]) -> bool
    ensures { result ≡ has (same_name name.now) (map name_of (tokens line.now)) }
{
    Tokens::of(line).any(|t| name == name_of(t))
}

// Whether a token of an option is at fault, before the rest of its line.
fn token_fault(names: &Names<'_>, token: &[u8], rest: &[u8]) -> bool
    ensures { result ≡ token_bad (known names.now) token.now (tokens rest.now) }
{
    entry_of(names, token).is_none() || named_in(rest, name_of(token))
}

// Whether an option's line is faulty.
#[tactic(auto, using(crate::proofs::Faults::option_more, crate::proofs::Faults::no_options))]
pub fn option_fault(names: &Names<'_>, line: &[u8]) -> bool
    ensures { result ≡ option_bad (known names.now) (tokens line.now) }
{
    let mut tokens = Tokens::of(line);
    while let Some(token) = tokens.next() {
        if token_fault(names, token, tokens.rest) {
            return true;
        }
    }
    false
}

// Writes the words of a token's entry over the front of the list, and answers how many there are.
fn write_entry(names: &Names<'_>, token: &[u8], words: &mut [i32]) -> usize
    requires { length (entry_words (entered (known names.now) token.now)) ≤ length words.old }
    ensures value { result ≡ length (entry_words (entered (known names.now) token.now)) }
    ensures words_after { words.new ≡ sets words.old 0 (entry_words (entered (known names.now) token.now)) }
{
    let Some(entry) = entry_of(names, token) else {
        return 0;
    };
    put_link(words, 0, entry.item);
    put_link(words, 1, entry.colour);
    2
}

// Writes the words of an option's entries over the front of the list, and answers how many there are.
fn write_entries(names: &Names<'_>, line: &[u8], words: &mut [i32]) -> usize
    requires { length (entries_words (known names.now) (tokens line.now)) ≤ length words.old }
    ensures value { result ≡ length (entries_words (known names.now) (tokens line.now)) }
    ensures words_after { words.new ≡ sets words.old 0 (entries_words (known names.now) (tokens line.now)) }
{
    let mut next = 0;
    for token in Tokens::of(line) {
        next += write_entry(names, token, &mut words[next..]);
    }
    next
}

// Writes the words of an option over the front of the list, and answers how many there are.
pub fn write_option(names: &Names<'_>, line: &[u8], words: &mut [i32]) -> usize
    requires short { length line.now ≤ 65536 }
    requires line_in_bounds { length (option_words (known names.now) (tokens line.now)) ≤ length words.old }
    ensures value { result ≡ length (option_words (known names.now) (tokens line.now)) }
    ensures words_after { words.new ≡ sets words.old 0 (option_words (known names.now) (tokens line.now)) }
{
    put_link(words, 0, count(line));
    1 + write_entries(names, line, &mut words[1..])
}
