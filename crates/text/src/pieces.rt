// The tokens of a line and the lines of a text, one after another.
ghost use Rattle.std.specs.Prelude.{◌≡◌, ◌+◌, ◌≤◌, [], ◌∷◌, length, MatchOption, Some};
ghost use Rattle.std.specs.Iterator.{YieldsFirstRef, at_most, item_count};
ghost use Rattle.rules.specs.Text.{tokens, passed};
ghost use Rattle.text.specs.Pieces.{lines_left, bytes_left, Taken};

use crate::bytes::{is_white, prefix_len};

// The tokens of what is left of a line.
#[derive(Clone, Copy)]
pub struct Tokens<'a> {
    pub rest: &'a [u8],
}

impl<'a> Tokens<'a> {
    pub fn of(line: &'a [u8]) -> Tokens<'a>
        ensures { result.rest.now ≡ line.now }
    {
        Tokens { rest: line }
    }
}

impl<'a> Iterator for Tokens<'a> {
    type Item = &'a [u8];

    ghost next_gives = { YieldsFirstRef (λ s. tokens s.rest.now) };

    ghost remaining = { item_count (λ s. tokens s.rest.now) };

    // Each byte is looked at once: a token goes with the white byte behind it.
    fn next(&mut self) -> Option<&'a [u8]> {
        while !self.rest.is_empty() {
            let line = self.rest;
            let end = prefix_len(line, |b| !is_white(**b));
            if end == line.len() {
                self.rest = &[];
                return Some(line);
            }
            self.rest = &line[end + 1..];
            if end != 0 {
                return Some(&line[..end]);
            }
        }
        None
    }
}

// The lines of what is left of a text, each with its number, and nothing after the last. Their numbers fit, since they
// and the bytes that are left are few.
#[derive(Clone, Copy)]
pub struct Lines<'a> {
    rest: Option<&'a [u8]>,
    number: usize,
    ghost few: { (1 ≤ number) × (number + bytes_left rest ≤ 65538) },
}

impl<'a> Lines<'a> {
    pub fn of(text: &'a [u8]) -> Lines<'a>
        requires { length text.now ≤ 65536 }
        ensures whole { lines_left result.rest ≡ lines_left (Some text.entry) }
        ensures first { result.number ≡ 1 }
    {
        Lines {
            rest: Some(text),
            number: 1,
        }
    }
}

impl<'a> Iterator for Lines<'a> {
    type Item = (usize, &'a [u8]);

    ghost next_gives = { λ s r t. MatchOption r (lines_left s.rest ≡ []) (Taken s.rest t.rest s.number t.number) };

    ghost remaining = { λ s. at_most (bytes_left s.rest) };

    fn next(&mut self) -> Option<(usize, &'a [u8])> {
        let text = self.rest?;
        let number = self.number;
        let end = prefix_len(text, |b| **b != b'\n');
        self.rest = if end < text.len() {
            Some(&text[end + 1..])
        } else {
            None
        };
        self.number += 1;
        Some((number, &text[..end]))
    }
}

// How many tokens a line has.
#[tactic(auto, using(crate::proofs::Cutting::tokens_short))]
pub fn count(line: &[u8]) -> usize
    ensures value { result ≡ length (tokens line.now) }
    ensures few { result ≤ length line.now }
{
    Tokens::of(line).count()
}

// Whether a line is blank or starts with `|`.
pub fn is_passed(line: &[u8]) -> bool
    ensures { result ≡ passed (tokens line.now) }
{
    match line.iter().find(|b| !is_white(**b)) {
        None => true,
        Some(b) => *b == b'|',
    }
}
