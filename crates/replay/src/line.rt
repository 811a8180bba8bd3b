// The operands of a line: texts, each after one space.
ghost use Rattle.std.specs.Prelude.{◌+◌, ◌≤◌, length, IfSome};

// What is left of a line.
#[derive(Drop)]
pub struct Operands<'a> {
    rest: &'a [u8],
}

impl<'a> Operands<'a> {
    // All of what stands after a line's letter.
    pub fn new(rest: &'a [u8]) -> Self {
        Operands { rest }
    }

    // The text after a space, up to the next one or the end.
    pub fn text(&mut self) -> Option<&'a [u8]>
        ensures { IfSome result (λ text. length self.new.rest.now + 1 ≤ length self.old.rest.now) }
    {
        let after = self.rest.strip_prefix(b" ")?;
        let end = after
            .iter()
            .position(|byte| *byte == b' ')
            .unwrap_or(after.len());
        let (text, rest) = after.split_at(end);
        self.rest = rest;
        Some(text)
    }

    // A number of at most `most`.
    pub fn number(&mut self, most: u64) -> Option<u64>
        ensures { IfSome result (λ n. n ≤ most) }
    {
        decimal::read_unsigned(self.text()?, most)
    }

    pub fn is_empty(&self) -> bool {
        self.rest.is_empty()
    }

    // That the line ends here.
    pub fn end(&self) -> Option<()> {
        if self.rest.is_empty() { Some(()) } else { None }
    }
}
