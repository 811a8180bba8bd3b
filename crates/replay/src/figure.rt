// What stands in a lent list: signed words, or counts. They are written by `decimal`, whose texts read back as the number,
// which no `Display` promises.
ghost use Rattle.std.specs.Prelude.{◌≤◌, length};

pub trait Figure: Copy + Default + Drop {
    // What the whole text says.
    fn read(text: &[u8]) -> Option<Self>;

    // Writes it over the front of the text, and answers how many bytes it takes.
    fn write(self, text: &mut [u8]) -> usize
        requires { 21 ≤ length text.old }
        ensures { result ≤ 21 };
}

impl Figure for i32 {
    fn read(text: &[u8]) -> Option<Self> {
        let mut word = [0];
        if decimal::read_word(text, &mut word, 0) {
            Some(word[0])
        } else {
            None
        }
    }

    fn write(self, text: &mut [u8]) -> usize {
        decimal::write_word(&[self], 0, text)
    }
}

impl Figure for u64 {
    fn read(text: &[u8]) -> Option<Self> {
        decimal::read_unsigned(text, u64::MAX)
    }

    fn write(self, text: &mut [u8]) -> usize {
        decimal::write_unsigned(self, text)
    }
}
