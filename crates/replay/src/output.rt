// What is printed, gathered in a buffer.
ghost use Rattle.std.specs.Prelude.{◌≡◌, ◌≤◌, [], length};
ghost use Rattle.replay.specs.Output.{Ends};

use crate::figure::Figure;
use arrayvec::ArrayVec;

// How many figures go side by side.
const TOGETHER: usize = 8;

#[derive(Drop)]
pub struct Output<'a> {
    rt: &'a HostRuntime,
    waiting: ArrayVec<u8, 65536>,
}

impl<'a> Output<'a> {
    pub fn new(rt: &'a HostRuntime) -> Self {
        Output {
            rt,
            waiting: ArrayVec::new(),
        }
    }

    // Writes what waits.
    pub fn flush(&mut self)
        ensures { self.new.waiting.items ≡ [] }
    {
        let _ = self.rt.write_all(self.waiting.as_slice());
        self.waiting.clear();
    }

    // Lets a text wait behind what does, which is written first where both do not fit. No text is longer than all that
    // can wait.
    pub fn put(&mut self, text: &[u8])
        ensures { length text.now ≤ 65536 → Ends text.now self.new.waiting.items }
    {
        if self.waiting.try_extend_from_slice(text).is_err() {
            self.flush();
            let _ = self.waiting.try_extend_from_slice(text);
        }
    }

    // A figure and the byte after it.
    pub fn put_figure<T: Figure>(&mut self, figure: T, after: u8) {
        let mut text = [0u8; 22];
        let end = figure.write(&mut text[..21]);
        text[end] = after;
        self.put(&text[..=end]);
    }

    // A line with the figures of a list. Some figures at a time go side by side before they wait: each of them alone
    // would cost a copy more. The space behind the last becomes the line's end.
    pub fn put_list<T: Figure>(&mut self, list: &[T]) {
        if list.is_empty() {
            self.put(b"\n");
            return;
        }
        let mut text = [0u8; 22 * TOGETHER];
        for part in list.chunks(TOGETHER) {
            let mut used = 0;
            for figure in part {
                used += figure.write(&mut text[used..]);
                text[used] = b' ';
                used += 1;
            }
            self.put(&text[..used]);
        }
        if let Some(last) = self.waiting.as_mut_slice().last_mut() {
            *last = b'\n';
        }
    }

    // The line that ends a run: `bad` and the number of the line that is no command.
    pub fn put_bad(&mut self, number: u64) {
        self.put(b"bad ");
        self.put_figure(number, b'\n');
    }
}
