// The output as it is written: each method writes behind what is written.
ghost use Rattle.std.specs.Prelude.{◌≡◌, [], ◌∷◌, ◌++◌};
ghost use Rattle.replay_model.specs.Text.{decimal};
ghost use Rattle.replay_model.specs.Replay.{tail_of};
ghost use Rattle.replay_text.specs.Clauses.{Room, Put};

use crate::digits;

// An output that is lent, and how many bytes at its front are written.
// No Vec: the bytes are lent, and the project takes no heap. No `Cursor` of std: its `write` gives a count in a Result,
// which each method would take apart, so it is no plainer.
#[derive(Drop)]
pub(crate) struct Output<'a> {
    bytes: &'a mut [u8],
    pub(crate) written: usize,
}

impl<'a> Output<'a> {
    // An output of which nothing is written.
    pub(crate) fn new(bytes: &'a mut [u8]) -> Output<'a>
        ensures same_reference { result.bytes.ghost_name ≡ bytes.entry.ghost_name }
        ensures bytes { result.bytes.now ≡ bytes.old }
        ensures written { result.written ≡ 0 }
    {
        Output { bytes, written: 0 }
    }

    // One byte.
    fn put_byte(&mut self, byte: u8)
        requires { Room (byte ∷ []) self.old }
        ensures { Put (byte ∷ []) self.old self.new }
    {
        self.bytes[self.written] = byte;
        self.written += 1;
    }

    // The bytes of a text.
    fn put_text(&mut self, text: &[u8])
        requires { Room text.now self.old }
        ensures { Put text.now self.old self.new }
    {
        let end = self.written + text.len();
        self.bytes[self.written..end].copy_from_slice(text);
        self.written = end;
    }

    // A number in decimal, by hand as digits.rt says.
    pub(crate) fn put_number(&mut self, n: u32)
        requires { Room (decimal n) self.old }
        ensures { Put (decimal n) self.old self.new }
    {
        let end = self.written + digits::count_digits(n);
        digits::put_digits(&mut self.bytes[self.written..end], n);
        self.written = end;
    }

    // The rest of a line: each number behind a space, and the line feed.
    pub(crate) fn put_tail(&mut self, numbers: &[u32])
        requires { Room (tail_of numbers.now) self.old }
        ensures { Put (tail_of numbers.now) self.old self.new }
    {
        for n in numbers {
            self.put_byte(b' ');
            self.put_number(*n);
        }
        self.put_byte(b'\n');
    }

    // A line: its word, and its numbers.
    pub(crate) fn put_line(&mut self, word: &[u8], numbers: &[u32])
        requires { Room (word.now ++ tail_of numbers.now) self.old }
        ensures { Put (word.now ++ tail_of numbers.now) self.old self.new }
    {
        self.put_text(word);
        self.put_tail(numbers);
    }
}
