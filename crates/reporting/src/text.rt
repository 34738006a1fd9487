// The text of a report: a draft, in which lines are put after one another, and the text that it is when it is finished.
ghost use Rattle.std.specs.Prelude.{◌≡◌, [], ◌∷◌};
ghost use Rattle.reporting.specs.Text.{text_of, spaced, line};
ghost use Rattle.reporting.specs.Steps.{pushed, appended};

use arrayvec::ArrayVec;

// The first `length` bytes are the text; those after it are 0.
#[derive(Clone, Copy)]
pub struct Text {
    pub bytes: [u8; Text::ROOM],
    pub length: usize,
}

impl Text {
    // Enough for every report: proofs/Lengths.antt.
    pub(crate) const ROOM: usize = 128;
}

// A text while it grows: its bytes alone, with nothing after them.
#[derive(Drop)]
pub(crate) struct Draft {
    pub(crate) bytes: ArrayVec<u8, { Text::ROOM }>,
}

impl Draft {
    pub(crate) fn empty() -> Draft
        ensures { result.bytes.items ≡ [] }
    {
        Draft {
            bytes: ArrayVec::new(),
        }
    }

    // A byte without room is left out, so that no caller has to count; a report never has one.
    pub(crate) fn push(self, byte: u8) -> Draft
        ensures { result.bytes.items ≡ pushed self.bytes.items byte }
    {
        let mut bytes = self.bytes;
        let _ = bytes.try_push(byte);
        Draft { bytes }
    }

    pub(crate) fn append(self, word: &[u8]) -> Draft
        ensures { result.bytes.items ≡ appended self.bytes.items word.now }
    {
        let mut text = self;
        for byte in word {
            text = text.push(*byte);
        }
        text
    }

    // A space and the number in decimal.
    pub(crate) fn append_number(self, n: usize) -> Draft
        ensures { result.bytes.items ≡ appended self.bytes.items (spaced (n ∷ [])) }
    {
        let mut digits = [0u8; 20];
        let count = io::decimal(n as u64, &mut digits);
        self.push(b' ').append(&digits[..count])
    }

    // A word and a number on a line.
    pub(crate) fn append_line(self, word: &[u8], n: usize) -> Draft
        ensures { result.bytes.items ≡ appended self.bytes.items (line word.now (n ∷ [])) }
    {
        self.append(word).append_number(n).push(b'\n')
    }

    // A word and two numbers on a line.
    pub(crate) fn append_pair(self, word: &[u8], first: usize, second: usize) -> Draft
        ensures { result.bytes.items ≡ appended self.bytes.items (line word.now (first ∷ second ∷ [])) }
    {
        self.append(word)
            .append_number(first)
            .append_number(second)
            .push(b'\n')
    }

    // The bytes and, as far as there is room, zeros after them.
    pub(crate) fn finished(self) -> Text
        ensures { result ≡ text_of self.bytes.items }
    {
        let mut bytes = [0u8; Text::ROOM];
        let length = self.bytes.len();
        bytes[..length].copy_from_slice(self.bytes.as_slice());
        Text { bytes, length }
    }
}
