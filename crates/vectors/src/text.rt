// Lines of decimal numbers below 2^64, of at most 20 digits each, with single spaces between them.
use arrayvec::ArrayVec;

// The most bytes of a line, without the line feed, and the most digits of a number.
const MOST_BYTES: usize = 1048576;

const MOST_DIGITS: usize = 20;

// The most numbers of a line: those of a request with three tables of 4,096 entries and a trace of 70,000 bytes.
const MOST_NUMBERS: usize = 82295;

// The most numbers of a request before its tables or turns.
pub const MOST_HEAD: usize = 7;

// The numbers of a line, taken as its bytes come: the line itself, of up to a mebibyte, is not kept. Of all numbers but the first seven the low byte alone is, since a
// schedule or a table has thousands.
#[derive(Drop)]
pub struct Numbers {
    // The line's bytes so far, and whether they are the beginning of a line of numbers.
    length: usize,
    good: bool,
    // The digits of the number being read, and its value by them.
    digits: usize,
    value: u64,
    // The first seven, as far as the line has them, and then zeros.
    pub head: [u64; MOST_HEAD],
    // The low byte of each number.
    bytes: ArrayVec<u8, MOST_NUMBERS>,
    // How many numbers there are up to the last one above 255.
    wide: usize,
}

impl Numbers {
    pub(crate) fn new() -> Numbers {
        Numbers {
            length: 0,
            good: true,
            digits: 0,
            value: 0,
            head: [0; MOST_HEAD],
            bytes: ArrayVec::new(),
            wide: 0,
        }
    }

    // Begins the next line.
    pub(crate) fn clear(&mut self) {
        self.length = 0;
        self.good = true;
        self.digits = 0;
        self.value = 0;
        self.head = [0; MOST_HEAD];
        self.bytes.clear();
        self.wide = 0;
    }

    // Whether the line has no byte yet.
    pub(crate) fn is_empty(&self) -> bool {
        self.length == 0
    }

    // Takes the next byte of the line. What is no line of numbers stays none, whatever follows.
    pub(crate) fn byte(&mut self, byte: u8) {
        if !self.good {
            return;
        }
        if MOST_BYTES <= self.length {
            self.good = false;
            return;
        }
        self.length += 1;
        self.good = self.take(byte).is_some();
    }

    // Ends the line, and with it its last number. None for what is no line of numbers.
    pub(crate) fn end(&mut self) -> Option<()> {
        if self.good { self.end_number() } else { None }
    }

    fn take(&mut self, byte: u8) -> Option<()> {
        match byte {
            b'0'..=b'9' => self.digit(byte - b'0'),
            b' ' => self.end_number(),
            _ => None,
        }
    }

    // No twin of the reader of the crate `text`: there a number has five digits at most, here 64 bits, and single spaces alone stand between two.
    fn digit(&mut self, digit: u8) -> Option<()> {
        if MOST_DIGITS <= self.digits {
            return None;
        }
        self.value = self.value.checked_mul(10)?.checked_add(u64::from(digit))?;
        self.digits += 1;
        Some(())
    }

    fn end_number(&mut self) -> Option<()> {
        if self.digits == 0 {
            return None;
        }
        self.push(self.value)?;
        self.digits = 0;
        self.value = 0;
        Some(())
    }

    fn push(&mut self, value: u64) -> Option<()> {
        if let Some(place) = self.head.get_mut(self.bytes.len()) {
            *place = value;
        }
        self.bytes.try_push((value % 256) as u8).ok()?;
        if 255 < value {
            self.wide = self.bytes.len();
        }
        Some(())
    }

    // The low bytes of those after the first so many, if these are there, and no more than so many follow, each of them a byte.
    pub(crate) fn after(&self, head: usize, most: usize) -> Option<&[u8]> {
        let entries = self.bytes.as_slice().get(head..)?;
        if most < entries.len() || head < self.wide {
            return None;
        }
        Some(entries)
    }
}
