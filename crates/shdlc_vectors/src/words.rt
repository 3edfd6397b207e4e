// A row of the table, taken apart: words with one space between them. Words are bytes, since a row need not be text.
ghost use Rattle.std.specs.Prelude.{◌<◌};

use arrayvec::ArrayVec;

// The nth word, from 0; past the last an empty one.
pub(crate) fn word(line: &[u8], nth: usize) -> &[u8] {
    line.split(|b| *b == b' ').nth(nth).unwrap_or(&[])
}

// The parts of a word before and after a byte: all of it and nothing where the byte is missing.
pub(crate) fn cut(word: &[u8], mark: u8) -> (&[u8], &[u8]) {
    match word.iter().position(|b| *b == mark) {
        Some(at) => (&word[..at], &word[at + 1..]),
        None => (word, &[]),
    }
}

// The value of a digit; any other byte counts as 0, and its row then gives another answer than it should.
fn digit(b: u8) -> u32
    ensures { result < 16 }
{
    match b {
        b'0'..=b'9' => u32::from(b - b'0'),
        b'A'..=b'F' => u32::from(b - b'A') + 10,
        _ => 0,
    }
}

// What digits of ten or of sixteen stand for; of a longer number what is left in 32 bits.
fn value(digits: &[u8], base: u32) -> u32 {
    digits.iter().fold(0u32, |n, b| {
        n.wrapping_mul(base).wrapping_add(digit(*b))
    })
}

// A number: decimal, or hexadecimal behind an x.
pub(crate) fn number(word: &[u8]) -> u32 {
    match word {
        [b'x', digits @ ..] => value(digits, 16),
        _ => value(word, 10),
    }
}

// The last byte of a number.
pub(crate) fn byte(word: &[u8]) -> u8 {
    let [.., low] = number(word).to_be_bytes();
    low
}

// The bytes that a word stands for, `7E`, `00*300` or `7D31*255`: one or two, so many times.
#[derive(Drop)]
pub(crate) struct Repeat {
    pub(crate) bytes: ArrayVec<u8, 2>,
    pub(crate) times: u32,
}

impl From<&[u8]> for Repeat {
    fn from(word: &[u8]) -> Repeat {
        let (digits, count) = cut(word, b'*');
        let [_, _, high, low] = value(digits, 16).to_be_bytes();
        let mut bytes = ArrayVec::new();
        if digits.len() == 4 {
            bytes.push(high);
        }
        bytes.push(low);
        let times = if count.is_empty() {
            1
        } else {
            value(count, 10)
        };
        Repeat { bytes, times }
    }
}

// The bytes of the words from the nth on, as far as there is room.
pub(crate) fn bytes_from(line: &[u8], nth: usize) -> ArrayVec<u8, 600> {
    let mut bytes = ArrayVec::new();
    for word in line
        .split(|b| *b == b' ')
        .skip(nth)
        .take_while(|w| !w.is_empty())
    {
        let repeat = Repeat::from(word);
        // Each turn puts a byte at least, so that no more turns than the room has places change anything.
        for _ in 0..repeat.times.min(600) {
            for &byte in &repeat.bytes {
                let _ = bytes.try_push(byte);
            }
        }
    }
    bytes
}
