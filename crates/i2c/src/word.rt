// Words, read and written: high byte, low byte, CRC.
ghost use Rattle.std.specs.Prelude.{◌≡◌, [], ◌∷◌, ◌+◌, ◌*◌, ◌/◌, ◌%◌, ◌<◌, ◌≤◌, length, get_or};
ghost use Rattle.refusal.specs.Refusals.{answered};
ghost use Rattle.refusal.specs.Room.{overlay};
ghost use Rattle.i2c.specs.Crc.{crc_of};
ghost use Rattle.i2c.specs.Word.{start_of, words_of, bytes_of, first_wrong, paper_checked, read_words, write_words};

use crate::crc::Table;
use refusal::Refusal;

// The start value of the CRC, liquid sensors.
pub const LIQUID_START: u8 = 0x00;

// The start value of the CRC, SFC6.
pub const SFC6_START: u8 = 0xFF;

#[derive(Clone, Copy, Debug, PartialEq, Eq)]
pub enum Family {
    Liquid,
    Sfc6,
}

pub fn start_value(family: Family) -> u8
    ensures { result ≡ start_of family }
{
    match family {
        Family::Liquid => LIQUID_START,
        Family::Sfc6 => SFC6_START,
    }
}

// The CRC of a word's two bytes.
pub(crate) fn word_crc(start: u8, h: u8, l: u8) -> u8
    ensures { result ≡ crc_of start (h ∷ l ∷ []) }
{
    Table::new().word_crc(start, h, l)
}

// The index of the first word whose CRC is wrong. The table is made here, and not in the reader, which would lay it for three words too.
fn check_words(start: u8, bytes: &[u8]) -> Option<usize>
    ensures { paper_checked result ≡ first_wrong start bytes.now }
{
    let table = Table::new();
    let (words, _) = bytes.as_chunks::<3>();
    words
        .iter()
        .position(|[h, l, crc]| table.word_crc(start, *h, *l) != *crc)
}

// Stores the words that bytes hold. The compiler makes a wide loop of it; a function of its own, so that a call of the reader with few words
// does not save the registers for it.
#[inline(never)]
fn store_words(bytes: &[u8], words: &mut [u16])
    requires { length (words_of bytes.now) ≤ length words.old }
    ensures { words.new ≡ overlay words.old 0 (words_of bytes.now) }
{
    let (chunks, _) = bytes.as_chunks::<3>();
    for (k, [h, l, _]) in chunks.iter().enumerate() {
        words[k] = u16::from_be_bytes([*h, *l]);
    }
}

// Checks three words, without a loop.
#[tactic(auto, using(crate::proofs::WordLaws::three_checked))]
fn check_three(table: &Table<8>, start: u8, bytes: &[u8]) -> Option<usize>
    requires { length bytes.now ≡ 9 }
    ensures { paper_checked result ≡ first_wrong start bytes.now }
{
    if table.word_crc(start, bytes[0], bytes[1]) != bytes[2] {
        return Some(0);
    }
    if table.word_crc(start, bytes[3], bytes[4]) != bytes[5] {
        return Some(1);
    }
    if table.word_crc(start, bytes[6], bytes[7]) != bytes[8] {
        return Some(2);
    }
    None
}

// Reads three words, as boards do each millisecond: a way of its own, which is quicker without a loop (docs/DECISIONS.md, 128).
#[tactic(auto, using(crate::proofs::WordAnswers::three_read))]
fn read_three(start: u8, bytes: &[u8], words: &mut [u16]) -> Result<usize, Refusal>
    requires { length bytes.now ≡ 9 }
    ensures { (answered result, words.new) ≡ read_words start bytes.now words.old }
{
    if let Some(k) = check_three(&Table::new(), start, bytes) {
        return Err(Refusal::WrongCrc(k));
    }
    if words.len() < 3 {
        return Err(Refusal::NoRoom);
    }
    words[0] = u16::from_be_bytes([bytes[0], bytes[1]]);
    words[1] = u16::from_be_bytes([bytes[3], bytes[4]]);
    words[2] = u16::from_be_bytes([bytes[6], bytes[7]]);
    Ok(3)
}

// Reads words: every one is checked before any is stored.
#[tactic(auto, using(crate::proofs::WordAnswers::words_read))]
pub fn read_words(start: u8, bytes: &[u8], words: &mut [u16]) -> Result<usize, Refusal>
    ensures { (answered result, words.new) ≡ read_words start bytes.now words.old }
{
    let len = bytes.len();
    if len == 9 {
        return read_three(start, bytes, words);
    }
    if len == 0 || len % 3 != 0 {
        return Err(Refusal::BadWordCount);
    }
    if let Some(k) = check_words(start, bytes) {
        return Err(Refusal::WrongCrc(k));
    }
    let n = len / 3;
    if words.len() < n {
        return Err(Refusal::NoRoom);
    }
    store_words(bytes, words);
    Ok(n)
}

// Stores the bytes of words by the table.
fn store_by(table: &Table<8>, start: u8, words: &[u16], out: &mut [u8])
    requires { length words.now * 3 ≤ length out.old }
    ensures { out.new ≡ overlay out.old 0 (bytes_of start words.now) }
{
    for (k, word) in words.iter().enumerate() {
        let [h, l] = word.to_be_bytes();
        out[3 * k] = h;
        out[3 * k + 1] = l;
        out[3 * k + 2] = table.word_crc(start, h, l);
    }
}

// Writes words.
#[tactic(auto, using(crate::proofs::WordAnswers::words_written))]
pub fn write_words(start: u8, words: &[u16], out: &mut [u8]) -> Result<usize, Refusal>
    ensures { (answered result, out.new) ≡ write_words start words.now out.old }
{
    let n = words.len();
    if n == 0 {
        return Err(Refusal::BadWordCount);
    }
    if out.len() / 3 < n {
        return Err(Refusal::NoRoom);
    }
    store_by(&Table::new(), start, words, out);
    Ok(n * 3)
}
