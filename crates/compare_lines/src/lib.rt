// The text that the program compare prints of two logs.
#![tactic(auto)]

ghost use Rattle.std.specs.Prelude.{◌≡◌, ◌≢◌, ◌-◌, ◌≤◌, MatchOption, length};
ghost use Rattle.wire_log.specs.Text.{window};
ghost use Rattle.compare_lines.specs.Text.{word_of, line, compare_text};
ghost use Rattle.compare_lines.specs.Private.{Fitted, told, told_text};

use compare::{DIFFER, ONLY_A, SAME};
use wire_log::text::{put_from, put_refused};

// The most places of two logs.
const MOST_PLACES: usize = 21666;

// Lays a line of a word and a number from a place of it on in the room from a place on, as much as fits, and answers the place after it.
fn put_line(word: &[u8], n: u32, skip: usize, out: &mut [u8], place: usize) -> usize
    requires { place ≤ length out.old }
    ensures { Fitted result out.new out.old place (line word.now n) skip }
{
    let number = lines::digits_in_bytes(n);
    let digits = &number.bytes[..number.count];
    let past_word = skip.saturating_sub(word.len());
    let past_digits = past_word.saturating_sub(digits.len());
    let after_word = put_from(word, skip, out, place);
    let after_digits = put_from(digits, past_word, out, after_word);
    put_from(b"\n", past_digits, out, after_digits)
}

// The word that the line of a mark begins with; an equal place has no line.
#[tactic(auto, unfolding(crate::specs::Text::word_of))]
fn word(m: u8) -> Option<&'static [u8]>
    ensures { MatchOption result (m ≡ 0) (λ word. (m ≢ 0) × (word.now ≡ word_of m)) }
{
    match m {
        SAME => None,
        DIFFER => Some(b"differ "),
        ONLY_A => Some(b"only-a "),
        _ => Some(b"only-b "),
    }
}

// The same of the line of a mark, if it has one.
fn put_mark(m: u8, n: u32, skip: usize, out: &mut [u8], place: usize) -> usize
    requires { place ≤ length out.old }
    ensures { Fitted result out.new out.old place (told m n) skip }
{
    match word(m) {
        Some(word) => put_line(word, n, skip, out, place),
        None => place,
    }
}

// What is left to skip after that line.
fn skip_mark(skip: usize, m: u8, n: u32) -> usize
    ensures { result ≡ skip - length (told m n) }
{
    // Mostly nothing is left to skip: then the digits are not made a second time.
    if skip == 0 {
        return 0;
    }
    match word(m) {
        Some(word) => {
            let number = lines::digits_in_bytes(n);
            skip.saturating_sub(word.len() + number.count + 1)
        }
        None => skip,
    }
}

// The lines of marks, of which so many are equal.
fn put_told(marks: &[u8], same: usize, from: usize, out: &mut [u8]) -> usize
    requires { (length marks.now ≤ 21666) × (same ≤ 21666) }
    ensures { (result, out.new) ≡ window (told_text marks.now same) from out.old }
{
    let mut next: usize = 0;
    let mut skip = from;
    for (i, m) in marks.iter().enumerate() {
        let n = i as u32;
        next = put_mark(*m, n, skip, out, next);
        skip = skip_mark(skip, *m, n);
    }
    put_line(b"same ", same as u32, skip, out, next)
}

// Lays the part of the text of two logs from a place of it on at the start of the room, as much as fits, and answers how much. Where one
// is bad the text is one line, its refusal.
pub fn text(a: &[u8], b: &[u8], from: usize, out: &mut [u8]) -> usize
    ensures { (result, out.new) ≡ window (compare_text a.now b.now) from out.old }
{
    let mut marks = [0u8; MOST_PLACES];
    match compare::compare(a, b, &mut marks) {
        Err(why) => put_refused(why, from, out),
        Ok(compared) => put_told(&marks[..compared.places], compared.same, from, out),
    }
}
