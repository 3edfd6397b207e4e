// The text of a handover board's list, in the words of the supervisory example.
#![tactic(auto)]

pub mod lease;

ghost use Rattle.std.specs.Prelude.{◌≡◌, ◌+◌, ◌≤◌, ◌<◌, ◌++◌, length, take, count_by};
ghost use Rattle.arrayvec.specs.ArrayVec.{array_vec_len};
ghost use Rattle.lines.specs.Text.{decimal};
ghost use Rattle.board_lines.specs.Text.{hex_digit, hex_byte, node_text, kind_text, due_text, polls_text, left_text, entry_line, entry_lines, is_due, count_text, full_text, due_count, head_line, board_lines, refused_line, board_text, list_text, laid_in};

use arrayvec::ArrayVec;
use board::entries::Entry;
use board::listing::Entries;
use refusal::Refusal;

// The most bytes of a text.
const MOST: usize = 3436;

type Text = ArrayVec<u8, MOST>;

fn append(text: &mut Text, bytes: &[u8])
    requires { array_vec_len text.old + length bytes.now ≤ 3436 }
    ensures items { text.new.items ≡ text.old.items ++ bytes.now }
    ensures len { array_vec_len text.new ≡ array_vec_len text.old + length bytes.now }
{
    let _ = text.try_extend_from_slice(bytes);
}

// A number in decimal.
fn append_number(text: &mut Text, n: u32)
    requires { array_vec_len text.old + length (decimal n) ≤ 3436 }
    ensures items { text.new.items ≡ text.old.items ++ decimal n }
    ensures len { array_vec_len text.new ≡ array_vec_len text.old + length (decimal n) }
{
    append(text, lines::digits(n).as_slice());
}

#[tactic(auto, unfolding(crate::specs::Text::hex_digit))]
fn hex_digit(d: u8) -> u8
    requires { d < 16 }
    ensures { result ≡ hex_digit d }
{
    if d < 10 { b'0' + d } else { b'A' - 10 + d }
}

#[tactic(auto, unfolding(crate::specs::Text::hex_byte))]
fn append_hex(text: &mut Text, b: u8)
    requires { array_vec_len text.old + 2 ≤ 3436 }
    ensures items { text.new.items ≡ text.old.items ++ hex_byte b }
    ensures len { array_vec_len text.new ≡ array_vec_len text.old + length (hex_byte b) }
{
    text.push(hex_digit(b / 16));
    text.push(hex_digit(b % 16));
}

// The parts of an entry's line, each at most as long as its contract says first.
#[tactic(auto, using(crate::proofs::Sizes::number), unfolding(crate::specs::Text::node_text))]
fn append_node(text: &mut Text, bus: u8, address: u8)
    requires { array_vec_len text.old + 12 ≤ 3436 }
    ensures items { text.new.items ≡ text.old.items ++ node_text bus address }
    ensures len { array_vec_len text.new ≡ array_vec_len text.old + length (node_text bus address) }
{
    if bus == 1 {
        append(text, b"  I2C ");
        append_hex(text, address);
    } else {
        append(text, b"  serial ");
        append_number(text, u32::from(address));
    }
}

#[tactic(auto, unfolding(crate::specs::Text::kind_text))]
fn append_kind(text: &mut Text, kind: u8)
    requires { array_vec_len text.old + 25 ≤ 3436 }
    ensures items { text.new.items ≡ text.old.items ++ kind_text kind }
    ensures len { array_vec_len text.new ≡ array_vec_len text.old + length (kind_text kind) }
{
    if kind == 1 {
        append(text, b": valve forced shut, ");
    } else {
        append(text, b": temporary calibration, ");
    }
}

#[tactic(auto, unfolding(crate::specs::Text::due_text))]
fn append_due(text: &mut Text, kind: u8)
    requires { array_vec_len text.old + 69 ≤ 3436 }
    ensures items { text.new.items ≡ text.old.items ++ due_text kind }
    ensures len { array_vec_len text.new ≡ array_vec_len text.old + length (due_text kind) }
{
    if kind == 1 {
        append(text, b"DUE: return it to normal control, or renew it\n");
    } else {
        append(
            text,
            b"DUE: set a calibration for good, restart the controller, or renew it\n",
        );
    }
}

#[tactic(auto, using(crate::proofs::Sizes::number), unfolding(crate::specs::Text::polls_text))]
fn append_polls(text: &mut Text, left: u16)
    requires { array_vec_len text.old + 17 ≤ 3436 }
    ensures items { text.new.items ≡ text.old.items ++ polls_text left }
    ensures len { array_vec_len text.new ≡ array_vec_len text.old + length (polls_text left) }
{
    append_number(text, u32::from(left));
    if left == 1 {
        append(text, b" poll left\n");
    } else {
        append(text, b" polls left\n");
    }
}

#[tactic(auto, using(crate::proofs::Sizes::parts), unfolding(crate::specs::Text::entry_line, crate::specs::Text::left_text))]
fn append_entry(text: &mut Text, e: Entry)
    requires { array_vec_len text.old + 106 ≤ 3436 }
    ensures items { text.new.items ≡ text.old.items ++ entry_line e }
    ensures room { array_vec_len text.new ≤ array_vec_len text.old + 106 }
{
    append_node(text, e.bus, e.address);
    append_kind(text, e.kind);
    if e.left == 0 {
        append_due(text, e.kind);
    } else {
        append_polls(text, e.left);
    }
}

// A line for each entry.
#[tactic(auto, unfolding(crate::specs::Text::entry_lines))]
fn append_entries(text: &mut Text, entries: &[Entry])
    requires { (length entries.now ≤ 32) × (array_vec_len text.old ≤ 44) }
    ensures { text.new.items ≡ text.old.items ++ entry_lines entries.now }
{
    for e in entries {
        append_entry(text, *e);
    }
}

// How many entries have no poll left.
fn due_in(entries: &[Entry]) -> usize
    ensures { result ≡ count_by is_due entries.now }
{
    entries.iter().filter(|e| e.left == 0).count()
}

// The parts of the line above the entries.
#[tactic(auto, using(crate::proofs::Sizes::number), unfolding(crate::specs::Text::count_text))]
fn append_count(text: &mut Text, n: usize)
    requires { (n ≤ 32) × (array_vec_len text.old + 10 ≤ 3436) }
    ensures items { text.new.items ≡ text.old.items ++ count_text n }
    ensures len { array_vec_len text.new ≡ array_vec_len text.old + length (count_text n) }
{
    if n == 0 {
        append(text, b"empty");
    } else {
        append_number(text, n as u32);
        if n == 1 {
            append(text, b" entry");
        } else {
            append(text, b" entries");
        }
    }
}

#[tactic(auto, using(crate::proofs::Sizes::number), unfolding(crate::specs::Text::due_count))]
fn append_due_count(text: &mut Text, n: usize, due: usize)
    requires { (due ≤ 32) × (array_vec_len text.old + 11 ≤ 3436) }
    ensures items { text.new.items ≡ text.old.items ++ due_count n due }
    ensures len { array_vec_len text.new ≡ array_vec_len text.old + length (due_count n due) }
{
    if due > 0 {
        append(text, b", ");
        append_number(text, due as u32);
        append(text, b" DUE\n");
    } else if n == 0 {
        append(text, b"\n");
    } else {
        append(text, b", none due\n");
    }
}

#[tactic(auto, using(crate::proofs::Sizes::heads), unfolding(crate::specs::Text::head_line, crate::specs::Text::full_text))]
fn append_head(text: &mut Text, n: usize, due: usize)
    requires { (n ≤ 32) × (due ≤ 32) × (array_vec_len text.old ≡ 0) }
    ensures items { text.new.items ≡ text.old.items ++ head_line n due }
    ensures len { array_vec_len text.new ≤ 44 }
{
    append(text, b"handover board: ");
    append_count(text, n);
    if n == 32 {
        append(text, b" (full)");
    }
    append_due_count(text, n, due);
}

#[tactic(auto, using(crate::proofs::Rows::due), unfolding(crate::specs::Text::board_lines))]
fn board_text(entries: &[Entry]) -> Text
    requires { length entries.now ≤ 32 }
    ensures { result.items ≡ board_lines entries.now }
{
    let mut text = Text::new();
    append_head(&mut text, entries.len(), due_in(entries));
    append_entries(&mut text, entries);
    text
}

#[tactic(auto, using(crate::proofs::Sizes::number), unfolding(crate::specs::Text::refused_line))]
fn refused_text(n: u8) -> Text
    ensures { result.items ≡ refused_line n }
{
    let mut text = Text::new();
    append(&mut text, b"refused ");
    append_number(&mut text, u32::from(n));
    append(&mut text, b"\n");
    text
}

#[tactic(auto, using(crate::proofs::Rows::texts))]
fn list_text(list: Result<Entries, Refusal>) -> Text
    ensures { result.items ≡ list_text list }
{
    match list {
        Ok(entries) => board_text(entries.as_slice()),
        Err(why) => refused_text(why.number()),
    }
}

// Lays a text at the start of the lent room, where it fits, and answers its length; else 0.
#[tactic(auto, unfolding(crate::specs::Text::laid_in, refusal::specs::Room::overlay))]
fn lay(text: &Text, out: &mut [u8]) -> usize
    ensures { (result, out.new) ≡ laid_in text.now.items out.old }
{
    let n = text.len();
    if out.len() < n {
        return 0;
    }
    out[..n].copy_from_slice(text.as_slice());
    n
}

// The text of a list or of its refusal, laid at the start of the lent room, where it fits, and its length; else 0.
pub fn text(list: Result<Entries, Refusal>, out: &mut [u8]) -> usize
    ensures { (result, out.new) ≡ laid_in (list_text list) out.old }
{
    lay(&list_text(list), out)
}

#[tactic(auto, unfolding(crate::specs::Text::board_text))]
fn text_by(refusal: u8, entries: &[Entry]) -> Text
    ensures { result.items ≡ board_text refusal (take 32 entries.now) }
{
    if refusal == 0 {
        let n = 32.min(entries.len());
        return board_text(&entries[..n]);
    }
    refused_text(refusal)
}

// The same by the number of a refusal, whatever it is, 0 for none, and of the first 32 of any entries.
pub fn numbered_text(refusal: u8, entries: &[Entry], out: &mut [u8]) -> usize
    ensures { (result, out.new) ≡ laid_in (board_text refusal (take 32 entries.now)) out.old }
{
    lay(&text_by(refusal, entries), out)
}
