// A file read whole into lent room, and what its programs write.
#![tactic(auto)]

ghost use Rattle.std.specs.Prelude.{◌≡◌, ◌≤◌, ◌+◌, ◌++◌, IfSome, IfOk, IsErrAnd, OnOk, MatchResult, length, take};
ghost use Rattle.std.specs.Bool.{OnTrue};
ghost use Rattle.std.specs.Io.KnownBytes.{Appends, Consumes, IsAtEnd};
ghost use Rattle.std.specs.IoError.{raw_os_error};
ghost use Rattle.std.specs.Str.{IsUtf8};
ghost use Rattle.files.specs.Failing.{AppendsLine};

use arrayvec::ArrayVec;
use std::env::Env;
use std::fs::Files;
use std::io::{ErrorKind, Read, Write};
use std::{fs, io};

// Puts the argument of that number at the start of lent room, and answers it: nothing where there is none, or one longer than the room.
pub fn argument<'a, E: Env>(env: &E, number: usize, room: &'a mut [u8]) -> &'a [u8]
    ensures { length result.now ≤ length room.old }
{
    let n = env.arg(number, room).unwrap_or(0);
    &room[..n]
}

// The system's number of the error that bytes are no text.
const NO_TEXT: i32 = 84;

// Opens the file of a name for reading. The names of files are UTF-8, so no other can be opened.
pub fn open<F: Files>(files: &F, name: &[u8]) -> io::Result<F::File>
    ensures { ¬ (IsUtf8 name.now) → IsErrAnd result (λ e. raw_os_error e ≡ Some NO_TEXT) }
{
    match str::from_utf8(name) {
        Ok(path) => fs::open(files, path),
        Err(_) => Err(io::Error::from_raw_os_error(NO_TEXT)),
    }
}

// Whether an input is at its end.
fn at_end<R: Read>(input: &mut R) -> bool
    ensures { OnTrue result (IsAtEnd (R.remaining input.old)) }
{
    let mut rest = [0u8; 4096];
    match input.read(&mut rest) {
        Ok(got) => got == 0,
        Err(_) => false,
    }
}

// Reads the rest of an input to its end, 4 GiB of it at most, and says whether it could be read.
fn read_on<R: Read>(input: &mut R) -> bool {
    let mut rest = [0u8; 4096];
    for _ in 0..1_048_576 {
        match input.read(&mut rest) {
            Ok(0) => return true,
            Ok(_) => {}
            Err(_) => return false,
        }
    }
    true
}

// Reads until the room is full, the input ends or a read fails, and answers how many bytes it put at the room's start: the library's
// read_exact does not say how many those are where the input ends.
fn read_full<R: Read>(input: &mut R, room: &mut [u8]) -> usize
    ensures bound { result ≤ length room.new }
    ensures bytes { Consumes (R.remaining input.old) (R.remaining input.new) (take result room.new) }
{
    let mut done: usize = 0;
    while done < room.len() {
        let Ok(n) = input.read(&mut room[done..]) else {
            break;
        };
        if n == 0 {
            break;
        }
        done += n;
    }
    done
}

// Reads a file to its end, and puts its bytes at the room's start; of one that fills the room the first bytes are kept. Ok says how many there
// are, Err how many there were where it could not be read to its end.
pub fn load<R: Read>(input: &mut R, room: &mut [u8]) -> Result<usize, usize>
    ensures bound { MatchResult result (λ n. n ≤ length room.new) (λ n. n ≤ length room.new) }
    ensures bytes { IfOk result (λ n. IfSome (R.remaining input.old) (λ xs. take n room.new ≡ take (length room.new) xs)) }
{
    let length = read_full(input, room);
    let ended = if length < room.len() {
        at_end(input)
    } else {
        read_on(input)
    };
    if ended { Ok(length) } else { Err(length) }
}

// The same, with the file's bytes in the room as the answer, and None where it could not be read to its end. What the room holds then, `load`
// says: of a function that answers a part of the lent room the check would want a proof by hand for such a clause.
pub fn load_bytes<'a, R: Read>(input: &mut R, room: &'a mut [u8]) -> Option<&'a [u8]>
    ensures bound { IfSome result (λ bytes. length bytes.now ≤ length room.old) }
    ensures bytes { IfSome result (λ bytes. IfSome (R.remaining input.old) (λ xs. bytes.now ≡ take (length room.old) xs)) }
{
    let length = load(input, room).ok()?;
    Some(&room[..length])
}

// Writes all of a text, or stops at the first write that fails or takes nothing. The library's write_all goes on after a write that was
// interrupted, where this stops.
pub fn write_all<W: Write>(to: &mut W, text: &[u8]) -> io::Result<()>
    ensures { OnOk result (Appends (W.contents to.old) (W.contents to.new) text.now) }
{
    let mut rest = text;
    while !rest.is_empty() {
        let n = to.write(rest)?;
        if n == 0 {
            return Err(io::Error::from(ErrorKind::WriteZero));
        }
        rest = &rest[n..];
    }
    Ok(())
}

// Where the last opening bracket of a text and the blank before it stand: the text's length where there is none.
fn before_bracket(text: &[u8]) -> usize
    ensures { result ≤ length text.now }
{
    let bracket = text.iter().rposition(|b| *b == b'(');
    match bracket {
        Some(at) if at > 0 => at - 1,
        _ => text.len(),
    }
}

// Writes a line: what failed, a colon and the system's text of the error, 128 bytes of it at most. An error of the system's says its number
// in brackets behind its text, which is left out.
pub fn fail<W: Write>(to: &mut W, what: &[u8], error: &io::Error) -> io::Result<()>
    ensures { OnOk result (AppendsLine (W.contents to.old) (W.contents to.new) what.now) }
{
    let mut text: ArrayVec<u8, 128> = ArrayVec::new();
    let _ = write!(text, "{error}");
    let said = text.as_slice();
    let end = match error.raw_os_error() {
        Some(_) => before_bracket(said),
        None => said.len(),
    };
    let named = write_all(to, what);
    let parted = write_all(to, b": ");
    let told = write_all(to, &said[..end]);
    let ended = write_all(to, b"\n");
    named?;
    parted?;
    told?;
    ended
}

// The program's name and a text behind it in one piece, which takes one write: between two, another program's line could come. A name that
// leaves no room for the text is written here, and the piece is the text alone.
fn named<W: Write>(to: &mut W, program: &[u8], text: &[u8]) -> ArrayVec<u8, 256>
    ensures { length program.now + length text.now ≤ 256 → result.items ≡ program.now ++ text.now }
{
    let mut piece = ArrayVec::new();
    if program.len() + text.len() <= 256 {
        let _ = piece.try_extend_from_slice(program);
    } else {
        let _ = write_all(to, program);
    }
    let _ = piece.try_extend_from_slice(text);
    piece
}

// The log that the first argument names, whole, in lent room. Where it cannot be had, standard error says why, behind the program's name.
pub fn first_log<'a>(rt: &HostRuntime, program: &[u8], room: &'a mut [u8]) -> Option<&'a [u8]>
    ensures { IfSome result (λ log. length log.now ≤ length room.old) }
{
    let mut name = [0u8; 4096];
    let name = argument(rt, 1, &mut name);
    let mut log = match open(rt, name) {
        Ok(log) => log,
        Err(why) => {
            let mut to = rt.stderr();
            let what = named(&mut to, program, b": the log cannot be opened");
            let _ = fail(&mut to, what.as_slice(), &why);
            return None;
        }
    };
    let loaded = load_bytes(&mut log, room);
    if loaded.is_none() {
        let mut to = rt.stderr();
        let line = named(&mut to, program, b": the log cannot be read to its end\n");
        let _ = write_all(&mut to, line.as_slice());
    }
    loaded
}
