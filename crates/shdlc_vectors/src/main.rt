// The vectors of the SHDLC papers, run through the library. The table is the file stdin, a row a line; each row is put out again with
// its answer behind it. What every line must say stands in the file stdout, which is written from the papers and never by this program.
#![tactic(auto)]

mod listener;
mod names;
mod rows;
mod text;
mod words;

use arrayvec::ArrayVec;
use std::io::{self, Read, Write};
use words::word;

// The input's next byte, and none at its end or where it cannot be read.
fn next_byte<R: Read>(input: &mut R) -> Option<u8> {
    let mut byte = [0u8; 1];
    match input.read(&mut byte) {
        Ok(1) => Some(byte[0]),
        _ => None,
    }
}

// Reads a line without its line feed, and none at the input's end; what does not fit is left for the next.
fn read_line<R: Read>(input: &mut R) -> Option<ArrayVec<u8, 512>> {
    let mut line = ArrayVec::new();
    for _ in 0..512usize {
        match next_byte(input) {
            Some(b'\n') => return Some(line),
            Some(byte) => line.push(byte),
            None => break,
        }
    }
    if line.is_empty() { None } else { Some(line) }
}

// Answers a row by its first word.
fn answer<W: Write>(out: &mut W, line: &[u8]) -> io::Result<()> {
    match word(line, 0) {
        b"checksum" => rows::checksum(out, line),
        b"stream" => rows::stream(out, line),
        b"noise" => rows::noise(out, line),
        b"lent" => rows::lent(out, line),
        b"request" => rows::request(out, line),
        b"request-body" => rows::request_body(out, line),
        b"reply" => rows::reply(out, line),
        b"reply-body" => rows::reply_body(out, line),
        b"write" => rows::write(out, line),
        b"answer" => rows::answer(out, line),
        _ => write!(out, " no row"),
    }
}

// Puts a line out again, and where it is a row its answer behind it.
fn row<W: Write>(out: &mut W, line: &[u8]) -> io::Result<()> {
    out.write_all(line)?;
    match line {
        [] | [b'#', ..] => {}
        _ => {
            write!(out, ":")?;
            answer(out, line)?;
        }
    }
    writeln!(out)
}

fn main(rt: HostRuntime) -> io::Result<()> {
    let mut input = rt.stdin();
    // This writer gives up a write that is interrupted again and again; the handle itself would try it for good.
    let stdout = rt.stdout();
    let mut out = io::writer(&stdout);
    let mut written = Ok(());
    // A bound on the lines, so that the program ends; the table has far fewer.
    for _ in 0..100_000u32 {
        let Some(line) = read_line(&mut input) else {
            break;
        };
        // After a write that failed the lines are still read, so that the program that writes them can go on.
        if written.is_ok() {
            written = row(&mut out, &line);
        }
    }
    written
}
