// The vectors of the I2C papers: one line for each, in the order of src/table.rt. What each line must say stands in the file
// stdout, which is written from the papers and never by this program.
#![tactic(auto)]

mod show;
mod table;

use std::fmt::Display;
use std::io;

// A line for each vector.
fn lines<V: Display>(rt: &impl Print, vectors: &[V]) -> io::Result<()> {
    for vector in vectors {
        println!(rt; "{vector}")?;
    }
    Ok(())
}

fn main(rt: HostRuntime) -> io::Result<()> {
    lines(&rt, &table::MAKERS_CRCS)?;
    lines(&rt, &table::DERIVED_CRCS)?;
    lines(&rt, &table::FIRST_AND_LAST_STEPS)?;
    lines(&rt, &table::STEPS)?;
    lines(&rt, &table::READS)?;
    lines(&rt, &table::WRITES)?;
    lines(&rt, &table::NUMBER_FORMATS)?;
    lines(&rt, &table::COMMANDS)?;
    lines(&rt, &table::REGISTERS)?;
    lines(&rt, &table::READINGS)?;
    lines(&rt, &table::ROUNDING)
}
