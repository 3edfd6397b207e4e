// The sentences of 02 (i) on the handover board: a line for each case, in the order of src/table.rt. What each line must say stands in
// the file stdout, which is written from 02 and never by this program.
#![tactic(auto)]

mod ask;
mod show;
mod table;

use std::io;

fn main(rt: HostRuntime) -> io::Result<()> {
    table::openings(&rt)?;
    table::closings(&rt)?;
    table::numbers(&rt)?;
    table::restarts(&rt)?;
    table::ranges(&rt)?;
    table::polls(&rt)?;
    table::freed_places(&rt)?;
    table::lists(&rt)?;
    table::spoilt_tables(&rt)?;
    table::full_tables(&rt)
}
