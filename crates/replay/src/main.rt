// Replays the calls of an outside vector file against this repository's crates, counts for each kind of call how many
// were compared, how many differed and how many were skipped, and names the first case and call that differ.
#![tactic(auto)]

mod buffers;
mod calls;
mod cases;
mod hash;
mod ops;
mod reader;
mod tally;

use std::{fs, io};

fn main(rt: HostRuntime) -> io::Result<()> {
    let mut file = fs::open(&rt, "small.vec")?;
    let mut buffer = [0u8; 65_536];
    let tally = cases::replay(terminal::read_full(&mut file, &mut buffer));
    print!(rt; "{tally}")
}
