// Reads `sheet.msh` and a list of records on standard input, and prints the counts, the bound, the kept cost and the gap.
#![tactic(auto)]

use std::io;

fn main(rt: HostRuntime) -> io::Result<()> {
    terminal::run(&rt, b"sheet.msh", &mut rt.stdin())
}
