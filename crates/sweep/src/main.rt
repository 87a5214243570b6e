// Writes the forward (0) or the backward (1) sweep of `sheet.msh` to standard output, as a list of records for
// `cirbaldu`. The direction is the one argument. When refused it writes nothing there, and `refused R` to standard error.
#![tactic(auto)]

ghost use Rattle.std.specs.Prelude.{◌≤◌, length};

mod writing;

use std::env::{Env, FillError};
use std::io::{self, Write};
use writing::{direction_of, sweep_at_start};

// Whether there is an argument 2.
fn has_second<R: Env>(rt: &R) -> bool {
    !matches!(rt.arg(2, &mut [0u8; 1]), Err(FillError::NotPresent))
}

// The program's one argument; no text where there are more or fewer, or where it is longer than the buffer.
fn argument<'a, R: Env>(rt: &R, text: &'a mut [u8]) -> &'a [u8]
    ensures { length result.now ≤ length text.old }
{
    match rt.arg(1, text) {
        Ok(length) if !has_second(rt) => &text[..length],
        _ => &[],
    }
}

// Kept: the direction is the byte that `write_sweep` takes.
fn write(rt: &HostRuntime, sheet: &[u8], direction: u8) -> io::Result<()> {
    let mut out = [0u8; 7_685];
    match sweep_at_start(sheet, direction, &mut out) {
        Ok(list) => rt.stdout().write_all(list),
        Err(refusal) => terminal::print_refusal(&mut rt.stderr(), u8::from(refusal)),
    }
}

fn main(rt: HostRuntime) -> io::Result<()> {
    let mut sheet = console::sheet_buffer();
    let mut text = [0u8; 2];
    let sheet = terminal::read_file(&rt, b"sheet.msh", &mut sheet);
    let direction = direction_of(argument(&rt, &mut text));
    write(&rt, sheet, direction)
}
