// Files, standard input and output for the programs. What they read and write is composed by proved functions on slices:
// no contract can say what a file holds.
#![tactic(auto)]

ghost use Rattle.std.specs.Prelude.{ℕ, ◌≡◌, ◌≤◌, length, take};

use std::fs::{self, Files};
use std::io::{self, Print, Read, Write};

// Reads to the buffer's end, the input's or the first read that fails, and answers how many bytes there are.
pub fn fill_from<R: Read>(reader: &mut R, buffer: &mut [u8]) -> usize
    ensures { (result ≤ length buffer.new) × (result ≡ length (take result buffer.new)) }
{
    // Kept: a read gives as many bytes as it likes, so no range counts the turns.
    let mut done = 0;
    while done < buffer.len() {
        match reader.read(&mut buffer[done..]) {
            Ok(0) | Err(_) => break,
            Ok(count) => done += count,
        }
    }
    done
}

// Reads a file to the buffer's end, and answers how many bytes it has. One that is missing or cannot be read is empty.
// Kept: a name in bytes, of which one that is no text counts as missing; a `&str` would ask more of callers.
pub fn fill_from_file<R: Files>(rt: &R, name: &[u8], buffer: &mut [u8]) -> usize
    ensures { (result ≤ length buffer.new) × (result ≡ length (take result buffer.new)) }
{
    let Ok(path) = str::from_utf8(name) else {
        return 0;
    };
    match fs::open(rt, path) {
        Ok(mut file) => fill_from(&mut file, buffer),
        Err(_) => 0,
    }
}

// The same as `fill_from`, and answers the bytes that were read. The buffer stays lent as long as they are held.
pub fn read_full<'a, R: Read>(reader: &mut R, buffer: &'a mut [u8]) -> &'a [u8]
    ensures { length result.now ≤ length buffer.old }
{
    let count = fill_from(reader, buffer);
    &buffer[..count]
}

// The same as `fill_from_file`, and answers the file's bytes.
pub fn read_file<'a, R: Files>(rt: &R, name: &[u8], buffer: &'a mut [u8]) -> &'a [u8]
    ensures { length result.now ≤ length buffer.old }
{
    let count = fill_from_file(rt, name, buffer);
    &buffer[..count]
}

// Writes the text that a function puts at the start of a buffer, of which it answers the length.
fn write_text<W: Write, F: FnOnce(&mut [u8]) -> usize>(to: &mut W, compose: F) -> io::Result<()>
    requires callable { F.IsAlwaysCallable compose }
    requires within { (before after : _) (count : ℕ) → F.post compose before count after → count ≤ length after.now }
{
    let mut text = [0u8; 256];
    let count = compose(&mut text);
    to.write_all(&text[..count])
}

// Prints what a sheet and a list of records give.
pub fn print<R: Print>(rt: &R, sheet: &[u8], records: &[u8]) -> io::Result<()> {
    write_text(
        &mut io::writer(rt),
        |text| console::answer(sheet, records, text),
    )
}

// Prints the line of a refusal, by its number.
// Kept: any number, as `console::refusal_text` takes it.
pub fn print_refusal<W: Write>(to: &mut W, number: u8) -> io::Result<()> {
    write_text(to, |text| console::refusal_text(number, text))
}

// The whole program: the sheet of a file, and the records of a reader.
pub fn run<R: Files + Print, I: Read>(
    rt: &R,
    sheet_name: &[u8],
    records: &mut I,
) -> io::Result<()> {
    let mut sheet = console::sheet_buffer();
    let mut list = console::record_buffer();
    let sheet = read_file(rt, sheet_name, &mut sheet);
    let records = read_full(records, &mut list);
    print(rt, sheet, records)
}
