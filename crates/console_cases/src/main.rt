// Whole runs of the program, each under a heading. The files with a number are runs of an independent implementation.
#![tactic(auto)]

use messages::{Answer, Refusal, Report};
use std::fs::{self, Files};
use std::io::{self, Print, Write};

// The runs: a heading, the sheet's file and the records' file.
const RUNS: [(&str, &str, &str); 36] = [
    // runs to the end
    ("the sample", "sample.sheet", "sample.records"),
    ("none kept", "0012.sheet", "0012.records"),
    ("below 0", "0053.sheet", "0053.records"),
    ("the trailer alone", "0073.sheet", "0073.records"),
    ("8,192 records", "0026.sheet", "0026.records"),
    // runs that a record stops
    ("stopped, none kept", "0010.sheet", "0010.records"),
    ("stopped, one kept", "0068.sheet", "0068.records"),
    ("stopped, no nodes", "0016.sheet", "0016.records"),
    ("stopped by a cost", "0047.sheet", "0047.records"),
    // refused lists and sheets, and files that are missing
    ("a part of a record", "0018.sheet", "0018.records"),
    ("no file, no records", "missing", "missing"),
    ("no file", "missing", "sample.records"),
    ("a label", "0021.sheet", "0021.records"),
    // at and past the limits of a share, a price and a distance
    ("shares of 64 and 65", "sample.sheet", "shares.records"),
    ("a price of 1,000,001", "price.sheet", "sample.records"),
    ("a distance of 51", "distance.sheet", "sample.records"),
    // sheets with the label 255
    (
        "a run of another implementation with nine 255s",
        "0039.sheet",
        "0039.records",
    ),
    ("two nodes take 255", "vanished.sheet", "rounding.records"),
    (
        "stopped by a record at a 255",
        "vanished.sheet",
        "vanished.records",
    ),
    (
        "255 alone, and no other label",
        "vanished-alone.sheet",
        "rounding.records",
    ),
    (
        "a 255 that is not last",
        "vanished-first.sheet",
        "rounding.records",
    ),
    // edges whose ends have one label
    (
        "the sample and a sixth record",
        "sample.sheet",
        "sixth.records",
    ),
    (
        "a run of another implementation with unusable cells",
        "unusable-run.sheet",
        "unusable-run.records",
    ),
    (
        "an edge with no usable cell",
        "unusable-only.sheet",
        "rounding.records",
    ),
    (
        "the same with a price of 1,000,001",
        "unusable-price.sheet",
        "rounding.records",
    ),
    (
        "a second label at one end",
        "unusable-one.sheet",
        "rounding.records",
    ),
    (
        "255 alone at both ends",
        "vanished-joined.sheet",
        "rounding.records",
    ),
    // shares to the nearest: the bound of the first is 5 with halves toward zero, 7 with halves away from it
    (
        "halves of 7 and of 5 below 0",
        "halves.sheet",
        "halves.records",
    ),
    (
        "a run of another implementation with shares",
        "shares-run.sheet",
        "shares-run.records",
    ),
    // sheets and lists at the limits of their lengths and past them; the lists are roundings, so that one that was cut
    // would be run
    ("a sheet of 22,096 bytes", "zeros-22096", "missing"),
    ("a sheet of 22,097 bytes", "zeros-22097", "missing"),
    ("a sheet of 22,100 bytes", "zeros-22100", "missing"),
    ("40,960 bytes of records", "sample.sheet", "roundings-40960"),
    ("40,961 bytes of records", "sample.sheet", "roundings-40961"),
    ("40,965 bytes of records", "sample.sheet", "roundings-40965"),
    ("no file, 40,965 bytes", "missing", "roundings-40965"),
];

fn heading<R: Print>(rt: &R, name: &str) -> io::Result<()> {
    println!(rt; "-- {name}")
}

// The program, with its records from a file; without one where it is missing.
fn run_files<R: Files + Print>(rt: &R, sheet: &str, records: &str) -> io::Result<()> {
    match fs::open(rt, records) {
        Ok(mut records) => terminal::run(rt, sheet.as_bytes(), &mut records),
        Err(_) => terminal::run(rt, sheet.as_bytes(), &mut io::empty()),
    }
}

// A run with the most records done, which a cost stopped.
const RAN: Answer = Answer {
    done: usize::MAX,
    stuck: 10,
    refusal: Some(Refusal::CostOverflow),
};

// The text of a run with the most records done, by the numbers of its refusals.
fn show_text<R: Print>(rt: &R, refusal: u8, report: Result<Report, u8>) -> io::Result<()> {
    let mut text = [0u8; 256];
    let count = console::compose_numbers(usize::MAX, 10, refusal, report, &mut text);
    io::writer(rt).write_all(&text[..count])
}

// The text of a refused report, by the refusal itself; and that by its number, should it be another.
fn show_refused<R: Print>(rt: &R, refusal: Refusal) -> io::Result<()> {
    let mut text = [0u8; 256];
    let count = console::compose(RAN, Err(refusal), &mut text);
    io::writer(rt).write_all(&text[..count])?;
    let number = u8::from(refusal);
    let mut same = [0u8; 256];
    console::compose_numbers(usize::MAX, 10, 13, Err(number), &mut same);
    if text != same {
        return show_text(rt, 13, Err(number));
    }
    Ok(())
}

// Numbers that no run has, and a buffer that is too short.
fn extreme_cases<R: Print>(rt: &R) -> io::Result<()> {
    heading(rt, "the longest text")?;
    show_text(rt, 13, Ok(Report::Kept(i64::MIN, i64::MAX, -10)))?;
    heading(rt, "a report refused")?;
    show_refused(rt, Refusal::BoundAboveCost)?;
    heading(rt, "a number that no refusal has")?;
    show_text(rt, 200, Ok(Report::Bound(0)))?;
    heading(rt, "a buffer of 255 bytes")?;
    let count = console::compose(RAN, Ok(Report::Bound(0)), &mut [0u8; 255]);
    println!(rt; "{count}")
}

fn main(rt: HostRuntime) -> io::Result<()> {
    for (name, sheet, records) in RUNS {
        heading(&rt, name)?;
        run_files(&rt, sheet, records)?;
    }
    extreme_cases(&rt)
}
