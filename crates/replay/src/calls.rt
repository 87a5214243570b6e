// The calls. For each op a function reads its parameters and what the file has for answers, makes the call, and says
// whether the answers are the file's. It answers none where the call is skipped: where the buffers of the case are too
// long for this program, and where the function says so.
//
// The hash of the buffers is compared after the calls that have them, and after each edit. A show or a read has none to
// change, and a sweep or a placing its own: there it is not compared.
use crate::buffers::{Buffer, Buffers};
use crate::hash::Hash;
use crate::ops::Op;
use crate::reader::Reader;
use instance::{Refusal, Sheet};
use messages::Report;

// A case that is gone through: its sheet, and its buffers, none once one was too long.
#[derive(Drop)]
pub struct Case<'a> {
    pub sheet: &'a [u8],
    pub buffers: Option<Buffers>,
}

impl<'a> Case<'a> {
    // The one place where an op is chosen.
    // Kept: a `match` on an enum, as some of the nine change the case and some are lent its sheet alone.
    pub fn call(&mut self, op: Op, reader: &mut Reader) -> Option<bool> {
        match op {
            Op::Open => self.open(reader),
            Op::Run => self.run(reader),
            Op::Report => self.report(reader),
            Op::Sweep => sweep(self.sheet, reader),
            Op::Show => show(self.sheet, reader),
            Op::Read => read(self.sheet, reader),
            Op::Place => place(self.sheet, reader),
            Op::Resize => self.resize(reader),
            Op::Poke => self.poke(reader),
        }
    }

    // Open: the refusal.
    fn open(&mut self, reader: &mut Reader) -> Option<bool> {
        let answers = reader.answers();
        let buffers = self.buffers.as_mut()?;
        let opened = buffers.open(self.sheet);
        Some(answers.leave(&[number(opened.err())], buffers.hash()))
    }

    // Run: a limit, of no account here, and the records; then the refusal, how many were done and how many stuck.
    fn run(&mut self, reader: &mut Reader) -> Option<bool> {
        let _limit = reader.number();
        let records = reader.field();
        let answers = reader.answers();
        let buffers = self.buffers.as_mut()?;
        let Some(records) = records else {
            return Some(false);
        };
        let ran = buffers.run(self.sheet, records);
        let numbers = [number(ran.refusal), wide(ran.done), wide(ran.stuck)];
        Some(answers.leave(&numbers, buffers.hash()))
    }

    // Report: a limit, of no account here; then the refusal, whether one is kept, the bound, the cost and the gap.
    fn report(&mut self, reader: &mut Reader) -> Option<bool> {
        let _limit = reader.number();
        let answers = reader.answers();
        let buffers = self.buffers.as_ref()?;
        let told = buffers.report(self.sheet);
        let (kept, costs) = match told {
            Ok(Report::Kept(bound, cost, gap)) => (true, [bound, cost, gap]),
            Ok(Report::Bound(bound)) => (false, [bound, 0, 0]),
            Err(_) => (false, [0, 0, 0]),
        };
        let [bound, cost, gap] = costs.map(i64::cast_unsigned);
        let numbers = [number(told.err()), u64::from(kept), bound, cost, gap];
        Some(answers.leave(&numbers, buffers.hash()))
    }

    // Resize: a buffer and its length.
    fn resize(&mut self, reader: &mut Reader) -> Option<bool> {
        let buffer = Buffer::from(reader.byte());
        let length = reader.size();
        let answers = reader.answers();
        let mut buffers = self.buffers.take()?;
        buffers.resize(buffer, length)?;
        let agrees = answers.leave(&[], buffers.hash());
        self.buffers = Some(buffers);
        Some(agrees)
    }

    // Poke: a buffer, a place in it and a value.
    fn poke(&mut self, reader: &mut Reader) -> Option<bool> {
        let buffer = Buffer::from(reader.byte());
        let place = reader.size();
        let value = reader.array();
        let answers = reader.answers();
        let buffers = self.buffers.as_mut()?;
        buffers.poke(buffer, place, value);
        Some(answers.leave(&[], buffers.hash()))
    }
}

// A count, as the file has numbers.
fn wide(count: usize) -> u64 {
    // Kept: a usize has 64 bits, and there is no `From`; `try_from` would add a case that cannot happen.
    count as u64
}

// A refusal's number, 0 for none.
fn number(refusal: Option<Refusal>) -> u64 {
    refusal.map_or(0, |refusal| u64::from(u8::from(refusal)))
}

// Show edge: the refusal and the length of the part, and the part as the output.
fn show(sheet: &[u8], reader: &mut Reader) -> Option<bool> {
    let edge = reader.size();
    let answers = reader.answers();
    let shown = instance::shown_edge(sheet, edge);
    let prices = shown.unwrap_or(&[]);
    let numbers = [number(shown.err()), wide(prices.len())];
    Some(answers.are(&numbers, Hash::new().bytes(prices)))
}

// Sweep: the refusal, and the lent bytes, which were A5 before, as the output. Skipped where the direction is no byte,
// and where the lent buffer is longer than there is room for.
fn sweep(sheet: &[u8], reader: &mut Reader) -> Option<bool> {
    let direction = reader.word();
    let length = reader.size();
    let answers = reader.answers();
    let mut out = [0xA5u8; 512];
    let lent = out.get_mut(..length)?;
    let written = schedule::write_sweep(sheet, u8::try_from(direction).ok()?, lent);
    Some(answers.are(&[number(written.err())], Hash::new().bytes(lent)))
}

// Place: the refusal, and the lent bytes, which were A5 before, as the output. Where no matching exists it is left open
// which set of nodes they name, and the file has no hash of them. Skipped where the lent buffer is longer than there is
// room for.
fn place(sheet: &[u8], reader: &mut Reader) -> Option<bool> {
    let length = reader.size();
    let answers = reader.answers();
    let mut out = [0xA5u8; 64];
    let lent = out.get_mut(..length)?;
    let refusal = placing::place(sheet, lent).err();
    let numbers = [number(refusal)];
    if refusal == Some(Refusal::NoMatching) {
        return Some(answers.numbers_are(&numbers) && names_nodes(lent));
    }
    Some(answers.are(&numbers, Hash::new().bytes(lent)))
}

// Whether the bytes name a set of nodes that has a member: each is 0 or 1, and one of them is 1.
fn names_nodes(bytes: &[u8]) -> bool {
    bytes.iter().all(|byte| *byte <= 1) && bytes.contains(&1)
}

// Read: the refusal and the counts, and where the nodes' cells and the edges' tables begin as the output.
fn read(sheet: &[u8], reader: &mut Reader) -> Option<bool> {
    let answers = reader.answers();
    match Sheet::read(sheet) {
        Ok(sheet) => {
            let counts = [
                0,
                sheet.nodes,
                sheet.labels,
                sheet.edges,
                sheet.positions,
                sheet.cells,
            ];
            let numbers = counts.map(wide);
            let starts = Hash::new().words(&sheet.starts);
            Some(answers.are(&numbers, starts.words(&sheet.tables)))
        }
        Err(refusal) => {
            let numbers = [u64::from(u8::from(refusal)), 0, 0, 0, 0, 0];
            Some(answers.are(&numbers, Hash::new().words(&[0; 320])))
        }
    }
}
