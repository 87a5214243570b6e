// Going through the file: the cases, and the calls of each. Each function answers none where the file ends first.
use crate::buffers::Buffers;
use crate::calls::Case;
use crate::ops::Op;
use crate::reader::Reader;
use crate::tally::Tally;

const MARK: [u8; 8] = *b"ORCLVEC1";

// The whole file, as far as it goes. One that does not begin with the mark has no cases.
pub fn replay(file: &[u8]) -> Tally {
    let mut tally = Tally::default();
    let _ = replay_cases(&mut Reader::new(file), &mut tally);
    tally
}

fn replay_cases(reader: &mut Reader, tally: &mut Tally) -> Option<()> {
    if reader.array() != MARK {
        return None;
    }
    let _level = reader.word();
    let cases = reader.word();
    reader.held()?;
    for _ in 0..cases {
        replay_case(reader, tally)?;
    }
    Some(())
}

// One case: its sheet, then its buffers, then the number of its calls, and these. It counts as gone through only where
// the file holds all of them.
fn replay_case(reader: &mut Reader, tally: &mut Tally) -> Option<()> {
    tally.begin_case();
    let sheet = reader.field()?;
    let buffers = Buffers::read(reader);
    let calls = reader.word();
    reader.held()?;
    let mut case = Case { sheet, buffers };
    for _ in 0..calls {
        replay_call(&mut case, reader, tally)?;
    }
    tally.end_case();
    Some(())
}

// One call. An op that is none ends the replay.
fn replay_call(case: &mut Case, reader: &mut Reader, tally: &mut Tally) -> Option<()> {
    let op = Op::try_from(reader.byte()).ok()?;
    let agreed = case.call(op, reader);
    tally.add(op, agreed);
    reader.held()
}
