// The text of a run and of the report after it.
ghost use Rattle.std.specs.Prelude.{◌≡◌, ◌+◌, ◌≤◌};
ghost use Rattle.instance.specs.Refusal.{number, number_of};
ghost use Rattle.messages.specs.Answers.{reported_as};
ghost use Rattle.console.specs.Lines.{refused_line, count_lines, kept_lines, bound_lines, cost_lines, at_records, stop_line, report_text, text_of};
ghost use Rattle.console.specs.Numbers.{stopped_by, reported_by};
ghost use Rattle.console.specs.Output.{outputs, output_of};
ghost use Rattle.console.specs.Writing.{Wrote, Room};

use crate::text::Text;
use instance::Refusal;
use messages::{Answer, Report};

// The least length of a buffer that is written to. No text is as long.
const ROOM: usize = 256;

// Kept: any number, as `refusal_text` takes it; a `Refusal` would ask more of callers.
#[tactic(auto, using(crate::proofs::DecimalLaws::decimal_is, crate::proofs::WritingLaws::wrote_as), unfolding(crate::specs::Lines::refused_line))]
fn refused_line(text: &mut Text, number: u8)
    requires { Room text.old 32 }
    ensures { Wrote text.old (refused_line number) text.new }
{
    text.line(b"refused ", number);
}

fn count_lines(text: &mut Text, done: usize, stuck: usize)
    requires { Room text.old 64 }
    ensures wrote { Wrote text.old (count_lines done stuck) text.new }
    ensures short { text.new.len ≤ text.old.len + 64 }
{
    text.line(b"done ", done);
    text.line(b"stuck ", stuck);
}

fn kept_lines(text: &mut Text, bound: i64, cost: i64, gap: i64)
    requires { Room text.old 96 }
    ensures wrote { Wrote text.old (kept_lines bound cost gap) text.new }
    ensures short { text.new.len ≤ text.old.len + 96 }
{
    text.line(b"bound ", bound);
    text.line(b"cost ", cost);
    text.line(b"gap ", gap);
}

fn bound_lines(text: &mut Text, bound: i64)
    requires { Room text.old 96 }
    ensures wrote { Wrote text.old (bound_lines bound) text.new }
    ensures short { text.new.len ≤ text.old.len + 96 }
{
    text.line(b"bound ", bound);
    text.put(b"cost none\n");
    text.put(b"gap none\n");
}

// The sixth line of a run that stopped at a record.
#[tactic(auto, using(crate::proofs::RefusalLaws::stopped_line, crate::proofs::WritingLaws::wrote_as, crate::proofs::WritingLaws::wrote_none), unfolding(crate::specs::Lines::stop_line))]
fn stop_line(text: &mut Text, refusal: Option<Refusal>)
    requires { Room text.old 32 }
    ensures { Wrote text.old (stop_line (number_of refusal)) text.new }
{
    if let Some(refusal) = refusal {
        refused_line(text, u8::from(refusal));
    }
}

// The bound, the kept cost and the gap of a report that was not refused.
#[tactic(auto, using(crate::proofs::WritingLaws::wrote_as, crate::proofs::ReportLaws::unkept_lines), unfolding(crate::specs::Lines::cost_lines))]
fn cost_lines(text: &mut Text, report: Report)
    requires { Room text.old 96 }
    ensures wrote { Wrote text.old (cost_lines (reported_as (Ok report))) text.new }
    ensures short { text.new.len ≤ text.old.len + 96 }
{
    let Report::Kept(bound, cost, gap) = report else {
        return bound_lines(text, report.bound());
    };
    kept_lines(text, bound, cost, gap);
}

// The text of a run and of a report that was not refused.
fn told_text(text: &mut Text, answer: Answer, report: Report)
    requires { Room text.old 256 }
    ensures { Wrote text.old (report_text answer.done answer.stuck (number_of answer.refusal) (reported_as (Ok report))) text.new }
{
    count_lines(text, answer.done, answer.stuck);
    cost_lines(text, report);
    stop_line(text, answer.refusal);
}

// The text of a report that was made of a run's last buffers.
// Kept: what a run and the report after it answered, one by one, as the two calls give them.
#[tactic(auto, using(crate::proofs::WritingLaws::wrote_as), unfolding(crate::specs::Lines::report_text))]
fn report_text(text: &mut Text, answer: Answer, report: Result<Report, Refusal>)
    requires { Room text.old 256 }
    ensures { Wrote text.old (report_text answer.done answer.stuck (number_of answer.refusal) (reported_as report)) text.new }
{
    match report {
        Ok(report) => told_text(text, answer, report),
        Err(refusal) => refused_line(text, u8::from(refusal)),
    }
}

// Whether a refusal is that of a record: the run stopped there, and its counts are printed.
#[tactic(auto, using(crate::proofs::RefusalLaws::at_others), unfolding(crate::specs::Lines::at_records))]
fn at_record(refusal: Refusal) -> bool
    ensures { result ≡ at_records (number refusal) }
{
    matches!(refusal, Refusal::NoSuchRecord | Refusal::CostOverflow)
}

// The text of a run and of the report after it.
#[tactic(auto, using(crate::proofs::WritingLaws::wrote_as), unfolding(crate::specs::Lines::at_records, crate::specs::Lines::text_of))]
fn run_text(text: &mut Text, answer: Answer, report: Result<Report, Refusal>)
    requires { Room text.old 256 }
    ensures { Wrote text.old (text_of answer.done answer.stuck (number_of answer.refusal) (reported_as report)) text.new }
{
    match answer.refusal {
        Some(refusal) if !at_record(refusal) => refused_line(text, u8::from(refusal)),
        _ => report_text(text, answer, report),
    }
}

// Puts the text of a run and of the report after it at the start of out, and answers its length; in a buffer of fewer
// than 256 bytes nothing, and 0.
pub fn compose(answer: Answer, report: Result<Report, Refusal>, out: &mut [u8]) -> usize
    ensures { outputs out.new result ≡ output_of (text_of answer.done answer.stuck (number_of answer.refusal) (reported_as report)) out.old }
{
    if out.len() < ROOM {
        return 0;
    }
    let mut text = Text { out, len: 0 };
    run_text(&mut text, answer, report);
    text.len
}

// Puts the line of a refusal, by its number, at the start of out, and answers its length; in a buffer of fewer than 256
// bytes nothing, and 0.
// Kept: any number; a `Refusal` would ask more of callers. The test of room stands here and in `compose`: one function of both would be handed a closure, and hand on its contract, for two lines.
pub fn refusal_text(number: u8, out: &mut [u8]) -> usize
    ensures { outputs out.new result ≡ output_of (refused_line number) out.old }
{
    if out.len() < ROOM {
        return 0;
    }
    let mut text = Text { out, len: 0 };
    refused_line(&mut text, number);
    text.len
}

// What stopped a run, by its number: no record for 0, or a record. Any other number is no record's, and an error.
// Kept: a function, as `TryFrom` can't be implemented for types of other crates; the error is the number that is printed.
#[tactic(auto, unfolding(crate::specs::Numbers::stopped_by))]
fn stopped_by(number: u8) -> Result<Option<Refusal>, u8>
    ensures { result ≡ stopped_by number }
{
    match number {
        0 => Ok(None),
        12 => Ok(Some(Refusal::NoSuchRecord)),
        13 => Ok(Some(Refusal::CostOverflow)),
        other => Err(other),
    }
}

// The same as `compose` for any numbers: of the refusal that stopped the run, 0 for none, and of the report's.
// Kept: numbers, since the types that `compose` takes have no others than the tables'.
pub fn compose_numbers(
    done: usize,
    stuck: usize,
    refusal: u8,
    report: Result<Report, u8>,
    out: &mut [u8],
) -> usize
    ensures { outputs out.new result ≡ output_of (text_of done stuck refusal (reported_by report)) out.old }
{
    let stopped = match stopped_by(refusal) {
        Ok(stopped) => stopped,
        Err(other) => return refusal_text(other, out),
    };
    match report {
        Ok(report) => {
            let answer = Answer {
                done,
                stuck,
                refusal: stopped,
            };
            compose(answer, Ok(report), out)
        }
        Err(number) => refusal_text(number, out),
    }
}
