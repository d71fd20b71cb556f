//! What the trace tells of a turn, in one line or two.
ghost use Rattle.std.specs.Prelude.{◌≡◌, ◌+◌, ◌≤◌, length};
ghost use Rattle.trace_text.specs.Laid.{LaidAs};
ghost use Rattle.trace_turns.specs.Told.{accepted_as, event_of, noted_as, told_line, noted_line, told_text};

use calls::{Note, Progress, Report};
use dock::Turn;
use trace_text::{EntryLine, Event, Line, put_line};
use turns::Operation;

fn accepted_as(operation: Operation) -> Event
    ensures { result ≡ accepted_as operation }
{
    match operation {
        Operation::Start(_) => Event::Begin,
        Operation::Step | Operation::Drain(_) => Event::Step,
        Operation::List(_) => Event::List,
        Operation::Death => Event::Dead,
    }
}

fn event_of(operation: Operation, progress: Progress) -> Event
    ensures { result ≡ event_of operation progress }
{
    match progress {
        Progress::Accepted => accepted_as(operation),
        Progress::Answered(answer) => Event::Done(answer),
        Progress::Refused(why) => Event::Refused(why),
    }
}

// Stays: no plainer: `Event::from` would not say that the line is of what was noted.
fn noted_as(note: Note) -> Event
    ensures { result ≡ noted_as note }
{
    match note {
        Note::Found(index) => Event::Found(index),
        Note::Freed(index, owner) => Event::Freed(index, owner),
    }
}

// Stays: no plainer as a struct of `out` and `at`: `put_line` takes both, and it would be made anew at each call, here and
// wherever the room for lines is asked.
fn put_entry(out: &mut [u8], at: usize, line: EntryLine) -> usize
    requires { at + 128 ≤ length out.old }
    ensures laid { LaidAs out.old at (told_line line) out.new result }
    ensures upper_bound { result ≤ at + 128 }
{
    put_line(out, at, Line::Entry(line))
}

// What was found or freed, by the entry of that line.
#[tactic(auto, using(trace_text::proofs::Laying::laid_none))]
fn put_noted(out: &mut [u8], at: usize, line: EntryLine, noted: Option<Note>) -> usize
    requires { at + 128 ≤ length out.old }
    ensures laid { LaidAs out.old at (noted_line line noted) out.new result }
    ensures upper_bound { result ≤ at + 128 }
{
    match noted {
        None => at,
        Some(note) => put_entry(
            out,
            at,
            EntryLine {
                event: noted_as(note),
                ..line
            },
        ),
    }
}

// All that is told of the turn of an entry with this number.
pub(crate) fn put_told(out: &mut [u8], at: usize, number: u64, turn: Turn, report: Report) -> usize
    requires { at + 256 ≤ length out.old }
    ensures laid { LaidAs out.old at (told_text number turn report) out.new result }
    ensures upper_bound { result ≤ at + 256 }
{
    let line = EntryLine {
        number,
        who: turn.who,
        event: event_of(turn.operation, report.progress),
    };
    let behind = put_noted(out, at, line, report.noted);
    put_entry(out, behind, line)
}
