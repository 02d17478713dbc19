// The line that each answer of a load and of a batch prints.
#![tactic(auto)]

ghost use Rattle.std.specs.Prelude.{◌≡◌, ◌+◌, ◌≤◌, ◌<◌};
ghost use Rattle.rules.specs.Records.{accepted};
ghost use Rattle.rules.specs.Answers.{number_of, says};
ghost use Rattle.program_lines.specs.Lines.{refused_line};
ghost use Rattle.program_lines.specs.Penned.{Penned};
ghost use Rattle.program_answers.specs.AnswerLines.{TotalsOf, load_prints, batch_prints};

use program_lines::{Pen, Totals};
use rules::{Refused, Report, Session};

// A refusal's line.
fn put_refusal(pen: &mut Pen<'_>, refused: Refused)
    requires { pen.old.at < 2000000 }
    ensures { Penned pen.old (refused_line (number_of refused.why) refused.place) pen.new × (pen.new.at ≤ pen.old.at + 96) }
{
    let number = boundary_numbers::number_of(refused.why);
    pen.put_refused(u64::from(number), refused.place as u64);
}

// How many pairs of a session are true by the room of the values, of how many, and the stamp.
fn totals_of(session: Session, values: &[u8]) -> Totals
    ensures { TotalsOf session values.now result }
{
    let pairs = limits::pairs_of(session.sizes);
    Totals {
        trues: engine_values::count_true(values, pairs) as u64,
        pairs: pairs as u64,
        stamp: u64::from(session.stamp),
    }
}

// The line of an accepted load.
fn put_session(pen: &mut Pen<'_>, session: Session, values: &[u8])
    requires { pen.old.at < 2000000 }
    ensures { Penned pen.old (load_prints (accepted session) values.now) pen.new × (pen.new.at ≤ pen.old.at + 96) }
{
    pen.put_loaded(totals_of(session, values));
}

// The line of an accepted batch.
fn put_report(pen: &mut Pen<'_>, report: Report, values: &[u8])
    requires { pen.old.at < 2000000 }
    ensures { Penned pen.old (batch_prints (accepted report) values.now) pen.new × (pen.new.at ≤ pen.old.at + 96) }
{
    let end = totals_of(report.session, values);
    pen.put_batch(report.net, report.visits, end);
}

// The line of a load, by its answer. A batch has another line, which is put by another function.
pub fn put_load(pen: &mut Pen<'_>, said: Result<Session, Refused>, values: &[u8])
    requires { pen.old.at < 2000000 }
    ensures { Penned pen.old (load_prints (says said) values.now) pen.new × (pen.new.at ≤ pen.old.at + 96) }
{
    match said {
        Err(refused) => put_refusal(pen, refused),
        Ok(session) => put_session(pen, session, values),
    }
}

// The line of a batch, by its answer.
pub fn put_update(pen: &mut Pen<'_>, said: Result<Report, Refused>, values: &[u8])
    requires { pen.old.at < 2000000 }
    ensures { Penned pen.old (batch_prints (says said) values.now) pen.new × (pen.new.at ≤ pen.old.at + 96) }
{
    match said {
        Err(refused) => put_refusal(pen, refused),
        Ok(report) => put_report(pen, report, values),
    }
}
