// Makes the calls of a case, and compares what they answer and write with what the case expects.
use crate::cases::{Answer, Line, Name, Open, Step, Total, TotalRow};
use crate::differences::Difference;
use book::{Day, Verdict};
use families::{Family, GroupFields};
use given::blank_behind;
use judge::{Ground, PlainTotal};
use ledger::Table;

// What stands in a buffer before a call.
const FILL: u8 = b'#';

fn compare_answers(answer: Result<usize, Ground>, wanted: Answer) -> Result<(), Difference> {
    let given = answer.map_err(u8::from);
    if given == wanted {
        Ok(())
    } else {
        Err(Difference::Answer { given, wanted })
    }
}

// Compares a record of a buffer, counted from 0, with the record that is wanted there.
fn compare_records(k: usize, given: &[u8], wanted: &[u8]) -> Result<(), Difference> {
    for (i, (g, w)) in given.iter().zip(wanted.iter()).enumerate() {
        if g != w {
            return Err(Difference::Record {
                number: k.saturating_add(1),
                byte: i.saturating_add(1),
            });
        }
    }
    Ok(())
}

fn fields(name: Name) -> GroupFields<'static> {
    let Name {
        account,
        security,
        side,
    } = name;
    GroupFields {
        account,
        security,
        side,
    }
}

fn take_total<F: Family>(day: &mut Day<F, Table<'_>>, total: &Total) -> Result<(), Difference> {
    let answer = day.total(PlainTotal {
        group: fields(total.group),
        kind: total.kind,
        unit: total.unit,
        quantity: total.quantity,
        amount: total.amount,
    });
    compare_answers(answer, total.answer)
}

fn take_total_row<F: Family>(
    day: &mut Day<F, Table<'_>>,
    total: &TotalRow,
) -> Result<(), Difference> {
    let row: [u8; 80] = blank_behind(total.row);
    let answer = day.total_row(&row, total.unit);
    compare_answers(answer, total.answer)
}

// The buffer has room for one reply more than any case has, so that what is behind the replies is looked at too.
fn take_line<F: Family>(day: &mut Day<F, Table<'_>>, line: &Line) -> Result<(), Difference> {
    let record: [u8; 200] = blank_behind(line.line);
    let mut buffer = [FILL; 800];
    let answer = day.line(&record, line.clock, &mut buffer);
    compare_answers(answer, line.answer)?;
    for (k, given) in buffer.as_chunks::<200>().0.iter().enumerate() {
        let wanted = line
            .replies
            .get(k)
            .map_or([FILL; 200], |reply| blank_behind(reply));
        compare_records(k, given, &wanted)?;
    }
    Ok(())
}

fn look_open<F: Family>(day: &Day<F, Table<'_>>, open: &Open) -> Result<(), Difference> {
    match day.figures(fields(open.group)) {
        Some((shares, amount, state)) => {
            if shares.count == open.shares && amount.count == open.amount && state == open.state {
                return Ok(());
            }
            Err(Difference::Open {
                shares: shares.count,
                amount: amount.count,
                state,
            })
        }
        None => Err(Difference::NoTotal),
    }
}

// Compares row `k` with a record and what is behind it with the fill; where no row is wanted, it is refused and nothing is written.
fn look_row<F: Family>(
    day: &Day<F, Table<'_>>,
    k: usize,
    wanted: Option<&&[u8]>,
) -> Result<(), Difference> {
    let mut buffer = [FILL; 160];
    let answer = day.row(k, &mut buffer).map(|()| 0);
    let mut record = [FILL; 160];
    let expected: Answer = match wanted {
        Some(row) => {
            let front: [u8; 150] = blank_behind(row);
            record[..150].copy_from_slice(&front);
            Ok(0)
        }
        None => Err(32),
    };
    compare_answers(answer, expected)?;
    compare_records(k, &buffer, &record)
}

fn look_rows<F: Family>(
    day: &Day<F, Table<'_>>,
    rows: &'static [&'static [u8]],
) -> Result<(), Difference> {
    for (k, row) in rows.iter().enumerate() {
        look_row(day, k, Some(row))?;
    }
    look_row(day, rows.len(), None)
}

fn look_verdict<F: Family>(day: &Day<F, Table<'_>>, wanted: Verdict) -> Result<(), Difference> {
    let verdict = day.verdict();
    if verdict == wanted {
        Ok(())
    } else {
        Err(Difference::Verdict(verdict))
    }
}

/// Makes one call on a day, and answers what differs.
pub fn take_step<F: Family>(day: &mut Day<F, Table<'_>>, step: &Step) -> Result<(), Difference> {
    match step {
        Step::Total(total) => take_total(day, total),
        Step::TotalRow(total) => take_total_row(day, total),
        Step::Line(line) => take_line(day, line),
        Step::Open(open) => look_open(day, open),
        Step::Rows(rows) => look_rows(day, *rows),
        Step::Verdict(verdict) => look_verdict(day, *verdict),
    }
}
