// When a transfer takes no further line, and what it counts on the way.
use crate::told::plain;
use book::Day;
use families::Plan;
use judge::Ground;
use ledger::{Entry, Ledger, Table};
use std::process::Abort;
use transfer::{Counts, Transfer};

// files 3 trading units for 150,010.00: 2 at 50.00 and 1 at 50.01
#[rattlefmt::skip]
const FILING: &[u8; 200] = b"980184777712330  B020240102A0001980101234560000000300000015001000001                                                                                                                                    ";

// takes both pieces out again
#[rattlefmt::skip]
const DELETION: &[u8; 200] = b"980184777712330  B020240102A0001980101234560000000300000015001000002                                                                                                                                    ";

// of another broker, and so refused on ground 5
#[rattlefmt::skip]
const STRAY: &[u8; 200] = b"980284777712330  B020240102A0001980101234560000000300000015001000001                                                                                                                                    ";

const CLOCK: u64 = 150_000;

// A day of broker 9801 with a total of 4 trading units of 1,000 shares for 200,000.00 in account 8477771, security 2330.
fn open<'a>(entries: &'a mut [Entry]) -> Day<Plan, Table<'a>> {
    let mut day: Day<Plan, Table<'a>> = Day::open(Table::new(entries), b"9801", 20_240_102, 1);
    let _ = day.total(plain(b"8477771", b"2330  ", b"B", 0, 1000, 4, 2_000_000_000));
    day
}

// Compares what a transfer has counted.
fn counted(rt: &impl Abort, transfer: &Transfer<'_>, handed: u32, refused: u32) {
    assert_eq!(rt; transfer.counts(), Counts { handed, refused });
}

// Hands on a line that the spent transfer refuses: it answers the number alone, and leaves counts, buffer and ledger.
fn spent(
    rt: &impl Abort,
    transfer: &mut Transfer<'_>,
    day: &mut Day<Plan, Table<'_>>,
    line: &[u8],
) {
    let before = transfer.counts();
    let rows = day.ledger().count();
    let mut replies = [b'#'; 400];
    assert_eq!(rt;
        transfer.line(day, line, CLOCK, &mut replies),
        Err(Ground::Transfer)
    );
    assert_eq!(rt; transfer.counts(), before);
    assert_eq!(rt; replies, [b'#'; 400]);
    assert_eq!(rt; day.ledger().count(), rows);
}

// 50 refused lines are borne, 25 of them on ground 1 and 25 on ground 5; with the 51st the transfer is spent, even for a line that
// the day would take. The next transfer on the record begins at 0, and takes it.
#[test]
fn over_fifty_refused(rt: HostRuntime) {
    let mut entries = [Entry::default(); 2];
    let mut day = open(&mut entries);
    let mut counts = Counts::default();
    let mut replies = [b'#'; 400];
    let mut transfer = Transfer::begin(&mut counts);
    for _ in 0..25 {
        assert_eq!(rt;
            transfer.line(&mut day, b"980", CLOCK, &mut replies),
            Err(Ground::LineLength)
        );
        assert_eq!(rt;
            transfer.line(&mut day, STRAY, CLOCK, &mut replies),
            Err(Ground::Broker)
        );
    }
    counted(&rt, &transfer, 50, 50);
    assert_eq!(rt; transfer.line(&mut day, FILING, CLOCK, &mut replies), Ok(2));
    counted(&rt, &transfer, 51, 50);
    assert_eq!(rt;
        transfer.line(&mut day, STRAY, CLOCK, &mut replies),
        Err(Ground::Broker)
    );
    counted(&rt, &transfer, 52, 51);
    spent(&rt, &mut transfer, &mut day, DELETION);
    spent(&rt, &mut transfer, &mut day, b"980");
    transfer.end();
    assert_eq!(rt; counts, Counts::default());
    let mut next = Transfer::begin(&mut counts);
    assert_eq!(rt; next.line(&mut day, DELETION, CLOCK, &mut replies), Ok(1));
    counted(&rt, &next, 1, 0);
    next.end();
    let _ = day.close();
}

// 4,000 filings and as many deletions are 8,000 lines, none of them refused; the 8,001st is not taken.
#[test]
fn eight_thousand_lines(rt: HostRuntime) {
    let mut entries = [Entry::default(); 2];
    let mut day = open(&mut entries);
    let mut counts = Counts::default();
    let mut replies = [b'#'; 400];
    let mut transfer = Transfer::begin(&mut counts);
    for _ in 0..4000 {
        assert_eq!(rt; transfer.line(&mut day, FILING, CLOCK, &mut replies), Ok(2));
        assert_eq!(rt;
            transfer.line(&mut day, DELETION, CLOCK, &mut replies),
            Ok(1)
        );
    }
    counted(&rt, &transfer, 8000, 0);
    spent(&rt, &mut transfer, &mut day, FILING);
    transfer.end();
    assert_eq!(rt; counts, Counts::default());
    let _ = day.close();
}

// What a record holds before a transfer is begun on it does not count.
#[test]
fn begins_at_nought(rt: HostRuntime) {
    let mut entries = [Entry::default(); 2];
    let mut day = open(&mut entries);
    let mut counts = Counts {
        handed: 8000,
        refused: 51,
    };
    let mut transfer = Transfer::begin(&mut counts);
    assert_eq!(rt;
        transfer.line(&mut day, FILING, CLOCK, &mut [b'#'; 400]),
        Ok(2)
    );
    counted(&rt, &transfer, 1, 0);
    transfer.end();
    let _ = day.close();
}

// Hands on lines until one is refused, and is left there by `?`.
fn up_to_refusal(
    counts: &mut Counts,
    day: &mut Day<Plan, Table<'_>>,
    lines: &[&[u8]],
) -> Result<(), Ground> {
    let mut transfer = Transfer::begin(counts);
    for line in lines {
        let _ = transfer.line(day, line, CLOCK, &mut [b'#'; 400])?;
    }
    Ok(())
}

// Left early or at its end, a transfer leaves both counts at 0.
#[test]
fn nought_on_every_way_out(rt: HostRuntime) {
    let mut entries = [Entry::default(); 2];
    let mut day = open(&mut entries);
    let mut counts = Counts::default();
    let early = up_to_refusal(&mut counts, &mut day, &[FILING, STRAY, DELETION]);
    assert_eq!(rt; early, Err(Ground::Broker));
    assert_eq!(rt; counts, Counts::default());
    assert_eq!(rt; day.ledger().count(), 2);
    let whole = up_to_refusal(&mut counts, &mut day, &[DELETION, FILING]);
    assert_eq!(rt; whole, Ok(()));
    assert_eq!(rt; counts, Counts::default());
    assert_eq!(rt; day.ledger().count(), 2);
    let _ = day.close();
}
