// The calls of a day, and what each is answered. A plan's day of 2 January 2024 with one group: 4 trading units of 1,000 shares for
// 200,000.00 yuan, and 30 shares for 1,500.00.
use book::Day;
use families::{GroupFields, Plan};
use given::blank_behind;
use judge::PlainTotal;
use ledger::Ledger;
use std::io;

const GROUP: GroupFields<'static> = GroupFields {
    account: b"8477771",
    security: b"2330  ",
    side: b"B",
};

const BOARD_LOTS: PlainTotal<'static> = PlainTotal {
    group: GROUP,
    kind: 0,
    unit: 1000,
    quantity: 4,
    amount: 2_000_000_000,
};

const ODD_LOTS: PlainTotal<'static> = PlainTotal {
    group: GROUP,
    kind: 2,
    unit: 1000,
    quantity: 30,
    amount: 15_000_000,
};

// Half past three.
const CLOCK: u64 = 153_000;

// 3 trading units for 150,010.00 yuan, which come back as 2 at 50.00 and 1 at 50.01.
const FILING: &[u8] = b"585P84777712330  B020240102A0001980101234560000000300000015001000001";

// 1 for 50,000.00, under another order number.
const FURTHER_FILING: &[u8] =
    b"585P84777712330  B020240102A0002980101234560000000100000005000000001";

// Takes out both.
const DELETION: &[u8] = b"585P84777712330  B020240102A0001980101234560000000300000015001000002";

const OTHERS_DELETION: &[u8] =
    b"585Q84777712330  B020240102A0001980101234560000000300000015001000002";

fn show_line<L: Ledger + Drop>(
    rt: &HostRuntime,
    day: &mut Day<Plan, L>,
    name: &str,
    front: &[u8],
) -> io::Result<()> {
    println!(rt; "{name}")?;
    let line: [u8; 200] = blank_behind(front);
    let mut replies = [0u8; 600];
    match day.line(&line, CLOCK, &mut replies) {
        Ok(n) => println!(rt; "accepted {n}")?,
        Err(ground) => {
            let n = u8::from(ground);
            println!(rt; "refused {n}")?;
        }
    }
    Ok(())
}

/// Opens a day over a ledger and shows what each call on it asks.
pub fn show_day<L: Ledger + Drop>(rt: &HostRuntime, ledger: L) -> io::Result<()> {
    println!(rt; "a day is opened")?;
    let mut day = Day::<Plan, L>::open(ledger, b"585P", 20_240_102, 1);
    println!(rt; "its two totals")?;
    let _ = day.total(BOARD_LOTS);
    let _ = day.total(ODD_LOTS);
    show_line(rt, &mut day, "a filing", FILING)?;
    show_line(rt, &mut day, "the same filing again", FILING)?;
    show_line(rt, &mut day, "a further filing", FURTHER_FILING)?;
    println!(rt; "figures of the group")?;
    let _ = day.figures(GROUP);
    show_line(
        rt,
        &mut day,
        "a deletion of another broker",
        OTHERS_DELETION,
    )?;
    show_line(rt, &mut day, "a deletion", DELETION)?;
    show_line(rt, &mut day, "the same deletion again", DELETION)
}
