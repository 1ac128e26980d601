// Filings that cannot come back, beside the nearest that can.
use preview::{Refusal, read_filing};

fn ask(
    family: &'static str,
    kind: &'static str,
    unit: &'static str,
    quantity: &'static str,
    amount: &'static str,
) -> Option<Refusal> {
    read_filing(
        family.as_bytes(),
        kind.as_bytes(),
        unit.as_bytes(),
        quantity.as_bytes(),
        amount.as_bytes(),
    )
    .err()
}

#[test]
fn words(rt: HostRuntime) {
    assert_eq!(rt; ask("plan", "board", "1000", "3", "100010"), None);
    assert_eq!(rt;
        ask("Plan", "board", "1000", "3", "100010"),
        Some(Refusal::UnknownFamily)
    );
    assert_eq!(rt;
        ask("plan", "1", "1000", "3", "100010"),
        Some(Refusal::UnknownKind)
    );
    assert_eq!(rt;
        ask("plan", "board", "1001", "3", "100010"),
        Some(Refusal::UnknownUnit)
    );
    assert_eq!(rt;
        ask("plan", "board", "1000", "3.0", "100010"),
        Some(Refusal::QuantityWord)
    );
    assert_eq!(rt;
        ask("plan", "board", "1000", "", "100010"),
        Some(Refusal::QuantityWord)
    );
    assert_eq!(rt;
        ask("plan", "board", "1000", "3", "100010.00000"),
        Some(Refusal::AmountWord)
    );
    assert_eq!(rt;
        ask("plan", "board", "1000", "3", "100010."),
        Some(Refusal::AmountWord)
    );
    assert_eq!(rt;
        ask("plan", "board", "1000", "3", "1000,10.00"),
        Some(Refusal::AmountWord)
    );
    assert_eq!(rt;
        ask("plan", "board", "1000", "3", "-100,010.00"),
        Some(Refusal::AmountWord)
    );
    assert_eq!(rt;
        ask("plan", "board", "1000", "3", "1,000,000,000,000"),
        Some(Refusal::AmountWord)
    );
}

#[test]
fn quantities(rt: HostRuntime) {
    assert_eq!(rt; ask("plan", "0", "1", "499", "499.00"), None);
    assert_eq!(rt;
        ask("plan", "0", "1", "500", "500.00"),
        Some(Refusal::PlanQuantity)
    );
    assert_eq!(rt;
        ask("plan", "0", "1", "0", "1.00"),
        Some(Refusal::PlanQuantity)
    );
    assert_eq!(rt; ask("omnibus", "0", "1", "10,000", "10,000.00"), None);
    assert_eq!(rt;
        ask("omnibus", "0", "1", "10,001", "10,001.00"),
        Some(Refusal::OmnibusQuantity)
    );
    assert_eq!(rt; ask("plan", "2", "1000", "999", "999.00"), None);
    assert_eq!(rt; ask("plan", "2", "100", "99", "99.00"), None);
    assert_eq!(rt;
        ask("plan", "2", "100", "100", "100.00"),
        Some(Refusal::OddLotQuantity)
    );
    assert_eq!(rt;
        ask("omnibus", "2", "1", "1", "1.00"),
        Some(Refusal::OddLotQuantity)
    );
}

#[test]
fn amounts(rt: HostRuntime) {
    assert_eq!(rt; ask("plan", "0", "1000", "3", "100,010.00"), None);
    assert_eq!(rt;
        ask("plan", "0", "1000", "3", "100,005.00"),
        Some(Refusal::Amount)
    );
    assert_eq!(rt; ask("plan", "0", "1000", "3", "0"), Some(Refusal::Amount));
    assert_eq!(rt; ask("plan", "2", "1000", "7", "1.0000"), None);
    assert_eq!(rt;
        ask("plan", "2", "1000", "7", "1.0001"),
        Some(Refusal::PartOfCent)
    );
    assert_eq!(rt; ask("plan", "2", "1000", "7", "0.07"), None);
    assert_eq!(rt; ask("plan", "2", "1000", "7", "0.06"), Some(Refusal::Price));
    assert_eq!(rt; ask("plan", "2", "1000", "2", "199,999.98"), None);
    assert_eq!(rt;
        ask("plan", "2", "1000", "2", "199,999.99"),
        Some(Refusal::Price)
    );
}

// The checks are made in the order of their numbers.
#[test]
fn order(rt: HostRuntime) {
    assert_eq!(rt;
        ask("plan", "0", "1000", "500", "1.0050"),
        Some(Refusal::PlanQuantity)
    );
    assert_eq!(rt;
        ask("plan", "0", "1000", "499", "1.0050"),
        Some(Refusal::PartOfCent)
    );
    assert_eq!(rt;
        ask("plan", "0", "1000", "499", "1.00"),
        Some(Refusal::Amount)
    );
    assert_eq!(rt;
        ask("plan", "0", "1000", "499", "10.00"),
        Some(Refusal::Price)
    );
    assert_eq!(rt; ask("plan", "0", "1000", "499", "4,990.00"), None);
}

#[test]
fn grounds(rt: HostRuntime) {
    assert_eq!(rt; Refusal::UnknownFamily.ground(), None);
    assert_eq!(rt; Refusal::AmountWord.ground(), None);
    assert_eq!(rt; Refusal::OddLotQuantity.ground(), Some(17));
    assert_eq!(rt; Refusal::PartOfCent.ground(), Some(18));
    assert_eq!(rt; Refusal::Amount.ground(), Some(18));
    assert_eq!(rt; Refusal::Price.ground(), Some(19));
}
