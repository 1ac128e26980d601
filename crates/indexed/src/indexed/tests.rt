// That an index is on where it should be, and an indexed ledger beside a plain one.
use crate::indexed::Indexed;
use ledger::{Entry, Held, Ledger, OrderNumber, Pick, Table};
use std::alloc::{AllocError, Global};
use std::test::Fail;

const A0001: OrderNumber = OrderNumber {
    first: b'A',
    rest: 0x3130_3030,
};

const A0002: OrderNumber = OrderNumber {
    first: b'A',
    rest: 0x3230_3030,
};

fn entry(order: OrderNumber, group: u8, kind: u8, order_type: u8) -> Entry {
    Entry {
        group,
        kind,
        order_type,
        order,
        quantity: 3,
        price: 1000,
        ..Entry::default()
    }
}

// The odd lots of group 1.
fn pick(order_type: Option<u8>) -> Pick {
    Pick {
        group: 1,
        kind: 2,
        order_type,
    }
}

fn held(quantity: u128, amount: u128) -> Held {
    Held { quantity, amount }
}

fn indexed(alloc: Global, entries: &mut [Entry]) -> Result<Indexed<Table<'_>>, AllocError> {
    match Indexed::new(alloc, Table::new(entries), 2) {
        Ok(ledger) => Ok(ledger),
        Err((error, _)) => Err(error),
    }
}

// What is asked of both ledgers.
fn answers<L: Ledger>(ledger: &L) -> ((bool, bool), (Held, Held, Held)) {
    let orders = (ledger.has_order(A0001), ledger.has_order(A0002));
    let picks = (pick(None), pick(Some(3)), pick(Some(4)));
    (orders, ledger.survey(picks))
}

#[test]
fn files_again_what_was_removed(rt: HostRuntime) -> Result<(), Fail> {
    let mut entries = [Entry::default(); 3];
    let mut ledger = indexed(rt.alloc(), &mut entries)?;
    let odd = entry(A0001, 1, 2, 3);
    let filed = ledger.append(odd) && ledger.append(odd);
    assert!(rt; filed && ledger.known_order(A0001) == Some(true));
    assert_eq!(rt; ledger.known_held(pick(Some(3))), Some(held(6, 6000)));
    let went = ledger.remove(1, 2);
    assert!(rt; went == 2 && ledger.known_order(A0001) == Some(false));
    let filed = ledger.append(odd);
    assert!(rt; filed && ledger.known_order(A0001) == Some(true));
    assert_eq!(rt; ledger.known_held(pick(None)), Some(held(3, 3000)));
    Ok(())
}

#[test]
fn is_off_until_emptied(rt: HostRuntime) -> Result<(), Fail> {
    let mut entries = [Entry::default(); 2];
    let mut ledger = indexed(rt.alloc(), &mut entries)?;
    for wrong in [
        entry(A0001, 0, 1, 0),
        entry(A0001, 2, 0, 0),
        entry(A0001, 0, 0, 7),
        entry(A0002, 1, 0, 0),
    ] {
        let filed = ledger.append(entry(A0002, 0, 0, 0)) && ledger.append(wrong);
        assert!(rt; filed && ledger.known_order(A0002).is_none() && ledger.has_order(A0002));
        ledger.empty();
        assert_eq!(rt; ledger.known_order(A0002), Some(false));
    }
    Ok(())
}

#[test]
fn answers_as_a_table(rt: HostRuntime) -> Result<(), Fail> {
    let mut lent = [Entry::default(); 3];
    let mut entries = [Entry::default(); 3];
    let mut plain = Table::new(&mut lent);
    let mut ledger = indexed(rt.alloc(), &mut entries)?;
    for e in [
        entry(A0001, 1, 2, 3),
        entry(A0001, 1, 2, 4),
        entry(A0002, 0, 2, 3),
        entry(A0002, 0, 2, 4),
    ] {
        assert_eq!(rt; ledger.append(e), plain.append(e));
        assert_eq!(rt; answers(&ledger), answers(&plain));
    }
    assert_eq!(rt; ledger.remove(0, 2), plain.remove(0, 2));
    assert_eq!(rt; answers(&ledger), answers(&plain));
    Ok(())
}
