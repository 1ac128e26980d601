// An entry, each byte of it another, as a host gets it.
use crate::{grapewinch_inspect, grapewinch_read_entry};
use blocks::Blocks;
use ledger::{Entry, Ledger, OrderNumber};

const PLACES: Entry = Entry {
    group: 200,
    kind: 0x02,
    order_type: 0x03,
    order: OrderNumber {
        first: 0x04,
        rest: 0x0807_0605,
    },
    new_broker: 0x0c0b_0a09,
    new_account: 0x100f_0e0d,
    quantity: 0x1413_1211,
    price: 0x1817_1615,
    trade_number: 0x1c1b_1a19,
    running_quantity: 0x201f_1e1d,
    running_amount: 0x2827_2625_2423_2221,
    type_quantity: 0x2c2b_2a29,
    type_amount: 0x3433_3231_302f_2e2d,
};

// The entry, and the numbers where there is none. Field by field, so that a failure names the field.
#[test]
fn for_hosts(rt: HostRuntime) {
    let mut bytes = [0xEEu8; 512];
    let mut ledger = Blocks::new(&mut bytes);
    assert!(rt; ledger.append(PLACES));
    let found = grapewinch_inspect(&bytes);
    assert_eq!(rt; found.blocks, 1);
    assert_eq!(rt; found.entries, 1);
    let e = grapewinch_read_entry(&bytes, 0);
    assert_eq!(rt; e.found, 1);
    assert_eq!(rt; e.group, 200);
    assert_eq!(rt; e.kind, 2);
    assert_eq!(rt; e.order_type, 3);
    assert_eq!(rt; e.order_first, 4);
    assert_eq!(rt; e.order_rest, 0x0807_0605);
    assert_eq!(rt; e.new_broker, 0x0c0b_0a09);
    assert_eq!(rt; e.new_account, 0x100f_0e0d);
    assert_eq!(rt; e.quantity, 0x1413_1211);
    assert_eq!(rt; e.price, 0x1817_1615);
    assert_eq!(rt; e.trade_number, 0x1c1b_1a19);
    assert_eq!(rt; e.running_quantity, 0x201f_1e1d);
    assert_eq!(rt; e.running_amount, 0x2827_2625_2423_2221);
    assert_eq!(rt; e.type_quantity, 0x2c2b_2a29);
    assert_eq!(rt; e.type_amount, 0x3433_3231_302f_2e2d);
    let none = grapewinch_read_entry(&bytes, 1);
    assert_eq!(rt; none.found, 0);
    assert_eq!(rt; none.group, 0);
    assert_eq!(rt; none.trade_number, 0);
    assert_eq!(rt; none.type_amount, 0);
}
