// What fields may hold: the last that is good, beside the first that is not.
use families::read_order_type;
use octets::{is_clock, is_code, is_date, is_security, read_digits};

#[rattlefmt::skip]
static DATES: [(u64, bool); 21] = [
    // 2000 and 2024 are leap years, 2023 is none; 1900 is none, and too early besides
    (20_000_229, true), (20_000_230, false),
    (20_240_229, true), (20_240_230, false),
    (20_230_228, true), (20_230_229, false), (20_170_230, false), (19_000_229, false),
    (19_900_101, true), (19_891_231, false),
    (20_991_231, true), (21_000_101, false),
    (20_171_231, true), (20_171_301, false), (20_170_001, false),
    (20_170_101, true), (20_170_100, false), (20_170_132, false),
    (20_170_430, true), (20_170_431, false),
    (0, false),
];

#[rattlefmt::skip]
static CLOCKS: [(u64, bool); 10] = [
    (0, true),
    (235_959, true), (235_960, false), (236_000, false), (240_000, false),
    (125_959, true), (126_000, false), (120_060, false),
    (1_000_000, false), (4_294_967_295, false),
];

#[test]
fn dates_and_clocks(rt: HostRuntime) {
    for (date, real) in DATES.iter() {
        assert_eq!(rt; is_date(*date), *real, "date {date}");
    }
    for (clock, real) in CLOCKS.iter() {
        assert_eq!(rt; is_clock(*clock), *real, "clock {clock}");
    }
}

#[derive(Clone, Copy)]
struct Text {
    text: &'static str,
    good: bool,
}

#[rattlefmt::skip]
static SECURITIES: [Text; 16] = [
    Text { text: "2330  ", good: true },
    Text { text: "006208", good: true },
    Text { text: "1     ", good: true },
    Text { text: "ZZZZZZ", good: true },
    Text { text: "A09Z  ", good: true },
    Text { text: "      ", good: false },
    // a blank before or between
    Text { text: " 2330 ", good: false },
    Text { text: "23 30 ", good: false },
    // no capital letters, and what stands beside the letters and digits
    Text { text: "2330a ", good: false },
    Text { text: "2330/ ", good: false },
    Text { text: "2330: ", good: false },
    Text { text: "2330@ ", good: false },
    Text { text: "2330[ ", good: false },
    // five bytes, seven, none
    Text { text: "2330 ", good: false },
    Text { text: "2330   ", good: false },
    Text { text: "", good: false },
];

// Order numbers.
#[rattlefmt::skip]
static CODES: [Text; 10] = [
    Text { text: "A0001", good: true },
    Text { text: "Z9999", good: true },
    Text { text: "00000", good: true },
    Text { text: "a0001", good: false },
    Text { text: "A001 ", good: false },
    Text { text: " A001", good: false },
    Text { text: "A000:", good: false },
    Text { text: "A000/", good: false },
    Text { text: "A001", good: false },
    Text { text: "A00010", good: false },
];

#[test]
fn securities_and_codes(rt: HostRuntime) {
    for s in SECURITIES.iter() {
        let text = s.text;
        assert_eq!(rt; is_security(text.as_bytes()), s.good, "{}", text);
    }
    for c in CODES.iter() {
        let text = c.text;
        assert_eq!(rt; is_code(text.as_bytes(), 5), c.good, "{}", text);
    }
    assert!(rt; is_code(b"5XXX", 4));
}

#[derive(Clone, Copy)]
struct Written {
    text: &'static str,
    number: Option<u64>,
    order_type: Option<u8>,
}

#[rattlefmt::skip]
static DIGITS: [Written; 14] = [
    Written { text: "0", number: Some(0), order_type: Some(0) },
    Written { text: "6", number: Some(6), order_type: Some(6) },
    Written { text: "7", number: Some(7), order_type: None },
    Written { text: "9", number: Some(9), order_type: None },
    // the characters before 0 and behind 9
    Written { text: "/", number: None, order_type: None },
    Written { text: ":", number: None, order_type: None },
    Written { text: " ", number: None, order_type: None },
    Written { text: "", number: Some(0), order_type: None },
    Written { text: "00", number: Some(0), order_type: None },
    Written { text: "0000000000000012340", number: Some(12_340), order_type: None },
    // nineteen digits, and twenty
    Written { text: "9999999999999999999", number: Some(9_999_999_999_999_999_999), order_type: None },
    Written { text: "00000000000000000000", number: None, order_type: None },
    Written { text: "123456789012345678/", number: None, order_type: None },
    Written { text: ":234567890123456789", number: None, order_type: None },
];

#[test]
fn digits(rt: HostRuntime) {
    for d in DIGITS.iter() {
        let text = d.text;
        assert_eq!(rt; read_digits(text.as_bytes()), d.number, "{}", text);
        assert_eq!(rt; read_order_type(text.as_bytes()), d.order_type, "{}", text);
    }
}
