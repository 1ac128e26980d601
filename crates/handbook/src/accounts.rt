// Accounts and sides.
use families::{
    Class, Family, Omnibus, Plan, Rules, Stem, may_hold, read_investor, read_own, stem_of,
};
use forms::side_of;
use std::process::Abort;

// An account, what it is, and the stem of one of the house's.
#[derive(Clone, Copy)]
struct Account {
    text: &'static str,
    class: Option<Class>,
    stem: Option<Stem>,
}

#[rattlefmt::skip]
static ACCOUNTS: [Account; 26] = [
    // 94, 95 and 99 are foreign
    Account { text: "9400000", class: Some(Class::Foreign), stem: None },
    Account { text: "9500000", class: Some(Class::Foreign), stem: None },
    Account { text: "9900019", class: Some(Class::Foreign), stem: None },
    // the account for adjustments of a foreign broker, and of a domestic one
    Account { text: "9989977", class: Some(Class::Foreign), stem: None },
    Account { text: "9899001", class: Some(Class::Domestic), stem: None },
    Account { text: "9300000", class: Some(Class::Domestic), stem: None },
    Account { text: "9600000", class: Some(Class::Domestic), stem: None },
    Account { text: "9700000", class: Some(Class::Domestic), stem: None },
    Account { text: "0123456", class: Some(Class::Domestic), stem: None },
    // the four stems, with any last digit
    Account { text: "8477770", class: Some(Class::House), stem: Some(Stem::PlanDomestic) },
    Account { text: "8477779", class: Some(Class::House), stem: Some(Stem::PlanDomestic) },
    Account { text: "9477771", class: Some(Class::House), stem: Some(Stem::PlanForeign) },
    Account { text: "9477777", class: Some(Class::House), stem: Some(Stem::PlanForeign) },
    Account { text: "8855559", class: Some(Class::House), stem: Some(Stem::OmnibusDomestic) },
    Account { text: "9955550", class: Some(Class::House), stem: Some(Stem::OmnibusForeign) },
    Account { text: "9955556", class: Some(Class::House), stem: Some(Stem::OmnibusForeign) },
    // one digit beside a stem
    Account { text: "8477761", class: Some(Class::Domestic), stem: None },
    Account { text: "9477781", class: Some(Class::Foreign), stem: None },
    Account { text: "8855541", class: Some(Class::Domestic), stem: None },
    Account { text: "9955561", class: Some(Class::Foreign), stem: None },
    // not seven digits
    Account { text: "990001", class: None, stem: None },
    Account { text: "99000190", class: None, stem: None },
    Account { text: "99000a9", class: None, stem: None },
    Account { text: "847777", class: None, stem: None },
    Account { text: "99555500", class: None, stem: None },
    Account { text: "", class: None, stem: None },
];

fn class_of(text: &[u8]) -> Option<Class> {
    read_investor(text).map(|investor| investor.class)
}

fn own_stem(rules: Rules, text: &[u8]) -> Option<Stem> {
    read_own(rules, text).map(|own| own.stem)
}

// What an account is, which family allocates from it, and under which stems it may be allocated to.
fn check_account(rt: &impl Abort, a: &Account) {
    let plan = Plan::rules();
    let omnibus = Omnibus::rules();
    let text = a.text.as_bytes();
    let name = a.text;
    assert_eq!(rt; class_of(text), a.class, "account {name}");
    let is_domestic = a.class == Some(Class::Domestic);
    let is_foreign = a.class == Some(Class::Foreign);
    for (rules, stem, wanted) in [
        (plan, Stem::PlanDomestic, is_domestic),
        (plan, Stem::PlanForeign, is_foreign),
        (omnibus, Stem::OmnibusDomestic, is_domestic),
        (omnibus, Stem::OmnibusForeign, is_foreign),
    ] {
        assert_eq!(rt;
            may_hold(rules, stem, class_of(text)),
            wanted,
            "account {name}"
        );
    }
    let (of_plan, of_omnibus) = match a.stem {
        Some(Stem::PlanDomestic) | Some(Stem::PlanForeign) => (a.stem, None),
        _ => (None, a.stem),
    };
    assert_eq!(rt; stem_of(text), a.stem, "account {name}");
    assert_eq!(rt; own_stem(plan, text), of_plan, "account {name}");
    assert_eq!(rt; own_stem(omnibus, text), of_omnibus, "account {name}");
}

#[test]
fn accounts(rt: HostRuntime) {
    for a in ACCOUNTS.iter() {
        check_account(&rt, a);
    }
    // a stem with a letter behind it is no account
    assert!(rt; class_of(b"947777a").is_none());
    assert!(rt; own_stem(Plan::rules(), b"947777a").is_none());
    assert!(rt; own_stem(Omnibus::rules(), b"995555a").is_none());
}

// A plan only buys; an omnibus account sells too.
#[test]
fn sides(rt: HostRuntime) {
    let plan = Plan::rules();
    let omnibus = Omnibus::rules();
    assert_eq!(rt; side_of(plan, b"B"), Some(b'B'));
    assert_eq!(rt; side_of(plan, b"S"), None);
    assert_eq!(rt; side_of(omnibus, b"B"), Some(b'B'));
    assert_eq!(rt; side_of(omnibus, b"S"), Some(b'S'));
    assert_eq!(rt; side_of(omnibus, b"b"), None);
    assert_eq!(rt; side_of(omnibus, b" "), None);
    assert_eq!(rt; side_of(omnibus, b""), None);
    assert_eq!(rt; side_of(omnibus, b"SS"), None);
}
