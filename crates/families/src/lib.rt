//! The plan and omnibus families: what each allows, its accounts, the layouts of its records, and what its lines say.
#![tactic(auto)]

mod accounts;
mod family;
mod figures;
mod parts;
mod tables;

pub use accounts::{
    Class, Investor, OwnAccount, Stem, may_hold, read_account, read_investor, read_own, stem_of,
};
pub use family::{Family, Form, Omnibus, OmnibusLine, Plan, PlanLine, Rules};
pub use figures::{Common, Filed, read_broker, read_order, read_order_type};
pub use parts::{FilingLine, GroupFields, LineHeading, RetentionLine};
pub use tables::{TOTAL_LENGTH, TOTAL_ROW};
