// Families of accounts: what each allows, and the layouts of its records.
ghost use Rattle.std.specs.Prelude.{◌≡◌, ℕ, true, List, refl, nat_le};
ghost use Rattle.layout.specs.declared.field.Field.{Field};
ghost use Rattle.families.specs.declared.family.Form.{Form};
ghost use Rattle.families.specs.declared.family.Rules.{Rules};
ghost use Rattle.families.specs.declared.figures.Filed.{Filed};
ghost use Rattle.families.specs.Families.{length_in, tiled, consistent, plan_rules, plan_layout, plan_length, plan_figures, omnibus_rules, omnibus_layout, omnibus_length, omnibus_figures};
ghost use Rattle.families.specs.Lines.{filed_in};
ghost use Rattle.families.specs.Parts.{filing_by};

use crate::accounts::Stem;
use crate::figures::{Common, Filed, read_broker, read_common, read_order_type};
use crate::parts::FilingLine;
use crate::tables::{OMNIBUS_LINE, OMNIBUS_REPLY, OMNIBUS_ROW, PLAN_LINE, PLAN_REPLY, PLAN_ROW};
use layout::Field;
use lots::TradingUnits;

/// A record of a family.
#[derive(Clone, Copy)]
pub enum Form {
    Line,
    Reply,
    Row,
}

/// What a family allows.
#[derive(Clone, Copy)]
pub struct Rules {
    pub domestic: Stem,
    pub foreign: Stem,
    /// Whether shares are sold, side "S", and not only bought, side "B".
    pub sells: bool,
    /// The most trading units in a filing of board lots.
    pub most_units: TradingUnits,
    /// Whether board lots come back cut into pieces.
    pub cuts: bool,
    /// Whether a line has an order type, a new broker.
    pub order_type: bool,
    pub new_broker: bool,
    /// Whether a line may retain what is unfinished.
    pub retains: bool,
}

/// A family of accounts: its rules, its records with their lengths, and what a line of it says.
pub trait Family {
    /// What a filing's line says, in plain numbers; nothing in place of a field that is malformed.
    type Line: Copy;

    const LINE: usize;

    const REPLY: usize;

    const ROW: usize;

    ghost LINE: { ℕ };

    ghost REPLY: { ℕ };

    ghost ROW: { ℕ };

    ghost allows: { Rules };

    ghost layout: { Form → List Field };

    ghost extent: { Form → ℕ };

    // The length of each record is its constant.
    ghost lengths: { (f : Form) → extent f ≡ length_in LINE REPLY ROW f };

    ghost figures: { Self.Line → Filed };

    /// What the family allows.
    fn rules() -> Rules
        ensures { result ≡ allows };

    /// The layout of one of its records.
    // Each family has a body of its own, since no ghost member ties a constant of a slice to its list.
    fn fields<'a>(form: Form) -> &'a [Field]
        ensures { result.now ≡ layout form };

    /// The length of one of its records.
    fn length(form: Form) -> usize
        ensures { result ≡ extent form }
    {
        match form {
            Form::Line => Self::LINE,
            Form::Reply => Self::REPLY,
            Form::Row => Self::ROW,
        }
    }

    /// What a filing's line says, by its parts; nothing in place of a field that is malformed.
    fn read(parts: FilingLine<'_>) -> Self::Line
        ensures { figures result ≡ filed_in allows (filing_by parts.entry) };

    /// The same by figures that filings of all families have.
    // Each family has a body of its own, since its line has fields of its own.
    fn filed(line: Self::Line) -> Filed
        ensures { result ≡ figures line };

    // The fields of each record stand one behind another and fill it.
    ghost fit: { tiled layout extent ≡ true };

    // A row shows of an entry what the reply to its piece shows.
    ghost alike: { consistent allows layout ≡ true };

    // A filing has at most 10,000 trading units, and so at most 22 pieces.
    ghost few: { nat_le allows.most_units.count 10000 ≡ true };
}

/// Savings plans: accounts 847777 and 947777.
pub struct Plan;

/// A filing's line of a plan.
#[derive(Clone, Copy)]
pub struct PlanLine {
    pub common: Common,
    /// Four characters, the first in the low byte.
    pub new_broker: Option<u32>,
}

// Each family states its lengths and proves its laws by itself: that two of them agree is no rule.
impl Family for Plan {
    type Line = PlanLine;

    const LINE: usize = 200;

    const REPLY: usize = 200;

    const ROW: usize = 150;

    ghost LINE = { 200 };

    ghost REPLY = { 200 };

    ghost ROW = { 150 };

    ghost allows = { plan_rules };

    ghost layout = { plan_layout };

    ghost extent = { plan_length };

    ghost lengths = { λ _. refl };

    ghost figures = { plan_figures };

    ghost fit = { refl };

    ghost alike = { refl };

    ghost few = { refl };

    fn rules() -> Rules {
        Rules {
            domestic: Stem::PlanDomestic,
            foreign: Stem::PlanForeign,
            sells: false,
            most_units: TradingUnits { count: 499 },
            cuts: false,
            order_type: false,
            new_broker: true,
            retains: false,
        }
    }

    fn fields<'a>(form: Form) -> &'a [Field] {
        match form {
            Form::Line => &PLAN_LINE,
            Form::Reply => &PLAN_REPLY,
            Form::Row => &PLAN_ROW,
        }
    }

    fn read(parts: FilingLine<'_>) -> PlanLine {
        PlanLine {
            common: read_common(parts),
            new_broker: read_broker(parts.new_broker),
        }
    }

    fn filed(line: PlanLine) -> Filed {
        Filed {
            common: line.common,
            new_broker: line.new_broker,
            order_type: Some(0),
        }
    }
}

/// Omnibus accounts: 885555 and 995555.
pub struct Omnibus;

/// A filing's line of an omnibus account.
#[derive(Clone, Copy)]
pub struct OmnibusLine {
    pub common: Common,
    /// 0 to 6, a plain number as in the ledger's entries.
    pub order_type: Option<u8>,
}

/// Four blanks, which stand for a new broker in an omnibus account's entries.
// A number and no `None`: an entry keeps four bytes, and they are written back as they are.
pub const NO_BROKER: u32 = 0x2020_2020;

impl Family for Omnibus {
    type Line = OmnibusLine;

    const LINE: usize = 200;

    const REPLY: usize = 200;

    const ROW: usize = 150;

    ghost LINE = { 200 };

    ghost REPLY = { 200 };

    ghost ROW = { 150 };

    ghost allows = { omnibus_rules };

    ghost layout = { omnibus_layout };

    ghost extent = { omnibus_length };

    ghost lengths = { λ _. refl };

    ghost figures = { omnibus_figures };

    ghost fit = { refl };

    ghost alike = { refl };

    ghost few = { refl };

    fn rules() -> Rules {
        Rules {
            domestic: Stem::OmnibusDomestic,
            foreign: Stem::OmnibusForeign,
            sells: true,
            most_units: TradingUnits { count: 10_000 },
            cuts: true,
            order_type: true,
            new_broker: false,
            retains: true,
        }
    }

    fn fields<'a>(form: Form) -> &'a [Field] {
        match form {
            Form::Line => &OMNIBUS_LINE,
            Form::Reply => &OMNIBUS_REPLY,
            Form::Row => &OMNIBUS_ROW,
        }
    }

    fn read(parts: FilingLine<'_>) -> OmnibusLine {
        OmnibusLine {
            common: read_common(parts),
            order_type: read_order_type(parts.order_type),
        }
    }

    fn filed(line: OmnibusLine) -> Filed {
        Filed {
            common: line.common,
            new_broker: Some(NO_BROKER),
            order_type: line.order_type,
        }
    }
}
