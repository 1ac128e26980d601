// The grounds for refusal, with their numbers.
ghost use Rattle.std.specs.Prelude.{◌≡◌, cond, Some, None};
ghost use Rattle.std.specs.Result.{result_err};
ghost use Rattle.judge.specs.Grounds.{ground_number};

/// Why a call is refused.
#[derive(Clone, Copy, PartialEq, Eq, Debug)]
pub enum Ground {
    /// 1: a line is not as long as its family's lines, or a row of totals not 80 bytes.
    LineLength = 1,
    /// 2: the buffer for replies, or for a row, is shorter than one record.
    ReplyRoom = 2,
    /// 3: the day was opened on bad figures.
    DayFigures = 3,
    /// 4: the code is neither 1 nor 2.
    Code = 4,
    /// 5: the broker is not the day's.
    Broker = 5,
    /// 6: the account is not seven digits with a stem of the family.
    Account = 6,
    /// 7: the security is malformed.
    Security = 7,
    /// 8: the side is not one of the family's.
    Side = 8,
    /// 9: the kind is neither 0 nor 2.
    Kind = 9,
    /// 10: the date is not the day's.
    Date = 10,
    /// 11: the clock is no time of day, or outside the hours of filing.
    Clock = 11,
    /// 12: the account is sealed.
    Sealed = 12,
    /// 13: the group has no total.
    NoTotal = 13,
    /// 14: the order number is malformed, or in the ledger.
    Order = 14,
    /// 15: the new account or the new broker may not be allocated to.
    NewAccount = 15,
    /// 16: the order type is not 0 to 6.
    OrderType = 16,
    /// 17: the quantity is out of range.
    Quantity = 17,
    /// 18: the amount is out of range, or no multiple of as many cents as a unit has shares.
    Amount = 18,
    /// 19: the price of a piece is out of range.
    Price = 19,
    /// 20: there are more shares than are open.
    OpenShares = 20,
    /// 21: the amount is more than is open.
    OpenAmount = 21,
    /// 22: the trade numbers are used up.
    TradeNumber = 22,
    /// 23: the ledger has fewer free places than there are pieces.
    Places = 23,
    /// 24: the buffer is too short for all replies.
    Replies = 24,
    /// 25: a deletion finds no row.
    NoRow = 25,
    /// 26: a retention is for another stem than the omnibus family's foreign one.
    RetentionStem = 26,
    /// 27: a retention finds no unfinished group.
    NothingUnfinished = 27,
    /// 28: the figures of a total are out of range, or its trading unit is not the group's.
    TotalFigures = 28,
    /// 29: the group and kind have a total.
    TotalGiven = 29,
    /// 30: the group's totals come to more than its figures hold.
    GroupFigures = 30,
    /// 31: there is no place for a further group.
    GroupCount = 31,
    /// 32: there is no row of that index.
    RowIndex = 32,
    /// 33: the transfer has had too many lines, or too many refused ones.
    Transfer = 33,
}

impl From<Ground> for u8 {
    ghost from_gives = { λ ground number. number ≡ ground_number ground };

    /// The number of the ground, which a refusal answers and its reply has as error code.
    fn from(ground: Ground) -> u8 {
        ground as u8
    }
}

/// Refuses on a ground unless a test holds.
pub fn ensure(holds: bool, ground: Ground) -> Result<(), Ground>
    ensures { result_err result ≡ cond holds None (Some ground) }
{
    if holds { Ok(()) } else { Err(ground) }
}
