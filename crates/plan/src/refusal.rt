// The refusals: a rule of document 01's table, and beside it the row that a refusal names.
ghost use Rattle.std.specs.Prelude.{◌≡◌};
ghost use Rattle.plan.specs.Refusals.{number_of, unnamed};

// In the order of their numbers, 1 to 15.
#[derive(Clone, Copy, PartialEq, Eq)]
pub enum Rule {
    TaskOrQueueCount,
    PeriodOrDeadline,
    ReceiverOrSender,
    HyperperiodTooLong,
    TooManyMessages,
    TooManySlots,
    UnsoundPlan,
    ShortMemory,
    NoSuchSender,
    TickBeforeState,
    PastLastTick,
    JobOver,
    SentAlready,
    PayloadLength,
    NoSuchNumber,
}

// The row is that of the first bad task or queue for rules 2 to 5, else 0.
#[derive(Clone, Copy, PartialEq, Eq)]
pub struct Refusal {
    pub rule: Rule,
    pub row: usize,
}

impl Refusal {
    // The refusal of a rule that names no row: its row is 0.
    pub fn unnamed(rule: Rule) -> Refusal
        ensures { result ≡ unnamed rule }
    {
        Refusal { rule, row: 0 }
    }
}

// Document 01's number of a rule.
impl From<Rule> for u8 {
    ghost from_gives = { λ rule number. number ≡ number_of rule };

    fn from(rule: Rule) -> u8 {
        match rule {
            Rule::TaskOrQueueCount => 1,
            Rule::PeriodOrDeadline => 2,
            Rule::ReceiverOrSender => 3,
            Rule::HyperperiodTooLong => 4,
            Rule::TooManyMessages => 5,
            Rule::TooManySlots => 6,
            Rule::UnsoundPlan => 7,
            Rule::ShortMemory => 8,
            Rule::NoSuchSender => 9,
            Rule::TickBeforeState => 10,
            Rule::PastLastTick => 11,
            Rule::JobOver => 12,
            Rule::SentAlready => 13,
            Rule::PayloadLength => 14,
            Rule::NoSuchNumber => 15,
        }
    }
}
