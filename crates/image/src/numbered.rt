// The refusals, each with the number that the table gives it.
ghost use Rattle.std.specs.Prelude.{◌≡◌};
ghost use Rattle.image.specs.Answer.{number_of, rule_of};

#[derive(Clone, Copy, Debug, PartialEq, Eq)]
pub enum Refusal {
    // of an image
    Short,
    Unmarked,
    UnknownVersion,
    OutOfRange,
    WrongLength,
    UnknownSymbol(u16),
    OutOfOrder(u16),
    DeadSymbol,
    // of a record
    TooManyEvents,
    OddBytes,
    // of what is lent
    ShortChart,
    ShortTable,
    ShortRoom,
    // of a reading
    NoSuchReading,
    BeyondLimit,
    // of a session
    SessionFull,
    SessionEmpty,
}

impl Refusal {
    pub fn number(self) -> u8
        ensures { result ≡ number_of self }
    {
        match self {
            Refusal::Short => 1,
            Refusal::Unmarked => 2,
            Refusal::UnknownVersion => 3,
            Refusal::OutOfRange => 4,
            Refusal::WrongLength => 5,
            Refusal::UnknownSymbol(_) => 6,
            Refusal::OutOfOrder(_) => 7,
            Refusal::TooManyEvents => 8,
            Refusal::ShortChart => 9,
            Refusal::ShortTable => 10,
            Refusal::ShortRoom => 11,
            Refusal::NoSuchReading => 12,
            Refusal::BeyondLimit => 13,
            Refusal::OddBytes => 14,
            Refusal::DeadSymbol => 15,
            Refusal::SessionFull => 17,
            Refusal::SessionEmpty => 18,
        }
    }

    // The first rule at fault, which 6 and 7 name; 0 with every other.
    pub fn rule(self) -> u16
        ensures { result ≡ rule_of self }
    {
        match self {
            Refusal::UnknownSymbol(rule) | Refusal::OutOfOrder(rule) => rule,
            _ => 0,
        }
    }
}
