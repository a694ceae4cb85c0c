// Why a request is refused, with its number (document 01, "The request list"; 21 document 02, 1).
ghost use Rattle.std.specs.Prelude.{◌≡◌};
ghost use Rattle.format.specs.Refusals.{number_of};

#[derive(Clone, Copy, PartialEq, Eq)]
pub enum Refusal {
    Allocation = 1,
    InvalidHandle = 2,
    Busy = 3,
    WrongObjectType = 4,
    AccessDenied = 5,
    UnsupportedRights = 6,
    UnsupportedFlags = 7,
    UnsupportedTransfer = 8,
    ObjectRetired = 9,
    ObjectAlreadyActive = 10,
    ActiveHandleLimit = 11,
    ReservationIdExhausted = 12,
    ReservationTooLarge = 13,
    OutstandingReservation = 14,
    TableFull = 15,
    TableRetired = 16,
    EmptyReservation = 17,
    Misuse = 18,
    Malformed = 19,
    AnswerShort = 20,
    StalePlan = 21,
}

// The number of no refusal: a number, since an answer's first word and what the C calls give is one.
pub const DONE: u64 = 0;

impl Refusal {
    ghost use Rattle.format.specs.Refusals.{number};

    // Its number. A name of its own in place of `From`: the definitions call document 01's table so too.
    pub fn number(self) -> u64
        ensures { result ≡ number self }
    {
        self as u64
    }
}

// The number of a refusal, 0 where there is none.
pub fn number_of(answer: Result<(), Refusal>) -> u64
    ensures { result ≡ number_of answer }
{
    match answer {
        Ok(()) => DONE,
        Err(refusal) => refusal.number(),
    }
}
