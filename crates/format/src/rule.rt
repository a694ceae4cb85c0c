// The rules at which a transfer's preparation stops, in the printed order: document 01, "Orders"; document 02, 4, counts their places from 1.
ghost use Rattle.std.specs.Prelude.{◌≡◌};
ghost use Rattle.format.specs.Refusals.{number};
ghost use Rattle.format.specs.Rules.{number_by, place};

use crate::refusal::Refusal;

#[derive(Clone, Copy, PartialEq, Eq)]
pub enum Rule {
    TableRetired,
    EmptyReservation,
    ReservationTooLarge,
    NoRow,
    NoId,
    ListedTwice,
    // "with lookup as one place": no handle, or one that is being moved.
    NoHandle,
    HandleBusy,
    LacksTransfer,
    CopyLacksDuplicate,
    OfferedBeyondSource,
    RequestedBeyondOffered,
    ForbiddenKind,
    ForbiddenObject,
    RouteBarsClass,
    OtherKind,
    CopyOfRetired,
    CopyAtLimit,
}

impl Rule {
    // What preparation refuses with. A call, and so for the place: where it was compiled in place, each copy had a table of jumps.
    #[inline(never)]
    pub fn refusal(self) -> Refusal
        ensures { number result ≡ number_by self }
    {
        match self {
            Rule::TableRetired => Refusal::TableRetired,
            Rule::EmptyReservation => Refusal::EmptyReservation,
            Rule::ReservationTooLarge => Refusal::ReservationTooLarge,
            Rule::NoRow => Refusal::Allocation,
            Rule::NoId => Refusal::ReservationIdExhausted,
            Rule::ListedTwice | Rule::NoHandle => Refusal::InvalidHandle,
            Rule::HandleBusy => Refusal::Busy,
            Rule::LacksTransfer
            | Rule::CopyLacksDuplicate
            | Rule::OfferedBeyondSource
            | Rule::RequestedBeyondOffered
            | Rule::ForbiddenObject => Refusal::AccessDenied,
            Rule::ForbiddenKind | Rule::RouteBarsClass => Refusal::UnsupportedTransfer,
            Rule::OtherKind => Refusal::WrongObjectType,
            Rule::CopyOfRetired => Refusal::ObjectRetired,
            Rule::CopyAtLimit => Refusal::ActiveHandleLimit,
        }
    }

    // "the rule's place in the printed order".
    #[inline(never)]
    pub fn place(self) -> u64
        ensures { result ≡ place self }
    {
        match self {
            Rule::TableRetired => 1,
            Rule::EmptyReservation => 2,
            Rule::ReservationTooLarge => 3,
            Rule::NoRow => 4,
            Rule::NoId => 5,
            Rule::ListedTwice => 6,
            Rule::NoHandle | Rule::HandleBusy => 7,
            Rule::LacksTransfer => 8,
            Rule::CopyLacksDuplicate => 9,
            Rule::OfferedBeyondSource => 10,
            Rule::RequestedBeyondOffered => 11,
            Rule::ForbiddenKind => 12,
            Rule::ForbiddenObject => 13,
            Rule::RouteBarsClass => 14,
            Rule::OtherKind => 15,
            Rule::CopyOfRetired => 16,
            Rule::CopyAtLimit => 17,
        }
    }
}
