// Why a judge's calls are refused.
ghost use Rattle.std.specs.Prelude.{◌≡◌};
ghost use Rattle.judge.specs.Faults.{next_number, sides_number, side_number, show_number, settle_number, seal_number};

use crate::triple::Triple;

// A ticket is out; no overlap is left; the peak or a side of the next overlap is too long.
#[derive(Clone, Copy, PartialEq, Eq, Debug)]
pub enum NextFault {
    TicketOut,
    NoneLeft,
    TooLong(Triple),
}

// The ticket's triple is not the one out; a buffer is too short.
#[derive(Clone, Copy, PartialEq, Eq, Debug)]
pub enum SidesFault {
    OtherTicket,
    ShortBuffer,
}

// A side of an overlap.
#[derive(Clone, Copy, PartialEq, Eq, Debug)]
pub enum Side {
    Outer,
    Inner,
}

// The page is too short; the ticket's triple is not the one out; a list of steps is too long or has an odd number of bytes; a rule does not match at
// its place, or its result is too long, on a side at a step; the ends are not equal.
#[derive(Clone, Copy, PartialEq, Eq, Debug)]
pub enum ShowFault {
    ShortPage,
    OtherTicket,
    BadLists,
    NoMatch { side: Side, step: usize },
    TooLong { side: Side, step: usize },
    EndsDiffer,
}

// The ticket's triple is not the one out.
#[derive(Clone, Copy, PartialEq, Eq, Debug)]
pub enum SettleFault {
    OtherTicket,
}

// A ticket is out; an overlap is not opened; an overlap was left open.
#[derive(Clone, Copy, PartialEq, Eq, Debug)]
pub enum SealFault {
    TicketOut,
    NotOpened(Triple),
    LeftOpen(Triple),
}

impl NextFault {
    // The number of the question that says no.
    pub fn number(&self) -> u8
        ensures { result ≡ next_number self.now }
    {
        match self {
            NextFault::TicketOut => 16,
            NextFault::NoneLeft => 17,
            NextFault::TooLong(_) => 18,
        }
    }
}

impl SidesFault {
    // The number of the question that says no.
    pub fn number(&self) -> u8
        ensures { result ≡ sides_number self.now }
    {
        match self {
            SidesFault::OtherTicket => 19,
            SidesFault::ShortBuffer => 32,
        }
    }
}

impl Side {
    // The number of the side.
    pub fn number(&self) -> u8
        ensures { result ≡ side_number self.now }
    {
        match self {
            Side::Outer => 0,
            Side::Inner => 1,
        }
    }
}

impl ShowFault {
    // The number of the question that says no.
    pub fn number(&self) -> u8
        ensures { result ≡ show_number self.now }
    {
        match self {
            ShowFault::ShortPage => 31,
            ShowFault::OtherTicket => 19,
            ShowFault::BadLists => 20,
            ShowFault::NoMatch { .. } => 21,
            ShowFault::TooLong { .. } => 22,
            ShowFault::EndsDiffer => 23,
        }
    }
}

impl SettleFault {
    // The number of the question that says no.
    pub fn number(&self) -> u8
        ensures { result ≡ settle_number self.now }
    {
        match self {
            SettleFault::OtherTicket => 19,
        }
    }
}

impl SealFault {
    // The number of the question that says no.
    pub fn number(&self) -> u8
        ensures { result ≡ seal_number self.now }
    {
        match self {
            SealFault::TicketOut => 16,
            SealFault::NotOpened(_) => 24,
            SealFault::LeftOpen(_) => 25,
        }
    }
}
