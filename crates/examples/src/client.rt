// A small client of the judge.
use judge::fault::{NextFault, SettleFault, ShowFault};
use judge::judge::Judge;

// Which call of the client was refused, and why.
#[derive(Clone, Copy, PartialEq, Eq, Debug)]
pub(crate) enum Refusal {
    Next(NextFault),
    Show(ShowFault),
    Settle(SettleFault),
}

impl From<NextFault> for Refusal {
    fn from(fault: NextFault) -> Refusal {
        Refusal::Next(fault)
    }
}

impl From<ShowFault> for Refusal {
    fn from(fault: ShowFault) -> Refusal {
        Refusal::Show(fault)
    }
}

impl From<SettleFault> for Refusal {
    fn from(fault: SettleFault) -> Refusal {
        Refusal::Settle(fault)
    }
}

impl Refusal {
    // The number of the question that says no.
    pub(crate) fn number(&self) -> u8 {
        match self {
            Refusal::Next(fault) => fault.number(),
            Refusal::Show(fault) => fault.number(),
            Refusal::Settle(fault) => fault.number(),
        }
    }
}

// Opens the next overlap and settles it unshown.
pub(crate) fn settle_next(judge: &mut Judge) -> Result<(), Refusal> {
    let ticket = judge.next()?;
    Ok(judge.settle(ticket)?)
}

// Opens the next overlap, shows that its sides join by these steps, and settles it, shown or not.
pub(crate) fn join_next(
    judge: &mut Judge,
    outer: &[u8],
    inner: &[u8],
    page: &mut [u8],
) -> Result<(), Refusal> {
    let ticket = judge.next()?;
    let shown = judge.show(&ticket, outer, inner, page);
    judge.settle(ticket)?;
    shown?;
    Ok(())
}
