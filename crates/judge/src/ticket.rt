// Tickets for overlaps.
ghost use Rattle.std.specs.Prelude.{◌≡◌};

use crate::triple::Triple;

// The overlap that is out. A ticket cannot be copied, and has no Drop, so nobody may let it go: it ends when it is settled.
#[must_use]
pub struct Ticket {
    triple: Triple,
}

impl Ticket {
    // The ticket for an overlap.
    pub(crate) fn of(triple: Triple) -> Ticket
        ensures { result.triple ≡ triple }
    {
        Ticket { triple }
    }

    // The triple that it names.
    pub fn triple(&self) -> Triple
        ensures { result ≡ self.now.triple }
    {
        self.triple
    }

    // Ends the ticket, and says which triple it named.
    pub(crate) fn spend(self) -> Triple
        ensures { result ≡ self.triple }
    {
        let Ticket { triple } = self;
        triple
    }
}
