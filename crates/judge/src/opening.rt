// Overlaps are opened and settled.
ghost use Rattle.std.specs.Prelude.{◌≡◌, Decides, MatchResult};
ghost use Rattle.book.specs.Meaning.{rules_of};
ghost use Rattle.judge.specs.Overlaps.{OverlapFits};
ghost use Rattle.judge.specs.Calls.{Opens, NextRefused, Settles, SettleRefused};

use crate::fault::{NextFault, SettleFault};
use crate::judge::Judge;
use crate::overlaps::{next_overlap, pair_of};
use crate::ticket::Ticket;
use crate::triple::Triple;
use book::book::Book;

// Whether the triple names an overlap whose peak and sides are within the limit.
fn overlap_fits(book: &Book, t: &Triple) -> bool
    ensures { Decides result (OverlapFits (rules_of book.now.tables.bytes.now) t.now) }
{
    pair_of(book, t).is_ok()
}

impl<'a> Judge<'a> {
    // Opens the next overlap and hands out its ticket, or says which question says the first no.
    pub fn next(&mut self) -> Result<Ticket, NextFault>
        ensures answer { MatchResult result
            (λ t. Opens (rules_of self.old.book.tables.bytes.now) self.old.progress t.triple self.new.progress)
            (λ e. NextRefused (rules_of self.old.book.tables.bytes.now) self.old.progress e × (self.new.progress ≡ self.old.progress)) }
        ensures book { self.new.book ≡ self.old.book }
    {
        if self.progress.ticket.is_some() {
            return Err(NextFault::TicketOut);
        }
        let t = next_overlap(&self.book, &self.progress.last).ok_or(NextFault::NoneLeft)?;
        if !overlap_fits(&self.book, &t) {
            return Err(NextFault::TooLong(t));
        }
        self.progress = self.progress.opened(t);
        Ok(Ticket::of(t))
    }

    // Takes the ticket, which is used up either way. The overlap is joined if it was shown, else it is left open for good.
    pub fn settle(&mut self, ticket: Ticket) -> Result<(), SettleFault>
        ensures answer { MatchResult result
            (λ _. Settles self.old.progress ticket.triple self.new.progress)
            (λ e. SettleRefused self.old.progress ticket.triple e × (self.new.progress ≡ self.old.progress)) }
        ensures book { self.new.book ≡ self.old.book }
    {
        let t = ticket.spend();
        if !self.progress.is_out(&t) {
            return Err(SettleFault::OtherTicket);
        }
        self.progress = self.progress.settled(t);
        Ok(())
    }
}
