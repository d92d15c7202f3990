// A judged book is sealed.
ghost use Rattle.std.specs.Prelude.{◌≡◌, MatchResult};
ghost use Rattle.book.specs.Meaning.{rules_of};
ghost use Rattle.judge.specs.Calls.{Seals, SealRefused};

use crate::fault::SealFault;
use crate::judge::Judge;
use crate::overlaps::next_overlap;
use crate::sealed::Sealed;

impl<'a> Judge<'a> {
    // Puts the sealed book into the place if every overlap is opened, settled and joined, else says which question says the first no, and leaves the
    // place as it is.
    pub fn seal(&self, place: &mut Sealed<'a>) -> Result<(), SealFault>
        ensures answer { MatchResult result
            (λ _. Seals (rules_of self.now.book.tables.bytes.now) self.now.progress)
            (λ e. SealRefused (rules_of self.now.book.tables.bytes.now) self.now.progress e) }
        ensures place { MatchResult result (λ _. place.new.book ≡ self.now.book) (λ _. place.new ≡ place.old) }
    {
        if self.progress.ticket.is_some() {
            return Err(SealFault::TicketOut);
        }
        if let Some(t) = next_overlap(&self.book, &self.progress.last) {
            return Err(SealFault::NotOpened(t));
        }
        if let Some(t) = self.progress.unjoined {
            return Err(SealFault::LeftOpen(t));
        }
        *place = Sealed { book: self.book };
        Ok(())
    }
}
