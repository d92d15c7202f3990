// An overlap is shown to join.
ghost use Rattle.std.specs.Prelude.{◌≡◌, length, replicate, MatchResult};
ghost use Rattle.book.specs.Meaning.{rules_of};
ghost use Rattle.judge.specs.Calls.{joined, Shows, ShowRefused};

use crate::fault::ShowFault;
use crate::joining::Joining;
use crate::judge::Judge;
use crate::page::PageGuard;
use crate::showing::{PAGE, check_joining};
use crate::ticket::Ticket;

impl<'a> Judge<'a> {
    // Whether the lists lead to one term, whatever is left in the page.
    fn check_show(
        &self,
        ticket: &Ticket,
        outer_list: &[u8],
        inner_list: &[u8],
        page: &mut [u8],
    ) -> Result<(), ShowFault>
        ensures { MatchResult result
            (λ _. Shows (rules_of self.now.book.tables.bytes.now) self.now.progress ticket.now.triple outer_list.now inner_list.now (length page.old) (joined self.now.progress))
            (λ e. ShowRefused (rules_of self.now.book.tables.bytes.now) self.now.progress ticket.now.triple outer_list.now inner_list.now (length page.old) e) }
    {
        let page = page.first_chunk_mut::<PAGE>().ok_or(ShowFault::ShortPage)?;
        // what refuses is asked before the pair is made, which is work
        if !self.progress.is_out(&ticket.triple()) {
            return Err(ShowFault::OtherTicket);
        }
        let joining = Joining::told(outer_list, inner_list).ok_or(ShowFault::BadLists)?;
        let pair = self.pair_out(ticket).ok_or(ShowFault::OtherTicket)?;
        check_joining(&self.book, &pair, &joining, page)
    }

    // Checks one list of steps from the outer side of the overlap that is out and one from the inner side: whether they lead to one term. Says which
    // question says the first no. All bytes of the page are FF after it.
    pub fn show(
        &mut self,
        ticket: &Ticket,
        outer_list: &[u8],
        inner_list: &[u8],
        page: &mut [u8],
    ) -> Result<(), ShowFault>
        ensures answer { MatchResult result
            (λ _. Shows (rules_of self.old.book.tables.bytes.now) self.old.progress ticket.now.triple outer_list.now inner_list.now (length page.old) self.new.progress)
            (λ e. ShowRefused (rules_of self.old.book.tables.bytes.now) self.old.progress ticket.now.triple outer_list.now inner_list.now (length page.old) e × (self.new.progress ≡ self.old.progress)) }
        ensures book { self.new.book ≡ self.old.book }
        ensures page { page.new ≡ replicate (length page.old) 255 }
    {
        let guard = PageGuard { page };
        self.check_show(ticket, outer_list, inner_list, guard.page)?;
        self.progress = self.progress.joined();
        Ok(())
    }
}
