// The two sides of the overlap that is out.
ghost use Rattle.std.specs.Prelude.{◌≡◌, ◌≤◌, ◌++◌, length, drop, MatchOption, MatchResult};
ghost use Rattle.book.specs.Meaning.{signature_of, rules_of};
ghost use Rattle.judge.specs.Calls.{IsOut};
ghost use Rattle.judge.specs.Pairs.{PairOut, SidesLaid, SidesRefused};

use crate::fault::SidesFault;
use crate::judge::Judge;
use crate::overlaps::pair_of;
use crate::showing::TERM;
use crate::ticket::Ticket;
use unification::critical::CriticalPair;

// Copies the bytes to the front of the buffer.
fn copy_front(buffer: &mut [u8], bytes: &[u8])
    requires { length bytes.now ≤ length buffer.old }
    ensures { buffer.new ≡ bytes.now ++ drop (length bytes.now) buffer.old }
{
    buffer[..bytes.len()].copy_from_slice(bytes);
}

impl<'a> Judge<'a> {
    // The peak and the sides of the overlap that is out, or None if the ticket names another.
    pub(crate) fn pair_out(&self, ticket: &Ticket) -> Option<CriticalPair>
        ensures { MatchOption result
            (IsOut self.now.progress ticket.now.triple → ⊥)
            (PairOut (signature_of self.now.book.tables.bytes.now) (rules_of self.now.book.tables.bytes.now) self.now.progress ticket.now.triple) }
    {
        let t = ticket.triple();
        if self.progress.is_out(&t) {
            pair_of(&self.book, &t).ok()
        } else {
            None
        }
    }

    // Writes the outer and the inner side of the overlap that is out to the front of the buffers and answers both lengths, or says which question says the
    // first no, and leaves both buffers as they are.
    pub fn sides(
        &self,
        ticket: &Ticket,
        outer: &mut [u8],
        inner: &mut [u8],
    ) -> Result<(usize, usize), SidesFault>
        ensures { MatchResult result
            (λ n. SidesLaid (rules_of self.now.book.tables.bytes.now) self.now.progress ticket.now.triple outer.old inner.old outer.new inner.new n.0 n.1)
            (λ e. SidesRefused self.now.progress ticket.now.triple (length outer.old) (length inner.old) e
            × (outer.new ≡ outer.old)
            × (inner.new ≡ inner.old)) }
    {
        // what refuses is asked before the pair is made, which is the work
        if !self.progress.is_out(&ticket.triple()) {
            return Err(SidesFault::OtherTicket);
        }
        if outer.len() < TERM || inner.len() < TERM {
            return Err(SidesFault::ShortBuffer);
        }
        let pair = self.pair_out(ticket).ok_or(SidesFault::OtherTicket)?;
        let a = pair.outer.as_slice();
        let b = pair.inner.as_slice();
        copy_front(outer, a);
        copy_front(inner, b);
        Ok((a.len(), b.len()))
    }
}
