// Writing the instance of a right side, and the term around it, to a page.
ghost use Rattle.std.specs.Prelude.{◌≡◌, ◌+◌, ◌≤◌, length, Decides};
ghost use Rattle.stepping.specs.Bindings.{piece_of};
ghost use Rattle.stepping.specs.Writing.{Written, instance_of, replaced, PutInFront};

use crate::subject::RuleMatch;
use std::slice;

// Writes the bytes to the page from a place on, and gives the place behind them.
fn write(page: &mut [u8], at: usize, bytes: &[u8]) -> usize
    requires { at + length bytes.now ≤ length page.old }
    ensures end { result ≡ at + length bytes.now }
    ensures written { Written page.old at bytes.now page.new }
{
    let end = at + bytes.len();
    page[at..end].copy_from_slice(bytes);
    end
}

impl<'t> RuleMatch<'t> {
    // What stands for a byte of the right side: the part that it stands for, or the byte itself.
    fn piece(&self, byte: &'t u8) -> &'t [u8]
        ensures { result.now ≡ piece_of self.now.found.substitution.parts byte.now }
    {
        self.found
            .substitution
            .part(*byte)
            .unwrap_or(slice::from_ref(byte))
    }

    // Whether the instance of the right side has at most so many bytes.
    fn instance_fits(&self, room: usize) -> bool
        ensures { Decides result (length (instance_of self.now) ≤ room) }
    {
        let mut left = room;
        for byte in self.right {
            let n = self.piece(byte).len();
            if n > left {
                return false;
            }
            left -= n;
        }
        true
    }

    // Writes the instance of the right side to the page from a place on, and gives the place behind it.
    fn write_instance(&self, page: &mut [u8], at: usize) -> usize
        requires { at + length (instance_of self.now) ≤ length page.old }
        ensures end { result ≡ at + length (instance_of self.now) }
        ensures written { Written page.old at (instance_of self.now) page.new }
    {
        let mut end = at;
        for byte in self.right {
            end = write(page, end, self.piece(byte));
        }
        end
    }

    // Writes the term to the front of the page, with the matched part at the place replaced by the instance of the right side. Gives the length, or None,
    // with nothing written, if the page is shorter than that.
    pub(crate) fn write_replaced(&self, term: &[u8], place: usize, page: &mut [u8]) -> Option<usize>
        requires { place + self.now.found.len ≤ length term.now }
        ensures { PutInFront
            page.old
            (replaced term.now place self.now.found.len (instance_of self.now))
            page.new
            result }
    {
        let behind = place + self.found.len;
        let around = term.len() - self.found.len;
        let room = page.len().checked_sub(around)?;
        if !self.instance_fits(room) {
            return None;
        }
        let first = write(page, 0, &term[..place]);
        let second = self.write_instance(page, first);
        Some(write(page, second, &term[behind..]))
    }
}
