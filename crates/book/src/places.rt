// Tables of places in a book's bytes, by codes.
ghost use Rattle.std.specs.Prelude.{◌≡◌, ℕ, ◌<◌, ◌≤◌, None, Decides, MatchOption, slice_index};
ghost use Rattle.std.specs.Bool.{MatchBool};
ghost use Rattle.std.specs.Int.{bit_at};
ghost use Rattle.std.specs.Option.{unwrap_or};

use terms::prefix::VARIABLE;

// What is kept for a code that has no place.
const NO_PLACE: u16 = u16::MAX;

// At most one place for each code. The bit of a code that has one is set: so a table takes half of what an `Option` for each code would.
#[derive(Clone, Copy, PartialEq, Eq, Debug)]
pub struct Places {
    by_code: [u16; VARIABLE as usize],
    entered: u128,
    ghost free: { (code : ℕ) → code < 128 → bit_at entered code ≡ 0 → slice_index by_code code ≡ 65535 },
}

impl Places {
    ghost use Rattle.book.specs.Places.{place_of, IsFree, Entered};

    // The table without places.
    pub fn new() -> Places
        ensures { (code : ℕ) → place_of result code ≡ None }
    {
        Places {
            by_code: [NO_PLACE; VARIABLE as usize],
            entered: 0,
        }
    }

    // The place of the code, or None if there is none, as for every number that is no code.
    pub fn get(&self, code: u8) -> Option<usize>
        ensures { result ≡ place_of self.now code }
    {
        let place = self.kept(code)?;
        if place == NO_PLACE as usize && self.entered >> code & 1 == 0 {
            return None;
        }
        Some(place)
    }

    // The place of the code, or 65,535 if it has none; None for a number that is no code.
    pub(crate) fn kept(&self, code: u8) -> Option<usize>
        ensures { MatchOption result (128 ≤ code) (λ place. (code < 128) × (place ≡ unwrap_or (place_of self.now code) 65535)) }
    {
        let place = *self.by_code.get(code as usize)?;
        Some(place as usize)
    }

    // Enters a place if the number is a code that has none yet; says whether it is so.
    pub fn enter(&mut self, code: u8, place: u16) -> bool
        ensures free { Decides result (IsFree self.old code) }
        ensures entered { MatchBool result (Entered self.old code place self.new) (self.new ≡ self.old) }
    {
        if code >= VARIABLE || self.get(code).is_some() {
            return false;
        }
        self.by_code[code as usize] = place;
        self.entered |= 1 << code;
        true
    }
}
