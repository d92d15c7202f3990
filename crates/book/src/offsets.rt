// The offsets of rules in a book's bytes.
ghost use Rattle.std.specs.Prelude.{◌≡◌, ◌+◌, ◌<◌, ◌≤◌, [], ◌∷◌, ◌++◌, take, MatchOption, slice_index};

// The most rules that a book has.
const RULE_LIMIT: usize = 32;

// A list of at most as many offsets as a book has rules.
#[derive(Clone, Copy)]
pub(crate) struct Offsets {
    entries: [u16; RULE_LIMIT],
    count: usize,
    ghost few: { count ≤ 32 },
}

impl Offsets {
    // The empty list.
    pub(crate) fn new() -> Offsets
        ensures { result.count ≡ 0 }
    {
        Offsets {
            entries: [0; RULE_LIMIT],
            count: 0,
        }
    }

    // How many offsets there are.
    pub(crate) fn len(&self) -> usize
        ensures { result ≡ self.now.count }
    {
        self.count
    }

    // The offset i, or None past the last one.
    pub(crate) fn get(&self, i: usize) -> Option<usize>
        ensures { MatchOption result
            (self.now.count ≤ i)
            (λ offset. (i < self.now.count) × (offset ≡ slice_index self.now.entries i)) }
    {
        if i >= self.count {
            return None;
        }
        Some(self.entries[i] as usize)
    }

    // Puts one offset behind the others, or leaves the list as it is and answers None if there is no room.
    pub(crate) fn push(&mut self, offset: u16) -> Option<()>
        ensures { MatchOption result
            ((self.old.count ≡ 32) × (self.new ≡ self.old))
            (λ _. (self.old.count < 32) × (self.new.count ≡ self.old.count + 1)
            × (take self.new.count self.new.entries ≡ take self.old.count self.old.entries ++ offset ∷ [])) }
    {
        if self.count >= RULE_LIMIT {
            return None;
        }
        self.entries[self.count] = offset;
        self.count += 1;
        Some(())
    }
}
