// Codes in fixed memory.
ghost use Rattle.std.specs.Prelude.{◌≡◌, ◌<◌, ◌≤◌, [], ◌∷◌, ◌++◌, T, length, MatchOption};

// At most N codes: the first `count` of the bytes.
#[derive(Clone, Copy)]
pub struct Codes<const N: usize> {
    bytes: [u8; N],
    count: usize,
    ghost within: { count ≤ N },
}

// At most 255 codes, for terms in prefix form.
pub type Written = Codes<255>;

impl<const N: usize> Codes<N> {
    ghost use Rattle.unification.specs.Written.{bytes_of};

    // No codes.
    pub(crate) fn new() -> Codes<N>
        ensures { bytes_of result ≡ [] }
    {
        Codes {
            bytes: [0; N],
            count: 0,
        }
    }

    // The bytes as codes, or None if they are more than N.
    pub fn of(bytes: &[u8]) -> Option<Codes<N>>
        ensures { MatchOption result
            (N < length bytes.now)
            (λ w. (length bytes.now ≤ N) × (bytes_of w ≡ bytes.now)) }
    {
        let count = bytes.len();
        if count > N {
            return None;
        }
        let mut all = [0; N];
        all[..count].copy_from_slice(bytes);
        Some(Codes { bytes: all, count })
    }

    // The codes.
    pub fn as_slice(&self) -> &[u8]
        ensures { result.now ≡ bytes_of self.now }
    {
        &self.bytes[..self.count]
    }

    // Whether there is no room for one more code.
    pub(crate) fn is_full(&self) -> bool
        ensures yes { T result → length (bytes_of self.now) ≡ N }
        ensures no { (T result → ⊥) → length (bytes_of self.now) < N }
    {
        self.count == N
    }

    // Appends a code.
    pub(crate) fn push(&mut self, code: u8)
        requires { length (bytes_of self.old) < N }
        ensures { bytes_of self.new ≡ bytes_of self.old ++ code ∷ [] }
    {
        self.bytes[self.count] = code;
        self.count += 1;
    }
}
