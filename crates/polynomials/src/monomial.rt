// Monomials, read from the bytes of a symbol's polynomial.
ghost use Rattle.std.specs.Prelude.{◌≡◌};
ghost use Rattle.std.specs.Iterator.{YieldsFirstBy, item_count};
ghost use Rattle.polynomials.specs.Coding.{polynomial_from};
ghost use Rattle.polynomials.specs.Meant.{meant};

// The factor, and the exponents of the three arguments of the symbol.
#[derive(Clone, Copy, PartialEq, Eq, Debug)]
pub struct Monomial {
    pub factor: u32,
    pub exponents: [u8; 3],
}

// The monomials of bytes, of seven bytes each; fewer bytes at the end are left out.
#[derive(Clone, Copy, Drop)]
pub struct Monomials<'a> {
    bytes: &'a [u8],
}

impl<'a> Monomials<'a> {
    // All the monomials of the bytes.
    pub fn new(bytes: &'a [u8]) -> Monomials<'a>
        ensures { result.bytes.now ≡ bytes.now }
    {
        Monomials { bytes }
    }
}

impl<'a> Iterator for Monomials<'a> {
    type Item = Monomial;

    ghost next_gives = { YieldsFirstBy meant (λ s. polynomial_from s.bytes.now) };

    ghost remaining = { item_count (λ s. polynomial_from s.bytes.now) };

    fn next(&mut self) -> Option<Monomial> {
        let [a, b, c, d, first, second, third, rest @ ..] = self.bytes else {
            return None;
        };
        self.bytes = rest;
        Some(Monomial {
            factor: u32::from_be_bytes([*a, *b, *c, *d]),
            exponents: [*first, *second, *third],
        })
    }
}
