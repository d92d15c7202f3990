// A small interpretation: the symbol 2 is 2 X + 1, and the symbol 3 is 2 X.
ghost use Rattle.polynomials.specs.Examples.{doubled_arities, doubling, doubling_proper};

use polynomials::symbols::Symbols;
use terms::prefix::Signature;

// Seven bytes for each monomial: 2 X and 1.
const MONOMIALS: [u8; 14] = [0, 0, 0, 2, 1, 0, 0, 0, 0, 0, 1, 0, 0, 0];

#[derive(Clone, Copy)]
pub(crate) struct Doubling {}

impl Signature for Doubling {
    ghost arities = { λ s. doubled_arities };

    fn arity(&self, code: u8) -> Option<u8> {
        match code {
            2 | 3 => Some(1),
            _ => None,
        }
    }
}

impl Symbols for Doubling {
    ghost interpretation = { λ s. doubling };

    ghost proper = { λ s. doubling_proper };

    fn monomials(&self, code: u8) -> &[u8] {
        if code == 2 {
            &MONOMIALS
        } else {
            &MONOMIALS[..7]
        }
    }
}

#[cfg(test)]
mod tests {
    use super::Doubling;
    use polynomials::grade::grade;

    #[test]
    fn grades(rt: HostRuntime) {
        let doubling = Doubling {};
        assert_eq!(rt; grade(&doubling, b"\x02\x02\x80", b"\x03\x03\x80"), Some(0));
        assert_eq!(rt;
            grade(&doubling, b"\x03\x03\x02\x80", b"\x02\x03\x03\x80"),
            Some(0)
        );
        assert_eq!(rt; grade(&doubling, b"\x03\x80", b"\x02\x80"), Some(1));
        assert_eq!(rt; grade(&doubling, b"\x02\x80", b"\x02\x81"), Some(1));
        assert_eq!(rt; grade(&doubling, b"\x02\x84", b"\x02\x80"), None);
        assert_eq!(rt; grade(&doubling, b"\x02", b"\x80"), None);
    }
}
