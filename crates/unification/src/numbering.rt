// Variables renumbered by first appearance.
ghost use Rattle.std.specs.Prelude.{◌≡◌, ℕ, ◌<◌, ◌≤◌, [], ◌∷◌, length, slice_index};
ghost use Rattle.terms.specs.Prefix.{image, expand};
ghost use Rattle.unification.specs.Numbering.{seen_among, numbered};
ghost use Rattle.unification.specs.Written.{bytes_of};

use crate::classes::first_code;
use crate::written::{Codes, Written};
use terms::prefix::VARIABLE;
use terms::side::RULE_VARIABLES;

// The most variables of two rules.
const PAIR_VARIABLES: usize = 2 * RULE_VARIABLES as usize;

// The variables among the codes in the sequence of their first appearance; there are eight at most.
pub(crate) fn appearances(codes: &[u8]) -> Codes<PAIR_VARIABLES>
    requires { (k : ℕ) → k < length codes.now → slice_index codes.now k < 136 }
    ensures { bytes_of result ≡ seen_among [] codes.now }
{
    let mut variables = Codes::new();
    for x in codes {
        if *x >= VARIABLE && !variables.as_slice().contains(x) {
            variables.push(*x);
        }
    }
    variables
}

// A code with the number of its variable, if it is one.
fn number(variables: &[u8], code: u8) -> u8
    requires { length variables.now ≤ 8 }
    ensures { image (numbered variables.now) code ≡ result ∷ [] }
{
    if code < VARIABLE {
        return code;
    }
    VARIABLE + first_code(variables, code) as u8
}

// The term with its variables renumbered.
pub(crate) fn renumbered(variables: &[u8], term: &Written) -> Written
    requires { length variables.now ≤ 8 }
    ensures { bytes_of result ≡ expand (image (numbered variables.now)) (bytes_of term.now) }
{
    let codes = term.as_slice();
    let mut out = Written::new();
    for code in codes {
        out.push(number(variables, *code));
    }
    out
}
