// The sides of two rules laid one after the other.
ghost use Rattle.std.specs.Prelude.{◌≡◌, ℕ, ◌+◌, ◌<◌, ◌≤◌, [], ◌∷◌, ◌++◌, length, slice_index};
ghost use Rattle.terms.specs.Prefix.{image};
ghost use Rattle.terms.specs.Side.{IsSide};
ghost use Rattle.unification.specs.Writing.{written};
ghost use Rattle.unification.specs.Written.{bytes_of};
ghost use Rattle.unification.specs.Laying.{moved, Sides};
ghost use Rattle.unification.specs.Asked.{rule_of};

use crate::written::Codes;
use terms::prefix::{Signature, VARIABLE};
use terms::side;
use terms::side::{RULE_VARIABLES, SIDE_LIMIT};

// What is added to the variables of the second rule: those of the first come before.
const DISTINCT: u8 = RULE_VARIABLES;

// The most codes of the four sides of two rules.
pub(crate) const LAID_LIMIT: usize = 4 * SIDE_LIMIT;

// Both left sides and behind them both right sides: the codes, and the offsets at which the second left side and the right sides begin.
#[derive(Clone, Copy)]
pub(crate) struct LaidSides {
    pub(crate) codes: Codes<LAID_LIMIT>,
    pub(crate) second: usize,
    pub(crate) right: usize,
    pub(crate) last: usize,
}

// A code with `shift` added to it if it is a variable.
fn shifted(code: u8, shift: u8) -> u8
    requires low { code < 132 }
    requires small { shift ≤ 4 }
    ensures { image (moved shift) code ≡ result ∷ [] }
{
    if code < VARIABLE { code } else { code + shift }
}

// Appends the bytes, with `shift` added to each variable.
fn lay(out: &mut Codes<LAID_LIMIT>, bytes: &[u8], shift: u8)
    requires room { length (bytes_of out.old) + length bytes.now ≤ 128 }
    requires low { (k : ℕ) → k < length bytes.now → slice_index bytes.now k < 132 }
    requires small { shift ≤ 4 }
    ensures codes { bytes_of out.new ≡ bytes_of out.old ++ written (moved shift) bytes.now 0 (length bytes.now) }
    ensures long { length (bytes_of out.new) ≡ length (bytes_of out.old) + length bytes.now }
{
    for code in bytes {
        out.push(shifted(*code, shift));
    }
}

// The sides of two rules laid one after the other, the variables of the second rule made distinct.
pub(crate) fn lay_sides<S: Signature>(
    signature: &S,
    first: side::Sides,
    second: side::Sides,
) -> LaidSides
    requires left { IsSide (S.Signature.arities signature.now) first.left.now }
    requires right { IsSide (S.Signature.arities signature.now) first.right.now }
    requires second { IsSide (S.Signature.arities signature.now) second.left.now }
    requires last { IsSide (S.Signature.arities signature.now) second.right.now }
    ensures second { result.second ≡ length first.entry.left.now }
    ensures sides { Sides (S.Signature.arities signature.now) (bytes_of result.codes) result.second result.right result.last
        (rule_of (S.Signature.arities signature.now) first.entry.left.now first.entry.right.now)
        (rule_of (S.Signature.arities signature.now) second.entry.left.now second.entry.right.now) }
{
    let right = first.left.len() + second.left.len();
    let mut codes = Codes::new();
    lay(&mut codes, first.left, 0);
    lay(&mut codes, second.left, DISTINCT);
    lay(&mut codes, first.right, 0);
    lay(&mut codes, second.right, DISTINCT);
    LaidSides {
        codes,
        second: first.left.len(),
        right,
        last: right + first.right.len(),
    }
}
