// Where the terms end that stand at the offsets of some codes.
ghost use Rattle.std.specs.Prelude.{◌≡◌, ◌≤◌, length};
ghost use Rattle.unification.specs.Standing.{arguments_of, IsForest, Ends};

use terms::prefix::{Signature, VARIABLE};

// How many arguments the code `c` takes: a variable has none.
pub(crate) fn arguments<S: Signature>(signature: &S, c: u8) -> u8
    ensures { result ≡ arguments_of (S.Signature.arities signature.now) c }
{
    if c < VARIABLE {
        signature.arity(c).unwrap_or(0)
    } else {
        0
    }
}

// The offset behind the term at each offset.
pub(crate) fn ends<S: Signature>(signature: &S, codes: &[u8], end: &mut [u8])
    requires terms { IsForest (S.Signature.arities signature.now) codes.now }
    requires few { length codes.now ≤ 128 }
    requires room { length end.old ≡ length codes.now }
    ensures { Ends (S.Signature.arities signature.now) codes.now end.new }
{
    for i in (0..codes.len()).rev() {
        let mut e = i + 1;
        let many = arguments(signature, codes[i]);
        for _k in 0..many {
            e = end[e] as usize;
        }
        end[i] = e as u8;
    }
}
