// The sides of rules.
ghost use Rattle.std.specs.Prelude.{Decides};
ghost use Rattle.terms.specs.Side.{IsSide};

use crate::prefix::{Signature, is_term};

// The bytes of the longest side of a rule.
pub const SIDE_LIMIT: usize = 32;

// Rules have the variables 80 to 83.
pub const RULE_VARIABLES: u8 = 4;

// The two sides of a rule, as parts of lent bytes.
#[derive(Clone, Copy, PartialEq, Eq, Debug)]
pub struct Sides<'a> {
    pub left: &'a [u8],
    pub right: &'a [u8],
}

impl<'a> Sides<'a> {
    // Whether both are sides of a rule of the signature.
    pub fn fit<S: Signature>(&self, signature: &S) -> bool
        ensures { Decides result (IsSide (S.Signature.arities signature.now) self.now.left.now × IsSide (S.Signature.arities signature.now) self.now.right.now) }
    {
        is_side(signature, self.left) && is_side(signature, self.right)
    }
}

// Whether the bytes are a side of a rule of the signature.
pub fn is_side<S: Signature>(signature: &S, bytes: &[u8]) -> bool
    ensures { Decides result (IsSide (S.Signature.arities signature.now) bytes.now) }
{
    bytes.len() <= SIDE_LIMIT && is_term(signature, RULE_VARIABLES, bytes)
}
