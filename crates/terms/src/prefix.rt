// Where a term ends, whether bytes are one term, and the part at a place.
ghost use Rattle.std.specs.Prelude.{◌≡◌, ℕ, Decides, Option};
ghost use Rattle.std.specs.Option.{option_map};
ghost use Rattle.terms.specs.Prefix.{FirstTerm, IsTerm};
ghost use Rattle.terms.specs.Place.{TermAt, PartOfTerm};
ghost use Rattle.terms.specs.Scan.{owes};

// Codes are below it; the variables begin with it.
pub const VARIABLE: u8 = 0x80;

// What gives each symbol its number of arguments.
pub trait Signature {
    ghost arities: { Self → ℕ → Option ℕ };

    // The arity of a code, or None if it is no symbol's.
    fn arity(&self, code: u8) -> Option<u8>
        ensures { result ≡ arities self.now code };
}

// How many terms are owed after the byte; None if it is neither a symbol's nor one of the first `variables` variables.
fn owed_after<S: Signature>(signature: &S, variables: u8, byte: u8) -> Option<u8>
    ensures { result ≡ owes (S.Signature.arities signature.now) variables byte }
{
    if byte < VARIABLE {
        return signature.arity(byte);
    }
    if byte - VARIABLE < variables {
        return Some(0);
    }
    None
}

// The length of the first term in the bytes, of the signature and with the first `variables` variables, or None if no such term begins them.
pub fn first_term_length<S: Signature>(signature: &S, variables: u8, bytes: &[u8]) -> Option<usize>
    ensures { FirstTerm (S.Signature.arities signature.now) variables bytes.now result }
{
    let mut owed: usize = 1;
    for (i, byte) in bytes.iter().enumerate() {
        let more = owed_after(signature, variables, *byte)? as usize;
        // each term has a byte at least
        if more > bytes.len() - i - owed {
            return None;
        }
        owed = owed - 1 + more;
        if owed == 0 {
            return Some(i + 1);
        }
    }
    None
}

// Whether the bytes are exactly one term of the signature with the first `variables` variables.
pub fn is_term<S: Signature>(signature: &S, variables: u8, bytes: &[u8]) -> bool
    ensures { Decides result (IsTerm (S.Signature.arities signature.now) variables bytes.now) }
{
    first_term_length(signature, variables, bytes) == Some(bytes.len())
}

// The part at a place: the bytes of the term that begins there, or None if none does.
pub fn part_at<'a, S: Signature>(
    signature: &S,
    variables: u8,
    bytes: &'a [u8],
    place: usize,
) -> Option<&'a [u8]>
    ensures any { TermAt (S.Signature.arities signature.now) variables bytes.now place (option_map (λ x. x.now) result) }
    ensures part { PartOfTerm (S.Signature.arities signature.now) variables bytes.now place (option_map (λ x. x.now) result) }
{
    let rest = bytes.get(place..)?;
    let n = first_term_length(signature, variables, rest)?;
    Some(&rest[..n])
}
