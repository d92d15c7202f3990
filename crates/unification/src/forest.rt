// Terms laid one after the other, and what unification finds out about them.
// The tables are lent, and each is a slice of its own: every step fills one while it reads those of the steps before.
ghost use Rattle.unification.specs.Standing.{Laid};
ghost use Rattle.unification.specs.Classes.{Classes, Bindings};
ghost use Rattle.unification.specs.OneProof.{laid_prop, classes_prop, bindings_prop};

use terms::prefix::Signature;

// The codes of terms one after the other, and the offset behind the term at each offset.
#[derive(Drop)]
pub(crate) struct Forest<'a, S: Signature> {
    pub(crate) signature: &'a S,
    pub(crate) codes: &'a [u8],
    pub(crate) end: &'a [u8],
    ghost laid: { Laid (S.Signature.arities signature.now) codes.now end.now } by { laid_prop (S.Signature.arities signature.now) codes.now end.now },
}

// The offsets of a forest in classes: for each the offset that stands for its class.
#[derive(Drop)]
pub(crate) struct Partition<'a, S: Signature> {
    pub(crate) forest: &'a Forest<'a, S>,
    pub(crate) rep: &'a [u8],
    ghost classes: { Classes forest.now.codes.now rep.now } by { classes_prop forest.now.codes.now rep.now },
}

// A unifier: each variable is bound to the term that stands for its class, and the ranks say which terms come first.
#[derive(Drop)]
pub(crate) struct Unifier<'a, S: Signature> {
    pub(crate) forest: &'a Forest<'a, S>,
    pub(crate) rep: &'a [u8],
    pub(crate) rank: &'a [u8],
    ghost bindings: { Bindings (S.Signature.arities forest.now.signature.now) forest.now.codes.now rep.now rank.now } by { bindings_prop (S.Signature.arities forest.now.signature.now) forest.now.codes.now rep.now rank.now },
}
