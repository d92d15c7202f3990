// The theorems: each function does nothing, and its contract is what is proved.
ghost use Rattle.rewriting.specs.Theorems.{NewmansLemma};
ghost use Rattle.rewriting.specs.Theorems.{ConfluentIffChurchRosser};
ghost use Rattle.rewriting.specs.Theorems.{OneNormalFormTheorem};
ghost use Rattle.rewriting.specs.Theorems.{ConvertibleIffSameNormalForm};
ghost use Rattle.rewriting.specs.Theorems.{ConvergentOnGroundTerms};
ghost use Rattle.rewriting.specs.Theorems.{Unification};
ghost use Rattle.rewriting.specs.Theorems.{OneCriticalPair};
ghost use Rattle.rewriting.specs.Theorems.{OneOverlapList};
ghost use Rattle.rewriting.specs.Theorems.{CriticalPairTheorem};
ghost use Rattle.rewriting.specs.Theorems.{KnuthBendixTheorem};
ghost use Rattle.rewriting.specs.Theorems.{JoinedOverlapsSuffice};
ghost use Rattle.rewriting.specs.Theorems.{InnermostStepTheorem};
ghost use Rattle.rewriting.specs.Theorems.{InnermostStepsSuffice};

pub fn newmans_lemma()
    ensures { NewmansLemma }
{}

pub fn confluent_iff_church_rosser()
    ensures { ConfluentIffChurchRosser }
{}

pub fn one_normal_form()
    ensures { OneNormalFormTheorem }
{}

pub fn convertible_iff_same_normal_form()
    ensures { ConvertibleIffSameNormalForm }
{}

pub fn convergent_on_ground_terms()
    ensures { ConvergentOnGroundTerms }
{}

pub fn unification()
    ensures { Unification }
{}

pub fn one_critical_pair()
    ensures { OneCriticalPair }
{}

pub fn one_overlap_list()
    ensures { OneOverlapList }
{}

pub fn critical_pair_theorem()
    ensures { CriticalPairTheorem }
{}

pub fn knuth_bendix_theorem()
    ensures { KnuthBendixTheorem }
{}

pub fn joined_overlaps_suffice()
    ensures { JoinedOverlapsSuffice }
{}

pub fn innermost_step_theorem()
    ensures { InnermostStepTheorem }
{}

pub fn innermost_steps_suffice()
    ensures { InnermostStepsSuffice }
{}
