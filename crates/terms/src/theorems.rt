// Theorems on terms, their bytes and their places: each function does nothing, and its contract is what is proved.
ghost use Rattle.terms.specs.Examples.{DefinitionsHoldAndFail};
ghost use Rattle.terms.specs.Theorems.{SameBytesSameTerm, NoProperBeginning, BytesReadAsTheirTerm, InstanceByteByByte};
ghost use Rattle.terms.specs.Theorems.{OnePartAtEachPlace, PartsAgreeWithContexts, BytesAtAPlace, PositionTellsThePart};

// Each definition holds of something and fails of something.
pub fn definitions_hold_and_fail()
    ensures { DefinitionsHoldAndFail }
{}

pub fn same_bytes_same_term()
    ensures { SameBytesSameTerm }
{}

pub fn no_proper_beginning()
    ensures { NoProperBeginning }
{}

pub fn bytes_read_as_their_term()
    ensures { BytesReadAsTheirTerm }
{}

pub fn instance_byte_by_byte()
    ensures { InstanceByteByByte }
{}

pub fn one_part_at_each_place()
    ensures { OnePartAtEachPlace }
{}

pub fn parts_agree_with_contexts()
    ensures { PartsAgreeWithContexts }
{}

pub fn bytes_at_a_place()
    ensures { BytesAtAPlace }
{}

pub fn position_tells_the_part()
    ensures { PositionTellsThePart }
{}
