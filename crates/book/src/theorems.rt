// Theorems on books: each function does nothing, and its contract is what is proved.
ghost use Rattle.book.specs.Theorems.{FieldsReadBack, OneVerdict, DefinitionsHoldAndFail};

pub fn fields_read_back()
    ensures { FieldsReadBack }
{}

pub fn one_verdict()
    ensures { OneVerdict }
{}

// Each definition holds of something and fails of something.
pub fn definitions_hold_and_fail()
    ensures { DefinitionsHoldAndFail }
{}
