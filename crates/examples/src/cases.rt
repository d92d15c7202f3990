// Bytes that are taken and bytes that are refused: which question says no first, and where.

// The number of the question that says no, and the offset, 0 where none is carried.
#[derive(Clone, Copy, PartialEq, Eq, Debug)]
pub(crate) struct Refusal {
    pub(crate) number: u8,
    pub(crate) offset: usize,
}

// Bytes, and why they are refused; None where they are taken.
#[derive(Clone, Copy)]
pub(crate) struct Case<'a> {
    pub(crate) bytes: &'a [u8],
    pub(crate) refusal: Option<Refusal>,
}

pub(crate) fn taken(bytes: &[u8]) -> Case<'_> {
    Case {
        bytes,
        refusal: None,
    }
}

pub(crate) fn refused(bytes: &[u8], number: u8, offset: usize) -> Case<'_> {
    Case {
        bytes,
        refusal: Some(Refusal { number, offset }),
    }
}
