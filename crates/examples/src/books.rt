// Books that are read and books that are refused: which question says no first, and where.
use crate::cases::{Case, Refusal, refused, taken};
use book::book::Book;
use std::alloc::{AllocError, Global};
use std::process::Abort;
use std::test::Fail;

// Why the bytes are no book, or None if they are one.
fn outcome(bytes: &[u8]) -> Option<Refusal> {
    let mut book = Book::empty();
    let fault = book.read(bytes).err()?;
    Some(Refusal {
        number: fault.number(),
        offset: fault.offset().unwrap_or(0),
    })
}

fn check_cases(rt: &impl Abort, cases: &[Case]) {
    for c in cases {
        assert_eq!(rt; outcome(c.bytes), c.refusal);
    }
}

#[test]
fn whole_fields_and_tags(rt: HostRuntime) {
    check_cases(
        &rt,
        &[
            // the empty book
            taken(b""),
            // cut in the header, in the first field and behind a whole one
            refused(b"\x01", 2, 0),
            refused(b"\x01\x00", 2, 0),
            refused(b"\x01\x00\x02\x01\x00\x01", 2, 5),
            // cut in the value
            refused(b"\x01\x00\x02\x01", 2, 0),
            refused(
                b"\x01\x00\x02\x01\x00\x02\x00\x06\x03\x02\x02\x80\x02",
                2,
                5,
            ),
            // a length of 256 by its high byte
            refused(b"\x01\x01\x00\x01\x00", 2, 0),
            // tags from 01 to 05
            refused(b"\x00\x00\x00", 3, 0),
            refused(b"\x06\x00\x00", 3, 0),
            refused(b"\xFF\x00\x01\x00", 3, 0),
            refused(b"\x01\x00\x02\x01\x00\x06\x00\x01\x00", 3, 5),
            // a field that is not whole is asked for nothing else
            refused(b"\x09\x00", 2, 0),
        ],
    );
}

#[test]
fn lengths_of_values(rt: HostRuntime) -> Result<(), Fail> {
    check_cases(
        &rt,
        &[
            // a symbol and a rank have two bytes
            refused(b"\x01\x00\x01\x01", 4, 0),
            refused(b"\x01\x00\x03\x01\x00\x00", 4, 0),
            refused(b"\x04\x00\x01\x01", 4, 0),
            taken(b"\x04\x00\x02\x01\x07"),
            refused(b"\x04\x00\x03\x01\x07\x00", 4, 0),
            // a rule has three bytes at least
            refused(b"\x02\x00\x02\x01\x80", 4, 0),
            taken(b"\x02\x00\x03\x01\x80\x80"),
        ],
    );
    // from the least to the most, in steps
    check_shape(&rt, 2, 65, Some(6))?;
    check_shape(&rt, 2, 66, Some(4))?;
    check_shape(&rt, 3, 7, Some(4))?;
    check_shape(&rt, 3, 8, None)?;
    check_shape(&rt, 3, 9, Some(4))?;
    check_shape(&rt, 3, 15, None)?;
    check_shape(&rt, 3, 57, None)?;
    check_shape(&rt, 3, 64, Some(4))?;
    check_shape(&rt, 5, 3, Some(4))?;
    check_shape(&rt, 5, 4, None)?;
    check_shape(&rt, 5, 260, None)?;
    check_shape(&rt, 5, 261, Some(4))?;
    // the high byte of a length counts
    check_shape(&rt, 1, 258, Some(4))
}

// A field of zeros with the tag and the length.
fn zeros(heap: Global, tag: u8, length: u16) -> Result<Vec<u8>, AllocError> {
    let mut bytes = Vec::new(heap);
    bytes.push(tag)?;
    bytes.extend_from_slice(&length.to_be_bytes())?;
    for _ in 0..length {
        bytes.push(0)?;
    }
    Ok(bytes)
}

fn check_shape(
    rt: &(impl Abort + AllocGlobal),
    tag: u8,
    length: u16,
    number: Option<u8>,
) -> Result<(), Fail> {
    let bytes = zeros(rt.alloc(), tag, length)?;
    let refusal = number.map(|number| Refusal { number, offset: 0 });
    assert_eq!(rt; outcome(bytes.as_slice()), refusal);
    Ok(())
}

#[test]
fn symbols(rt: HostRuntime) {
    check_cases(
        &rt,
        &[
            taken(b"\x01\x00\x02\x01\x00"),
            taken(b"\x01\x00\x02\x7F\x03"),
            refused(b"\x01\x00\x02\x00\x00", 5, 0),
            refused(b"\x01\x00\x02\x80\x00", 5, 0),
            refused(b"\x01\x00\x02\xFF\x00", 5, 0),
            refused(b"\x01\x00\x02\x01\x04", 5, 0),
            // declared before, with the same arity and with another
            refused(b"\x01\x00\x02\x01\x00\x01\x00\x02\x01\x00", 5, 5),
            refused(
                b"\x01\x00\x02\x01\x00\x01\x00\x02\x02\x01\x01\x00\x02\x01\x02",
                5,
                10,
            ),
        ],
    );
}

#[test]
fn rules(rt: HostRuntime) {
    check_cases(
        &rt,
        &[
            // f(f(x)) to f(x), with f declared before the rule, and after it
            taken(b"\x01\x00\x02\x02\x01\x02\x00\x06\x03\x02\x02\x80\x02\x80"),
            refused(
                b"\x02\x00\x06\x03\x02\x02\x80\x02\x80\x01\x00\x02\x02\x01",
                6,
                0,
            ),
            // a left side of no bytes, one that goes beyond the value, and one that leaves none for the right side
            refused(b"\x02\x00\x03\x00\x80\x80", 6, 0),
            refused(b"\x02\x00\x03\x05\x80\x80", 6, 0),
            refused(b"\x02\x00\x03\x02\x80\x80", 6, 0),
            // the variables are 80 to 83
            taken(b"\x02\x00\x03\x01\x83\x80"),
            refused(b"\x02\x00\x03\x01\x84\x80", 6, 0),
            refused(b"\x02\x00\x03\x01\x80\x84", 6, 0),
            // a side that is two terms, and one that lacks an argument
            refused(
                b"\x01\x00\x02\x02\x01\x02\x00\x05\x03\x02\x80\x80\x80",
                6,
                5,
            ),
            refused(b"\x01\x00\x02\x02\x01\x02\x00\x04\x02\x02\x02\x80", 6, 5),
            // an undeclared symbol
            refused(b"\x01\x00\x02\x02\x01\x02\x00\x04\x02\x02\x80\x03", 6, 5),
        ],
    );
}

// The symbol f of one argument, and a rule with f repeated on both sides: so many bytes a side.
fn towers(heap: Global, left: u8, right: u8) -> Result<Vec<u8>, AllocError> {
    let mut bytes = Vec::new(heap);
    bytes.extend_from_slice(b"\x01\x00\x02\x02\x01")?;
    bytes.extend_from_slice(&[2, 0, left.wrapping_add(right).wrapping_add(1), left])?;
    push_tower(&mut bytes, left)?;
    push_tower(&mut bytes, right)?;
    Ok(bytes)
}

fn push_tower(bytes: &mut Vec<u8>, length: u8) -> Result<(), AllocError> {
    for _ in 1..length {
        bytes.push(2)?;
    }
    bytes.push(0x80)?;
    Ok(())
}

#[test]
fn sides_of_32_and_33_bytes(rt: HostRuntime) -> Result<(), Fail> {
    let short = towers(rt.alloc(), 32, 1)?;
    let long = towers(rt.alloc(), 33, 1)?;
    let both = towers(rt.alloc(), 32, 32)?;
    let right = towers(rt.alloc(), 31, 33)?;
    check_cases(
        &rt,
        &[
            taken(short.as_slice()),
            refused(long.as_slice(), 6, 5),
            taken(both.as_slice()),
            refused(right.as_slice(), 6, 5),
        ],
    );
    Ok(())
}

#[test]
fn rules_32_and_33(rt: HostRuntime) -> Result<(), Fail> {
    let mut bytes = Vec::new(rt.alloc());
    for _ in 0..32 {
        bytes.extend_from_slice(b"\x02\x00\x03\x01\x80\x80")?;
    }
    check_cases(&rt, &[taken(bytes.as_slice())]);
    let mut more = bytes.clone()?;
    more.extend_from_slice(b"\x02\x00\x03\x01\x80\x80")?;
    // a 33rd rule that is no rule is refused as such
    let mut worse = bytes.clone()?;
    worse.extend_from_slice(b"\x02\x00\x03\x01\x80\x84")?;
    check_cases(
        &rt,
        &[
            refused(more.as_slice(), 7, 192),
            refused(worse.as_slice(), 6, 192),
        ],
    );
    Ok(())
}

// Fifteen joining fields of 263 bytes, and one of the length that is given and three bytes more.
fn joinings(heap: Global, last: u16) -> Result<Vec<u8>, AllocError> {
    let mut bytes = Vec::new(heap);
    for _ in 0..15 {
        let field = zeros(heap, 5, 260)?;
        bytes.extend_from_slice(field.as_slice())?;
    }
    let field = zeros(heap, 5, last)?;
    bytes.extend_from_slice(field.as_slice())?;
    Ok(bytes)
}

#[test]
fn bytes_4096_and_4097(rt: HostRuntime) -> Result<(), Fail> {
    let full = joinings(rt.alloc(), 148)?;
    let over = joinings(rt.alloc(), 149)?;
    assert_eq!(rt; full.len(), 4096);
    assert_eq!(rt; over.len(), 4097);
    check_cases(
        &rt,
        &[taken(full.as_slice()), refused(over.as_slice(), 1, 0)],
    );
    Ok(())
}

// A refusal leaves the book as it was, and an accepted read replaces it.
#[test]
fn a_place_that_is_filled(rt: HostRuntime) {
    let two = b"\x01\x00\x02\x01\x00\x01\x00\x02\x02\x01\x02\x00\x06\x03\x02\x02\x80\x02\x80";
    let mut book = Book::empty();
    assert_eq!(rt; book.symbol_count(), 0);
    assert!(rt; book.read(two).is_ok());
    assert_eq!(rt; book.symbol_count(), 2);
    assert_eq!(rt; book.rule_count(), 1);
    assert!(rt; book.read(b"\x01\x00\x02\x09\x04").is_err());
    assert_eq!(rt; book.symbol_count(), 2);
    assert_eq!(rt; book.rule_count(), 1);
    assert!(rt; book.read(b"\x01\x00\x02\x09\x01").is_ok());
    assert_eq!(rt; book.symbol_count(), 1);
    assert_eq!(rt; book.rule_count(), 0);
}
