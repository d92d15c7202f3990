// What a read book answers: arities, rules, fields, and terms over its symbols.
use book::book::Book;
use book::shape::{JOINING, RANK};
use std::test::Fail;
use terms::prefix::{Signature, first_term_length, is_term, part_at};

// e 01/0, f 02/1, h 04/2, the rules f(f(x)) to f(x) and h(x, e) to x, and a rank for each symbol
const BOOK: &[u8] =
    b"\x01\x00\x02\x01\x00\x01\x00\x02\x02\x01\x02\x00\x06\x03\x02\x02\x80\x02\x80\x04\x00\x02\x01\x05\x01\x00\x02\x04\x02\x02\x00\x05\x03\x04\x80\x01\x80\x04\x00\x02\x02\x06\x04\x00\x02\x04\x07";

#[test]
fn arities_and_rules(rt: HostRuntime) -> Result<(), Fail> {
    let mut book = Book::empty();
    assert_eq!(rt; book.arity(1), None);
    assert!(rt; book.read(BOOK).is_ok());
    assert_eq!(rt; book.arity(1), Some(0));
    assert_eq!(rt; book.arity(2), Some(1));
    assert_eq!(rt; book.arity(4), Some(2));
    assert_eq!(rt; book.arity(0), None);
    assert_eq!(rt; book.arity(3), None);
    assert_eq!(rt; book.arity(0x80), None);
    assert_eq!(rt; book.arity(0xFF), None);
    assert_eq!(rt; book.rule_count(), 2);
    assert!(rt; book.sides(2).is_none());
    let Some(sides) = book.sides(1) else {
        return Err(Fail::new("the second rule"));
    };
    assert!(rt; sides.left == b"\x04\x80\x01".as_slice());
    assert!(rt; sides.right == b"\x80".as_slice());
    Ok(())
}

#[test]
fn fields_of_a_tag(rt: HostRuntime) -> Result<(), Fail> {
    let mut book = Book::empty();
    assert!(rt; book.read(BOOK).is_ok());
    let mut ranks = book.fields(RANK);
    for offset in [19, 37, 42] {
        let Some(field) = ranks.next() else {
            return Err(Fail::new("a rank"));
        };
        assert_eq!(rt; field.value.len(), 2);
        assert_eq!(rt; field.offset, offset);
    }
    assert!(rt; ranks.next().is_none());
    let mut joinings = book.fields(JOINING);
    assert!(rt; joinings.next().is_none());
    Ok(())
}

#[test]
fn terms_over_the_symbols(rt: HostRuntime) -> Result<(), Fail> {
    let mut book = Book::empty();
    assert!(rt; book.read(BOOK).is_ok());
    // h(f(x), e) and bytes behind it
    let bytes = b"\x04\x02\x80\x01\x01\x01";
    assert_eq!(rt; first_term_length(&book, 8, bytes), Some(4));
    assert_eq!(rt; first_term_length(&book, 0, bytes), None);
    assert_eq!(rt; first_term_length(&book, 8, b"\x04\x02\x80"), None);
    assert_eq!(rt; first_term_length(&book, 8, b""), None);
    assert!(rt; is_term(&book, 1, &bytes[0..4]));
    assert!(rt; !is_term(&book, 1, &bytes[0..5]));
    assert!(rt; is_term(&book, 8, b"\x87"));
    assert!(rt; !is_term(&book, 8, b"\x88"));
    assert!(rt; !is_term(&book, 4, b"\x84"));
    let Some(part) = part_at(&book, 8, &bytes[0..4], 1) else {
        return Err(Fail::new("the part at 1"));
    };
    assert!(rt; part == b"\x02\x80".as_slice());
    assert!(rt; part_at(&book, 8, &bytes[0..4], 4).is_none());
    Ok(())
}
