// Steps worked out by hand.
use crate::outcome::{NotATerm, Redex, RewriteFault};
use crate::search::innermost;
use crate::step::rewrite_at;
use book::book::Book;

// The symbols e (01) and f (02, one argument), and the rule f(f(x)) -> f(x).
const IDEMPOTENT: &[u8] =
    b"\x01\x00\x02\x01\x00\x01\x00\x02\x02\x01\x02\x00\x06\x03\x02\x02\x80\x02\x80";

// The symbols e (01) and h (04, two arguments), and the rule h(x, x) -> h(y, x).
const TWICE: &[u8] =
    b"\x01\x00\x02\x01\x00\x01\x00\x02\x04\x02\x02\x00\x07\x03\x04\x80\x80\x04\x81\x80";

#[test]
fn innermost_steps(rt: HostRuntime) {
    let mut book = Book::empty();
    assert!(rt; book.read(IDEMPOTENT).is_ok());
    let mut page = [0xAA; 4];
    // f(f(f(e))) becomes f(f(e)), and that f(e)
    assert_eq!(rt;
        innermost(&book, 0, b"\x02\x02\x02\x01"),
        Ok(Some(Redex { place: 1, rule: 0 }))
    );
    assert_eq!(rt;
        rewrite_at(&book, 0, b"\x02\x02\x02\x01", 0, 1, &mut page),
        Ok(3)
    );
    assert_eq!(rt; page, [0x02, 0x02, 0x01, 0xAA]);
    assert_eq!(rt;
        innermost(&book, 0, b"\x02\x02\x01"),
        Ok(Some(Redex { place: 0, rule: 0 }))
    );
    assert_eq!(rt;
        rewrite_at(&book, 0, b"\x02\x02\x01", 0, 0, &mut page),
        Ok(2)
    );
    assert_eq!(rt; page, [0x02, 0x01, 0x01, 0xAA]);
    assert_eq!(rt; innermost(&book, 0, b"\x02\x01"), Ok(None));
}

#[test]
fn refusals_leave_the_page(rt: HostRuntime) {
    let mut book = Book::empty();
    assert!(rt; book.read(IDEMPOTENT).is_ok());
    let mut page = [0xAA; 2];
    // no whole term, a variable too many, no symbol
    assert_eq!(rt;
        rewrite_at(&book, 0, b"\x02\x02", 0, 0, &mut page),
        Err(RewriteFault::NoTerm)
    );
    assert_eq!(rt; innermost(&book, 0, b"\x80"), Err(NotATerm));
    assert_eq!(rt; innermost(&book, 1, b"\x80"), Ok(None));
    assert_eq!(rt; innermost(&book, 0, b"\x03"), Err(NotATerm));
    // no match at the place, no such place, no such rule
    assert_eq!(rt;
        rewrite_at(&book, 0, b"\x02\x02\x01", 0, 1, &mut page),
        Err(RewriteFault::NoMatch)
    );
    assert_eq!(rt;
        rewrite_at(&book, 0, b"\x02\x02\x01", 0, 3, &mut page),
        Err(RewriteFault::NoMatch)
    );
    assert_eq!(rt;
        rewrite_at(&book, 0, b"\x02\x02\x01", 1, 0, &mut page),
        Err(RewriteFault::NoMatch)
    );
    // f(f(e)) has three bytes
    assert_eq!(rt;
        rewrite_at(&book, 0, b"\x02\x02\x02\x01", 0, 1, &mut page),
        Err(RewriteFault::NoRoom)
    );
    assert_eq!(rt; page, [0xAA, 0xAA]);
}

#[test]
fn equal_and_new_variables(rt: HostRuntime) {
    let mut book = Book::empty();
    assert!(rt; book.read(TWICE).is_ok());
    let mut page = [0xAA; 5];
    // h(e, h(e, e)) becomes h(e, h(y, e))
    assert_eq!(rt;
        innermost(&book, 0, b"\x04\x01\x04\x01\x01"),
        Ok(Some(Redex { place: 2, rule: 0 }))
    );
    assert_eq!(rt;
        rewrite_at(&book, 0, b"\x04\x01\x04\x01\x01", 0, 0, &mut page),
        Err(RewriteFault::NoMatch)
    );
    assert_eq!(rt;
        rewrite_at(&book, 0, b"\x04\x01\x04\x01\x01", 0, 2, &mut page),
        Ok(5)
    );
    assert_eq!(rt; page, [0x04, 0x01, 0x04, 0x81, 0x01]);
}
