// Orders of books: how they grade, which books give none, and which books are oriented. The symbols are e 01/0, f 02/1, g 03/1, h 04/2; x is 80.
use crate::cases::{Case, Refusal, refused, taken};
use book::book::Book;
use judge::judge::Judge;
use judge::orient_fault::OrientFault;
use orders::book_order::{BookOrder, FigureFault};
use orders::fence::Fence;
use orders::order::Order;
use orders::path::Path;
use orders::polynomial::Polynomial;
use std::process::Abort;

// f = 2 X + 1 and g = 2 X
const DOUBLING: &[u8] =
    b"\x01\x00\x02\x02\x01\x01\x00\x02\x03\x01\x03\x00\x0F\x02\x00\x00\x00\x02\x01\x00\x00\x00\x00\x00\x01\x00\x00\x00\x03\x00\x08\x03\x00\x00\x00\x02\x01\x00\x00";

// f has rank 2 and g has rank 1
const RANKED: &[u8] =
    b"\x01\x00\x02\x02\x01\x01\x00\x02\x03\x01\x04\x00\x02\x02\x02\x04\x00\x02\x03\x01";

// f = X^3
const CUBING: &[u8] = b"\x01\x00\x02\x02\x01\x03\x00\x08\x02\x00\x00\x00\x01\x03\x00\x00";

// e = 1 and f = 46,340 X; then 46,341 X
const JUST_FITS: &[u8] =
    b"\x01\x00\x02\x01\x00\x01\x00\x02\x02\x01\x03\x00\x08\x01\x00\x00\x00\x01\x00\x00\x00\x03\x00\x08\x02\x00\x00\xB5\x04\x01\x00\x00";

const TOO_LARGE: &[u8] =
    b"\x01\x00\x02\x01\x00\x01\x00\x02\x02\x01\x03\x00\x08\x01\x00\x00\x00\x01\x00\x00\x00\x03\x00\x08\x02\x00\x00\xB5\x05\x01\x00\x00";

// The order that the book gives, or None if it gives none.
fn order_of<'a, O: BookOrder<'a>>(bytes: &'a [u8]) -> Option<O> {
    let mut book = Book::empty();
    book.read(bytes).ok()?;
    let mut order = O::empty();
    order.make(&book).ok()?;
    Some(order)
}

// The grade by the order that the book gives, or None if it gives none.
fn grade_by<'a, O: BookOrder<'a>>(bytes: &'a [u8], left: &[u8], right: &[u8]) -> Option<u8> {
    let order: O = order_of(bytes)?;
    Some(order.weigh(left, right))
}

#[test]
fn polynomials_grade(rt: HostRuntime) {
    assert_eq!(rt;
        grade_by::<Polynomial>(DOUBLING, b"\x02\x02\x80", b"\x03\x03\x80"),
        Some(0)
    );
    assert_eq!(rt;
        grade_by::<Polynomial>(DOUBLING, b"\x03\x03\x02\x80", b"\x02\x03\x03\x80"),
        Some(0)
    );
    assert_eq!(rt;
        grade_by::<Polynomial>(CUBING, b"\x02\x80", b"\x80"),
        Some(1)
    );
    assert_eq!(rt;
        grade_by::<Polynomial>(CUBING, b"\x02\x02\x80", b"\x80"),
        Some(3)
    );
    assert_eq!(rt;
        grade_by::<Polynomial>(JUST_FITS, b"\x02\x02\x01", b"\x01"),
        Some(0)
    );
    assert_eq!(rt;
        grade_by::<Polynomial>(TOO_LARGE, b"\x02\x02\x01", b"\x01"),
        Some(2)
    );
    // no term, an undeclared symbol, a variable too many, no byte
    assert_eq!(rt; grade_by::<Polynomial>(DOUBLING, b"\x02", b"\x80"), Some(8));
    assert_eq!(rt;
        grade_by::<Polynomial>(DOUBLING, b"\x02\x80", b"\x01"),
        Some(8)
    );
    assert_eq!(rt;
        grade_by::<Polynomial>(DOUBLING, b"\x02\x84", b"\x80"),
        Some(8)
    );
    assert_eq!(rt; grade_by::<Polynomial>(DOUBLING, b"", b"\x80"), Some(8));
}

#[test]
fn ranks_grade(rt: HostRuntime) {
    assert_eq!(rt;
        grade_by::<Path>(RANKED, b"\x02\x02\x80", b"\x03\x03\x80"),
        Some(0)
    );
    assert_eq!(rt;
        grade_by::<Path>(RANKED, b"\x03\x03\x02\x80", b"\x02\x03\x03\x80"),
        Some(1)
    );
    assert_eq!(rt;
        grade_by::<Path>(RANKED, b"\x02\x02\x80", b"\x02\x03\x02\x80"),
        Some(1)
    );
    assert_eq!(rt; grade_by::<Path>(RANKED, b"\x02\x80", b"\x80"), Some(0));
    assert_eq!(rt; grade_by::<Path>(RANKED, b"\x80", b"\x80"), Some(1));
    assert_eq!(rt; grade_by::<Path>(RANKED, b"\x02\x80", b"\x81"), Some(1));
    assert_eq!(rt; grade_by::<Path>(RANKED, b"\x02\x80\x80", b"\x80"), Some(8));
}

#[test]
fn the_fence_grades(rt: HostRuntime) {
    let mut book = Book::empty();
    assert!(rt; book.read(RANKED).is_ok());
    let mut order = Path::empty();
    assert!(rt; order.make(&book).is_ok());
    let fence = Fence::over(&order);
    assert_eq!(rt; fence.weigh(b"\x02\x02\x80", b"\x03\x03\x80"), 0);
    assert_eq!(rt; fence.weigh(b"\x03\x80", b"\x02\x80"), 1);
    assert_eq!(rt; fence.weigh(b"\x02\x80", b"\x03\x81"), 9);
    assert_eq!(rt; fence.weigh(b"\x80", b"\x80"), 9);
    assert_eq!(rt; fence.weigh(b"\x80", b"\x04\x80\x80"), 8);
    assert_eq!(rt; fence.arity(2), Some(1));
    assert_eq!(rt; fence.arity(4), None);
}

// Why the book gives no order, or None if it gives one.
fn refusal<'a, O: BookOrder<'a>>(book: &Book<'a>) -> Option<Refusal> {
    let mut order = O::empty();
    let fault = order.make(book).err()?;
    Some(Refusal {
        number: fault.number(),
        offset: fault.offset(),
    })
}

fn check_cases<'a, O: BookOrder<'a>>(rt: &impl Abort, cases: &[Case<'a>]) {
    for c in cases {
        let mut book = Book::empty();
        assert!(rt; book.read(c.bytes).is_ok());
        assert_eq!(rt; refusal::<O>(&book), c.refusal);
    }
}

#[test]
fn fields_of_polynomials(rt: HostRuntime) {
    check_cases::<Polynomial>(
        &rt,
        &[
            taken(b""),
            taken(DOUBLING),
            // the polynomial stands before its symbol
            taken(b"\x03\x00\x08\x02\x00\x00\x00\x01\x01\x00\x00\x01\x00\x02\x02\x01"),
            // 8: not declared; for the second time
            refused(
                b"\x01\x00\x02\x02\x01\x03\x00\x08\x03\x00\x00\x00\x01\x01\x00\x00",
                8,
                5,
            ),
            refused(
                b"\x01\x00\x02\x02\x01\x03\x00\x08\x02\x00\x00\x00\x01\x01\x00\x00\x03\x00\x08\x02\x00\x00\x00\x01\x01\x00\x00",
                8,
                16,
            ),
            // 11: a symbol without one
            refused(b"\x01\x00\x02\x02\x01", 11, 0),
            refused(
                b"\x01\x00\x02\x02\x01\x01\x00\x02\x03\x01\x03\x00\x08\x02\x00\x00\x00\x01\x01\x00\x00",
                11,
                5,
            ),
        ],
    );
}

#[test]
fn monomials_of_polynomials(rt: HostRuntime) {
    check_cases::<Polynomial>(
        &rt,
        &[
            // 9: the coefficient is 0, is 65,535, is 65,536
            refused(
                b"\x01\x00\x02\x02\x01\x03\x00\x08\x02\x00\x00\x00\x00\x01\x00\x00",
                9,
                5,
            ),
            taken(b"\x01\x00\x02\x02\x01\x03\x00\x08\x02\x00\x00\xFF\xFF\x01\x00\x00"),
            refused(
                b"\x01\x00\x02\x02\x01\x03\x00\x08\x02\x00\x01\x00\x00\x01\x00\x00",
                9,
                5,
            ),
            // an exponent is 4, or stands past the arity, or the exponents come again
            refused(
                b"\x01\x00\x02\x02\x01\x03\x00\x08\x02\x00\x00\x00\x01\x04\x00\x00",
                9,
                5,
            ),
            refused(
                b"\x01\x00\x02\x02\x01\x03\x00\x08\x02\x00\x00\x00\x01\x01\x01\x00",
                9,
                5,
            ),
            refused(
                b"\x01\x00\x02\x02\x01\x03\x00\x0F\x02\x00\x00\x00\x01\x01\x00\x00\x00\x00\x00\x02\x01\x00\x00",
                9,
                5,
            ),
        ],
    );
}

#[test]
fn arguments_of_polynomials(rt: HostRuntime) {
    check_cases::<Polynomial>(
        &rt,
        &[
            // 10: f lacks its argument; h has its first only; then both
            refused(
                b"\x01\x00\x02\x02\x01\x03\x00\x08\x02\x00\x00\x00\x01\x00\x00\x00",
                10,
                5,
            ),
            refused(
                b"\x01\x00\x02\x04\x02\x03\x00\x08\x04\x00\x00\x00\x01\x01\x00\x00",
                10,
                5,
            ),
            taken(b"\x01\x00\x02\x04\x02\x03\x00\x08\x04\x00\x00\x00\x01\x01\x01\x00"),
            // the first field's 10 comes before the second field's 8
            refused(
                b"\x01\x00\x02\x02\x01\x03\x00\x08\x02\x00\x00\x00\x01\x00\x00\x00\x03\x00\x08\x05\x00\x00\x00\x01\x01\x00\x00",
                10,
                5,
            ),
        ],
    );
}

#[test]
fn fields_of_ranks(rt: HostRuntime) {
    check_cases::<Path>(
        &rt,
        &[
            taken(b""),
            taken(RANKED),
            taken(b"\x04\x00\x02\x02\x00\x01\x00\x02\x02\x01"),
            refused(b"\x01\x00\x02\x02\x01\x04\x00\x02\x03\x01", 12, 5),
            refused(
                b"\x01\x00\x02\x02\x01\x04\x00\x02\x02\x01\x04\x00\x02\x02\x01",
                12,
                10,
            ),
            refused(
                b"\x01\x00\x02\x02\x01\x01\x00\x02\x03\x01\x04\x00\x02\x03\x01",
                13,
                0,
            ),
            refused(
                b"\x01\x00\x02\x02\x01\x01\x00\x02\x03\x01\x04\x00\x02\x02\x01",
                13,
                5,
            ),
        ],
    );
}

// f f x to g g x and g g f x to f g g x, with f = 2 X + 1 and g = 2 X
const FALLS: &[u8] =
    b"\x01\x00\x02\x02\x01\x01\x00\x02\x03\x01\x02\x00\x07\x03\x02\x02\x80\x03\x03\x80\x02\x00\x09\x04\x03\x03\x02\x80\x02\x03\x03\x80\x03\x00\x0F\x02\x00\x00\x00\x02\x01\x00\x00\x00\x00\x00\x01\x00\x00\x00\x03\x00\x08\x03\x00\x00\x00\x02\x01\x00\x00";

// f f x to g g x, then g x to f x
const FALLS_THEN_RISES: &[u8] =
    b"\x01\x00\x02\x02\x01\x01\x00\x02\x03\x01\x02\x00\x07\x03\x02\x02\x80\x03\x03\x80\x02\x00\x05\x02\x03\x80\x02\x80\x04\x00\x02\x02\x02\x04\x00\x02\x03\x01";

// f 31 times to g 31 times, with equal ranks
const CHAINS: &[u8] =
    b"\x01\x00\x02\x02\x01\x01\x00\x02\x03\x01\x02\x00\x41\x20\x02\x02\x02\x02\x02\x02\x02\x02\x02\x02\x02\x02\x02\x02\x02\x02\x02\x02\x02\x02\x02\x02\x02\x02\x02\x02\x02\x02\x02\x02\x02\x80\x03\x03\x03\x03\x03\x03\x03\x03\x03\x03\x03\x03\x03\x03\x03\x03\x03\x03\x03\x03\x03\x03\x03\x03\x03\x03\x03\x03\x03\x03\x03\x80\x04\x00\x02\x02\x01\x04\x00\x02\x03\x01";

// What orient says of a book under the ranks of another.
fn oriented_by_ranks(bytes: &[u8], ranks: &[u8]) -> Option<OrientFault> {
    let mut book = Book::empty();
    book.read(bytes).ok()?;
    let order: Path = order_of(ranks)?;
    let mut judge = Judge::empty();
    judge.orient(&book, &order).err()
}

#[test]
fn rules_are_oriented(rt: HostRuntime) {
    let mut book = Book::empty();
    assert!(rt; book.read(FALLS).is_ok());
    assert_eq!(rt; book.rule_count(), 2);
    let mut order = Polynomial::empty();
    assert!(rt; order.make(&book).is_ok());
    let mut judge = Judge::empty();
    assert!(rt; judge.orient(&book, &order).is_ok());
    // rule 1 is the first that does not fall: kind 2, grade 1
    assert_eq!(rt;
        oriented_by_ranks(FALLS_THEN_RISES, FALLS_THEN_RISES),
        Some(OrientFault::NotOver {
            rule: 1,
            kind: 2,
            grade: 1
        })
    );
    assert_eq!(rt;
        oriented_by_ranks(CHAINS, CHAINS),
        Some(OrientFault::NotOver {
            rule: 0,
            kind: 2,
            grade: 1
        })
    );
    // the order has another signature
    assert_eq!(rt;
        oriented_by_ranks(CHAINS, b""),
        Some(OrientFault::OtherSignature)
    );
}
