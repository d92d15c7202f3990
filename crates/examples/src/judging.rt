// Books that are judged: their overlaps, and whether they are sealed. The symbols are e 01/0, f 02/1, g 03/1, h 04/2; x is 80.
use crate::client::{Refusal, join_next, settle_next};
use book::book::Book;
use judge::fault::SealFault;
use judge::judge::Judge;
use judge::sealed::Sealed;
use judge::triple::Triple;
use orders::book_order::BookOrder;
use orders::path::Path;
use std::test::Fail;

// f f x to g x, with f of rank 2 and g of rank 1: f f f x becomes g f x or f g x
const APART: &[u8] =
    b"\x01\x00\x02\x02\x01\x01\x00\x02\x03\x01\x02\x00\x06\x03\x02\x02\x80\x03\x80\x04\x00\x02\x02\x02\x04\x00\x02\x03\x01";

// f f x to f x: f f f x becomes f f x both ways
const FLUSH: &[u8] =
    b"\x01\x00\x02\x01\x00\x01\x00\x02\x02\x01\x02\x00\x06\x03\x02\x02\x80\x02\x80\x04\x00\x02\x01\x01\x04\x00\x02\x02\x02";

// h x x to x and h x g x to g x, which do not overlap
const NO_OVERLAP: &[u8] =
    b"\x01\x00\x02\x03\x01\x01\x00\x02\x04\x02\x02\x00\x05\x03\x04\x80\x80\x80\x02\x00\x07\x04\x04\x80\x03\x80\x03\x80\x04\x00\x02\x03\x01\x04\x00\x02\x04\x02";

// Makes the judge that of the book by its ranks, or answers None if it is not oriented.
fn orient<'a>(judge: &mut Judge<'a>, bytes: &'a [u8]) -> Option<()> {
    let mut book = Book::empty();
    book.read(bytes).ok()?;
    let mut order = Path::empty();
    order.make(&book).ok()?;
    judge.orient(&book, &order).ok()
}

// The judge of the book by its ranks, or None if it is not oriented.
fn judge_of(bytes: &[u8]) -> Option<Judge<'_>> {
    let mut judge = Judge::empty();
    orient(&mut judge, bytes)?;
    Some(judge)
}

// The judge of the book, in a test that fails if it is not oriented.
fn judging(bytes: &[u8]) -> Result<Judge<'_>, Fail> {
    judge_of(bytes).ok_or_else(|| Fail::new("the rules do not fall"))
}

fn sealing(judge: &Judge) -> Option<SealFault> {
    let mut place = Sealed::empty();
    judge.seal(&mut place).err()
}

// The number of the question that says no, or None if the client was not refused.
fn number(answer: Result<(), Refusal>) -> Option<u8> {
    answer.err().map(|refusal| refusal.number())
}

#[test]
fn sides_that_do_not_join(rt: HostRuntime) -> Result<(), Fail> {
    let mut judge = judging(APART)?;
    assert_eq!(rt;
        sealing(&judge),
        Some(SealFault::NotOpened(Triple { i: 0, p: 1, j: 0 }))
    );
    assert_eq!(rt; number(settle_next(&mut judge)), None);
    assert_eq!(rt; number(settle_next(&mut judge)), Some(17));
    assert_eq!(rt;
        sealing(&judge),
        Some(SealFault::LeftOpen(Triple { i: 0, p: 1, j: 0 }))
    );
    Ok(())
}

#[test]
fn sides_that_join(rt: HostRuntime) -> Result<(), Fail> {
    let mut judge = judging(FLUSH)?;
    let mut page = [0u8; 1024];
    assert_eq!(rt; number(join_next(&mut judge, b"", b"", &mut page)), None);
    assert_eq!(rt; page[0], 0xFF);
    assert_eq!(rt; page[1023], 0xFF);
    assert_eq!(rt; number(settle_next(&mut judge)), Some(17));
    assert_eq!(rt; sealing(&judge), None);
    Ok(())
}

// What the only overlap of the book says to these steps.
fn shown(bytes: &[u8], outer: &[u8], inner: &[u8]) -> Result<Option<u8>, Fail> {
    let mut judge = judging(bytes)?;
    let mut page = [0u8; 1024];
    Ok(number(join_next(&mut judge, outer, inner, &mut page)))
}

#[test]
fn shows_are_refused(rt: HostRuntime) -> Result<(), Fail> {
    // an odd list; a step that does not match; ends that differ; one step on each side
    assert_eq!(rt; shown(FLUSH, b"\x00", b"")?, Some(20));
    assert_eq!(rt; shown(FLUSH, b"\x00\x01", b"")?, Some(21));
    assert_eq!(rt; shown(FLUSH, b"\x00\x00", b"")?, Some(23));
    assert_eq!(rt; shown(FLUSH, b"\x00\x00", b"\x00\x00")?, None);
    // a page that is too short
    let mut judge = judging(FLUSH)?;
    let mut short = [0u8; 1023];
    assert_eq!(rt;
        number(join_next(&mut judge, b"", b"", &mut short)),
        Some(31)
    );
    Ok(())
}

#[test]
fn no_overlap_no_work(rt: HostRuntime) {
    let mut judge = Judge::empty();
    assert_eq!(rt; number(settle_next(&mut judge)), Some(17));
    assert_eq!(rt; sealing(&judge), None);
    assert!(rt; orient(&mut judge, NO_OVERLAP).is_some());
    assert_eq!(rt; number(settle_next(&mut judge)), Some(17));
    assert_eq!(rt; sealing(&judge), None);
}
