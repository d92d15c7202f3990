// Overlaps of rules over a few symbols, and their critical pairs.
use book::book::Book;
use std::process::Abort;
use terms::side::Sides;
use unification::critical::{CriticalPair, NoPair, critical_pair};

// f 02/1, g 03/1 and h 04/2
const SYMBOLS: &[u8] = b"\x01\x00\x02\x02\x01\x01\x00\x02\x03\x01\x01\x00\x02\x04\x02";

fn rule<'a>(left: &'a [u8], right: &'a [u8]) -> Sides<'a> {
    Sides { left, right }
}

// The bytes of a critical pair.
#[derive(Clone, Copy, PartialEq, Eq, Debug)]
struct Pair<'a> {
    peak: &'a [u8],
    outer: &'a [u8],
    inner: &'a [u8],
}

// Two rules and a place in the left side of the first; and their critical pair there, or why there is none.
#[derive(Clone, Copy)]
struct Case<'a> {
    first: Sides<'a>,
    place: usize,
    second: Sides<'a>,
    pair: Result<Pair<'a>, NoPair>,
}

fn overlap<'a>(
    first: Sides<'a>,
    place: usize,
    second: Sides<'a>,
    [peak, outer, inner]: [&'a [u8]; 3],
) -> Case<'a> {
    Case {
        first,
        place,
        second,
        pair: Ok(Pair { peak, outer, inner }),
    }
}

fn no_pair<'a>(first: Sides<'a>, place: usize, second: Sides<'a>, why: NoPair) -> Case<'a> {
    Case {
        first,
        place,
        second,
        pair: Err(why),
    }
}

fn bytes_of(answer: &Result<CriticalPair, NoPair>) -> Result<Pair<'_>, NoPair> {
    match answer {
        Ok(pair) => Ok(Pair {
            peak: pair.peak.as_slice(),
            outer: pair.outer.as_slice(),
            inner: pair.inner.as_slice(),
        }),
        Err(why) => Err(*why),
    }
}

fn check_cases(rt: &impl Abort, cases: &[Case]) {
    let mut book = Book::empty();
    assert!(rt; book.read(SYMBOLS).is_ok());
    for c in cases {
        let answer = critical_pair(&book, c.first, c.place, c.second);
        assert_eq!(rt; bytes_of(&answer), c.pair);
    }
}

#[test]
fn a_rule_with_itself(rt: HostRuntime) {
    // f(f(x)) to g(x)
    let rule_f = rule(b"\x02\x02\x80", b"\x03\x80");
    check_cases(
        &rt,
        &[
            // below the root and at the root
            overlap(
                rule_f,
                1,
                rule_f,
                [b"\x02\x02\x02\x80", b"\x03\x02\x80", b"\x02\x03\x80"],
            ),
            overlap(
                rule_f,
                0,
                rule_f,
                [b"\x02\x02\x80", b"\x03\x80", b"\x03\x80"],
            ),
            // no place of a symbol: a variable, and past the end
            no_pair(rule_f, 2, rule_f, NoPair::Malformed),
            no_pair(rule_f, 3, rule_f, NoPair::Malformed),
            // no term, and a variable that rules do not have
            no_pair(rule(b"\x02\x02", b"\x03\x80"), 1, rule_f, NoPair::Malformed),
            no_pair(rule_f, 1, rule(b"\x02\x02\x80", b"\x84"), NoPair::Malformed),
        ],
    );
}

#[test]
fn two_rules(rt: HostRuntime) {
    let same = rule(b"\x04\x80\x80", b"\x80");
    let around = rule(b"\x04\x80\x03\x80", b"\x80");
    let twice = rule(b"\x03\x02\x02\x80", b"\x80");
    let f = rule(b"\x02\x80", b"\x80");
    let g = rule(b"\x03\x80", b"\x80");
    let other = rule(b"\x02\x80", b"\x81");
    check_cases(
        &rt,
        &[
            // h(x, x) and h(x, g(x)): a variable would be bound to a term around it
            no_pair(same, 0, around, NoPair::Apart),
            // f(x) and g(x): two symbols
            no_pair(f, 0, g, NoPair::Apart),
            // h(x, g(x)) to x, with g(f(f(x))) to x inside: what stands before the place grows
            overlap(
                around,
                2,
                twice,
                [
                    b"\x04\x02\x02\x80\x03\x02\x02\x80",
                    b"\x02\x02\x80",
                    b"\x04\x02\x02\x80\x80",
                ],
            ),
            // f(x) to y has a variable that is not in the peak
            overlap(other, 0, f, [b"\x02\x80", b"\x81", b"\x80"]),
        ],
    );
}

#[test]
fn a_long_peak(rt: HostRuntime) {
    let mut book = Book::empty();
    assert!(rt; book.read(SYMBOLS).is_ok());
    // seven variables, each bound to a term with the next one twice
    let left = b"\x04\x80\x04\x04\x81\x81\x04\x81\x04\x04\x82\x82\x04\x82\x04\x04\x83\x83\x83";
    let second =
        b"\x04\x04\x80\x80\x04\x80\x04\x04\x81\x81\x04\x81\x04\x04\x82\x82\x04\x82\x04\x83\x83";
    assert!(rt;
        critical_pair(&book, rule(left, b"\x83"), 0, rule(second, b"\x83")).err()
            == Some(NoPair::TooLong)
    );
}
