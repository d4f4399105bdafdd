// How many rows finished tables have, worked out by hand: one for each class of words that leave the same. Above each pattern stand
// its classes, by first words and what they leave. Bytes that the same ranges have are alike, and \0 is the first that no range has, or
// the first of all where a range has all. A class is dead if nothing matches whatever follows. a* is many a, a+ the same but not the
// empty word.
use crate::finished::Finished;
use std::alloc::Global;
use std::process::Abort;
use std::test::Fail;

// aaaab
const CHAIN: &[u8] = b"\x03\x03\x03\x03\x02aa\x02aa\x02aa\x02aa\x02bb";

// Words of a and b with an a, and without bb.
const TIDY: &[u8] =
    b"\x05\x03\x07\x04\x02aa\x02bb\x03\x02aa\x07\x04\x02aa\x02bb\x06\x03\x07\x04\x02aa\x02bb\x03\x02bb\x03\x02bb\x07\x04\x02aa\x02bb";

// Compares the rows of each pattern, with room for 64.
fn compare(rt: &impl Abort, heap: Global, cases: &[(&[u8], usize)]) -> Result<(), Fail> {
    for (list, rows) in cases {
        let table = Finished::of(heap, *list, 64)?;
        let found = table.map(|table| table.rows());
        assert_eq!(rt; found, Some(*rows), "{list:?}");
    }
    Ok(())
}

#[test]
fn leaves(rt: HostRuntime) -> Result<(), Fail> {
    compare(
        &rt,
        rt.alloc(),
        &[
            // nothing: all words are dead
            (b"\x00", 1),
            // empty: the empty word leaves itself; \0 and all others are dead
            (b"\x01", 2),
            // a: the empty word leaves a; \0 is dead; a leaves the empty word
            (b"\x02aa", 3),
            // a range that ends at 255: the empty word leaves it; \0 is dead; 128 leaves the empty word
            (b"\x02\x80\xff", 3),
            // all bytes: the empty word leaves one byte; \0 leaves the empty word; \0\0 is dead
            (b"\x02\x00\xff", 3),
        ],
    )
}

#[test]
fn complements(rt: HostRuntime) -> Result<(), Fail> {
    compare(
        &rt,
        rt.alloc(),
        &[
            // not nothing: all words leave all words
            (b"\x06\x00", 1),
            // not empty: the empty word leaves all but itself; \0 and all others leave all words
            (b"\x06\x01", 2),
            // not a: the empty word leaves all but a; \0 leaves all words; a leaves all but the empty word
            (b"\x06\x02aa", 3),
            // not many of all bytes: all words are dead (if the range lacked 255, that would leave all words)
            (b"\x06\x07\x02\x00\xff", 1),
        ],
    )
}

#[test]
fn repetitions(rt: HostRuntime) -> Result<(), Fail> {
    compare(
        &rt,
        rt.alloc(),
        &[
            // many of nothing, many of empty: the empty word leaves itself; \0 and all others are dead
            (b"\x07\x00", 2),
            (b"\x07\x01", 2),
            // many a, many of many a: the empty word and all words of a's leave a*; \0 and all others are dead
            (b"\x07\x02aa", 2),
            (b"\x07\x07\x02aa", 2),
            // many of not empty: the empty word is no part, any other word is one part: all words leave all words
            (b"\x07\x06\x01", 1),
            // many ab: the empty word, ab, abab.. leave all of it; \0 is dead; a, aba.. leave a b and then all of it
            (b"\x07\x03\x02aa\x02bb", 3),
            // many of a or ab: the empty word and ab leave all of it; \0 and b are dead; a leaves that, or a b and then all of it
            (b"\x07\x04\x02aa\x03\x02aa\x02bb", 3),
        ],
    )
}

#[test]
fn sequences(rt: HostRuntime) -> Result<(), Fail> {
    compare(
        &rt,
        rt.alloc(),
        &[
            // ab: the empty word leaves ab; \0 is dead; a leaves b; ab leaves the empty word
            (b"\x03\x02aa\x02bb", 4),
            // a then nothing, nothing then a: all words are dead
            (b"\x03\x02aa\x00", 1),
            (b"\x03\x00\x02aa", 1),
            // empty then a: as of a, the empty word, \0 and a
            (b"\x03\x01\x02aa", 3),
            // a or b, then many a: the empty word leaves all of it; \0 is dead; a, b, aa, ba.. leave a*
            (b"\x03\x04\x02aa\x02bb\x07\x02aa", 3),
            // many a, then many b: the empty word and all words of a's leave all of it; \0 is dead; b leaves b*
            (b"\x03\x07\x02aa\x07\x02bb", 3),
            // many a, then a: the empty word leaves a+; \0 is dead; a leaves a*
            (b"\x03\x07\x02aa\x02aa", 3),
            // aaaab: the empty word, a, aa, aaa, aaaa each leave the rest of it; aaaab leaves the empty word; \0 is dead
            (CHAIN, 7),
        ],
    )
}

#[test]
fn unions_and_intersections(rt: HostRuntime) -> Result<(), Fail> {
    compare(
        &rt,
        rt.alloc(),
        &[
            // a or b: the empty word leaves both; \0 is dead; a and b leave the empty word
            (b"\x04\x02aa\x02bb", 3),
            // a and b: no word is both, so all words are dead
            (b"\x05\x02aa\x02bb", 1),
            // a and aa: it is to be the same word, so all words are dead
            (b"\x05\x02aa\x03\x02aa\x02aa", 1),
            // many a, and not empty: the empty word leaves a+; \0 is dead; a leaves a*
            (b"\x05\x07\x02aa\x06\x01", 3),
            // many aa or many aaa: \0 is dead. Six more a's change nothing, and among 0 to 5 a's all but 1 and 5 match: round and round
            // yes no yes yes yes no. This repeats neither after one, nor after two, nor after three, so the six leave different things
            (b"\x04\x07\x03\x02aa\x02aa\x07\x03\x02aa\x03\x02aa\x02aa", 7),
            // many aa and many aaa: \0 is dead; 0 to 5 a's need as many more as are wanting to six
            (b"\x05\x07\x03\x02aa\x02aa\x07\x03\x02aa\x03\x02aa\x02aa", 7),
            // an a, and no bb: the empty word lacks an a; \0 is dead; a leaves all without bb; b lacks an a, and no b may follow; after
            // ab no b may follow. bb is dead, ba does as a does
            (TIDY, 5),
        ],
    )
}

// The empty word and \0 leave the same words of up to four bytes of aaaab: none. Of five bytes they don't.
#[test]
fn classes_differ_on_a_long_word(rt: HostRuntime) -> Result<(), Fail> {
    let table = Finished::of(rt.alloc(), CHAIN, 64)?.ok_or("refused")?;
    assert_eq!(rt; table.shows(b"aaaa"), Some(false));
    assert_eq!(rt; table.shows(b"\x00aaaa"), Some(false));
    assert_eq!(rt; table.shows(b"aaaab"), Some(true));
    assert_eq!(rt; table.shows(b"\x00aaaab"), Some(false));
    Ok(())
}

// What is told apart on the way decides what is refused, and not the rows that are left of it.
#[test]
fn refused_where_more_is_told_apart(rt: HostRuntime) -> Result<(), Fail> {
    let cases: [(&[u8], u16, Option<usize>); 8] = [
        // nothing needs its one row
        (b"\x00", 0, None),
        (b"\x00", 1, Some(1)),
        // aaaab: its seven classes, and aaaa has six
        (CHAIN, 6, None),
        (CHAIN, 7, Some(7)),
        // a and b: what is left of a and of b is both after the empty word, neither after \0, the one after a and the other after b
        (b"\x05\x02aa\x02bb", 3, None),
        (b"\x05\x02aa\x02bb", 4, Some(1)),
        // anything then a: a has three classes. Behind the fronts there is a's beginning, and after an a also its end; what is dead
        // isn't counted
        (b"\x03\x07\x02\x00\xff\x02aa", 2, None),
        (b"\x03\x07\x02\x00\xff\x02aa", 3, Some(2)),
    ];
    for (list, most, rows) in cases {
        let table = Finished::of(rt.alloc(), list, most)?;
        let found = table.map(|table| table.rows());
        assert_eq!(rt; found, rows, "{list:?} and {most} rows");
    }
    Ok(())
}

// What is no pattern has no table, and of two patterns the first one's is made.
#[test]
fn first_pattern_alone(rt: HostRuntime) -> Result<(), Fail> {
    assert_eq!(rt;
        Finished::of(rt.alloc(), b"", 64)?.map(|table| table.rows()),
        None
    );
    assert_eq!(rt;
        Finished::of(rt.alloc(), b"\x03\x01", 64)?.map(|table| table.rows()),
        None
    );
    compare(&rt, rt.alloc(), &[(b"\x01\x00", 2)])
}
