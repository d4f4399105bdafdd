// Matching and searching by definition, on cases worked out by hand.
use patterns::direct::{SearchError, matches, search};
use std::test::Fail;

// Words of a and b with an a, and without bb.
const TIDY: &[u8] =
    b"\x05\x03\x07\x04\x02aa\x02bb\x03\x02aa\x07\x04\x02aa\x02bb\x06\x03\x07\x04\x02aa\x02bb\x03\x02bb\x03\x02bb\x07\x04\x02aa\x02bb";

// ab; b's, one at least; bb.
const THREE: &[u8] = b"\x03\x02aa\x02bb\x03\x02bb\x07\x02bb\x03\x02bb\x02bb";

#[test]
fn an_a_and_no_bb(rt: HostRuntime) {
    assert_eq!(rt; matches(TIDY, 0, b"baba"), Some(true));
    assert_eq!(rt; matches(TIDY, 0, b"babb"), Some(false));
    assert_eq!(rt; matches(TIDY, 0, b"b"), Some(false));
    assert_eq!(rt; matches(TIDY, 0, b""), Some(false));
    assert_eq!(rt; matches(TIDY, 1, b"a"), None, "there is no second pattern");
    assert_eq!(rt; matches(b"\x09", 0, b"a"), None, "no list");
}

#[test]
fn what_went_wrong_before(rt: HostRuntime) {
    assert_eq!(rt;
        matches(b"\x06\x02aa", 0, b""),
        Some(true),
        "not a, of the empty word"
    );
    assert_eq!(rt;
        matches(b"\x07\x01", 0, b""),
        Some(true),
        "many of empty, of the empty word"
    );
    assert_eq!(rt;
        matches(b"\x07\x01", 0, b"a"),
        Some(false),
        "many of empty, of a"
    );
    assert_eq!(rt;
        matches(b"\x07\x06\x01", 0, b"ab"),
        Some(true),
        "many of not empty"
    );
    assert_eq!(rt;
        matches(b"\x07\x07\x02aa", 0, b"aaa"),
        Some(true),
        "many of many"
    );
    assert_eq!(rt;
        matches(b"\x02\x80\xff", 0, b"\xff"),
        Some(true),
        "a range that ends at 255"
    );
    assert_eq!(rt;
        matches(b"\x05\x02aa\x03\x02aa\x02aa", 0, b"a"),
        Some(false),
        "and, of the same word"
    );
}

#[test]
fn three_patterns_end(rt: HostRuntime) -> Result<(), Fail> {
    let mut ends = [9u32; 5];
    assert_eq!(rt; search(THREE, b"babb", &mut ends), Ok(()));
    assert_eq!(rt; ends[0], 2, "b");
    assert_eq!(rt; ends[1], 0, "ba");
    assert_eq!(rt; ends[2], 3, "bab");
    assert_eq!(rt; ends[3], 6, "babb");
    assert_eq!(rt; ends[4], 9, "what lies behind stays");
    Ok(())
}

#[test]
fn refusals_write_nothing(rt: HostRuntime) -> Result<(), Fail> {
    let mut ends = [9u32; 1];
    assert_eq!(rt; search(THREE, b"ba", &mut ends), Err(SearchError::Full));
    assert_eq!(rt; ends[0], 9);
    assert_eq!(rt; search(b"\x08", b"b", &mut ends), Err(SearchError::NoList));
    assert_eq!(rt; ends[0], 9);
    Ok(())
}
