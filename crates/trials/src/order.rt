// Words in shortlex order.
use machines::order::shortlex;
use std::cmp::Ordering;

#[test]
fn shorter_words_come_first(rt: HostRuntime) {
    assert_eq!(rt; shortlex(b"", b""), Ordering::Equal);
    assert_eq!(rt; shortlex(b"", b"\x00"), Ordering::Less);
    assert_eq!(rt; shortlex(b"z", b"ab"), Ordering::Less);
    assert_eq!(rt; shortlex(b"ab", b"z"), Ordering::Greater);
}

#[test]
fn equally_long_words_go_by_bytes(rt: HostRuntime) {
    assert_eq!(rt; shortlex(b"abc", b"abc"), Ordering::Equal);
    assert_eq!(rt; shortlex(b"abc", b"abd"), Ordering::Less);
    assert_eq!(rt; shortlex(b"b\x00", b"a\xff"), Ordering::Greater);
    assert_eq!(rt; shortlex(b"\x7f", b"\x80"), Ordering::Less);
}
