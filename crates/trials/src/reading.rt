// Bytes that are lists, and bytes that are none.
use patterns::list::{pattern_end, read_list};
use std::alloc::{AllocError, Global};
use std::test::Fail;

// So many bytes of one value, then one other.
fn run_of(heap: Global, count: usize, byte: u8, last: u8) -> Result<Vec<u8>, AllocError> {
    let mut list = vec![in heap; byte; count]?;
    list.push(last)?;
    Ok(list)
}

#[test]
fn lists_are_counted(rt: HostRuntime) {
    assert_eq!(rt;
        read_list(b""),
        Some(0),
        "no bytes are a list of no patterns"
    );
    assert_eq!(rt; read_list(b"\x00"), Some(1), "nothing");
    assert_eq!(rt; read_list(b"\x01\x00"), Some(2), "empty, nothing");
    assert_eq!(rt;
        read_list(b"\x02\x00\xff"),
        Some(1),
        "a range that ends at 255"
    );
    assert_eq!(rt; read_list(b"\x02aa"), Some(1), "a range of one byte");
    assert_eq!(rt; read_list(b"\x03\x01\x00"), Some(1), "a sequence");
    assert_eq!(rt;
        read_list(b"\x04\x01\x05\x00\x01"),
        Some(1),
        "or, with an and in it"
    );
    assert_eq!(rt;
        read_list(b"\x05\x06\x01\x07\x02\x30\x39\x00"),
        Some(2),
        "not empty and digits, then nothing"
    );
}

#[test]
fn what_is_no_list_is_refused(rt: HostRuntime) {
    assert_eq!(rt; read_list(b"\x08"), None, "an unknown number");
    assert_eq!(rt;
        read_list(b"\x05\x06\x01\x07\x02\x39\x30\x00"),
        None,
        "a range that ends before it begins"
    );
    assert_eq!(rt; read_list(b"\x02\x30"), None, "a range that is cut off");
    assert_eq!(rt; read_list(b"\x03\x01"), None, "a sequence that is cut off");
    assert_eq!(rt; read_list(b"\x06"), None, "a not of nothing at all");
    assert_eq!(rt;
        read_list(b"\x01\x07"),
        None,
        "a pattern, then one that is cut off"
    );
    assert_eq!(rt; read_list(b"\xff"), None, "the largest byte");
}

#[test]
fn patterns_end_where_they_end(rt: HostRuntime) {
    assert_eq!(rt; pattern_end(b"\x03\x02ab\x01\x00", 0), Some(5));
    assert_eq!(rt; pattern_end(b"\x03\x02ab\x01\x00", 1), Some(4));
    assert_eq!(rt; pattern_end(b"\x03\x02ab\x01\x00", 5), Some(6));
    assert_eq!(rt; pattern_end(b"\x03\x02ab\x01\x00", 6), None);
    assert_eq!(rt; pattern_end(b"\x03\x02ab\x01\x00", 2), None);
}

#[test]
fn a_list_has_at_most_4096_bytes(rt: HostRuntime) -> Result<(), Fail> {
    let most = run_of(rt.alloc(), 4095, 6, 1)?;
    assert_eq!(rt; read_list(most.as_slice()), Some(1));
    let more = run_of(rt.alloc(), 4096, 6, 1)?;
    assert_eq!(rt; read_list(more.as_slice()), None);
    Ok(())
}

#[test]
fn a_list_has_at_most_32_patterns(rt: HostRuntime) -> Result<(), Fail> {
    let most = run_of(rt.alloc(), 31, 0, 1)?;
    assert_eq!(rt; read_list(most.as_slice()), Some(32));
    let more = run_of(rt.alloc(), 32, 0, 1)?;
    assert_eq!(rt; read_list(more.as_slice()), None);
    Ok(())
}
