// Fields as they stand in lines, and the refusals they get.
use crate::{ColumnFault, ReadRefusal, at_column, read_number, write_number};

// The refusal's number, and 0 where there is none.
fn refused<T: Drop>(read: Result<T, ReadRefusal>) -> u16 {
    match read {
        Ok(_) => 0,
        Err(refusal) => refusal.number(),
    }
}

#[test]
fn refusals(rt: HostRuntime) {
    let table: [(&[u8], u16); 24] = [
        (b"", 23),
        (b"    ", 23),
        (b"   -", 23),
        (b"  -0", 23),
        (b"  00", 23),
        (b"  01", 23),
        (b" -07", 23),
        (b"- 7 ", 23),
        (b" - 7", 23),
        (b" --7", 23),
        (b"  +7", 23),
        (b"  7 ", 23),
        (b" 7 7", 23),
        (b"  7x", 23),
        (b"\x007", 23),
        (b"\t7", 23),
        (b"7\r", 23),
        (b" \xff7", 23),
        (b" \xb27", 23),
        (b"7-", 23),
        (b"  10", 24),
        (b"  -1", 24),
        (b"18446744073709551616", 24),
        (b"-99999999999999999999999", 24),
    ];
    for (text, number) in table {
        assert_eq!(rt; refused(read_number(text, 0u64, 9)), number);
        assert_eq!(rt; refused(read_number(text, 0i64, 9)), number);
    }
    assert_eq!(rt; refused(read_number(b"  64", 65u64, 99)), 24);
    assert_eq!(rt; refused(read_number(b"-100", -99i64, 999)), 24);
    assert_eq!(rt;
        at_column(9, read_number(b"x", 0u64, 9)),
        Err(ColumnFault {
            column: 9,
            refusal: ReadRefusal::Form,
        })
    );
}

#[test]
fn numbers(rt: HostRuntime) {
    let table: [(&[u8], i64); 6] = [
        (b"0", 0),
        (b"   64", 64),
        (b"-99", -99),
        (b"  -5", -5),
        (b"-9223372036854775808", i64::MIN),
        (b"9223372036854775807", i64::MAX),
    ];
    for (text, number) in table {
        assert_eq!(rt; read_number(text, i64::MIN, i64::MAX), Ok(number));
    }
    assert_eq!(rt;
        refused(read_number(b"9223372036854775808", i64::MIN, i64::MAX)),
        24
    );
    assert_eq!(rt;
        read_number(b" 18446744073709551615", 1, u64::MAX),
        Ok(u64::MAX)
    );
}

#[test]
fn texts(rt: HostRuntime) {
    let table: [(usize, i64, [u8; 6], u16); 9] = [
        (4, 70, *b"  70..", 0),
        (1, 0, *b"0.....", 0),
        (3, -99, *b"-99...", 0),
        (6, -1, *b"    -1", 0),
        (3, 1000, *b"......", 24),
        (3, -100, *b"......", 24),
        (0, 1, *b"......", 24),
        (7, 1, *b"......", 18),
        (7, 99_999_999, *b"......", 18),
    ];
    for (width, n, text, number) in table {
        let mut buffer = *b"......";
        let said = match write_number(&mut buffer, width, n) {
            Ok(()) => 0,
            Err(refusal) => refusal.number(),
        };
        assert_eq!(rt; said, number);
        assert_eq!(rt; buffer, text);
    }
    let mut buffer = *b"......";
    assert_eq!(rt; write_number(&mut buffer, 5, 70u64), Ok(()));
    assert_eq!(rt; buffer, *b"   70.");
}

#[test]
fn narrow_types(rt: HostRuntime) {
    assert_eq!(rt; read_number(b"65535", 0, u16::MAX), Ok(u16::MAX));
    assert_eq!(rt; read_number(b" 4294967295", 0, u32::MAX), Ok(u32::MAX));
    assert_eq!(rt; read_number(b"-32768", i16::MIN, 0), Ok(i16::MIN));
    assert_eq!(rt; refused(read_number(b"65536", 0, u16::MAX)), 24);
}
