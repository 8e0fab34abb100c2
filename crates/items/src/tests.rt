// Items as they stand in lines, and the faults of others.
use crate::{ITEM_WIDTH, ItemKind, Job, Patch};
use columns::ColumnFault;

// The faulty field's first column and the refusal's number, and zeros where there is none.
fn fault<T: Drop>(read: Result<T, ColumnFault>) -> (usize, u16) {
    match read {
        Ok(_) => (0, 0),
        Err(fault) => (fault.column, fault.refusal.number()),
    }
}

// What the item writes into a buffer that is longer by two.
fn text<I: ItemKind>(item: I) -> ([u8; 17], u16) {
    let mut buffer = *b".................";
    let said = match item.write(&mut buffer) {
        Ok(()) => 0,
        Err(refusal) => refusal.number(),
    };
    (buffer, said)
}

#[test]
fn patches(rt: HostRuntime) {
    let table: [(&[u8; ITEM_WIDTH], (usize, u16)); 12] = [
        (b"       0   0  0", (0, 0)),
        (b"999999999999999", (0, 0)),
        (b"       1   2-99", (0, 0)),
        (b"        x  2  3", (1, 23)),
        (b"00000001   2  3", (1, 23)),
        (b"      -1   x  x", (1, 24)),
        (b"       1    - 3", (9, 23)),
        (b"       1  +2  3", (9, 23)),
        (b"       1  -2  x", (9, 24)),
        (b"       1   2 -0", (13, 23)),
        (b"       1   23  ", (13, 23)),
        (b"       1   2\x00\xff3", (13, 23)),
    ];
    for (columns, place) in table {
        assert_eq!(rt; fault(<Patch as ItemKind>::read(columns)), place);
    }
    let patch = Patch {
        face: 99_999_999,
        zone: 7,
        level: -5,
    };
    assert_eq!(rt; text(patch), (*b"99999999   7 -5..", 0));
    assert_eq!(rt;
        <Patch as ItemKind>::read(b"99999999   7 -5").ok(),
        Some(patch)
    );
    assert_eq!(rt;
        text(Patch {
            face: 1,
            zone: 10_000,
            level: 0,
        }),
        (*b".................", 24)
    );
}

#[test]
fn jobs(rt: HostRuntime) {
    let table: [(&[u8; ITEM_WIDTH], (usize, u16)); 13] = [
        (b" block999999999", (0, 0)),
        (b"  stop         ", (0, 0)),
        (b" BLOCK        1", (1, 23)),
        (b"block         1", (1, 23)),
        (b" stop          ", (1, 23)),
        (b"   run       01", (1, 23)),
        (b" block         ", (7, 23)),
        (b" sweep       01", (7, 23)),
        (b" sweep       1 ", (7, 23)),
        (b" sweep       -1", (7, 24)),
        (b" flush        1", (7, 23)),
        (b" flush \x00       ", (7, 23)),
        (b"  stop        0", (7, 23)),
    ];
    for (columns, place) in table {
        assert_eq!(rt; fault(<Job as ItemKind>::read(columns)), place);
    }
    assert_eq!(rt;
        <Job as ItemKind>::read(b" sweep        0").ok(),
        Some(Job::Sweep(0))
    );
    assert_eq!(rt; text(Job::Block(30)), (*b" block       30..", 0));
    assert_eq!(rt; text(Job::Flush), (*b" flush         ..", 0));
    assert_eq!(rt;
        text(Job::Sweep(1_000_000_000)),
        (*b".................", 24)
    );
    assert_eq!(rt; Job::Stop.write(&mut [0; 14]).is_ok(), false);
}
