// What the lent memory holds, byte for byte.
use packed::PackedTable;
use table::{Node, NodeTable, PlainTable};

// The sign of option a: chain 2 + 3 * 0 + 5 * 1 = 7, whose head lies at bytes 14 and 15.
const OPTION_A: Node = Node {
    level: 2,
    low: 0,
    high: 1,
};

#[test]
fn byte_fourteen(rt: HostRuntime) {
    let mut bytes = [0u8; 520];
    {
        let mut table = PackedTable::new(&mut bytes);
        assert!(rt; table.insert(OPTION_A).is_ok());
    }
    for (i, byte) in bytes.iter().enumerate() {
        let expected = match i {
            14 => 2,
            512 => 2,
            516 => 1,
            _ => 0,
        };
        assert_eq!(rt; *byte, expected);
    }
}

// Two nodes of one chain: the head is the newer, its link the older, and a truncate restores both.
#[test]
fn chains(rt: HostRuntime) {
    let mut bytes = [0u8; 528];
    {
        let mut table = PackedTable::new(&mut bytes);
        assert!(rt; table.insert(OPTION_A).is_ok());
        assert!(rt;
            table
                .insert(Node {
                    level: 4,
                    low: 1,
                    high: 0,
                })
                .is_ok()
        );
    }
    assert_eq!(rt; bytes[14], 3);
    assert_eq!(rt; bytes[520], 4);
    assert_eq!(rt; bytes[522], 1);
    assert_eq!(rt; bytes[526], 2);
    assert_eq!(rt; bytes[518], 0);
}

#[test]
fn bytes_past_the_slots(rt: HostRuntime) {
    let mut bytes = [170u8; 527];
    {
        let mut table = PackedTable::new(&mut bytes);
        assert!(rt; table.insert(OPTION_A).is_ok());
        table.truncate(0);
    }
    for (i, byte) in bytes.iter().enumerate() {
        assert_eq!(rt; *byte, if i < 520 { 0 } else { 170 });
    }
}

#[test]
fn too_few_bytes(rt: HostRuntime) {
    let mut bytes = [170u8; 519];
    {
        let mut table = PackedTable::new(&mut bytes);
        assert!(rt; table.insert(OPTION_A).is_err());
        table.truncate(0);
    }
    for byte in bytes {
        assert_eq!(rt; byte, 170);
    }
}

#[test]
fn records_not_held(rt: HostRuntime) {
    let mut run = [Node {
        level: 9,
        low: 9,
        high: 9,
    }; 3];
    {
        let mut table = PlainTable::new(&mut run);
        assert!(rt; table.insert(OPTION_A).is_ok());
        assert!(rt;
            table
                .insert(Node {
                    level: 1,
                    low: 0,
                    high: 1,
                })
                .is_ok()
        );
        table.truncate(1);
    }
    assert_eq!(rt; run, [OPTION_A, Node::default(), Node::default()]);
}
