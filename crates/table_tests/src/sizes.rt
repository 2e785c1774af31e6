// Lent memory of every kind of length: how many nodes it has room for, and that a full table says so.
use packed::PackedTable;
use std::process::Abort;
use std::test::Fail;
use table::{Node, NodeTable, PlainTable, TableFault};

// Enters nodes of falling level, each above the last, and tells how many are held.
fn filled<T: NodeTable>(table: &mut T) -> Result<u16, TableFault> {
    let mut low = 0;
    for level in (1..25u8).rev() {
        low = table.insert(Node {
            level,
            low,
            high: 1,
        })?;
    }
    Ok(table.len())
}

// A table of fewer than 24 nodes is full before all are entered, and tells its size.
fn check_size<T: NodeTable>(rt: &impl Abort, table: &mut T, size: u16) {
    assert_eq!(rt; table.size(), size);
    assert_eq!(rt; table.len(), 0);
    let expected = if size < 24 { Err(size) } else { Ok(24) };
    assert_eq!(rt; filled(table).map_err(|e| e.size), expected);
    assert_eq!(rt; table.len(), size.min(24));
}

#[test]
fn plain_sizes(rt: HostRuntime) -> Result<(), Fail> {
    let blank = Node::default();
    for size in [0u16, 1, 2, 24, 65000] {
        let mut run = vec![in rt.alloc(); blank; size as usize]?;
        check_size(&rt, &mut PlainTable::new(run.as_mut_slice()), size);
    }
    let mut run = vec![in rt.alloc(); blank; 65001]?;
    check_size(&rt, &mut PlainTable::new(run.as_mut_slice()), 65000);
    Ok(())
}

const PACKED: [(usize, u16); 12] = [
    (0, 0),
    (1, 0),
    (511, 0),
    (512, 0),
    (519, 0),
    (520, 1),
    (527, 1),
    (528, 2),
    (65536, 8128),
    (520511, 64999),
    (520512, 65000),
    (600000, 65000),
];

#[test]
fn packed_sizes(rt: HostRuntime) -> Result<(), Fail> {
    for (len, size) in PACKED {
        let mut bytes = vec![in rt.alloc(); 170u8; len]?;
        check_size(&rt, &mut PackedTable::new(bytes.as_mut_slice()), size);
    }
    Ok(())
}
