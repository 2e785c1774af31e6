// Two nodes or none, over both tables; refused, the memory is as it was.
use packed::PackedTable;
use std::process::Abort;
use table::{Node, NodeTable, PairFault, PlainTable, insert_pair};

const A: Node = Node {
    level: 2,
    low: 0,
    high: 1,
};

const B: Node = Node {
    level: 4,
    low: 0,
    high: 1,
};

const ILL_FORMED: Node = Node {
    level: 4,
    low: 1,
    high: 1,
};

// Over a table of one node: the handle that each pair is granted, or the number that refuses it, and how many nodes are held then.
const PAIRS: [(Node, Node, Result<u16, u8>, u16); 5] = [
    (A, B, Err(14), 0),
    (ILL_FORMED, A, Err(13), 0),
    (A, ILL_FORMED, Err(13), 0),
    (A, A, Ok(2), 1),
    (A, B, Err(14), 1),
];

fn follow<T: NodeTable>(rt: &impl Abort, table: &mut T) {
    for (a, b, expected, held) in PAIRS {
        let answer = insert_pair(table, a, b).map_err(|PairFault::Table(e)| e.number());
        assert_eq!(rt; answer, expected);
        assert_eq!(rt; table.len(), held);
    }
}

#[test]
fn plain_pairs(rt: HostRuntime) {
    let mut run = [A; 1];
    follow(&rt, &mut PlainTable::new(&mut run));
}

#[test]
fn packed_pairs(rt: HostRuntime) {
    let mut bytes = [9u8; 520];
    follow(&rt, &mut PackedTable::new(&mut bytes));
    assert_eq!(rt; bytes[14], 2);
    assert_eq!(rt; bytes[518], 0);
}
