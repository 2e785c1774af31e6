// One script of calls for every table: each row is a call, its answer, and how many nodes are held then.
use packed::PackedTable;
use std::process::Abort;
use table::{Node, NodeTable, PlainTable, TableFault};

#[derive(Clone, Copy)]
enum Call {
    Insert(u8, u16, u16),
    Get(u16),
    Truncate(u16),
}

// A node is told by its level, low and high.
#[derive(Clone, Copy, PartialEq, Eq, Debug)]
enum Answer {
    Handle(u16),
    Found(u8, u16, u16),
    Done,
}

fn perform<T: NodeTable>(table: &mut T, call: Call) -> Result<Answer, TableFault> {
    match call {
        Call::Insert(level, low, high) => {
            table.insert(Node { level, low, high }).map(Answer::Handle)
        }
        Call::Get(handle) => table
            .get(handle)
            .map(|n| Answer::Found(n.level, n.low, n.high)),
        Call::Truncate(count) => {
            table.truncate(count);
            Ok(Answer::Done)
        }
    }
}

// Over a table of three nodes: option b, option a, then their "and"; a full table; and nodes taken back.
// A refusal is told by its number and the size that it carries.
const SCRIPT: [(Call, Result<Answer, (u8, u16)>, u16); 31] = [
    (Call::Get(0), Err((9, 3)), 0),
    (Call::Get(1), Err((9, 3)), 0),
    (Call::Get(2), Err((9, 3)), 0),
    (Call::Insert(4, 0, 1), Ok(Answer::Handle(2)), 1),
    (Call::Insert(2, 0, 1), Ok(Answer::Handle(3)), 2),
    (Call::Insert(2, 0, 1), Ok(Answer::Handle(3)), 2),
    (Call::Insert(0, 0, 1), Err((13, 3)), 2),
    (Call::Insert(25, 0, 1), Err((13, 3)), 2),
    (Call::Insert(255, 0, 1), Err((13, 3)), 2),
    (Call::Insert(3, 1, 1), Err((13, 3)), 2),
    (Call::Insert(1, 0, 4), Err((13, 3)), 2),
    (Call::Insert(1, 65535, 0), Err((13, 3)), 2),
    (Call::Insert(4, 0, 2), Err((13, 3)), 2),
    (Call::Insert(5, 2, 1), Err((13, 3)), 2),
    (Call::Insert(2, 0, 2), Ok(Answer::Handle(4)), 3),
    (Call::Get(2), Ok(Answer::Found(4, 0, 1)), 3),
    (Call::Get(3), Ok(Answer::Found(2, 0, 1)), 3),
    (Call::Get(4), Ok(Answer::Found(2, 0, 2)), 3),
    (Call::Get(5), Err((9, 3)), 3),
    (Call::Insert(1, 0, 1), Err((14, 3)), 3),
    (Call::Insert(2, 0, 2), Ok(Answer::Handle(4)), 3),
    (Call::Insert(9, 7, 7), Err((13, 3)), 3),
    (Call::Truncate(65535), Ok(Answer::Done), 3),
    (Call::Truncate(3), Ok(Answer::Done), 3),
    (Call::Truncate(1), Ok(Answer::Done), 1),
    (Call::Get(3), Err((9, 3)), 1),
    (Call::Get(2), Ok(Answer::Found(4, 0, 1)), 1),
    (Call::Insert(2, 0, 2), Ok(Answer::Handle(3)), 2),
    (Call::Truncate(0), Ok(Answer::Done), 0),
    (Call::Get(2), Err((9, 3)), 0),
    (Call::Insert(24, 1, 0), Ok(Answer::Handle(2)), 1),
];

fn follow<T: NodeTable>(rt: &impl Abort, table: &mut T) {
    assert_eq!(rt; table.size(), 3);
    for (call, expected, held) in SCRIPT {
        let answer = perform(table, call).map_err(|e| (e.number(), e.size));
        assert_eq!(rt; answer, expected);
        assert_eq!(rt; table.len(), held);
    }
}

#[test]
fn plain_follows(rt: HostRuntime) {
    let mut run = [Node {
        level: 7,
        low: 7,
        high: 7,
    }; 3];
    follow(&rt, &mut PlainTable::new(&mut run));
}

#[test]
fn packed_follows(rt: HostRuntime) {
    let mut bytes = [7u8; 540];
    follow(&rt, &mut PackedTable::new(&mut bytes));
}
