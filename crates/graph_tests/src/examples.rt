use engine::{Graph, GraphFault};
use packed::PackedTable;
use std::process::Abort;
use table::{Node, NodeTable, PlainTable};

// The handle, or the number and the place of a refusal.
pub(crate) type Told = Result<u16, (u8, usize)>;

pub(crate) fn told(r: Result<u16, GraphFault>) -> Told {
    r.map_err(|e| (e.number(), e.place()))
}

// Option b, option a, then their "and".
fn and_of_two<T: NodeTable + Drop>(rt: &impl Abort, table: T) {
    let mut graph = Graph::new(table);
    assert_eq!(rt; told(graph.option(2)), Ok(2));
    assert_eq!(rt; told(graph.option(1)), Ok(3));
    assert_eq!(rt; told(graph.and(2, 3)), Ok(4));
    assert_eq!(rt; graph.len(), 3);
}

// The same with room for two nodes: refused, and two are left.
fn and_refused<T: NodeTable + Drop>(rt: &impl Abort, table: T) {
    let mut graph = Graph::new(table);
    assert_eq!(rt; told(graph.option(2)), Ok(2));
    assert_eq!(rt; told(graph.option(1)), Ok(3));
    assert_eq!(rt; told(graph.and(2, 3)), Err((14, 0)));
    assert_eq!(rt; graph.len(), 2);
}

#[test]
fn ands(rt: HostRuntime) {
    and_of_two(&rt, PlainTable::new(&mut [Node::default(); 3]));
    and_of_two(&rt, PackedTable::new(&mut [0; 536]));
    and_refused(&rt, PlainTable::new(&mut [Node::default(); 2]));
    and_refused(&rt, PackedTable::new(&mut [0; 528]));
}

// Equal functions have one handle, however they were made.
fn equal_functions<T: NodeTable + Drop>(rt: &impl Abort, table: T) {
    let mut graph = Graph::new(table);
    let whole = told(graph.formula(b"a&b|!a&c"));
    let held = graph.len();
    assert_eq!(rt; told(graph.formula(b"a&b|!a&c")), whole);
    assert_eq!(rt; graph.len(), held);
    assert_eq!(rt; told(graph.formula(b"(a>b)&(!a>c)")), whole);
    assert_eq!(rt; told(graph.formula(b"!(a&!b|!a&!c)")), whole);
    assert_eq!(rt; told(graph.formula(b"a^a")), Ok(0));
    assert_eq!(rt; told(graph.formula(b"a=a")), Ok(1));
}

#[test]
fn functions(rt: HostRuntime) {
    equal_functions(&rt, PlainTable::new(&mut [Node::default(); 50]));
    equal_functions(&rt, PackedTable::new(&mut [0; 1000]));
}

// a&b with a set: b, and no.
fn cofactors<T: NodeTable + Drop>(rt: &impl Abort, table: T) {
    let mut graph = Graph::new(table);
    assert_eq!(rt; told(graph.formula(b"a&b")), Ok(4));
    assert_eq!(rt; told(graph.restrict(4, 1, true)), Ok(3));
    assert_eq!(rt; told(graph.restrict(4, 1, false)), Ok(0));
    assert_eq!(rt; told(graph.restrict(4, 2, true)), Ok(2));
    assert_eq!(rt; told(graph.restrict(4, 12, true)), Ok(4));
    assert_eq!(rt; told(graph.not(1)), Ok(0));
    assert_eq!(rt; graph.len(), 3);
}

#[test]
fn restrictions(rt: HostRuntime) {
    cofactors(&rt, PlainTable::new(&mut [Node::default(); 5]));
    cofactors(&rt, PackedTable::new(&mut [0; 600]));
}

// The example of the README.
fn lid_and_rim<T: NodeTable + Drop>(table: T) -> Result<u16, GraphFault> {
    let mut graph = Graph::new(table);
    let a = graph.option(1)?;
    let b = graph.option(2)?;
    graph.and(a, b)
}

#[test]
fn readme(rt: HostRuntime) {
    let mut bytes = [0u8; 4096];
    assert_eq!(rt; told(lid_and_rim(PackedTable::new(&mut bytes))), Ok(4));
    assert_eq!(rt;
        told(lid_and_rim(PackedTable::new(&mut bytes[0..528]))),
        Err((14, 0))
    );
}
