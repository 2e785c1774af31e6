// Every refusal of a graph call, and that it changes nothing.
use crate::examples::{Told, told};
use engine::Graph;
use packed::PackedTable;
use std::process::Abort;
use std::test::Fail;
use table::{Node, NodeTable, PlainTable};

// On a graph of one node: numbers outside the options, then handles that are not issued.
fn numbers<T: NodeTable + Drop>(rt: &impl Abort, table: T) {
    let mut graph = Graph::new(table);
    assert_eq!(rt; told(graph.option(12)), Ok(2));
    assert_eq!(rt; told(graph.option(0)), Err((5, 0)));
    assert_eq!(rt; told(graph.option(13)), Err((5, 0)));
    assert_eq!(rt; told(graph.option(255)), Err((5, 0)));
    assert_eq!(rt; told(graph.restrict(9, 0, true)), Err((5, 0)));
    assert_eq!(rt; told(graph.restrict(3, 1, true)), Err((9, 0)));
    assert_eq!(rt; told(graph.not(3)), Err((9, 0)));
    assert_eq!(rt; told(graph.and(0, 3)), Err((9, 0)));
    assert_eq!(rt; told(graph.or(3, 0)), Err((9, 0)));
    assert_eq!(rt; told(graph.xor(65535, 65535)), Err((9, 0)));
    assert_eq!(rt; told(graph.implies(0, 65535)), Err((9, 0)));
    assert_eq!(rt; told(graph.iff(3, 1)), Err((9, 0)));
    assert_eq!(rt; told(graph.option(1)), Err((14, 0)));
    assert_eq!(rt; graph.len(), 1);
}

// A formula's faults come with their places, before the table is looked at.
fn texts<T: NodeTable + Drop>(rt: &impl Abort, table: T) {
    let mut graph = Graph::new(table);
    assert_eq!(rt; told(graph.formula(&[b'a'; 4097])), Err((1, 4096)));
    assert_eq!(rt; told(graph.formula(b"aZ")), Err((2, 1)));
    assert_eq!(rt; told(graph.formula(b"a&")), Err((3, 2)));
    assert_eq!(rt; told(graph.formula(&[b'('; 40])), Err((4, 32)));
    assert_eq!(rt; told(graph.formula(b"0|1")), Ok(1));
    assert_eq!(rt; told(graph.formula(b"a")), Err((14, 0)));
    assert_eq!(rt; graph.len(), 0);
}

#[test]
fn all_numbers(rt: HostRuntime) {
    numbers(&rt, PlainTable::new(&mut [Node::default(); 1]));
    numbers(&rt, PackedTable::new(&mut [0; 520]));
}

#[test]
fn all_texts(rt: HostRuntime) {
    texts(&rt, PlainTable::new(&mut []));
    texts(&rt, PackedTable::new(&mut [0; 519]));
}

// Option c, and then a formula.
fn after<T: NodeTable + Drop>(table: T, text: &[u8]) -> Told {
    let mut graph = Graph::new(table);
    let _ = graph.option(3);
    told(graph.formula(text))
}

// A cell of memory that a table is lent.
trait Cell: Copy + PartialEq {
    // What stands in each cell before.
    const BEFORE: Self;

    // How many cells a table of a size needs.
    fn cells(size: u16) -> usize;

    // What is answered over the memory.
    fn told_after(memory: &mut [Self], text: &[u8]) -> Told;
}

impl Cell for u8 {
    const BEFORE: u8 = 7;

    fn cells(size: u16) -> usize {
        512 + 8 * size as usize
    }

    fn told_after(memory: &mut [u8], text: &[u8]) -> Told {
        after(PackedTable::new(memory), text)
    }
}

impl Cell for Node {
    const BEFORE: Node = Node {
        level: 0,
        low: 0,
        high: 0,
    };

    fn cells(size: u16) -> usize {
        size as usize
    }

    fn told_after(memory: &mut [Node], text: &[u8]) -> Told {
        after(PlainTable::new(memory), text)
    }
}

// At every size up to what a formula needs, it is refused, and leaves the memory as if it had not been tried.
fn refused_below<C: Cell>(
    rt: &(impl Abort + AllocGlobal),
    text: &[u8],
    needs: u16,
) -> Result<(), Fail> {
    for size in 0..needs {
        let mut tried = vec![in rt.alloc(); C::BEFORE; C::cells(size)]?;
        let mut plain = vec![in rt.alloc(); C::BEFORE; C::cells(size)]?;
        assert_eq!(rt; C::told_after(tried.as_mut_slice(), text), Err((14, 0)));
        assert_eq!(rt; C::told_after(plain.as_mut_slice(), b"0"), Ok(0));
        assert!(rt; tried.as_slice() == plain.as_slice());
    }
    let mut enough = vec![in rt.alloc(); C::BEFORE; C::cells(needs)]?;
    assert!(rt; C::told_after(enough.as_mut_slice(), text).is_ok());
    Ok(())
}

#[test]
fn plain_below_what_it_needs(rt: HostRuntime) -> Result<(), Fail> {
    refused_below::<Node>(&rt, b"a&b|!a&c", 7)?;
    refused_below::<Node>(&rt, b"(a|b)&(c|d)>e", 13)
}

#[test]
fn below_what_it_needs(rt: HostRuntime) -> Result<(), Fail> {
    refused_below::<u8>(&rt, b"a&b|!a&c", 7)?;
    refused_below::<u8>(&rt, b"a^b^d", 10)?;
    refused_below::<u8>(&rt, b"(a|b)&(c|d)>e", 13)
}
