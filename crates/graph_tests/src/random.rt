// Random formulas, from a fixed seed: each handle is compared at all 4,096 versions with the formula's own truth table.
use engine::Graph;
use formula::Formula;
use packed::PackedTable;
use std::process::Abort;
use std::test::Fail;
use table::{Node, NodeTable, PlainTable};

const OPERATORS: [u8; 5] = [b'&', b'^', b'|', b'>', b'='];

fn next(seed: u32) -> u32 {
    seed.wrapping_mul(1664525).wrapping_add(1013904223)
}

// Appends a formula of at most the depth, and returns the next seed.
fn grow(text: &mut Vec<u8>, seed: u32, depth: u8) -> Result<u32, Fail> {
    let kind = (seed >> 16) % 16;
    if depth == 0 || kind < 3 {
        text.push(b'a' + ((seed >> 20) % 12) as u8)?;
        return Ok(next(seed));
    }
    if kind == 3 {
        text.push(b'0' + ((seed >> 20) % 2) as u8)?;
        return Ok(next(seed));
    }
    if kind < 7 {
        text.push(b'!')?;
        return grow(text, next(seed), depth - 1);
    }
    text.push(b'(')?;
    let middle = grow(text, next(seed), depth - 1)?;
    text.push(OPERATORS[((middle >> 20) % 5) as usize])?;
    let end = grow(text, next(middle), depth - 1)?;
    text.push(b')')?;
    Ok(end)
}

// What a handle answers at a version, by going down from node to node.
fn answer_at<T: NodeTable>(graph: &Graph<T>, handle: u16, version: u16) -> bool {
    let mut h = handle;
    for _ in 0..24 {
        match graph.get(h) {
            Ok(n) => {
                let sign = n.level % 2 == 0
                    && (version >> 12u8.saturating_sub(n.level / 2)) % 2 == 1;
                h = if sign { n.high } else { n.low };
            }
            Err(_) => return h == 1,
        }
    }
    h == 1
}

fn compare<T: NodeTable>(rt: &impl Abort, graph: &mut Graph<T>, text: &[u8]) -> Result<(), Fail> {
    let mut f = Formula::new();
    assert!(rt; f.read(text).is_ok());
    let Ok(h) = graph.formula(text) else {
        return Err(Fail::new("refused"));
    };
    for version in 0..4096u16 {
        assert!(rt; answer_at(graph, h, version) == f.yes_at(version));
    }
    Ok(())
}

fn compare_many<T: NodeTable + Drop>(
    rt: &(impl Abort + AllocGlobal),
    table: T,
    count: u32,
) -> Result<(), Fail> {
    let mut graph = Graph::new(table);
    let mut seed = 1;
    for _ in 0..count {
        let mut text = Vec::new(rt.alloc());
        seed = grow(&mut text, seed, 5)?;
        compare(rt, &mut graph, text.as_slice())?;
    }
    Ok(())
}

#[test]
fn packed_random(rt: HostRuntime) -> Result<(), Fail> {
    let mut bytes = vec![in rt.alloc(); 0u8; 520512]?;
    compare_many(&rt, PackedTable::new(bytes.as_mut_slice()), 300)
}

#[test]
fn plain_random(rt: HostRuntime) -> Result<(), Fail> {
    let mut run = vec![in rt.alloc(); Node::default(); 20000]?;
    compare_many(&rt, PlainTable::new(run.as_mut_slice()), 100)
}
