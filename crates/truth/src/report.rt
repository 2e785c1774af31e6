// What the program prints, as text.
ghost use Rattle.std.specs.Prelude.{◌≡◌, ℕ, ◌+◌, ◌-◌, ◌<◌, ◌≤◌, List, [], ◌∷◌, ◌++◌, length, take, IfOk, string_bytes, OnOk};
ghost use Rattle.formula.specs.Grammar.{Tree, postfix};
ghost use Rattle.formula.specs.Answer.{steps_of, Read};
ghost use Rattle.engine.specs.Faults.{graph_number, graph_place};
ghost use Rattle.truth.specs.Report.{refusal, read_line, yes_line, graph_line, unended, Marks, Known, Appended, Tells, Formed, Counted, Report};

use crate::build::build;
use engine::GraphFault;
use formula::{Formula, Step};
use std::alloc::{AllocError, Global};

// As much of the input as can matter: the longest formula, its line feed, and one byte more to tell a longer text by.
pub const INPUT_LIMIT: u64 = 4098;

// The bytes of the packed table; its size is then 8,128.
const TABLE_BYTES: usize = 65536;

// The text without one final line feed.
fn without_line_feed(text: &[u8]) -> &[u8]
    ensures { result.now ≡ unended text.now }
{
    match text.split_last() {
        Some((b'\n', front)) => front,
        _ => text,
    }
}

fn refusal(heap: Global, why: u8, at: usize) -> Result<String, AllocError>
    ensures { IfOk result (λ s. string_bytes s ≡ refusal why at) }
{
    format!(in heap; "REFUSED,{why},{at}\n")
}

fn read_line(heap: Global, bytes: usize, steps: usize) -> Result<String, AllocError>
    ensures { IfOk result (λ s. string_bytes s ≡ read_line bytes steps) }
{
    format!(in heap; "read {bytes} bytes as {steps} steps:")
}

fn yes_line(heap: Global, yes: u16) -> Result<String, AllocError>
    ensures { IfOk result (λ s. string_bytes s ≡ yes_line yes) }
{
    format!(in heap; "\nyes in {yes} of 4096 versions\n")
}

fn graph_line(heap: Global, handle: u16, nodes: u16) -> Result<String, AllocError>
    ensures { IfOk result (λ s. string_bytes s ≡ graph_line handle nodes) }
{
    format!(in heap; "graph: handle {handle}, {nodes} nodes of 8128\n")
}

fn character(step: Step) -> u8
    ensures { Marks step result }
{
    step.symbol().unwrap_or(b'?')
}

fn append_symbols(out: &mut Vec<u8>, steps: &[Step]) -> Result<(), AllocError>
    requires { Known steps.now }
    ensures { OnOk result (Appended steps.now out.old.items out.new.items) }
{
    for step in steps {
        out.extend_from_slice(&[b' ', character(*step)])?;
    }
    Ok(())
}

// The first two lines for a formula of so many bytes.
fn counted(heap: Global, bytes: usize, f: &Formula) -> Result<Vec<u8>, AllocError>
    requires { Known (steps_of f.now) }
    ensures { IfOk result (λ out. (t : Tree) → steps_of f.now ≡ postfix t → Tells bytes t out.items) }
{
    let steps = f.steps();
    let first = read_line(heap, bytes, steps.len())?;
    let last = yes_line(heap, f.count_yes())?;
    let mut out = Vec::new(heap);
    out.extend_from_slice(first.as_bytes())?;
    append_symbols(&mut out, steps)?;
    out.extend_from_slice(last.as_bytes())?;
    Ok(out)
}

// The three lines for a formula.
fn granted(heap: Global, text: &[u8], handle: u16, nodes: u16) -> Result<Vec<u8>, AllocError>
    requires { Formed text.now }
    ensures { IfOk result (λ out. Counted text.now handle nodes out.items) }
{
    let f = Formula::try_from(text).unwrap();
    let mut out = counted(heap, text.len(), &f)?;
    let last = graph_line(heap, handle, nodes)?;
    out.extend_from_slice(last.as_bytes())?;
    Ok(out)
}

fn faulty(heap: Global, e: GraphFault) -> Result<Vec<u8>, AllocError>
    ensures { IfOk result (λ out. out.items ≡ refusal (graph_number e) (graph_place e)) }
{
    let line = refusal(heap, e.number(), e.place())?;
    line.as_bytes().to_vec(heap)
}

// All that is printed for a text.
fn report(heap: Global, text: &[u8]) -> Result<Vec<u8>, AllocError>
    ensures { IfOk result (λ out. Report text.now out.items) }
{
    let mut bytes = vec![in heap; 0u8; TABLE_BYTES]?;
    let call = build(bytes.as_mut_slice(), text);
    match call.answer {
        Ok(handle) => granted(heap, text, handle, call.nodes),
        Err(e) => faulty(heap, e),
    }
}

// All that is printed for any input with the same first 4,098 bytes; an error is a want of memory.
pub fn answer(heap: Global, input: &[u8]) -> Result<Vec<u8>, AllocError>
    ensures { IfOk result (λ out. (all : List ℕ) → take 4098 input.now ≡ take 4098 all → Report (unended all) out.items) }
{
    report(heap, without_line_feed(input))
}
