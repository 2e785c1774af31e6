// A node table over lent bytes: 256 chain heads, then slots of 8 bytes.
#![tactic(auto)]

ghost use Rattle.std.specs.Prelude.{◌≡◌, ℕ, ◌+◌, ◌*◌, ◌<◌, ◌≤◌, [], ◌∷◌, length, drop, MatchOption, slice_index};
ghost use Rattle.diagram.specs.Nodes.{At, Fit, WellFormed};
ghost use Rattle.table.specs.Model.{Absent};
ghost use Rattle.packed.specs.Layout.{get16, size_of, slot_start, rest_start, rest_of, slot, decode, chain_of, content, first_sign};
ghost use Rattle.packed.specs.Inner.{put16, Slot, Wrote, Laid};
ghost use Rattle.packed.specs.Held.{sound_held};
ghost use Rattle.packed.specs.Exact.{exact};

use diagram::Node;
use table::{MOST, NodeTable, Reason, TableFault, fits, handle_at, place_of};

// The bytes of the chain heads.
const HEADS: usize = 512;

// The bytes of a slot.
const SLOT: usize = 8;

// How many slots stand behind the heads.
fn size_of(len: usize) -> usize
    ensures { result ≡ size_of len }
{
    (len.saturating_sub(HEADS) / SLOT).min(MOST)
}

// Where the bytes begin that are never written.
fn rest_at(len: usize) -> usize
    ensures { result ≡ rest_start len }
{
    let size = size_of(len);
    if size == 0 { 0 } else { HEADS + SLOT * size }
}

fn chain_of(node: Node) -> usize
    ensures { result ≡ chain_of node }
{
    (node.level as usize + 3 * node.low as usize + 5 * node.high as usize) % 256
}

// Lent bytes, apart from what the table knows of them: a method that writes leaves that open for a moment.
#[derive(Drop)]
struct Bytes<'a> {
    buf: &'a mut [u8],
}

impl<'a> Bytes<'a> {
    fn at16(&self, i: usize) -> u16
        requires { i + 1 < length self.now.buf.now }
        ensures { result ≡ get16 self.now.buf.now i }
    {
        u16::from_le_bytes([self.buf[i], self.buf[i + 1]])
    }

    fn put16(&mut self, i: usize, v: u16)
        requires { i + 1 < length self.old.buf.now }
        ensures { self.new.buf.now ≡ put16 self.old.buf.now i v }
    {
        self.buf[i..i + 2].copy_from_slice(&v.to_le_bytes());
    }

    // The newest handle of a node's chain.
    fn head(&self, node: Node) -> u16
        requires { 512 ≤ length self.now.buf.now }
        ensures { result ≡ get16 self.now.buf.now (2 * chain_of node) }
    {
        self.at16(2 * chain_of(node))
    }

    fn set_head(&mut self, node: Node, handle: u16)
        requires { 512 ≤ length self.old.buf.now }
        ensures { self.new.buf.now ≡ put16 self.old.buf.now (2 * chain_of node) handle }
    {
        self.put16(2 * chain_of(node), handle);
    }

    // The next older handle of the chain of the node in slot `k`.
    fn link(&self, k: usize) -> u16
        requires { slot_start k + 8 ≤ length self.now.buf.now }
        ensures { result ≡ get16 self.now.buf.now (slot_start k + 6) }
    {
        self.at16(HEADS + SLOT * k + 6)
    }

    // The node in slot `k`.
    fn node(&self, k: usize) -> Node
        requires { slot_start k + 8 ≤ length self.now.buf.now }
        ensures { result ≡ slot self.now.buf.now k }
    {
        let p = HEADS + SLOT * k;
        let level = self.buf[p];
        let low = self.at16(p + 2);
        let high = self.at16(p + 4);
        Node { level, low, high }
    }

    // Writes a node and its link into slot `k`.
    fn put_slot(&mut self, k: usize, node: Node, link: u16)
        requires { slot_start k + 8 ≤ length self.old.buf.now }
        ensures frame { Wrote (slot_start k) (slot_start k + 8) self.old.buf.now self.new.buf.now }
        ensures slot { Slot self.new.buf.now k node link }
    {
        let [a, b] = node.low.to_le_bytes();
        let [c, d] = node.high.to_le_bytes();
        let [e, f] = link.to_le_bytes();
        let p = HEADS + SLOT * k;
        self.buf[p..p + SLOT].copy_from_slice(&[node.level, 0, a, b, c, d, e, f]);
    }

    fn clear_slot(&mut self, k: usize)
        requires { slot_start k + 8 ≤ length self.old.buf.now }
        ensures frame { Wrote (slot_start k) (slot_start k + 8) self.old.buf.now self.new.buf.now }
        ensures cleared { (i : ℕ) → slot_start k ≤ i → i < slot_start k + 8 → slice_index self.new.buf.now i ≡ 0 }
    {
        let p = HEADS + SLOT * k;
        self.buf[p..p + SLOT].fill(0);
    }

    // The handle of a node among the first `held` slots: only its chain is followed, link by link, as the bytes are laid out.
    fn find(&self, held: usize, node: Node) -> Option<u16>
        requires room { slot_start held ≤ length self.now.buf.now }
        requires small { held ≤ 65000 }
        requires laid { Laid held self.now.buf.now }
        ensures { MatchOption result (Absent (decode held self.now.buf.now) node) (λ h. At (decode held self.now.buf.now) h node) }
    {
        let mut h = self.head(node);
        while h != 0 {
            let k = h as usize - 2;
            if self.node(k) == node {
                return Some(h);
            }
            h = self.link(k);
        }
        None
    }
}

// A node table over lent bytes.
#[derive(Drop)]
pub struct PackedTable<'a> {
    bytes: Bytes<'a>,
    held: usize,
    ghost room: { held ≤ size_of (length bytes.buf.now) },
    ghost formed: { ∥ WellFormed (decode held bytes.buf.now) ∥₁ },
    ghost laid: { ∥ (0 < size_of (length bytes.buf.now) → Laid held bytes.buf.now) ∥₁ },
}

impl<'a> PackedTable<'a> {
    // An empty table over the bytes; those past its last slot are not written.
    pub fn new(buf: &'a mut [u8]) -> Self
        ensures nodes { decode result.held result.bytes.buf.now ≡ [] }
        ensures size { size_of (length result.bytes.buf.now) ≡ size_of (length buf.old) }
        ensures rest { rest_of result.bytes.buf.now ≡ rest_of buf.old }
        ensures memory { result.bytes.buf.now ≡ content (size_of (length buf.old)) [] (rest_of buf.old) }
    {
        let end = rest_at(buf.len());
        buf[..end].fill(0);
        PackedTable {
            bytes: Bytes { buf },
            held: 0,
        }
    }

    // Gives the bytes back, with what they hold.
    pub fn into_memory(self) -> &'a mut [u8]
        ensures kept { result.now ≡ self.entry.bytes.buf.now }
        ensures content { result.now ≡ content (size_of (length self.entry.bytes.buf.now)) (decode self.entry.held self.entry.bytes.buf.now) (rest_of self.entry.bytes.buf.now) }
    {
        let PackedTable { bytes, held: _ } = self;
        let Bytes { buf } = bytes;
        buf
    }

    // The handle of a node; where there are no slots, there are no heads to search from.
    fn find(&self, node: Node) -> Option<u16>
        ensures { MatchOption result (Absent (decode self.now.held self.now.bytes.buf.now) node) (λ h. At (decode self.now.held self.now.bytes.buf.now) h node) }
    {
        if self.held == 0 {
            return None;
        }
        self.bytes.find(self.held, node)
    }

    // Enters a node that fits and is not held, and returns its handle.
    fn enter(&mut self, node: Node) -> u16
        requires room { self.old.held < size_of (length self.old.bytes.buf.now) }
        requires fit { Fit (decode self.old.held self.old.bytes.buf.now) node }
        requires absent { Absent (decode self.old.held self.old.bytes.buf.now) node }
        ensures handle { result ≡ self.old.held + 2 }
        ensures nodes { decode self.new.held self.new.bytes.buf.now ≡ node ∷ decode self.old.held self.old.bytes.buf.now }
        ensures length { length self.new.bytes.buf.now ≡ length self.old.bytes.buf.now }
        ensures rest { rest_of self.new.bytes.buf.now ≡ rest_of self.old.bytes.buf.now }
    {
        let at = self.held;
        let handle = handle_at(at);
        let link = self.bytes.head(node);
        self.bytes.put_slot(at, node, link);
        self.bytes.set_head(node, handle);
        self.held = at + 1;
        handle
    }

    // Takes the newest node out again: its link is the head that its chain had before it.
    fn pop(&mut self)
        requires { 0 < self.old.held }
        ensures held { self.new.held + 1 ≡ self.old.held }
        ensures nodes { decode self.new.held self.new.bytes.buf.now ≡ drop 1 (decode self.old.held self.old.bytes.buf.now) }
        ensures length { length self.new.bytes.buf.now ≡ length self.old.bytes.buf.now }
        ensures rest { rest_of self.new.bytes.buf.now ≡ rest_of self.old.bytes.buf.now }
    {
        let k = self.held - 1;
        let node = self.bytes.node(k);
        let link = self.bytes.link(k);
        self.bytes.set_head(node, link);
        self.bytes.clear_slot(k);
        self.held = k;
    }
}

impl<'a> NodeTable for PackedTable<'a> {
    type Cell = u8;

    ghost nodes = { λ t. decode t.held t.bytes.buf.now };

    ghost limit = { λ t. size_of (length t.bytes.buf.now) };

    ghost rest = { λ t. rest_of t.bytes.buf.now };

    ghost memory = { λ t. t.bytes.buf.now };

    ghost content = { content };

    ghost sound = { λ t. sound_held t.held t.bytes.buf.now t.room t.formed };

    ghost lent = { λ t. exact t.held t.bytes.buf.now t.room t.laid };

    fn size(&self) -> u16 {
        size_of(self.bytes.buf.len()) as u16
    }

    fn len(&self) -> u16 {
        self.held as u16
    }

    fn get(&self, handle: u16) -> Result<Node, TableFault> {
        let place = place_of(handle, self.held, self.size())?;
        Ok(self.bytes.node(place))
    }

    // The other table reads alike here: one text for both would need a public trait with calls that ask something first.
    fn insert(&mut self, node: Node) -> Result<u16, TableFault> {
        let size = self.size();
        let low = self.get(node.low);
        let high = self.get(node.high);
        if !fits(node, low, high) {
            return Err(TableFault {
                reason: Reason::IllFormed,
                size,
            });
        }
        if let Some(handle) = self.find(node) {
            return Ok(handle);
        }
        if self.held >= size as usize {
            return Err(TableFault {
                reason: Reason::Full,
                size,
            });
        }
        Ok(self.enter(node))
    }

    // Each turn drops one node. A count of turns would say no more: what is held tells when to stop.
    fn truncate(&mut self, count: u16) {
        while self.held > count as usize {
            self.pop();
        }
    }
}

// The worked example: over 520 bytes with one node, the sign of the first option, byte 14 is the node's handle.
pub fn byte_fourteen() -> u8
    ensures value { result ≡ 2 }
    ensures byte { result ≡ slice_index (content (size_of 520) (first_sign ∷ []) []) 14 }
{
    handle_at(0) as u8
}
