ghost use Rattle.std.specs.Prelude.{◌≡◌, ◌+◌, ◌<◌, ◌≤◌};
ghost use Rattle.diagram.specs.Nodes.{Issued, level_of, Split};

use table::NodeTable;

// The level of the handle's node; 25 for 0 and 1.
pub fn level<T: NodeTable>(table: &T, h: u16) -> u8
    requires { Issued (T.nodes table.now) h }
    ensures { result ≡ level_of (T.nodes table.now) h }
{
    match table.get(h) {
        Ok(n) => n.level,
        Err(_) => 25,
    }
}

// The cofactors of h at level l, which is not past its own: where the variable is no, and where it is yes.
pub fn branches<T: NodeTable>(table: &T, h: u16, l: u8) -> (u16, u16)
    requires issued { Issued (T.nodes table.now) h }
    requires level { l ≤ level_of (T.nodes table.now) h }
    requires last { l < 25 }
    ensures { Split (T.nodes table.now) l h result.0 result.1 }
{
    match table.get(h) {
        Ok(n) if n.level == l => (n.low, n.high),
        _ => (h, h),
    }
}
