ghost use Rattle.std.specs.Prelude.{◌≡◌, ◌+◌, ◌≤◌, length};
ghost use Rattle.decimal.specs.Outputs.{HasRoom, Puts};
ghost use Rattle.diagram.specs.Nodes.{Issued, meaning};
ghost use Rattle.implicant.specs.Implicants.{Condition};
ghost use Rattle.implicant.specs.Variables.{ArePrimes};
ghost use Rattle.card_walk.specs.Shown.{heading, CardWritten};

use decimal::Output;
use listing::{ListFault, write_list};
use table::NodeTable;

// The bytes of a CARD record beside its title: seven before it, and the line feed.
const HEADING_FRAME: usize = 8;

// Writes the CARD record of a title.
fn put_heading(output: &mut Output, title: &[u8])
    requires { HasRoom output.old (length title.now + 8) }
    ensures { Puts (heading title.now) output.old output.new }
{
    output.bytes(b"CARD,1,");
    output.bytes(title);
    output.byte(b'\n');
}

// Writes the CARD record of a title and the list of the condition whose primes the set has, or nothing where they do not fit.
pub fn write_card<T: NodeTable>(
    table: &T,
    set: u16,
    title: &[u8],
    out: &mut [u8],
) -> Result<usize, ListFault>
    requires issued { Issued (T.nodes table.now) set }
    requires primes { (f : Condition 12) × ArePrimes 12 0 f (meaning (T.nodes table.now) set) }
    requires short { length title.now ≤ 4096 }
    ensures { CardWritten title.now (meaning (T.nodes table.now) set) result out.old out.new }
{
    let head = title.len() + HEADING_FRAME;
    // Where the heading alone does not fit, the list is lent nothing and is refused.
    let from = head.min(out.len());
    let written = write_list(table, set, &mut out[from..])?;
    put_heading(&mut Output::new(out), title);
    Ok(head + written)
}
