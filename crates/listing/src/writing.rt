ghost use Rattle.diagram.specs.Nodes.{Issued, meaning};
ghost use Rattle.implicant.specs.Lists.{listed};
ghost use Rattle.implicant.specs.Variables.{products_of};
ghost use Rattle.listing.specs.Counts.{alone_of};
ghost use Rattle.listing.specs.Outcome.{Listed};
ghost use Rattle.listing.specs.Received.{Measured, Begun};

use crate::counts::Counter;
use crate::faults::ListFault;
use crate::receivers::{Sizer, Writer};
use crate::totals::Totals;
use decimal::Output;
use set_walk::hand_over;
use table::NodeTable;

// Adds up the rows of a set's products, which are counted.
fn add_up<T: NodeTable>(table: &T, set: u16, counter: &Counter) -> Totals
    requires { Issued (T.nodes table.now) set }
    ensures { Measured (alone_of counter.now.counts) (listed 12 (products_of (meaning (T.nodes table.now) set))) result }
{
    let mut sizer = Sizer {
        counter,
        totals: Totals::default(),
    };
    hand_over(table, set, &mut sizer);
    sizer.totals
}

// Writes the rows of a set's products, which are counted, as far as they fit.
fn put_rows<T: NodeTable>(table: &T, set: u16, counter: &Counter, output: &mut Output)
    requires { Issued (T.nodes table.now) set }
    ensures { Begun (alone_of counter.now.counts) (listed 12 (products_of (meaning (T.nodes table.now) set))) output.old output.new }
{
    let mut writer = Writer { counter, output };
    hand_over(table, set, &mut writer);
}

// Writes the list of the condition whose primes the set has, or nothing where it does not fit.
pub fn write_list<T: NodeTable>(table: &T, set: u16, out: &mut [u8]) -> Result<usize, ListFault>
    requires { Issued (T.nodes table.now) set }
    ensures { Listed (meaning (T.nodes table.now) set) result out.old out.new }
{
    let mut counter = Counter::new();
    hand_over(table, set, &mut counter);
    let totals = add_up(table, set, &counter);
    let end = totals.bytes + totals.last_len();
    if out.len() < end {
        return Err(ListFault::ShortOutput);
    }
    let mut output = Output::new(out);
    put_rows(table, set, &counter, &mut output);
    totals.put_last(&mut output);
    Ok(output.written())
}
