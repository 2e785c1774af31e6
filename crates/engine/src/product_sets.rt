// Questions about product sets; they enter no node.
ghost use Rattle.std.specs.Prelude.{◌≡◌, MatchResult};
ghost use Rattle.diagram.specs.Nodes.{Issued, meaning};
ghost use Rattle.implicant.specs.Variables.{ProductSet};
ghost use Rattle.engine.specs.declared.faults.GraphFault.TheVariants.{NotProductSet};
ghost use Rattle.engine.specs.Reads.{ContainsOut, TallyOut};

use crate::faults::GraphFault;
use crate::graph::Graph;
use product::Product;
use set_walk::{answer_at, is_product_set};
use table::NodeTable;
use tally::Tally;
use tally_walk::tally_set;

impl<T: NodeTable> Graph<T> {
    // Whether an issued handle means a product set; refused with 11 where it does not.
    fn product_set(&self, set: u16) -> Result<(), GraphFault>
        requires { Issued (T.nodes self.now) set }
        ensures { MatchResult result (λ _. ProductSet (meaning (T.nodes self.now) set)) (λ e. (ProductSet (meaning (T.nodes self.now) set) → ⊥) × (e ≡ NotProductSet)) }
    {
        if is_product_set(&self.manager.table, set) {
            Ok(())
        } else {
            Err(GraphFault::NotProductSet)
        }
    }

    // Whether a set has the product of two masks.
    pub fn contains(&self, set: u16, named: u16, sign: u16) -> Result<bool, GraphFault>
        ensures { ContainsOut (T.limit self.now) set named sign (T.nodes self.now) result }
    {
        let Ok(product) = Product::new(named, sign) else {
            return Err(GraphFault::NoProduct);
        };
        self.issued(set)?;
        self.product_set(set)?;
        Ok(answer_at(&self.manager.table, set, product))
    }

    // Leaves the tally of a set in `answer`, a place that the caller lends, as it lends the working places.
    pub fn tally<W: Tally>(
        &self,
        set: u16,
        places: &mut [W::Weight],
        answer: &mut W::Weight,
    ) -> Result<(), GraphFault>
        ensures { TallyOut W.model (T.limit self.now) set (T.nodes self.now) result places.old answer.old places.new answer.new }
    {
        let held = self.len();
        self.issued(set)?;
        self.product_set(set)?;
        if places.len() < held as usize + 2 {
            return Err(GraphFault::FewPlaces);
        }
        *answer = tally_set::<T, W>(&self.manager.table, set, places);
        Ok(())
    }
}
