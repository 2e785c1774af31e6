ghost use Rattle.std.specs.Prelude.{◌≡◌};
ghost use Rattle.engine.specs.declared.faults.GraphFault.TheVariants.{Formula, Table};
ghost use Rattle.engine.specs.Faults.{graph_number, graph_place};

use formula::FormulaFault;
use table::TableFault;

// Why a graph call is refused; a formula's fault and a table's are carried whole.
#[derive(Clone, Copy, PartialEq, Eq, Debug)]
pub enum GraphFault {
    NoOption,
    NoProduct,
    Formula(FormulaFault),
    NotCondition,
    NotProductSet,
    FewPlaces,
    Table(TableFault),
}

impl GraphFault {
    // The number by which callers in C and price lists know the fault.
    pub fn number(self) -> u8
        ensures { result ≡ graph_number self }
    {
        match self {
            GraphFault::NoOption => 5,
            GraphFault::NoProduct => 5,
            GraphFault::Formula(e) => e.number(),
            GraphFault::NotCondition => 10,
            GraphFault::NotProductSet => 11,
            GraphFault::FewPlaces => 12,
            GraphFault::Table(e) => e.number(),
        }
    }

    // An offset in a formula's text; 0 for what has no text.
    pub fn place(self) -> usize
        ensures { result ≡ graph_place self }
    {
        match self {
            GraphFault::Formula(e) => e.place(),
            _ => 0,
        }
    }
}

impl From<FormulaFault> for GraphFault {
    ghost from_gives = { λ x y. y ≡ Formula x };

    fn from(fault: FormulaFault) -> GraphFault {
        GraphFault::Formula(fault)
    }
}

impl From<TableFault> for GraphFault {
    ghost from_gives = { λ x y. y ≡ Table x };

    fn from(fault: TableFault) -> GraphFault {
        GraphFault::Table(fault)
    }
}
