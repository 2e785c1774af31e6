ghost use Rattle.std.specs.Prelude.{◌+◌, ◌*◌, ◌≤◌, List, ◌++◌};
ghost use Rattle.product.specs.Words.{Words};
ghost use Rattle.diagram.specs.Nodes.{Issued, meaning, level_of};
ghost use Rattle.implicant.specs.Lists.{listed};
ghost use Rattle.implicant.specs.Variables.{products_of};
ghost use Rattle.set_walk.specs.Prefixes.{handed};

use crate::prefix::Prefix;
use crate::receiver::Receiver;
use product::Word;
use table::NodeTable;
use walk::branches;

// Hands over the products of a set of the options left, each behind the prefix.
fn walk<T: NodeTable, R: Receiver>(table: &T, set: u16, receiver: &mut R, before: Prefix)
    requires issued { Issued (T.nodes table.now) set }
    requires level { 2 * before.gone + 1 ≤ level_of (T.nodes table.now) set }
    ensures { (start : R) (ps : List (Words 12)) → R.fed start receiver.old ps → R.fed start receiver.new (ps ++ handed before (meaning (T.nodes table.now) set)) }
{
    if set == 0 {
        return;
    }
    if before.gone == 12 {
        receiver.take(before.product());
        return;
    }
    let (no, yes) = branches(table, set, 2 * before.gone + 1);
    let (absent, _) = branches(table, no, 2 * before.gone + 2);
    let (refused, wanted) = branches(table, yes, 2 * before.gone + 2);
    walk(table, absent, receiver, before.with(Word::Absent));
    walk(table, refused, receiver, before.with(Word::Refused));
    walk(table, wanted, receiver, before.with(Word::Wanted));
}

// Hands over the products of a set in rising number: absent, refused, wanted. So a receiver that has taken others has taken these after them.
pub fn hand_over<T: NodeTable, R: Receiver>(table: &T, set: u16, receiver: &mut R)
    requires { Issued (T.nodes table.now) set }
    ensures all { R.fed receiver.old receiver.new (listed 12 (products_of (meaning (T.nodes table.now) set))) }
    ensures after { (start : R) (ps : List (Words 12)) → R.fed start receiver.old ps → R.fed start receiver.new (ps ++ listed 12 (products_of (meaning (T.nodes table.now) set))) }
{
    walk(table, set, receiver, Prefix::new());
}
