ghost use Rattle.std.specs.Prelude.{◌≤◌, length};
ghost use Rattle.formula.specs.Grammar.{IsPostfix};

use crate::steps::Steps;

// A formula that was read, by its postfix steps.
#[derive(Drop)]
pub struct Formula {
    pub(crate) steps: Steps,
    ghost few: { length steps.items ≤ 4096 },
    ghost spelled: { ∥ IsPostfix steps.items ∥₁ },
}
