// Bytes and decimal numbers, written onto an output: inner code, whose functions have `requires`.
#![tactic(auto)]

ghost use Rattle.std.specs.Prelude.{◌≡◌, ◌≤◌, length, decimal};

mod outputs;

pub use outputs::Output;

// How many digits a number has.
pub fn digits(n: u32) -> usize
    ensures count { result ≡ length (decimal n) }
    ensures few { result ≤ 10 }
{
    n.checked_ilog10().map_or(1, |k| k as usize + 1)
}
