ghost use Rattle.std.specs.Prelude.{◌≡◌, ◌+◌, ◌<◌, ◌≤◌, min, MatchResult};
ghost use Rattle.table.specs.Faults.{fault};
ghost use Rattle.table.specs.declared.faults.Reason.TheVariants.{NotIssued};

use crate::faults::{Reason, TableFault};

// The most nodes that a table holds: with the two constants, their handles stay below 2^16.
pub const MOST: usize = 65000;

// The handle of the node at a place; the oldest has place 0. No table holds more than `MOST`.
pub fn handle_at(place: usize) -> u16
    ensures { result ≡ min place 65000 + 2 }
{
    place.min(MOST) as u16 + 2
}

// The place of a handle's node among `held` nodes. The refusal carries the table's size.
pub fn place_of(handle: u16, held: usize, size: u16) -> Result<usize, TableFault>
    ensures { MatchResult result (λ place. (handle ≡ place + 2) × (place < held)) (λ e. (2 ≤ handle → held + 2 ≤ handle) × (e ≡ fault NotIssued size)) }
{
    if handle < 2 || handle as usize - 2 >= held {
        return Err(TableFault {
            reason: Reason::NotIssued,
            size,
        });
    }
    Ok(handle as usize - 2)
}
