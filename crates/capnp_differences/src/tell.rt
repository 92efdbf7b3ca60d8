//! Differences as they are told, one after another.
ghost use Rattle.std.specs.Prelude.{ℕ, ◌≡◌, IfErr, OnOk, Some};
ghost use Rattle.capnp_device.specs.declared.error.ErrorKind.TheVariants.{OutOfMemory};
ghost use Rattle.capnp_differences.specs.Differences.{unless};
ghost use Rattle.capnp_differences.specs.Steps.Telling.{IsOf, Orders, TakesTurn, Tells};

use crate::differences::{Cause, Difference, Pair};
use capnp_wire::error::Result;

/// The cause of a difference, where something is no longer the same.
pub(crate) fn unless(same: bool, cause: Cause) -> Option<Cause>
    ensures { result ≡ unless same cause }
{
    if same { None } else { Some(cause) }
}

/// Tells a difference of a pair, where there is a cause.
pub(crate) fn tell(
    told: &mut Vec<Difference>,
    pair: Pair,
    field: Option<u16>,
    cause: Option<Cause>,
) -> Result<()>
    ensures told { OnOk result (Tells told.old.items told.new.items (IsOf pair field (λ c. cause ≡ Some c))) }
    ensures turn { OnOk result ((low high : ℕ) → TakesTurn field cause low high
        → Orders told.old.items told.new.items pair low high) }
    ensures refused { IfErr result (λ e. e.kind ≡ OutOfMemory) }
{
    match cause {
        Some(found) => {
            told.push(Difference {
                pair,
                field,
                cause: found,
            })?;
            Ok(())
        }
        None => Ok(()),
    }
}
