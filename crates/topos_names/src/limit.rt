// The limits of counts.
ghost use Rattle.std.specs.Prelude.{◌≡◌, None, IfErr, OnOk};
ghost use Rattle.topos_text.specs.Names.{limit_fault};
ghost use Rattle.topos_names.specs.Spaces.{limits};
ghost use Rattle.topos_names.specs.Stops.{Blames};

use crate::NameStop;
use topos_model::{Fault, Kind};
use topos_tokens::limit_of;

// There may be one more than so many of the kind.
#[tactic(auto, unfolding(topos_text::specs::Names::limit_fault))]
pub(crate) fn one_more(kind: Kind, count: u64) -> Result<(), NameStop>
    ensures ok { OnOk result (limit_fault kind (limits kind) count ≡ None) }
    ensures fault { IfErr result (λ s. Blames (limit_fault kind (limits kind) count) s) }
{
    let limit = limit_of(kind);
    if u64::from(limit) <= count {
        return Err(NameStop::Fault(Fault::TooMany { kind, limit }));
    }
    Ok(())
}
