//! Whether a run is clean.
ghost use Rattle.std.specs.Prelude.{◌≡◌, IfOk};
ghost use Rattle.faust_premises.specs.Premises.{premises_of, verdict_on_collision};
ghost use Rattle.faust_audit.specs.Audited.{verdict_in};
ghost use Rattle.faust_audit.specs.Tables.{collision_in};

use crate::answers::Premises;
use crate::input_table::Colliding;
use crate::pass::Pass;
use faust_hash::PreparedKey;
use faust_record::RunRecord;
use faust_types::OutOfMemory;
use std::alloc::Global;

/// Whether a run is clean. A forgery goes before a collision.
pub fn premises(alloc: Global, rec: &RunRecord) -> Result<Premises, OutOfMemory>
    ensures { IfOk result (λ found. verdict_in found ≡ premises_of rec.now) }
{
    let config = rec.config();
    let key = PreparedKey::new(config.key.as_slice());
    let mut pass = Pass::new(alloc, config)?;
    for q in 0..rec.len() {
        let Some(entry) = rec.entry(q) else {
            return Ok(Premises::Clean);
        };
        if let Some(body) = pass.step(alloc, config, &key, entry)? {
            return Ok(Premises::Forged {
                entry: entry.number,
                body,
            });
        }
    }
    Ok(on_collision(pass.collected.into_found()))
}

fn on_collision(found: Option<Colliding>) -> Premises
    ensures { verdict_in result ≡ verdict_on_collision (collision_in found) }
{
    match found {
        None => Premises::Clean,
        Some(Colliding { first, second }) => Premises::Collision { first, second },
    }
}
