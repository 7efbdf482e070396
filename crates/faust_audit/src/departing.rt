ghost use Rattle.std.specs.Prelude.{◌≡◌, IfOk};
ghost use Rattle.faust_audit.specs.Departure.{first_departure};

use crate::owing::Owing;
use faust_record::RunRecord;
use faust_types::OutOfMemory;
use std::alloc::Global;

/// The number of the first entry in which a client was handed another reply than the one that was due to it: the next
/// reply to it of the honest server, run over the messages that arrived before. None exactly where there is none.
pub fn departure(alloc: Global, rec: &RunRecord) -> Result<Option<u64>, OutOfMemory>
    ensures { IfOk result (λ found. found ≡ first_departure rec.now.config rec.now.entries) }
{
    let config = rec.config();
    let mut owing = Owing::new(alloc, config.clients)?;
    for q in 0..rec.len() {
        let entry = rec.entry_at(q);
        if owing.follow(alloc, config, entry)? {
            return Ok(Some(entry.number));
        }
    }
    Ok(None)
}
