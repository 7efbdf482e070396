ghost use Rattle.std.specs.Prelude.{◌≡◌, length, IfNone};
ghost use Rattle.faust_types.specs.Ranges.{IsConfig};
ghost use Rattle.faust_record.specs.Merging.{AreEachBelow, AreOfConfig, Merges, first_stranger, gathered, merged, numbers_of};
ghost use Rattle.faust_record.specs.Journals.{AreJournals};

use crate::errors::MergeError;
use crate::feeding::feed;
use crate::journal::Journals;
use crate::placing::{put_arrivals, put_journals, room_for};
use crate::run_record::RunRecord;
use faust_types::{Arrivals, Config};
use std::alloc::Global;

impl RunRecord {
    /// The record of all entries of journals of runs with this config, as many as there are clients, and of arrivals,
    /// in the order of their numbers. These are the numbers below some m, each once. What is handed in isn't copied.
    pub fn merge(
        alloc: Global,
        config: Config,
        journals: Journals,
        arrivals: Arrivals,
    ) -> Result<RunRecord, MergeError>
        requires config { IsConfig config }
        requires count { length journals ≡ config.clients }
        requires one_config { AreOfConfig config journals }
        requires numbers { AreEachBelow (numbers_of (gathered journals arrivals)) }
        ensures { Merges result (merged config journals arrivals) }
    {
        if let Some(stranger) = first_stranger(config.clients, &journals) {
            return Err(stranger);
        }
        let mut entries = room_for(alloc, &journals, &arrivals)?;
        put_arrivals(arrivals, &mut entries);
        let agents = put_journals(alloc, journals, &mut entries)?;
        let outboxes = feed(alloc, config.clients, &entries)?;
        Ok(RunRecord::from_parts(config, agents, outboxes, entries))
    }
}

// The first journal that is of another client than its place says.
fn first_stranger(n: u8, journals: &Journals) -> Option<MergeError>
    requires { length journals.now ≡ n }
    ensures stranger { result ≡ first_stranger 1 journals.now }
    ensures journals { IfNone result (AreJournals journals.now) }
{
    for before in 0..n {
        let place = before + 1;
        let client = journals.at(usize::from(before)).client();
        if client != place {
            return Some(MergeError::Client { place, client });
        }
    }
    None
}
