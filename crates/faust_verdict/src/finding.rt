// All that is found of a run.
ghost use Rattle.std.specs.Prelude.{◌≡◌, ◌^◌, ◌<◌, IfOk, length};
ghost use Rattle.faust_verdict.specs.Texts.{found_of};

use faust_audit::findings;
use faust_record::{Findings, RunRecord};
use faust_types::OutOfMemory;
use faust_views::views;
use std::alloc::Global;

/// The findings of a run of fewer than 2^27 entries, with the views of its clients.
pub fn found(alloc: Global, run: &RunRecord) -> Result<Findings, OutOfMemory>
    requires { length run.now.entries < 2 ^ 27 }
    ensures { IfOk result (λ found. found ≡ found_of run.now) }
{
    let views = views(alloc, run)?;
    findings(alloc, run, views)
}
