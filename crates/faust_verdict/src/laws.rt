//! What is promised of every run. The function has an empty body, and its contract is the law.
ghost use Rattle.faust_record.specs.Runs.{IsRun, Run};
ghost use Rattle.faust_verdict.specs.Headline.{IsPromised};

/// The headline holds of every run that is clean; and no tag is forged in one where no reply departed and nothing came to
/// a client from another client.
pub fn every_run_is_promised()
    ensures { (run : Run) → IsRun run.config run.entries → IsPromised run }
{}
