ghost use Rattle.std.specs.Prelude.{◌≡◌, ◌+◌};
ghost use Rattle.faust_script.specs.InRange.{IsScript};
ghost use Rattle.faust_sim.specs.Play.{head_lines, played};
ghost use Rattle.faust_sim.specs.Playing.{Plays};

use crate::error::PlayError;
use crate::refusing::play_refused;
use crate::stage::Stage;
use faust_record::RunRecord;
use faust_script::Script;
use std::alloc::Global;

/// Plays the events of a script one after the other: the run that they make, or the first event that can't be played,
/// by its line and its cause.
pub fn play(alloc: Global, script: &Script) -> Result<RunRecord, PlayError>
    requires { IsScript script.now }
    ensures { Plays result (played script.now) }
{
    let mut stage = Stage::new(alloc, &script.config)?;
    let mut line = head_lines(script.format);
    for event in script.events.as_slice() {
        line += 1;
        match stage.play(event) {
            Ok(()) => {}
            Err(error) => return Err(play_refused(line, error)),
        }
    }
    let Stage {
        run,
        liar: _,
        mail: _,
    } = stage;
    Ok(run)
}

// How many lines the head of a script has.
fn head_lines(format: u8) -> u64
    ensures { result ≡ head_lines format }
{
    if format == 1 { 5 } else { 6 }
}
