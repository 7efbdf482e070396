ghost use Rattle.std.specs.Prelude.{◌≡◌, ℕ, ◌≤◌, Err, IfOk, OnOk, vec_len};
ghost use Rattle.faust_io.specs.Faults.{CountsFault};
ghost use Rattle.faust_io.specs.Jobs.{AnswersEach, CountsStart};

use crate::failed::StartError;
use crate::job::Job;
use crate::threads::{RefusedStart, give_up_each, start_and_join};
use std::sync::Wait;
use std::thread::Threads;

/// Runs jobs beside one another, each in a thread of its own.
pub trait Spawner {
    /// How many starts were refused. The number may stop at the end of 64 bits.
    ghost faults: { Self → ℕ };

    /// Of so many starts that are wanted next, so many pass before one is refused.
    ghost admits: { Self → ℕ → ℕ → Type 0 };

    /// How many of the next `wanted` starts pass before one is refused: all where none is. It counts as made
    /// those that pass and the one that is refused.
    fn admit(&mut self, wanted: usize) -> usize
        ensures admits { admits self.old wanted result }
        ensures within { result ≤ wanted }
        ensures count { faults self.new ≡ faults self.old };

    /// Counts a start that was refused. `together` alone can call it.
    fn count_fault(&mut self, refused: RefusedStart)
        ensures { CountsFault (faults self.old) (faults self.new) };

    /// Starts each job in a thread of its own, waits for all of them, and answers what they gave, in the order
    /// of the jobs. On a refusal each job that wasn't started is given up, and the started ones are waited for.
    /// `Failed` says that a start was refused, `OutOfMemory` that there was no memory, and no start.
    final fn together<R: Threads + Wait + Sync, J: Job + Send + Drop>(
        &mut self,
        rt: &R,
        jobs: Vec<J>,
    ) -> Result<Vec<J::Out>, StartError>
    where
        Self: Sized,
        J::Out: Send + Drop,
        ensures count { CountsStart result (faults self.old) (faults self.new) }

        // The k-th answer is what the k-th job gives, and no start was refused.
        ensures answers { IfOk result (λ outs. AnswersEach J.gives jobs.items outs.items) }
        ensures admitted { OnOk result (admits self.old (vec_len jobs) (vec_len jobs)) }

        // Want of memory comes before any start.
        ensures unstarted { result ≡ Err StartError.OutOfMemory → self.new ≡ self.old }
    {
        let alloc = *jobs.allocator();
        let (Ok(handles), Ok(answers)) = (
            Vec::with_capacity(alloc, jobs.len()),
            Vec::with_capacity(alloc, jobs.len()),
        ) else {
            give_up_each(jobs);
            return Err(StartError::OutOfMemory);
        };
        let admitted = self.admit(jobs.len());
        match start_and_join(rt, jobs, admitted, handles, answers) {
            Ok(answers) => Ok(answers),
            Err(refused) => {
                self.count_fault(refused);
                Err(StartError::Failed)
            }
        }
    }
}
