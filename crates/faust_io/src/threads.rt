ghost use Rattle.std.specs.Prelude.{◌≡◌, ◌≤◌, [], IsTrue, IfOk, IfSome, vec_len, vec_capacity};
ghost use Rattle.faust_io.specs.Jobs.{AnswersEach};
ghost use Rattle.faust_io.specs.Started.{jobs_of};

use crate::job::Job;
use std::snapshot::Snapshot;
use std::sync::Wait;
use std::sync::atomic::AtomicUsize;
use std::sync::atomic::Ordering::SeqCst;
use std::thread;
use std::thread::{Promise, PromisedHandle, Scope, Threads};

/// That a start was refused: nobody else can say so.
#[derive(Debug, Drop)]
pub struct RefusedStart {
    said_here: (),
}

/// What the thread of a job owes: an answer of the job, or none where the job was given up.
#[derive(Drop)]
pub struct AnswerOf<J>(Snapshot<J>);

impl<J: Job> Promise<Option<J::Out>> for AnswerOf<J> {
    ghost kept_by = { λ promise answer. IfSome answer (J.gives promise.0.value) };
}

/// The thread of a job.
pub type Started<J> = PromisedHandle<Option<<J as Job>::Out>, AnswerOf<J>>;

/// Gives all jobs up.
pub fn give_up_each<J: Job + Drop>(jobs: Vec<J>) {
    for job in jobs {
        job.give_up();
    }
}

/// Starts the first `admitted` jobs, gives the others up, and joins the threads. It answers what all jobs gave.
pub fn start_and_join<R: Threads + Wait + Sync, J: Job + Send + Drop>(
    rt: &R,
    jobs: Vec<J>,
    admitted: usize,
    handles: Vec<Started<J>>,
    answers: Vec<J::Out>,
) -> Result<Vec<J::Out>, RefusedStart>
where
    J::Out: Send + Drop,
    requires handles { (handles.items ≡ []) × (vec_len jobs ≤ vec_capacity handles) }
    requires answers { (answers.items ≡ []) × (vec_len jobs ≤ vec_capacity answers) }
    ensures all { IfOk result (λ _. vec_len jobs ≤ admitted) }
    ensures answers { IfOk result (λ outs. AnswersEach J.gives jobs.items outs.items) }
{
    let refused = AtomicUsize::new(usize::MAX);
    let refused = &refused;
    thread::scope(
        thread::scope_env(),
        rt,
        move |scope| -> Result<Vec<J::Out>, RefusedStart>
            requires { (handles.items ≡ []) × (vec_len jobs ≤ vec_capacity handles) × (answers.items ≡ []) × (vec_len jobs ≤ vec_capacity answers) }
            ensures { IfOk result (λ outs. (vec_len jobs ≤ admitted) × AnswersEach J.gives jobs.items outs.items) }
        {
            let mut handles = handles;
            let all = start_each(scope, jobs, admitted, refused, &mut handles);
            let answers = join_each(rt, handles, answers)?;
            if all {
                Ok(answers)
            } else {
                Err(RefusedStart { said_here: () })
            }
        },
    )
}

/// Starts the first `admitted` jobs in order, until a start is refused, and gives the others up. It answers
/// whether all were started.
fn start_each<'s, S: 's, J: Job + Send + Drop + 's>(
    scope: &Scope<'s, S>,
    jobs: Vec<J>,
    admitted: usize,
    refused: &'s AtomicUsize,
    handles: &mut Vec<Started<J>>,
) -> bool
where
    J::Out: Send + Drop + 's,
    requires empty { handles.old.items ≡ [] }
    requires room { vec_len jobs ≤ vec_capacity handles.old }
    ensures all { IsTrue result → (vec_len jobs ≤ admitted) × (jobs_of handles.new.items ≡ jobs.items) }
    ensures few { vec_len handles.new ≤ vec_len jobs }
{
    let mut all = true;
    for job in jobs {
        let number = handles.len();
        all = all && number < admitted;
        match start_or_give_up(scope, all, number, job, refused) {
            Some(handle) => handles.push(handle).unwrap(),
            None => all = false,
        }
    }
    all
}

/// Starts a job, or gives it up where it may not start or its start is refused.
fn start_or_give_up<'s, S: 's, J: Job + Send + Drop + 's>(
    scope: &Scope<'s, S>,
    may_start: bool,
    number: usize,
    job: J,
    refused: &'s AtomicUsize,
) -> Option<Started<J>>
where
    J::Out: Send + Drop + 's,
    ensures may { IfSome result (λ _. IsTrue may_start) }
    ensures job { IfSome result (λ handle. handle.promise.0.value ≡ job) }
{
    if !may_start {
        job.give_up();
        return None;
    }
    let answer = AnswerOf(Snapshot::of(&job));
    let work = move || {
        if refused.load(SeqCst) == number {
            job.give_up();
            None
        } else {
            Some(job.work())
        }
    };
    match scope.spawn_with(answer, work) {
        Ok(handle) => Some(handle),
        Err(unstarted) => {
            refused.store(number, SeqCst);
            let _ = (unstarted.value)();
            None
        }
    }
}

/// Joins the threads in order. A job that gave nothing wasn't started.
fn join_each<R: Threads, J: Job + Drop>(
    rt: &R,
    handles: Vec<Started<J>>,
    answers: Vec<J::Out>,
) -> Result<Vec<J::Out>, RefusedStart>
where
    J::Out: Send + Drop,
    requires empty { answers.items ≡ [] }
    requires room { vec_len handles ≤ vec_capacity answers }
    ensures { IfOk result (λ outs. AnswersEach J.gives (jobs_of handles.items) outs.items) }
{
    let mut answers = answers;
    let mut all = true;
    for handle in handles {
        match handle.join(rt) {
            Some(answer) => answers.push(answer).unwrap(),
            None => all = false,
        }
    }
    if all {
        Ok(answers)
    } else {
        Err(RefusedStart { said_here: () })
    }
}
