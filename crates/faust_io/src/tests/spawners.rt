ghost use Rattle.std.specs.Prelude.{◌≡◌, ◌+◌, ⊤};

use crate::{Job, RefusingSpawner, Spawner, StartError, ThreadSpawner};
use std::process::Abort;
use std::sync::Wait;
use std::sync::atomic::AtomicU64;
use std::sync::atomic::Ordering::SeqCst;
use std::test::Fail;
use std::thread;
use std::thread::Threads;

/// A job that doubles a number. It counts how many worked, and how many were given up.
#[derive(Drop)]
struct Doubling<'a> {
    number: u32,
    worked: &'a AtomicU64,
    given_up: &'a AtomicU64,
}

impl<'a> Job for Doubling<'a> {
    type Out = u64;

    ghost gives = { λ job answer. answer ≡ job.number + job.number };

    fn work(self) -> u64 {
        self.worked.fetch_add(1, SeqCst);
        u64::from(self.number) + u64::from(self.number)
    }

    fn give_up(self) {
        self.given_up.fetch_add(1, SeqCst);
    }
}

/// Runs the jobs of three numbers, and compares the answers, and what the jobs counted.
fn check_three<P: Spawner>(
    rt: &(impl Abort + AllocGlobal + Threads + Wait + Sync),
    spawner: &mut P,
    expected: Result<&[u64], StartError>,
    counts: (u64, u64),
) -> Result<(), Fail> {
    let (worked, given_up) = (AtomicU64::new(0), AtomicU64::new(0));
    let mut jobs = Vec::new(rt.alloc());
    for number in [4, 0, 7] {
        jobs.push(Doubling {
            number,
            worked: &worked,
            given_up: &given_up,
        })?;
    }
    match (spawner.together(rt, jobs), expected) {
        (Ok(answers), Ok(expected)) => assert_eq!(rt; answers.as_slice(), expected),
        (Err(error), Err(expected)) => assert_eq!(rt; error, expected),
        _ => panic!(rt; "with {} worked", worked.load(SeqCst)),
    }
    assert_eq!(rt; (worked.load(SeqCst), given_up.load(SeqCst)), counts);
    Ok(())
}

#[test]
fn jobs_that_arent_started_are_given_up(rt: HostRuntime) -> Result<(), Fail> {
    let all: Result<&[u64], StartError> = Ok(&[8, 0, 14]);
    let cases: [(&[u64], Result<&[u64], StartError>, (u64, u64)); 5] = [
        (&[], all, (3, 0)),
        (&[1], Err(StartError::Failed), (0, 3)),
        (&[2], Err(StartError::Failed), (1, 2)),
        (&[3], Err(StartError::Failed), (2, 1)),
        (&[4], all, (3, 0)),
    ];
    for (refused, expected, counts) in cases {
        let mut spawner = RefusingSpawner::new(rt.alloc(), refused)?;
        check_three(&rt, &mut spawner, expected, counts)?;
        assert_eq!(rt; spawner.faults(), u64::from(expected.is_err()));
    }
    Ok(())
}

#[test]
fn starts_are_numbered_over_all_calls(rt: HostRuntime) -> Result<(), Fail> {
    let mut spawner = RefusingSpawner::new(rt.alloc(), &[2, 4])?;
    check_three(&rt, &mut spawner, Err(StartError::Failed), (1, 2))?;
    check_three(&rt, &mut spawner, Err(StartError::Failed), (1, 2))?;
    check_three(&rt, &mut spawner, Ok(&[8, 0, 14]), (3, 0))?;
    assert_eq!(rt; spawner.faults(), 2);
    Ok(())
}

/// A job that waits until as many jobs work as are to meet, and answers whether they met.
#[derive(Drop)]
struct Meeting<'a> {
    here: &'a AtomicU64,
    all: u64,
}

impl<'a> Job for Meeting<'a> {
    type Out = bool;

    ghost gives = { λ _ _. ⊤ };

    fn work(self) -> bool {
        self.here.fetch_add(1, SeqCst);
        for _ in 0..10_000_000u32 {
            if self.here.load(SeqCst) >= self.all {
                return true;
            }
            thread::yield_now();
        }
        false
    }

    fn give_up(self) {}
}

#[test]
fn jobs_run_beside_one_another(rt: HostRuntime) -> Result<(), Fail> {
    let here = AtomicU64::new(0);
    let mut jobs = Vec::new(rt.alloc());
    for _ in 0..3 {
        jobs.push(Meeting {
            here: &here,
            all: 3,
        })?;
    }
    let mut spawner = ThreadSpawner::new();
    match spawner.together(&rt, jobs) {
        Ok(met) => assert_eq!(rt; met.as_slice(), [true, true, true].as_slice()),
        Err(error) => panic!(rt; "{error}"),
    }
    assert_eq!(rt; spawner.faults(), 0);
    Ok(())
}
