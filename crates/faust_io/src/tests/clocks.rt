use crate::{Clock, ListClock, StdClock};
use std::test::Fail;

#[test]
fn clocks_in_memory_give_their_list_and_end(rt: HostRuntime) -> Result<(), Fail> {
    let mut clock = ListClock::new(rt.alloc(), &[5, 5, 1_099_511_627_775])?;
    for expected in [Some(5), Some(5), Some(1_099_511_627_775), None, None] {
        assert_eq!(rt; clock.next(), expected);
    }
    assert_eq!(rt; clock.ends(), 2);
    Ok(())
}

#[test]
fn clocks_of_std_go_on_by_their_period(rt: HostRuntime) -> Result<(), Fail> {
    let mut clock = StdClock::new(&rt, 2);
    assert_eq!(rt; clock.next(), Some(2));
    assert_eq!(rt; clock.next(), Some(4));
    assert_eq!(rt; clock.ends(), 0);

    let mut spent = StdClock::new(&rt, 1_099_511_627_776);
    assert_eq!(rt; spent.next(), None);
    assert_eq!(rt; spent.ends(), 1);
    Ok(())
}
