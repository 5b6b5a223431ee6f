// The counter of numbers.
use lsm_state::{Error, SequenceNumberCounter};

#[test]
fn ends_at_the_limit(rt: HostRuntime) {
    let mut counter = SequenceNumberCounter::new(9_223_372_036_854_775_807);
    assert!(rt; matches!(counter.next(), Ok(9_223_372_036_854_775_807)));
    assert!(rt; matches!(counter.next(), Err(Error::OutOfNumbers)));
    assert_eq!(rt; counter.get(), 9_223_372_036_854_775_808);
}
