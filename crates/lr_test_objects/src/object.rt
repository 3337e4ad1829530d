//! Logs of a small object, and names of objects.
use crate::tally::{Tally, serve};
use lr_object::{Entry, Object, ObjectId};
use std::test::Fail;

#[test]
fn a_log_keeps_the_logged_calls_in_turn(rt: HostRuntime) -> Result<(), Fail> {
    let mut tally = Tally::new(rt.alloc());
    assert_eq!(rt; serve(rt.alloc(), &mut tally, 1, 7), Some(0));
    assert_eq!(rt; serve(rt.alloc(), &mut tally, 2, 0), None);
    assert_eq!(rt; serve(rt.alloc(), &mut tally, 2, 9), Some(1));
    assert_eq!(rt; tally.entries(), 2);
    let last = Entry {
        caller: 2,
        call: 9,
        reply: 1,
    };
    assert!(rt; tally.entry(1) == Some(&last));
    assert!(rt; tally.entry(2).is_none());
    assert!(rt; last.clone()? == last);
    Ok(())
}

#[test]
fn objects_of_one_number_differ_by_kind(rt: HostRuntime) {
    assert!(rt; ObjectId::Device(0) != ObjectId::Cache(0));
    assert!(rt; ObjectId::Node(1) == ObjectId::Node(1));
    assert!(rt; ObjectId::Depot == ObjectId::Depot);
}
