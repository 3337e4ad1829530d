//! A small object that callers share.
use crate::tally::Tally;
use lr_object::Object;
use lr_turn::{NoMemory, Shared};
use std::test::Fail;

#[test]
fn want_of_memory_of_one_gives_the_turn_to_another(rt: HostRuntime) -> Result<(), Fail> {
    let alloc = rt.alloc();
    match Shared::new(alloc, Tally::new(alloc)) {
        Ok((shared, mut first)) => {
            let mut one = shared.split(&mut first, 1);
            let mut two = shared.split(&mut first, 5);
            assert_eq!(rt; shared.call(&rt, alloc, &mut one, 0), None);
            assert_eq!(rt; shared.count(&mut first), 0);
            assert_eq!(rt; shared.call(&rt, alloc, &mut two, 7), Some(0));
            assert_eq!(rt; shared.call(&rt, alloc, &mut one, 0), None);
            assert_eq!(rt; shared.call(&rt, alloc, &mut one, 9), Some(1));
            assert_eq!(rt; shared.count(&mut first), 2);
            Ok(())
        }
        Err(NoMemory { state }) => {
            assert_eq!(rt; state.entries(), 0);
            panic!(rt; "no memory")
        }
    }
}
