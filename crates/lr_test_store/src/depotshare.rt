//! Depots that are handed over.
use lr_depot::{Depot, DepotCall};
use lr_depotshare::depots_cross_threads;
use lr_object::Object;
use lr_origin::{MemOrigin, Origin};
use std::alloc::Global;
use std::marker::Send;
use std::test::Fail;

// What another thread would be given, where the type lets it.
fn handed_over<T: Send>(value: T) -> T {
    value
}

// Begins a root with a depot that was handed over.
fn rotate<O: Origin + Send + Drop>(alloc: Global, depot: Depot<O>) -> Depot<O> {
    depots_cross_threads::<O>();
    let mut depot = handed_over(depot);
    let salt = [7; 32];
    depot.apply(alloc, 1, DepotCall::Rotate { salt });
    depot
}

#[test]
fn a_depot_is_handed_over(rt: HostRuntime) -> Result<(), Fail> {
    let alloc = rt.alloc();
    let Ok(depot) = Depot::start(alloc, MemOrigin::new(alloc)) else {
        panic!(rt; "no memory")
    };
    let depot = rotate(alloc, rotate(alloc, depot));
    assert_eq!(rt; depot.entries(), 2);
    Ok(())
}
