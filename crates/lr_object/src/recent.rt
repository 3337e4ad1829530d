//! Lists of shared values, whose most recent one stands first.
ghost use Rattle.std.specs.Prelude.{◌≡◌, ◌<◌, ◌≤◌, ◌∷◌, Some, IfOk, length, map, take, slice_get, remove, vec_len, vec_capacity};
ghost use Rattle.std.specs.Arc.{arc_value};

use std::alloc::AllocError;
use std::sync::Arc;

/// One more owner of the value at a place.
pub fn owner_of<T>(values: &[Arc<T>], at: usize) -> Result<Arc<T>, AllocError>
    requires { at < length values.now }
    ensures { IfOk result (λ v. slice_get (map arc_value values.now) at ≡ Some (arc_value v)) }
{
    Arc::try_clone(&values[at])
}

/// The value at a place goes first.
pub fn raise<T: Drop>(values: &mut Vec<Arc<T>>, at: usize)
    requires { at < vec_len values.old }
    ensures values { (v : T) × (slice_get (map arc_value values.old.items) at ≡ Some v) × (map arc_value values.new.items ≡ v ∷ remove (map arc_value values.old.items) at) }
    ensures len { vec_len values.new ≡ vec_len values.old }
{
    let value = values.remove(at);
    let _ = values.insert(0, value);
}

/// A value goes first, and the last one goes where there are as many as can be.
pub fn put_first<T: Drop>(values: &mut Vec<Arc<T>>, capacity: usize, value: Arc<T>)
    requires some { 0 < capacity }
    requires within { vec_len values.old ≤ capacity }
    requires room { vec_len values.old < vec_capacity values.old }
    ensures values { map arc_value values.new.items ≡ take capacity (arc_value value ∷ map arc_value values.old.items) }
    ensures len { vec_len values.new ≤ capacity }
{
    if values.len() >= capacity {
        let _last = values.pop();
    }
    let _ = values.insert(0, value);
}
