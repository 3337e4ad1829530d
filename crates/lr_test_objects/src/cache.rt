//! Claims by hand, and many of them.
ghost use Rattle.std.specs.Prelude.{◌≡◌, IfOk, length};

use crate::tally::serve;
use lr_cache::{Cache, CacheCall, CacheReply};
use lr_manifest::{CHUNK, Chunk, Name};
use lr_object::Object;
use std::alloc::{AllocError, Global};
use std::sync::Arc;
use std::test::Fail;

fn chunk_of(alloc: Global, byte: u8) -> Result<Chunk, AllocError>
    ensures { IfOk result (λ c. length c ≡ 524288) }
{
    Ok(Chunk::of(vec![in alloc; byte; CHUNK]?))
}

fn look(alloc: Global, cache: &mut Cache, caller: u32, chunk: &Arc<Chunk>) -> CacheReply {
    let name = *chunk.name();
    serve(alloc, cache, caller, CacheCall::Look { name })
}

fn fill(alloc: Global, cache: &mut Cache, caller: u32, chunk: &Arc<Chunk>) -> CacheReply {
    match Arc::try_clone(chunk) {
        Ok(chunk) => serve(alloc, cache, caller, CacheCall::Fill { chunk }),
        Err(_) => CacheReply::OutOfMemory,
    }
}

#[test]
fn claims_by_hand(rt: HostRuntime) -> Result<(), Fail> {
    let alloc = rt.alloc();
    let mut cache = Cache::new(alloc, 1)?;
    let x = Arc::new(alloc, chunk_of(alloc, 1)?)?;
    let y = Arc::new(alloc, chunk_of(alloc, 2)?)?;
    assert!(rt; matches!(look(alloc, &mut cache, 1, &x), CacheReply::Lead));
    assert!(rt;
        matches!(
            look(alloc, &mut cache, 2, &x),
            CacheReply::Busy { holder: 1 }
        )
    );
    assert!(rt; matches!(look(alloc, &mut cache, 2, &y), CacheReply::Lead));
    assert!(rt; matches!(fill(alloc, &mut cache, 1, &x), CacheReply::Filled));
    assert!(rt; matches!(look(alloc, &mut cache, 2, &x), CacheReply::Held));
    assert!(rt; matches!(fill(alloc, &mut cache, 1, &x), CacheReply::NoClaim));
    assert!(rt; matches!(fill(alloc, &mut cache, 2, &y), CacheReply::Filled));
    assert!(rt; matches!(look(alloc, &mut cache, 1, &x), CacheReply::Lead));
    assert!(rt;
        matches!(
            serve(alloc, &mut cache, 1, CacheCall::GiveUp),
            CacheReply::Given
        )
    );
    assert!(rt;
        matches!(
            serve(alloc, &mut cache, 1, CacheCall::GiveUp),
            CacheReply::NoClaim
        )
    );
    assert!(rt; matches!(look(alloc, &mut cache, 1, &y), CacheReply::Hit(_)));
    assert!(rt;
        matches!(
            serve(alloc, &mut cache, 1, CacheCall::Evict),
            CacheReply::Evicted(1)
        )
    );
    assert!(rt;
        matches!(
            serve(alloc, &mut cache, 1, CacheCall::Reap),
            CacheReply::Nothing
        )
    );
    // Held, Busy and Nothing aren't logged.
    assert_eq!(rt; cache.entries(), 10);
    assert!(rt; cache.entry(10).is_none());
    Ok(())
}

#[test]
fn a_reap_ends_the_claim_of_its_caller(rt: HostRuntime) -> Result<(), Fail> {
    let alloc = rt.alloc();
    let mut cache = Cache::new(alloc, 2)?;
    let x = Arc::new(alloc, chunk_of(alloc, 1)?)?;
    assert!(rt; matches!(look(alloc, &mut cache, 1, &x), CacheReply::Lead));
    assert!(rt;
        matches!(
            serve(alloc, &mut cache, 2, CacheCall::Reap),
            CacheReply::Nothing
        )
    );
    assert!(rt;
        matches!(
            serve(alloc, &mut cache, 1, CacheCall::Reap),
            CacheReply::Reaped
        )
    );
    assert!(rt; matches!(look(alloc, &mut cache, 2, &x), CacheReply::Lead));
    Ok(())
}

// The name of a number, big-endian in front.
fn name_of(number: u32) -> Name {
    let [a, b, c, d] = number.to_be_bytes();
    let mut bytes = [0u8; 32];
    bytes[0] = a;
    bytes[1] = b;
    bytes[2] = c;
    bytes[3] = d;
    Name { bytes }
}

// Each caller leads on a name of its own; the next one finds it busy. Then the even ones give up and the odd ones are
// reaped, and a Reap of nothing is answered without an entry.
#[test]
fn a_thousand_claims_are_out_and_end(rt: HostRuntime) -> Result<(), Fail> {
    let alloc = rt.alloc();
    let mut cache = Cache::new(alloc, 1024)?;
    for caller in 0..1_000u32 {
        let name = name_of(caller);
        let look = serve(alloc, &mut cache, caller, CacheCall::Look { name });
        assert!(rt; matches!(look, CacheReply::Lead), "caller {caller}");
        let look = serve(alloc, &mut cache, caller + 1, CacheCall::Look { name });
        assert!(rt; matches!(look, CacheReply::Busy { holder } if holder == caller));
    }
    for caller in 0..1_000u32 {
        if caller % 2 == 0 {
            let ended = serve(alloc, &mut cache, caller, CacheCall::GiveUp);
            assert!(rt; matches!(ended, CacheReply::Given), "caller {caller}");
        } else {
            let ended = serve(alloc, &mut cache, caller, CacheCall::Reap);
            assert!(rt; matches!(ended, CacheReply::Reaped), "caller {caller}");
        }
        let again = serve(alloc, &mut cache, caller, CacheCall::Reap);
        assert!(rt; matches!(again, CacheReply::Nothing), "caller {caller}");
    }
    assert_eq!(rt; cache.entries(), 2_000);
    Ok(())
}
