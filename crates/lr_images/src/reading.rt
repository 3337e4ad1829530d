//! Reading an image back.
ghost use Rattle.std.specs.Prelude.{◌≡◌, ◌≤◌, ◌<◌, ◌++◌, ◌∷◌, [], ℕ, suc, List, length, take, slice_get, Some, IfOk, IfErr, MatchResult};
ghost use Rattle.std.specs.Arc.{arc_value};
ghost use Rattle.std.specs.FinMap as map;
ghost use Rattle.sha2.specs.Sha256.{sha256};
ghost use Rattle.lr_spec.specs.Rose.{Rose};
ghost use Rattle.lr_spec.specs.Told.{Told};
ghost use Rattle.lr_manifest.specs.Manifest.{ManifestFields};
ghost use Rattle.lr_convergent.specs.Sealed.{chunk_text};
ghost use Rattle.lr_seal.specs.Table.{HasTag, key_list};
ghost use Rattle.lr_depot.specs.Depot.{state};
ghost use Rattle.lr_walk.specs.Walk.{Then};
ghost use Rattle.lr_walk.specs.Depot.{Step, step, fetches, fetched};
ghost use Rattle.lr_images.specs.Drive.{Calls};
ghost use Rattle.lr_images.specs.Cat.{Cats, ReadsLease, Closes, Fetches, end_of, error_end, IsFetched, IsRead, IsReadOf, IsRefusal, IsStoreAnswer, IsLeaseAnswer, IsUnsealed, IsStoreFault, Keeps, HasTexts};
ghost use Rattle.lr_images.specs.declared.reading.CatError.TheVariants.{OutOfMemory as NoMemory};

use lr_aes::AesKey;
use lr_depot::{Depot, DepotCall, DepotReply};
use lr_manifest::{CHUNK, Chunk, ChunkKey, Manifest, TenantKey};
use lr_object::Object;
use lr_origin::{ImageName, Origin};
use lr_seal::{KeyTable, UnsealError, is_denoted_by_tag};
use lr_spec::OutOfMemory;
use std::alloc::{AllocError, Global};
use std::sync::Arc;

/// Why an image wasn't read.
#[derive(Drop)]
pub enum CatError {
    /// The depot's answer: it has no such image, or its store failed or is spoiled.
    Refused(DepotReply),
    /// The tenant's key isn't the one that the image was sealed under.
    Sealed,
    /// No memory was found.
    OutOfMemory,
}

impl From<OutOfMemory> for CatError {
    ghost from_gives = { λ _ e. e ≡ NoMemory };

    fn from(_: OutOfMemory) -> CatError {
        CatError::OutOfMemory
    }
}

impl From<AllocError> for CatError {
    ghost from_gives = { λ _ e. e ≡ NoMemory };

    fn from(_: AllocError) -> CatError {
        CatError::OutOfMemory
    }
}

// Fetches the chunk of a leased image at this index.
fn fetch<O: Origin>(
    alloc: Global,
    depot: &mut Depot<O>,
    lease: u64,
    index: u32,
) -> Result<Arc<Chunk>, CatError>
    ensures walk { (own : List Step) × Calls O.faults depot.old depot.new own × MatchResult result (λ chunk. own ≡ step (fetches lease index) (fetched (sha256 (arc_value chunk))) ∷ []) (λ e. (left : ℕ) → Fetches lease (suc left) index own (error_end e)) }
    ensures keeps { Keeps O.objects depot.old depot.new }
    ensures fetched { IfOk result (λ chunk. IsFetched (O.objects depot.old.origin) (state depot.old.start depot.old.log) lease index (arc_value chunk)) }
    ensures answer { IfErr result (λ e. (image : List ℕ) (m : ManifestFields) → map.get (state depot.old.start depot.old.log).desk.leases lease ≡ Some (image, m) → index < length m.names → IsStoreAnswer e) }
    ensures fault { IfErr result (λ e. IsStoreFault e → Rose (O.faults depot.old.origin) (O.faults depot.new.origin)) }
{
    match depot.apply(alloc, 0, DepotCall::Fetch { lease, index }) {
        DepotReply::Fetched(chunk) => Ok(chunk),
        DepotReply::OutOfMemory => Err(CatError::OutOfMemory),
        other => Err(CatError::Refused(other)),
    }
}

// Decrypts the bytes of a chunk in place.
fn decrypt(key: &ChunkKey, text: &mut [u8])
    ensures { text.new ≡ chunk_text key.now.bytes text.old }
{
    AesKey::new256(&key.bytes).ctr_xor(&[0u8; 16], text)
}

// Appends the plaintext of a chunk.
fn append(chunk: Arc<Chunk>, key: &ChunkKey, bytes: &mut Vec<u8>) -> Result<(), CatError>
    ensures added { IfOk result (λ _. bytes.new.items ≡ bytes.old.items ++ chunk_text key.now.bytes (arc_value chunk)) }
    ensures memory { IfErr result (λ e. e ≡ NoMemory) }
{
    let at = bytes.len();
    bytes.extend_from_slice(chunk.bytes())?;
    let (_, tail) = bytes.split_at_mut(at);
    decrypt(key, tail);
    Ok(())
}

// Fetches a chunk and appends its plaintext.
fn add_chunk<O: Origin>(
    alloc: Global,
    depot: &mut Depot<O>,
    lease: u64,
    index: u32,
    key: &ChunkKey,
    bytes: &mut Vec<u8>,
) -> Result<(), CatError>
    ensures walk { (own : List Step) × Calls O.faults depot.old depot.new own × MatchResult result (λ _. (name : List ℕ) × (own ≡ step (fetches lease index) (fetched name) ∷ [])) (λ e. (left : ℕ) → Fetches lease (suc left) index own (error_end e)) }
    ensures keeps { Keeps O.objects depot.old depot.new }
    ensures added { IfOk result (λ _. (chunk : List ℕ) × (bytes.new.items ≡ bytes.old.items ++ chunk_text key.now.bytes chunk) × IsFetched (O.objects depot.old.origin) (state depot.old.start depot.old.log) lease index chunk) }
    ensures answer { IfErr result (λ e. (image : List ℕ) (m : ManifestFields) → map.get (state depot.old.start depot.old.log).desk.leases lease ≡ Some (image, m) → index < length m.names → IsStoreAnswer e) }
    ensures fault { IfErr result (λ e. IsStoreFault e → Rose (O.faults depot.old.origin) (O.faults depot.new.origin)) }
{
    match fetch(alloc, depot, lease, index) {
        Ok(chunk) => append(chunk, key, bytes),
        Err(error) => Err(error),
    }
}

// The key at an index.
fn key_at(keys: &KeyTable, index: u32) -> &ChunkKey
    requires { index < length keys.now }
    ensures { slice_get keys.now index ≡ Some result.now.bytes }
{
    keys.get(index).unwrap()
}

// Fetches the chunks of all keys, ascending: their plaintexts, cut to a length.
fn fetch_all<O: Origin>(
    alloc: Global,
    depot: &mut Depot<O>,
    lease: u64,
    keys: &KeyTable,
    count: u32,
    len: usize,
) -> Result<Vec<u8>, CatError>
    requires count { count ≡ length keys.now }
    ensures walk { (own : List Step) × Calls O.faults depot.old depot.new own × Fetches lease (length keys.now) 0 own (end_of result) }
    ensures keeps { Keeps O.objects depot.old depot.new }
    ensures texts { IfOk result (λ v. (text : List ℕ) × HasTexts (O.objects depot.old.origin) (state depot.old.start depot.old.log) lease keys.now (length keys.now) text × (v.items ≡ take len text)) }
    ensures answer { IfErr result (λ e. (image : List ℕ) (m : ManifestFields) → map.get (state depot.old.start depot.old.log).desk.leases lease ≡ Some (image, m) → length keys.now ≡ length m.names → IsStoreAnswer e) }
    ensures fault { IfErr result (λ e. IsStoreFault e → Rose (O.faults depot.old.origin) (O.faults depot.new.origin)) }
{
    let mut bytes = Vec::with_capacity(alloc, count as usize * CHUNK)?;
    for index in 0..count {
        let key = key_at(keys, index);
        match add_chunk(alloc, depot, lease, index, key, &mut bytes) {
            Ok(()) => {}
            Err(error) => return Err(error),
        }
    }
    bytes.truncate(len);
    Ok(bytes)
}

// The keys of a manifest.
fn unseal(alloc: Global, manifest: &Manifest, tenant: &TenantKey) -> Result<KeyTable, CatError>
    ensures { MatchResult result (λ t. HasTag manifest.now tenant.now.bytes × (t ≡ key_list manifest.now tenant.now.bytes)) (λ e. IsUnsealed e manifest.now tenant.now.bytes) }
{
    match KeyTable::unseal(alloc, manifest, tenant) {
        Ok(keys) => Ok(keys),
        Err(UnsealError::Sealed) => Err(CatError::Sealed),
        Err(UnsealError::OutOfMemory) => Err(CatError::OutOfMemory),
    }
}

// Reads a leased image: its bytes.
fn read_leased<O: Origin>(
    alloc: Global,
    depot: &mut Depot<O>,
    lease: u64,
    manifest: &Manifest,
    tenant: &TenantKey,
) -> Result<Vec<u8>, CatError>
    ensures walk { (own : List Step) × Calls O.faults depot.old depot.new own × ReadsLease tenant.now.bytes lease manifest.now own (end_of result) }
    ensures keeps { Keeps O.objects depot.old depot.new }
    ensures read { IfOk result (λ v. (image : List ℕ) → map.get (state depot.old.start depot.old.log).desk.leases lease ≡ Some (image, manifest.now) → IsReadOf (O.objects depot.old.origin) (state depot.old.start depot.old.log).known.view image tenant.now.bytes manifest.now v.items) }
    ensures answer { IfErr result (λ e. (image : List ℕ) → map.get (state depot.old.start depot.old.log).desk.leases lease ≡ Some (image, manifest.now) → IsLeaseAnswer e) }
    ensures fault { IfErr result (λ e. IsStoreFault e → Rose (O.faults depot.old.origin) (O.faults depot.new.origin)) }
{
    is_denoted_by_tag();
    let count = manifest.names().len() as u32;
    let len = manifest.raw_len() as usize;
    match unseal(alloc, manifest, tenant) {
        Ok(keys) => fetch_all(alloc, depot, lease, &keys, count, len),
        Err(error) => Err(error),
    }
}

// Reads a leased image, and closes the lease.
fn read_and_close<O: Origin>(
    alloc: Global,
    depot: &mut Depot<O>,
    lease: u64,
    manifest: &Manifest,
    tenant: &TenantKey,
) -> Result<Vec<u8>, CatError>
    ensures walk { (own : List Step) × Calls O.faults depot.old depot.new own × Then (ReadsLease tenant.now.bytes lease manifest.now) (Closes lease) own (end_of result) }
    ensures kept { Told (O.objects depot.old.origin) (λ m. O.objects depot.new.origin ≡ Some m) }
    ensures read { IfOk result (λ v. (image : List ℕ) → map.get (state depot.old.start depot.old.log).desk.leases lease ≡ Some (image, manifest.now) → IsReadOf (O.objects depot.old.origin) (state depot.old.start depot.old.log).known.view image tenant.now.bytes manifest.now v.items) }
    ensures answer { IfErr result (λ e. (image : List ℕ) → map.get (state depot.old.start depot.old.log).desk.leases lease ≡ Some (image, manifest.now) → IsLeaseAnswer e) }
    ensures fault { IfErr result (λ e. IsStoreFault e → Rose (O.faults depot.old.origin) (O.faults depot.new.origin)) }
{
    let read = read_leased(alloc, depot, lease, manifest, tenant);
    let _closed = depot.apply(alloc, 0, DepotCall::Close { lease });
    read
}

/// Reads an image back under a tenant's key, as caller 0: its raw bytes.
///
/// The image is leased, all its chunks are fetched, ascending, and the lease is closed, also where the reading ended early.
pub fn cat<O: Origin>(
    alloc: Global,
    depot: &mut Depot<O>,
    image: ImageName,
    tenant: &TenantKey,
) -> Result<Vec<u8>, CatError>
    ensures walk { (steps : List Step) × Calls O.faults depot.old depot.new steps × Cats image tenant.now.bytes steps (end_of result) × IfOk result (λ v. IsRead O.objects depot.old image tenant.now.bytes steps v.items) }
    ensures kept { Told (O.objects depot.old.origin) (λ m. O.objects depot.new.origin ≡ Some m) }
    ensures refusal { IfErr result (IsRefusal (state depot.old.start depot.old.log).known.view image) }
    ensures fault { IfErr result (λ e. IsStoreFault e → Rose (O.faults depot.old.origin) (O.faults depot.new.origin)) }
{
    match depot.apply(alloc, 0, DepotCall::OpenImage { image }) {
        DepotReply::Opened { lease, manifest } => {
            read_and_close(alloc, depot, lease, &manifest, tenant)
        }
        DepotReply::OutOfMemory => Err(CatError::OutOfMemory),
        other => Err(CatError::Refused(other)),
    }
}
