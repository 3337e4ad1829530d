//! GHASH: the running product, each block by its bytes and a table of their 256 products with the hash key.
ghost use Rattle.std.specs.Prelude.{◌≡◌, ◌+◌, ◌-◌, ◌*◌, ◌/◌, ◌<◌, ◌≤◌, ◌^◌, ◌∷◌, ◌++◌, [], ℕ, length, map, take, replicate, slice_index, bit_xor};
ghost use Rattle.std.specs.List.{range_with_len};
ghost use Rattle.lr_aes.specs.Ghash.{times_x, shifted, block_product, ghash};
ghost use Rattle.lr_aes.specs.Gcm.{block_at, blocks, hash_input};
ghost use Rattle.lr_aes.specs.Products.{HasProducts, running};

use crate::tables::CARRIED;

// R: 11100001 and zeros.
const TOP: u128 = 0xe1 << 120;

#[inline(always)]
fn half_turn(v: u128) -> u128
    ensures { result ≡ times_x v }
{
    if v % 2 == 1 { (v >> 1) ^ TOP } else { v >> 1 }
}

// The product of the hash key with the block whose first byte is `b`.
fn byte_product(h: u128, b: u8) -> u128
    ensures { result ≡ block_product (b * 2 ^ 120) h }
{
    let x = (b as u128) << 120;
    let mut z = 0u128;
    let mut v = h;
    for n in 0..8u32 {
        if (x >> (127 - n)) % 2 == 1 {
            z = z ^ v;
        }
        let next = half_turn(v);
        v = next;
    }
    z
}

pub fn products(h: u128) -> [u128; 256]
    ensures { HasProducts h result }
{
    let mut table = [0u128; 256];
    for b in 0..256usize {
        table[b] = byte_product(h, b as u8);
    }
    table
}

fn carried(b: u8) -> u16
    ensures { result ≡ slice_index CARRIED b }
{
    CARRIED[b as usize]
}

#[inline(always)]
fn eight_turns(z: u128) -> u128
    ensures { result ≡ shifted z 8 }
{
    (z >> 8) ^ ((carried((z % 256) as u8) as u128) << 112)
}

fn entry(table: &[u128; 256], b: u8) -> u128
    ensures { result ≡ slice_index table.now b }
{
    table[b as usize]
}

// The product of a block with the key of the table.
#[inline(always)]
fn times_key(table: &[u128; 256], x: u128) -> u128
    ensures { (h : ℕ) → HasProducts h table.now → h < 2 ^ 128 → result ≡ block_product x h }
{
    let mut z = 0u128;
    let mut rest = x;
    for _n in 0..16u32 {
        let turned = eight_turns(z);
        z = turned ^ entry(table, (rest % 256) as u8);
        rest = rest / 256;
    }
    z
}

// The bytes of a block that isn't full, and zeros.
fn filled(rest: &[u8]) -> [u8; 16]
    requires { length rest.now ≤ 16 }
    ensures { result ≡ rest.now ++ replicate (16 - length rest.now) 0 }
{
    let mut block = [0u8; 16];
    block[..rest.len()].copy_from_slice(rest);
    block
}

// The first block of the bytes, filled with zeros.
fn front_block(rest: &[u8]) -> [u8; 16]
    ensures { result ≡ take 16 (rest.now ++ replicate 16 0) }
{
    if rest.len() < 16 {
        return filled(rest);
    }
    let mut block = [0u8; 16];
    block.copy_from_slice(&rest[..16]);
    block
}

// Block `i` of the bytes, filled with zeros.
#[inline(always)]
fn block_at(bytes: &[u8], i: usize) -> u128
    requires { 16 * i < length bytes.now }
    ensures { result ≡ block_at bytes.now i }
{
    u128::from_be_bytes(front_block(&bytes[16 * i..]))
}

// The running product over the blocks of the bytes.
fn absorb(table: &[u128; 256], y: u128, bytes: &[u8]) -> u128
    requires { length bytes.now ≤ 2 ^ 32 }
    ensures { (h : ℕ) → HasProducts h table.now → h < 2 ^ 128 → result ≡ running h y (blocks bytes.now) }
{
    let mut z = y;
    for i in 0..(bytes.len() + 15) / 16 {
        let next = times_key(table, z ^ block_at(bytes, i));
        z = next;
    }
    z
}

/// GHASH of the data of GCM under the hash key `h`.
pub fn ghash_of(h: u128, aad: &[u8], text: &[u8]) -> u128
    requires aad { length aad.now ≤ 2 ^ 32 }
    requires text { length text.now ≤ 2 ^ 32 }
    ensures { result ≡ ghash h (hash_input aad.now text.now) }
{
    let table = products(h);
    let first = absorb(&table, 0, aad);
    let second = absorb(&table, first, text);
    let lengths = ((8 * aad.len() as u128) << 64) ^ (8 * text.len() as u128);
    times_key(&table, second ^ lengths)
}
