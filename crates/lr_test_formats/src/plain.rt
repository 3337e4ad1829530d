//! The standards in their own words, slowly and without tables: what the tests compare the fast bodies with.
ghost use Rattle.std.specs.Prelude.{◌≡◌, ◌+◌, ◌*◌, ◌<◌, ◌≤◌, length};

// The product of two bytes as polynomials, and its remainder by x^8 + x^4 + x^3 + x + 1.
fn product(a: u8, b: u8) -> u8 {
    let mut p = 0u32;
    for i in 0..8u32 {
        if (a >> i) & 1 == 1 {
            p ^= (b as u32) << i;
        }
    }
    for n in (0..7u32).rev() {
        if (p >> (n + 8)) & 1 == 1 {
            p ^= 0x11b << n;
        }
    }
    (p % 256) as u8
}

fn inverse(a: u8) -> u8 {
    for x in 1..=255u8 {
        if product(a, x) == 1 {
            return x;
        }
    }
    0
}

fn bit(a: u8, i: u32) -> u8 {
    (a >> (i % 8)) & 1
}

fn sub_byte(b: u8) -> u8 {
    let a = inverse(b);
    let mut s = 0u8;
    for i in 0..8u32 {
        let image = bit(a, i)
            ^ bit(a, i + 4)
            ^ bit(a, i + 5)
            ^ bit(a, i + 6)
            ^ bit(a, i + 7)
            ^ bit(0x63, i);
        s |= image << i;
    }
    s
}

fn sub_bytes(s: [u8; 16]) -> [u8; 16] {
    let mut t = [0u8; 16];
    for k in 0..16usize {
        t[k] = sub_byte(s[k]);
    }
    t
}

fn shift_rows(s: [u8; 16]) -> [u8; 16] {
    let mut t = [0u8; 16];
    for k in 0..16usize {
        t[k] = s[k % 4 + 4 * ((k / 4 + k % 4) % 4)];
    }
    t
}

// The byte `d` rows below byte `k` in its column.
fn below(s: &[u8; 16], k: usize, d: usize) -> u8
    requires at { k < 16 }
    requires rows { d < 4 }
{
    s[(k + d) % 4 + 4 * (k / 4)]
}

fn mix_columns(s: [u8; 16]) -> [u8; 16] {
    let mut t = [0u8; 16];
    for k in 0..16usize {
        t[k] = product(2, below(&s, k, 0))
            ^ product(3, below(&s, k, 1))
            ^ below(&s, k, 2)
            ^ below(&s, k, 3);
    }
    t
}

fn add_round_key(s: [u8; 16], w: &[[u8; 4]; 60], n: usize) -> [u8; 16]
    requires { n < 15 }
{
    let mut t = [0u8; 16];
    for k in 0..16usize {
        let word = w[4 * n + k / 4];
        t[k] = s[k] ^ word[k % 4];
    }
    t
}

fn sub_word(t: [u8; 4]) -> [u8; 4] {
    [
        sub_byte(t[0]),
        sub_byte(t[1]),
        sub_byte(t[2]),
        sub_byte(t[3]),
    ]
}

fn rot_word(t: [u8; 4]) -> [u8; 4] {
    [t[1], t[2], t[3], t[0]]
}

fn add_words(u: [u8; 4], v: [u8; 4]) -> [u8; 4] {
    [u[0] ^ v[0], u[1] ^ v[1], u[2] ^ v[2], u[3] ^ v[3]]
}

// The word whose first byte is 2 to the power `i` in the field.
fn round_constant(i: usize) -> [u8; 4] {
    let mut c = 1u8;
    for _ in 0..i {
        c = product(2, c);
    }
    [c, 0, 0, 0]
}

// What word `i` takes from the word `t` before it.
fn scheduled(t: [u8; 4], nk: usize, i: usize) -> [u8; 4]
    requires low { 4 ≤ nk }
    requires from { nk ≤ i }
{
    if i % nk == 0 {
        return add_words(sub_word(rot_word(t)), round_constant(i / nk - 1));
    }
    if nk == 8 && i % 8 == 4 {
        return sub_word(t);
    }
    t
}

// The schedule of a key of `nk` words, of which `4 * (nk + 7)` are made.
fn schedule(key: &[u8], nk: usize) -> [[u8; 4]; 60]
    requires low { 4 ≤ nk }
    requires high { nk ≤ 8 }
    requires long { length key.now ≡ 4 * nk }
{
    let mut w = [[0u8; 4]; 60];
    for i in 0..nk {
        w[i] = [key[4 * i], key[4 * i + 1], key[4 * i + 2], key[4 * i + 3]];
    }
    for i in nk..4 * (nk + 7) {
        let word = add_words(w[i - nk], scheduled(w[i - 1], nk, i));
        w[i] = word;
    }
    w
}

/// The block under a key of 16 or of 32 bytes (FIPS 197, section 5).
pub fn encrypted(key: &[u8], nk: usize, block: [u8; 16]) -> [u8; 16]
    requires low { 4 ≤ nk }
    requires high { nk ≤ 8 }
    requires long { length key.now ≡ 4 * nk }
{
    let w = schedule(key, nk);
    let mut s = add_round_key(block, &w, 0);
    for n in 1..nk + 6 {
        let next = add_round_key(mix_columns(shift_rows(sub_bytes(s))), &w, n);
        s = next;
    }
    add_round_key(shift_rows(sub_bytes(s)), &w, nk + 6)
}

/// Byte `t` of the key stream of counter mode (SP 800-38A, section 6.5).
pub fn stream_byte(key: &[u8; 32], first: &[u8; 16], t: usize) -> u8 {
    let counter = u128::from_be_bytes(*first).wrapping_add((t / 16) as u128);
    let pad = encrypted(key, 8, counter.to_be_bytes());
    pad[t % 16]
}

// The product of two blocks, bit by bit (SP 800-38D, section 6.3).
fn block_product(x: u128, y: u128) -> u128 {
    let mut z = 0u128;
    let mut v = y;
    for i in 0..128u32 {
        if (x >> (127 - i)) & 1 == 1 {
            z ^= v;
        }
        let out = v & 1;
        v >>= 1;
        if out == 1 {
            v ^= 0xe1 << 120;
        }
    }
    z
}

fn power(h: u128, n: usize) -> u128
    requires { 1 ≤ n }
{
    let mut p = h;
    for _ in 1..n {
        p = block_product(p, h);
    }
    p
}

// Block `i` of the bytes, filled with zeros.
fn block_at(bytes: &[u8], i: usize) -> u128
    requires at { i ≤ 1000 }
    requires small { length bytes.now ≤ 1000 }
{
    let mut block = [0u8; 16];
    for k in 0..16usize {
        if 16 * i + k < bytes.len() {
            block[k] = bytes[16 * i + k];
        }
    }
    u128::from_be_bytes(block)
}

/// GHASH of the additional data, the cipher text and their lengths: the sum of the products of the blocks with
/// the powers of the hash key (SP 800-38D, sections 6.4 and 7.1).
pub fn ghash(h: u128, aad: &[u8], text: &[u8]) -> u128
    requires aad { length aad.now ≤ 1000 }
    requires text { length text.now ≤ 1000 }
{
    let front = (aad.len() + 15) / 16;
    let n = front + (text.len() + 15) / 16 + 1;
    let mut sum = 0u128;
    for i in 0..n {
        let x = if i < front {
            block_at(aad, i)
        } else if i + 1 < n {
            block_at(text, i - front)
        } else {
            ((8 * aad.len() as u128) << 64) ^ (8 * text.len() as u128)
        };
        sum ^= block_product(x, power(h, n - i));
    }
    sum
}

// inc32 (SP 800-38D, section 6.2).
fn inc32(block: [u8; 16]) -> [u8; 16] {
    let last = u32::from_be_bytes([block[12], block[13], block[14], block[15]])
        .wrapping_add(1)
        .to_be_bytes();
    let mut next = block;
    next[12] = last[0];
    next[13] = last[1];
    next[14] = last[2];
    next[15] = last[3];
    next
}

// The nonce, 31 zero bits and a one bit.
fn first_counter(nonce: &[u8; 12]) -> [u8; 16] {
    let mut block = [0u8; 16];
    for k in 0..12usize {
        block[k] = nonce[k];
    }
    block[15] = 1;
    block
}

/// The cipher text of a plain text, in place, and the plain text of a cipher text (SP 800-38D, section 7.1).
pub fn gcm_text(key: &[u8], nk: usize, nonce: &[u8; 12], text: &mut [u8])
    requires low { 4 ≤ nk }
    requires high { nk ≤ 8 }
    requires long { length key.now ≡ 4 * nk }
{
    let mut counter = first_counter(nonce);
    let mut pad = [0u8; 16];
    for t in 0..text.len() {
        if t % 16 == 0 {
            let next = inc32(counter);
            counter = next;
            let block = encrypted(key, nk, counter);
            pad = block;
        }
        text[t] ^= pad[t % 16];
    }
}

/// The tag of a cipher text (SP 800-38D, section 7.1).
pub fn gcm_tag(key: &[u8], nk: usize, nonce: &[u8; 12], aad: &[u8], text: &[u8]) -> [u8; 16]
    requires low { 4 ≤ nk }
    requires high { nk ≤ 8 }
    requires long { length key.now ≡ 4 * nk }
    requires aad { length aad.now ≤ 1000 }
    requires text { length text.now ≤ 1000 }
{
    let h = u128::from_be_bytes(encrypted(key, nk, [0u8; 16]));
    let mask = u128::from_be_bytes(encrypted(key, nk, first_counter(nonce)));
    (mask ^ ghash(h, aad, text)).to_be_bytes()
}
