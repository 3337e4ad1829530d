//! Vectors, each against the fast bodies and against the standard's own words. A comment names the standard that prints
//! a vector; the others are compared with the plain bodies alone.
use crate::plain;
use lr_aes::AesKey;

// 16 bytes.
fn block(n: u128) -> [u8; 16] {
    n.to_be_bytes()
}

// 32 bytes.
fn key_of(high: u128, low: u128) -> [u8; 32] {
    let mut key = [0u8; 32];
    key[..16].copy_from_slice(&high.to_be_bytes());
    key[16..].copy_from_slice(&low.to_be_bytes());
    key
}

// FIPS 197, appendices C.1 and C.3.
#[test]
fn blocks_of_the_standard(rt: HostRuntime) {
    let plain = block(0x00112233445566778899aabbccddeeff);
    let low = 0x000102030405060708090a0b0c0d0e0fu128;
    let high = 0x101112131415161718191a1b1c1d1e1fu128;

    let mut short = plain;
    AesKey::new128(&block(low)).encrypt_block(&mut short);
    assert!(rt; short == block(0x69c4e0d86a7b0430d8cdb78070b4c55a));
    assert!(rt; plain::encrypted(&block(low), 4, plain) == short);

    let key = key_of(low, high);
    let mut long = plain;
    AesKey::new256(&key).encrypt_block(&mut long);
    assert!(rt; long == block(0x8ea2b7ca516745bfeafc49904b496089));
    assert!(rt; plain::encrypted(&key, 8, plain) == long);
}

// SP 800-38A, appendix F.5.5.
#[test]
fn counter_mode_of_the_standard(rt: HostRuntime) {
    let key = key_of(
        0x603deb1015ca71be2b73aef0857d7781,
        0x1f352c073b6108d72d9810a30914dff4,
    );
    let first = block(0xf0f1f2f3f4f5f6f7f8f9fafbfcfdfeff);
    let text = block(0x6bc1bee22e409f96e93d7e117393172a);
    let mut buffer = text;
    AesKey::new256(&key).ctr_xor(&first, &mut buffer);
    assert!(rt; buffer == block(0x601ec313775789a5b7a7f504bbf3d228));
    for t in 0..16usize {
        assert!(rt; text[t] ^ plain::stream_byte(&key, &first, t) == buffer[t]);
    }
}

// No standard's example.
#[test]
fn the_counter_wraps_at_128_bits(rt: HostRuntime) {
    let key = AesKey::new256(&[7u8; 32]);
    let mut buffer = [0u8; 32];
    key.ctr_xor(&[0xffu8; 16], &mut buffer);
    let mut second = [0u8; 16];
    key.encrypt_block(&mut second);
    assert!(rt; buffer[16..] == second[..]);
    assert!(rt; plain::stream_byte(&[7u8; 32], &[0xffu8; 16], 16) == second[0]);
}

// No standard's example. The longest text is taken slowly; each shorter one is its front.
#[test]
fn counter_mode_of_each_length_up_to_80(rt: HostRuntime) {
    let first = block(0xfffffffffffffffffffffffffffffffe);
    let mut slow = [0u8; 80];
    for t in 0..80usize {
        slow[t] = (t as u8) ^ plain::stream_byte(&[9u8; 32], &first, t);
    }
    let key = AesKey::new256(&[9u8; 32]);
    for n in 0..81usize {
        let mut buffer = [0u8; 80];
        for t in 0..80usize {
            buffer[t] = t as u8;
        }
        key.ctr_xor(&first, &mut buffer[..n]);
        assert!(rt; buffer[..n] == slow[..n]);
    }
}

// Test cases 13 and 14 of the submission of GCM.
#[test]
fn gcm_of_nothing_and_of_16_zeros(rt: HostRuntime) {
    let zeros = [0u8; 32];
    let nonce = [0u8; 12];
    let key = AesKey::new256(&zeros);
    let empty = block(0x530f8afbc74536b9a963b4f1c4cb738b);
    assert!(rt; key.gcm_seal(&nonce, &[], &mut []) == empty);
    assert!(rt; plain::gcm_tag(&zeros, 8, &nonce, &[], &[]) == empty);

    let mut buffer = [0u8; 16];
    let tag = key.gcm_seal(&nonce, &[], &mut buffer);
    assert!(rt; buffer == block(0xcea7403d4d606b6e074ec5d3baf39d18));
    assert!(rt; tag == block(0xd0d1c8a799996bf0265b98b5d48ab919));
    let mut slow = [0u8; 16];
    plain::gcm_text(&zeros, 8, &nonce, &mut slow);
    assert!(rt; slow == buffer);
    assert!(rt; plain::gcm_tag(&zeros, 8, &nonce, &[], &slow) == tag);
}

// Test case 14 of the submission of GCM, with each bit of its tag changed.
#[test]
fn each_flipped_bit_of_a_tag_is_refused(rt: HostRuntime) {
    let key = AesKey::new256(&[0u8; 32]);
    let sealed = block(0xcea7403d4d606b6e074ec5d3baf39d18);
    let tag = 0xd0d1c8a799996bf0265b98b5d48ab919u128;
    for bit in 0..128u32 {
        let mut kept = sealed;
        let wrong = block(tag ^ (1u128 << bit));
        assert!(rt; key.gcm_open(&[0u8; 12], &[], &mut kept, &wrong).is_err());
        assert!(rt; kept == sealed);
    }
    let mut opened = sealed;
    assert!(rt;
        key.gcm_open(&[0u8; 12], &[], &mut opened, &block(tag))
            .is_ok()
    );
    assert!(rt; opened == [0u8; 16]);
}

// The first 60 bytes.
fn text_of(parts: [u128; 4]) -> [u8; 60] {
    let mut out = [0u8; 60];
    for i in 0..60usize {
        let part = parts[i / 16].to_be_bytes();
        out[i] = part[i % 16];
    }
    out
}

// The first 20 bytes.
fn data_of(parts: [u128; 2]) -> [u8; 20] {
    let mut out = [0u8; 20];
    for i in 0..20usize {
        let part = parts[i / 16].to_be_bytes();
        out[i] = part[i % 16];
    }
    out
}

// The first 12 bytes.
fn nonce_of(n: u128) -> [u8; 12] {
    let bytes = n.to_be_bytes();
    let mut out = [0u8; 12];
    for i in 0..12usize {
        out[i] = bytes[i];
    }
    out
}

// Test case 4 of the submission of GCM: additional data, and a last block that isn't full.
#[test]
fn gcm_with_additional_data(rt: HostRuntime) {
    let short = block(0xfeffe9928665731c6d6a8f9467308308);
    let nonce = nonce_of(0xcafebabefacedbaddecaf88800000000);
    let data = data_of([0xfeedfacedeadbeeffeedfacedeadbeef, 0xabaddad2 << 96]);
    let mut text = text_of([
        0xd9313225f88406e5a55909c5aff5269a,
        0x86a7a9531534f7da2e4c303d8a318a72,
        0x1c3c0c95956809532fcf0e2449a6b525,
        0xb16aedf5aa0de657ba637b3900000000,
    ]);
    let mut slow = text;
    plain::gcm_text(&short, 4, &nonce, &mut slow);
    let tag = AesKey::new128(&short).gcm_seal(&nonce, &data, &mut text);
    assert!(rt; tag == block(0x5bc94fbc3221a5db94fae95ae7121a47));
    assert!(rt; slow == text);
    assert!(rt; plain::gcm_tag(&short, 4, &nonce, &data, &slow) == tag);
    let front = block(0x42831ec2217774244b7221b784d0d49c);
    for i in 0..16usize {
        assert!(rt; text[i] == front[i]);
    }
}
