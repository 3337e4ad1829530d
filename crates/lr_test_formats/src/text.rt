//! Words, numbers, names, keys, runs and lists of bytes, by tables.
use lr_text::{
    ImageName, cut_at, key_of, number_between, number_of, parts, place_of, put_bytes, put_key,
    put_number, put_run, run_of, runs_of,
};
use sha2::{Digest, Sha256};
use std::alloc::Global;
use std::collections::BTreeMap;
use std::test::Fail;

#[test]
fn numbers_are_plain_decimal_digits_below_2_to_the_64(rt: HostRuntime) {
    for (word, want) in [
        (b"0".as_slice(), Some(0)),
        (b"7", Some(7)),
        (b"10737418240", Some(10_737_418_240)),
        (b"18446744073709551615", Some(18_446_744_073_709_551_615)),
        (b"18446744073709551616", None),
        (b"99999999999999999999", None),
        (b"100000000000000000000", None),
        (b"", None),
        (b"00", None),
        (b"07", None),
        (b"+7", None),
        (b"-7", None),
        (b" 7", None),
        (b"7 ", None),
        (b"7a", None),
    ] {
        assert_eq!(rt; number_of(word), want);
    }
    for (word, want) in [
        (b"9".as_slice(), None),
        (b"10", Some(10)),
        (b"20", Some(20)),
        (b"21", None),
    ] {
        assert_eq!(rt; number_between(word, 10, 20), want);
    }
}

// The digest of `abc` that FIPS 180-4's example gives.
const DIGEST: &[u8] = b"ba7816bf8f01cfea414140de5dae2223b00361a396177a9cb410ff61f20015ad";

#[test]
fn a_key_is_64_lower_case_digits(rt: HostRuntime) -> Result<(), Fail> {
    let digest = Sha256::digest(b"abc".as_slice());
    let mut out = Vec::new(rt.alloc());
    put_key(&mut out, &digest)?;
    assert_eq!(rt; out.as_slice(), DIGEST);
    assert_eq!(rt; key_of(DIGEST), Some(digest));
    for word in [
        b"".as_slice(),
        b"BA7816bf8f01cfea414140de5dae2223b00361a396177a9cb410ff61f20015ad",
        b"ba7816bf8f01cfea414140de5dae2223b00361a396177a9cb410ff61f20015a",
        b"ba7816bf8f01cfea414140de5dae2223b00361a396177a9cb410ff61f20015ad0",
        b"ga7816bf8f01cfea414140de5dae2223b00361a396177a9cb410ff61f20015ad",
    ] {
        assert_eq!(rt; key_of(word), None);
    }
    Ok(())
}

#[test]
fn names_begin_with_a_letter_or_a_digit(rt: HostRuntime) -> Result<(), Fail> {
    for word in [
        b"a".as_slice(),
        b"0",
        b"web-1.2_x",
        b"abcdefghijklmnopqrstuvwxyz012345",
    ] {
        let Some(name) = ImageName::parse(word) else {
            return Err("a name was refused".into());
        };
        assert_eq!(rt; name.as_bytes(), word);
    }
    for word in [
        b"".as_slice(),
        b".a",
        b"_a",
        b"-a",
        b"A",
        b"aB",
        b"a b",
        b"a/b",
        b"a\xc3\xa4",
        b"abcdefghijklmnopqrstuvwxyz0123456",
    ] {
        assert!(rt; ImageName::parse(word).is_none());
    }
    Ok(())
}

// A name that is one.
fn name(word: &[u8]) -> Result<ImageName, Fail> {
    match ImageName::parse(word) {
        Some(name) => Ok(name),
        None => Err("a name was refused".into()),
    }
}

#[test]
fn names_are_in_the_order_of_their_bytes(rt: HostRuntime) -> Result<(), Fail> {
    let alloc = rt.alloc();
    let mut names = Vec::new(alloc);
    for word in [b"0".as_slice(), b"a", b"a-b", b"a.b", b"ab", b"b"] {
        names.push(name(word)?)?;
    }
    for i in 1..names.len() {
        assert!(rt; names[i - 1] < names[i]);
        assert!(rt; names[i - 1] != names[i]);
    }
    assert_eq!(rt; place_of(&names, b"a.b"), Some(3));
    assert_eq!(rt; place_of(&names, b"c"), None);
    let mut places = BTreeMap::new(alloc);
    places.insert(name(b"ab")?, 4u8)?;
    places.insert(name(b"a-b")?, 2)?;
    assert_eq!(rt; places.get(&name(b"a-b")?).copied(), Some(2));
    assert_eq!(rt; format!(in alloc; "{:?}", name(b"a.b")?)?.as_str(), "a.b");
    Ok(())
}

#[test]
fn runs_are_read_within_a_sum(rt: HostRuntime) -> Result<(), Fail> {
    for (word, want) in [
        (b"1x00".as_slice(), Some((1, 0))),
        (b"4096xff", Some((4096, 255))),
        (
            b"18446744073709551615x7a",
            Some((18_446_744_073_709_551_615, 122)),
        ),
        (b"0x41", None),
        (b"01x41", None),
        (b"x41", None),
        (b"1x4", None),
        (b"1x411", None),
        (b"1X41", None),
        (b"1xFF", None),
        (b"1xg0", None),
        (b"", None),
    ] {
        assert_eq!(rt; run_of(word), want);
    }
    let alloc = rt.alloc();
    let words = parts(alloc, b"2x41 3x00", b' ')?;
    assert_eq!(rt; words.len(), 2);
    let Some(runs) = runs_of(alloc, &words, 5)? else {
        return Err("the runs were refused".into());
    };
    assert_eq!(rt; runs.as_slice(), [(2, 65), (3, 0)].as_slice());
    assert!(rt; runs_of(alloc, &words, 4)?.is_none());
    Ok(())
}

#[test]
fn lines_are_cut_at_the_first_separator(rt: HostRuntime) {
    assert_eq!(rt;
        cut_at(b"ab\n\nc", b'\n'),
        Some((b"ab".as_slice(), b"\nc".as_slice()))
    );
    assert_eq!(rt; cut_at(b"abc", b'\n'), None);
}

// Bytes that alternate, so that each is a run.
fn turns(alloc: Global, count: usize) -> Result<Vec<u8>, Fail> {
    let mut bytes = Vec::new(alloc);
    for i in 0..count {
        bytes.push((i % 2) as u8)?;
    }
    Ok(bytes)
}

// The text of a list of bytes, behind what is there already.
fn printed(alloc: Global, bytes: &[u8]) -> Result<Vec<u8>, Fail> {
    let mut out = Vec::new(alloc);
    out.push(b':')?;
    put_bytes(&mut out, bytes)?;
    Ok(out)
}

#[test]
fn a_list_of_bytes_prints_as_at_most_64_runs_or_its_digest(rt: HostRuntime) -> Result<(), Fail> {
    let alloc = rt.alloc();
    for (bytes, want) in [
        (b"".as_slice(), b":".as_slice()),
        (b"A", b":1x41"),
        (b"AAAA", b":4x41"),
        (b"\0\0\xff\0", b":2x00 1xff 1x00"),
        (b"abc", b":1x61 1x62 1x63"),
    ] {
        assert_eq!(rt; printed(alloc, bytes)?.as_slice(), want);
    }
    // 64 runs of 4 digits, 63 spaces, and the colon.
    let most = printed(alloc, &turns(alloc, 64)?)?;
    assert_eq!(rt; most.len(), 320);
    assert!(rt; most.as_slice().ends_with(b"1x00 1x01"));
    let more = turns(alloc, 65)?;
    let mut want = Vec::from_slice(alloc, b":sha256 ")?;
    put_key(&mut want, &Sha256::digest(more.as_slice()))?;
    assert_eq!(rt; printed(alloc, &more)?.as_slice(), want.as_slice());
    assert_eq!(rt; want.len(), 72);
    Ok(())
}

#[test]
fn numbers_and_runs_print_as_they_are_read(rt: HostRuntime) -> Result<(), Fail> {
    let mut out = Vec::new(rt.alloc());
    put_number(&mut out, 0)?;
    out.push(b' ')?;
    put_number(&mut out, u64::MAX)?;
    out.push(b' ')?;
    put_run(&mut out, 12, 0xab)?;
    assert_eq!(rt; out.as_slice(), b"0 18446744073709551615 12xab".as_slice());
    Ok(())
}

// The longest line that a script has, and as many bytes as a read may give.
#[test]
fn the_longest_inputs_are_read_and_printed(rt: HostRuntime) -> Result<(), Fail> {
    let alloc = rt.alloc();
    let mut line = Vec::from_slice(alloc, b"1x41")?;
    for _ in 1..819u32 {
        line.extend_from_slice(b" 1x41")?;
    }
    assert_eq!(rt; line.len(), 4_094);
    let words = parts(alloc, &line, b' ')?;
    assert_eq!(rt; words.len(), 819);
    let Some(runs) = runs_of(alloc, &words, 819)? else {
        return Err("the runs were refused".into());
    };
    assert_eq!(rt; runs.len(), 819);
    let many = vec![in alloc; 7u8; 1_048_576]?;
    assert_eq!(rt;
        printed(alloc, &many)?.as_slice(),
        b":1048576x07".as_slice()
    );
    let turning = turns(alloc, 1_048_576)?;
    let mut want = Vec::from_slice(alloc, b":sha256 ")?;
    put_key(&mut want, &Sha256::digest(turning.as_slice()))?;
    assert_eq!(rt; printed(alloc, &turning)?.as_slice(), want.as_slice());
    Ok(())
}
