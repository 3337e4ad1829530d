//! Bytes against an implementation of the generator in another language, which gives the words of its reference too.
use lr_gen::fill;
use std::test::Fail;

#[test]
fn known_bytes(rt: HostRuntime) -> Result<(), Fail> {
    let mut buffer = [0u8; 16];
    fill(0, 0, &mut buffer);
    assert_eq!(rt;
        buffer,
        [
            102, 2, 161, 122, 110, 46, 26, 254, 12, 127, 124, 163, 198, 37, 154, 31
        ]
    );
    fill(1, 0, &mut buffer);
    assert_eq!(rt;
        buffer,
        [
            169, 235, 93, 15, 91, 82, 215, 91, 87, 54, 71, 178, 249, 143, 28, 116
        ]
    );
    Ok(())
}

#[test]
fn cut_within_a_word(rt: HostRuntime) -> Result<(), Fail> {
    let mut buffer = [0u8; 9];
    fill(7, 8, &mut buffer);
    assert_eq!(rt; buffer, [14, 148, 245, 153, 69, 39, 80, 148, 161]);
    let mut buffer = [0u8; 7];
    fill(u32::MAX, 4096, &mut buffer);
    assert_eq!(rt; buffer, [125, 130, 87, 185, 76, 74, 76]);
    let mut none = [0u8; 0];
    fill(7, 8, &mut none);
    Ok(())
}
