//! Products, inverses and weights, by values from outside.
use lr_field::{inv, mul, weights};

// The first two are the examples of FIPS 197, sections 4.2 and 4.2.1.
#[test]
fn products_of_the_standard(rt: HostRuntime) {
    for (a, b, product) in [
        (0x57u8, 0x83u8, 0xc1u8),
        (0x57, 0x13, 0xfe),
        (0x00, 0x57, 0x00),
        (0x57, 0x00, 0x00),
        (0x01, 0xff, 0xff),
    ] {
        assert_eq!(rt; mul(a, b), product, "{a} by {b}");
    }
}

// No standard's example: the S-box of FIPS 197 at 0x53 rests on the last one.
#[test]
fn inverses(rt: HostRuntime) {
    assert_eq!(rt; inv(0), 0);
    assert_eq!(rt; inv(1), 1);
    assert_eq!(rt; inv(0x53), 0xca);
}

#[test]
fn powers_of_three_are_all_elements_but_zero(rt: HostRuntime) {
    let mut seen = [false; 256];
    let mut power = 1u8;
    for _ in 0..255 {
        assert!(rt; !seen[power as usize]);
        seen[power as usize] = true;
        power = mul(power, 3);
    }
    assert_eq!(rt; power, 1);
    assert!(rt; !seen[0]);
}

// No standard's example: by hand, from the definition.
#[test]
fn weights_of_the_points_0_to_3_at_4(rt: HostRuntime) {
    let w = weights(&[0, 1, 2, 3], 4);
    assert!(rt; w == [0x1b, 0x1c, 0x12, 0x14]);
    for (values, fifth) in [([0u8, 1, 2, 3], 4u8), ([1, 2, 3, 4], 0x45)] {
        let mut sum = 0;
        for i in 0..4 {
            sum ^= mul(w[i], values[i]);
        }
        assert_eq!(rt; sum, fifth);
    }
}
