//! Words worked out by hand.

use super::*;
use vx_bits::Sat;

/// Of eight sums at 8 bits three wrap; of four at twice the width none does.
#[test]
fn sums(rt: HostRuntime) {
    let from = Sources {
        a: 0x01ff_7f80_0010_20ff,
        b: 0x0101_0180_0001_0203,
        d: 0,
        m: 0,
    };
    let narrow = make_even(
        8,
        from,
        |l| Sat {
            value: l.a.wrapping_add(l.b),
            sat: l.a.wrapping_add(l.b) > 0xff,
        },
    );
    assert_eq!(rt; narrow.value, 0x0200_8000_0011_2202);
    assert_eq!(rt; narrow.sats, 0b0101_0001);
    let wide = Packing {
        count: 4,
        width: 16,
        a: 8,
        b: 8,
    };
    let made = make(
        wide,
        from,
        |l| Sat {
            value: l.a.wrapping_add(l.b),
            sat: false,
        },
    );
    assert_eq!(rt; made.value, 0x0000_0011_0022_0102);
}

/// Elements 2 to 5 of a word whose first is element 0, but for element 3, which the mask leaves out.
#[test]
fn lanes(rt: HostRuntime) {
    let active = active_lanes(8, 0, 2, 6, 0xfff7);
    assert_eq!(rt; active, 0b11_0100);
    assert_eq!(rt; active_lanes(64, 64, 60, 66, 0xffff), 0b11);
    assert_eq!(rt; active_lanes(2, 64, 60, 66, 0b1001), 0b1001);
    assert_eq!(rt;
        merge(8, active, 0x0807_0605_0403_0201, u64::MAX),
        0xffff_0605_ff03_ffff
    );
    assert_eq!(rt; merge(16, 0xf, 7, 9), 7);
    assert_eq!(rt; merge_bits(0xff00, 0xabcd, 0x1234), 0xab34);
    assert!(rt; any_lane(4, 0b1_1000, 0b1000));
    assert!(rt; !any_lane(4, 0b1_1000, 0b1_0000));
}

#[test]
fn words(rt: HostRuntime) {
    assert_eq!(rt; splat(8, 0x1ab), 0xabab_abab_abab_abab);
    assert_eq!(rt; splat(16, 0x1ab), 0x01ab_01ab_01ab_01ab);
    assert_eq!(rt; splat(32, u64::MAX), u64::MAX);
    assert_eq!(rt; splat(64, 5), 5);
    assert_eq!(rt; beside(16, 2, 0x2_0001, 2, 0x4_0003), 0x4_0003_0002_0001);
    assert_eq!(rt; even(32).count, 2);
}
