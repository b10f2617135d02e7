//! Values at the ends of widths that no scalar instruction has, worked out by hand from the manuals.

use vx_bits::{
    Sat, add_at, div_at, divu_at, fit_at, mul_at, mulh_at, mulhsu_at, mulhu_at, rem_at, remu_at,
    round, sadd_at, saddu_at, sll_at, sra_at, srl_at, ssub_at, ssubu_at, sub_at,
};

#[test]
fn sums_and_products_at_eight_bits(rt: HostRuntime) {
    assert_eq!(rt; add_at(8, 0xabff, 0xcd01), 0);
    assert_eq!(rt; sub_at(8, 0, 1), 0xff);
    assert_eq!(rt; mul_at(8, 0x7f, 0xff), 0x81);
    assert_eq!(rt; mulh_at(8, 0x80, 0x7f), 0xc0);
    assert_eq!(rt; mulhu_at(8, 0x80, 0x7f), 0x3f);
    assert_eq!(rt; mulhsu_at(8, 0xff, 0xff), 0xff);
}

#[test]
fn quotients_and_shifts_at_sixteen_bits(rt: HostRuntime) {
    assert_eq!(rt; div_at(16, 0x8000, 0xffff), 0x8000);
    assert_eq!(rt; rem_at(16, 0x8000, 0xffff), 0);
    assert_eq!(rt; divu_at(16, 9, 0), 0xffff);
    assert_eq!(rt; remu_at(16, 9, 0), 9);
    assert_eq!(rt; sll_at(16, 0x8001, 17), 2);
    assert_eq!(rt; srl_at(16, 0x8001, 15), 1);
    assert_eq!(rt; sra_at(16, 0x8001, 15), 0xffff);
}

/// A saturated answer, and one that wasn't.
const fn cut(value: u64) -> Sat {
    Sat { value, sat: true }
}

#[test]
fn saturated_values(rt: HostRuntime) {
    assert_eq!(rt; fit_at(8, true, -129), cut(0x80));
    assert_eq!(rt; fit_at(8, false, 256), cut(0xff));
    assert_eq!(rt; saddu_at(8, 0xff, 1), cut(0xff));
    assert_eq!(rt; sadd_at(16, 0x7fff, 0x7fff), cut(0x7fff));
    assert_eq!(rt; ssubu_at(8, 0, 1), cut(0));
    assert_eq!(rt; ssub_at(8, 0x80, 1), cut(0x80));
}

#[test]
fn roundings(rt: HostRuntime) {
    assert_eq!(rt; round(5, 1, 0), 3);
    assert_eq!(rt; round(5, 1, 1), 2);
    assert_eq!(rt; round(-5, 1, 2), -3);
    assert_eq!(rt; round(9, 2, 3), 3);
}
