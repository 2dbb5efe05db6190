//! Quotients, roots and comparisons at the ends of their types.
use map_nums::{cmp_cross, floor_div, floor_root, in_range};
use std::cmp::Ordering;

#[test]
fn quotients_round_down(rt: HostRuntime) {
    for (number, divisor, quotient) in [
        (-3, 2, Some(-2)),
        (-4, 2, Some(-2)),
        (5, 2, Some(2)),
        (3, -2, Some(-2)),
        (-3, -2, Some(1)),
        (-7, 8, Some(-1)),
        (5, 0, None),
        (
            -9_223_372_036_854_775_808,
            -1,
            Some(9_223_372_036_854_775_808),
        ),
        (
            -170_141_183_460_469_231_731_687_303_715_884_105_727,
            2,
            Some(-85_070_591_730_234_615_865_843_651_857_942_052_864),
        ),
    ] {
        assert_eq!(rt; floor_div(number, divisor), quotient, "{number} {divisor}");
    }
}

#[test]
fn roots_round_down(rt: HostRuntime) {
    let rows: [(u128, u64); 12] = [
        (0, 0),
        (3, 1),
        (4, 2),
        (8, 2),
        (999_999_999_999, 999_999),
        (1_000_000_000_000, 1_000_000),
        (18_446_744_073_709_551_615, 4_294_967_295),
        (18_446_744_073_709_551_616, 4_294_967_296),
        (18_446_744_082_299_486_208, 4_294_967_296),
        (18_446_744_082_299_486_209, 4_294_967_297),
        (
            340_282_366_920_938_463_426_481_119_284_349_108_224,
            18_446_744_073_709_551_614,
        ),
        (
            340_282_366_920_938_463_463_374_607_431_768_211_455,
            18_446_744_073_709_551_615,
        ),
    ];
    for (n, root) in rows {
        assert_eq!(rt; floor_root(n), root, "{n}");
    }
}

#[test]
fn products_are_compared_whole(rt: HostRuntime) {
    let rows: [(i64, i64, i64, i64, Ordering); 5] = [
        (i64::MAX, i64::MAX, i64::MIN, i64::MIN, Ordering::Less),
        (i64::MIN, i64::MIN, i64::MAX, i64::MAX, Ordering::Greater),
        (i64::MIN, i64::MAX, i64::MAX, i64::MIN, Ordering::Equal),
        (2, 3, 3, 2, Ordering::Equal),
        (-1, 5, 1, -4, Ordering::Less),
    ];
    for (a, n, b, k, order) in rows {
        assert_eq!(rt; cmp_cross(a, n, b, k), order, "{a} {n} {b} {k}");
    }
}

#[test]
fn a_cell_holds_a_million_thousand_millions(rt: HostRuntime) {
    for (number, value) in [
        (1_000_000_000_000_000, Some(1_000_000_000_000_000)),
        (-1_000_000_000_000_000, Some(-1_000_000_000_000_000)),
        (1_000_000_000_000_001, None),
        (-1_000_000_000_000_001, None),
    ] {
        assert_eq!(rt; in_range(number), value, "{number}");
    }
}
