//! Statistics of lists; another program gave the values.
use map_nums::{Stat, StatRefusal, Value, Wide, in_range, statistic, statistic_in};
use std::process::Abort;

/// Each statistic once.
pub(crate) const STATS: [Stat; 9] = [
    Stat::Sum,
    Stat::Product,
    Stat::Maximum,
    Stat::Minimum,
    Stat::Mean,
    Stat::Median,
    Stat::Majority,
    Stat::Minority,
    Stat::Variety,
];

/// A list has these statistics, in the order of `STATS`, and refuses those that no cell may hold.
fn has(rt: &(impl AllocGlobal + Abort), values: &[Value], wants: [i128; 9]) {
    for (stat, want) in STATS.iter().zip(wants.iter()) {
        let wanted = match in_range(*want) {
            Some(number) => Ok(Some(number)),
            None => Err(StatRefusal::Wide),
        };
        assert_eq!(rt; statistic(rt.alloc(), *stat, values), wanted, "{stat:?}");
    }
}

const TOP: Value = 1_000_000_000_000_000;

#[test]
fn ties_floors_and_wide_sums(rt: HostRuntime) {
    let top = TOP as i128;
    let rows: [(&[Value], [i128; 9]); 7] = [
        (&[-3, -4, 5], [-2, 60, 5, -4, -1, -3, -4, -4, 3]),
        (&[-3, -4], [-7, 12, -3, -4, -4, -4, -4, -4, 2]),
        (&[-3, 0], [-3, 0, 0, -3, -2, -3, -3, -3, 2]),
        (&[5, -3, 5, 0, -3, 5, 9], [18, 0, 9, -3, 2, 5, 5, 0, 4]),
        (&[2, 1, 2, 1, 3], [9, 12, 3, 1, 1, 2, 1, 3, 3]),
        (
            &[TOP, TOP],
            [2 * top, top * top, top, top, top, top, top, top, 1],
        ),
        (
            &[-TOP, 1, -TOP, 0],
            [1 - 2 * top, 0, 1, -top, -top / 2, -top, -top, 0, 3],
        ),
    ];
    for (values, wants) in rows {
        has(&rt, values, wants);
    }
}

#[test]
fn products_at_the_limit(rt: HostRuntime) {
    // without the zero the product has more than 128 bits
    let factors = [TOP, TOP, TOP, TOP, TOP, -TOP, -TOP, -TOP, -TOP, 0];
    let rows: [(&[Value], Result<Option<Value>, StatRefusal>); 6] = [
        (&[50_000, 500_000_000, 40], Ok(Some(TOP))),
        (&[50_000, 500_000_000, -40], Ok(Some(-TOP))),
        (&[50_000, 500_000_000, 41], Err(StatRefusal::Wide)),
        (&[50_000, 500_000_000, -41], Err(StatRefusal::Wide)),
        (&factors, Ok(Some(0))),
        (&factors[..9], Err(StatRefusal::Wide)),
    ];
    for (values, want) in rows {
        assert_eq!(rt;
            statistic(rt.alloc(), Stat::Product, values),
            want,
            "{values:?}"
        );
    }
}

#[test]
fn in_place(rt: HostRuntime) {
    for (stat, want) in STATS.iter().zip([18, 0, 9, -3, 2, 5, 5, 0, 4].iter()) {
        let mut values = [5, -3, 5, 0, -3, 5, 9];
        assert_eq!(rt;
            statistic_in(*stat, &mut values),
            Ok(Some(*want)),
            "{stat:?}"
        );
    }
    assert_eq!(rt; statistic_in(Stat::Sum, &mut [TOP, TOP]), Err(Wide));
}

#[test]
fn an_empty_list_has_none(rt: HostRuntime) {
    for stat in STATS {
        let both = (
            statistic(rt.alloc(), stat, &[]),
            statistic_in(stat, &mut []),
        );
        assert_eq!(rt; both, (Ok(None), Ok(None)), "{stat:?}");
    }
}
