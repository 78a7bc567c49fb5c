//! What a configuration may be, which soft references a cycle keeps, and its scaled span.

use ref_base::{Config, Fault, Policy, SpanRule, Urgency};
use ref_space::{first_policy, keeps, policy_from, scaled};

/// A configuration with so many mutators, workers, queues and cells.
const fn sized(mutators: u32, workers: u32, queues: u32, cells: u32) -> Config {
    Config {
        mutators,
        workers,
        queues,
        cells,
        span: u64::MAX,
        rule: SpanRule::Scaled,
    }
}

#[test]
fn a_config_fits_exactly_within_its_limits(rt: HostRuntime) {
    let bad = Err(Fault::BadConfig);
    let table = [
        (sized(1, 1, 1, 1), Ok(())),
        (sized(8, 8, 16, 65_536), Ok(())),
        (sized(0, 1, 1, 1), bad),
        (sized(1, 0, 1, 1), bad),
        (sized(1, 1, 0, 1), bad),
        (sized(1, 1, 1, 0), bad),
        (sized(9, 8, 16, 65_536), bad),
        (sized(8, 9, 16, 65_536), bad),
        (sized(8, 8, 17, 65_536), bad),
        (sized(8, 8, 16, 65_537), bad),
    ];
    for (config, want) in table {
        assert!(rt; config.check() == want, "{config:?}");
    }
    let least = Config {
        span: 0,
        rule: SpanRule::Fixed,
        ..sized(1, 1, 1, 1)
    };
    assert!(rt; least.check() == Ok(()));
}

#[test]
fn a_soft_reference_is_kept_within_the_span(rt: HostRuntime) {
    // The clock, the stamp, the span, and whether it is kept.
    let table = [
        (10, 0, 10, true),
        (11, 0, 10, false),
        (11, 11, 0, true),
        (u64::MAX, 0, u64::MAX - 1, false),
        (u64::MAX, 0, u64::MAX, true),
    ];
    for (row, &(clock, stamp, span, want)) in table.iter().enumerate() {
        // Which `keeps` asks of its callers.
        assert!(rt; stamp <= clock, "row {row}");
        assert!(rt; keeps(clock, stamp, span) == want, "row {row}");
    }
}

#[test]
fn a_scaled_span_is_rounded_down(rt: HostRuntime) {
    // The span, the free cells, all cells, and the scaled span.
    let table = [
        (10, 6, 8, 7),
        (10, 5, 8, 6),
        (10, 8, 8, 10),
        (5, 0, 1, 0),
        (0, 3, 4, 0),
        (1, 65_535, 65_536, 0),
        (u64::MAX, 1, 65_536, 281_474_976_710_655),
        (u64::MAX, 65_536, 65_536, u64::MAX),
        (u64::MAX, u32::MAX, u32::MAX, u64::MAX),
    ];
    for (row, &(span, free, cells, want)) in table.iter().enumerate() {
        // Which `scaled` asks of its callers.
        assert!(rt; cells >= 1 && free <= cells, "row {row}");
        assert!(rt; scaled(span, free, cells) == want, "row {row}");
    }
}

#[test]
fn the_rule_settles_the_span_of_a_cycle(rt: HostRuntime) {
    for (rule, want) in [(SpanRule::Fixed, 10), (SpanRule::Scaled, 7)] {
        let config = Config {
            cells: 8,
            span: 10,
            rule,
            ..sized(1, 1, 1, 8)
        };
        let policy = policy_from(config, 6, 5, Urgency::Urgent);
        let wanted = Policy {
            clock: 5,
            urgency: Urgency::Urgent,
            span: want,
        };
        assert!(rt; policy == wanted, "{rule:?}");
        assert!(rt; first_policy(config).span == 10, "{rule:?}");
    }
}
