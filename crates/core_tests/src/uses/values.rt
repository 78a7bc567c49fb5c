//! What a caller can prove of configurations, stamps, faults and replies.

ghost use Rattle.std.specs.Prelude.{◌≡◌, true};

use ref_base::{Config, Fault, ObjNo, Reply, SpanRule, Urgency};
use ref_space::{keeps, policy_from};
use std::alloc::Global;

// promise: keeps: a stamp that lies the whole span behind the clock is kept
fn keeps_at_the_whole_span() -> bool
    ensures { result ≡ true }
{
    keeps(10, 0, 10)
}

// promise: policy_from, scaled: a scaled span is one by the free cells, rounded down
fn span_with_a_quarter_free() -> u64
    ensures { result ≡ 2 }
{
    let config = Config {
        mutators: 1,
        workers: 1,
        queues: 1,
        cells: 4,
        span: 10,
        rule: SpanRule::Scaled,
    };
    policy_from(config, 1, 0, Urgency::Normal).span
}

// promise: Config::check: eight mutators at most
fn nine_mutators_are_too_many() -> bool
    ensures { result ≡ true }
{
    let config = Config {
        mutators: 9,
        workers: 1,
        queues: 1,
        cells: 1,
        span: 0,
        rule: SpanRule::Fixed,
    };
    config.check().is_err()
}

// promise: Fault::number: a fault has its own number
fn a_full_hand_is_fault_23() -> bool
    ensures { result ≡ true }
{
    Fault::HandFull.number() == 23
}

// promise: Reply::fmt: each word of a reply is printed
#[tactic(auto, using(std::proofs::lemmas::Fmt::decimal_digit))]
fn a_reply_prints_each_word(alloc: Global) -> bool
    ensures { result ≡ true }
{
    match Reply::Object(ObjNo(7)).to_string(alloc) {
        Ok(text) => text.as_str() == "object 7",
        Err(_) => true,
    }
}

#[test]
fn what_callers_of_values_see(rt: HostRuntime) {
    assert!(rt; keeps_at_the_whole_span());
    assert!(rt; span_with_a_quarter_free() == 2);
    assert!(rt; nine_mutators_are_too_many());
    assert!(rt; a_full_hand_is_fault_23());
    assert!(rt; a_reply_prints_each_word(rt.alloc()));
}
