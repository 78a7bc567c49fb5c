//! Which soft references a cycle keeps, and for how long.

ghost use Rattle.std.specs.Prelude.{◌≡◌, ◌≤◌, ◌-◌, nat_le};
ghost use Rattle.ref_base.specs.KeptPaths.{first_policy, policy_from, scaled_span};

use ref_base::{Config, Policy, SpanRule, Urgency};

/// What goes before any cycle has begun, by which nothing goes yet: the policy of a normal cycle at clock 0, with the
/// configuration's span. Takes no memory.
pub fn first_policy(config: Config) -> Policy
    ensures { result ≡ first_policy config }
{
    Policy {
        clock: 0,
        urgency: Urgency::Normal,
        span: config.span,
    }
}

/// The policy of a cycle that begins now, when so many of the cells are free: its span is what the configuration's
/// rule makes of the configuration's span. Takes no memory.
pub fn policy_from(config: Config, free: u32, now: u64, urgency: Urgency) -> Policy
    requires some { 1 ≤ config.cells }
    requires within { free ≤ config.cells }
    ensures { result ≡ policy_from config free now urgency }
{
    let span = match config.rule {
        SpanRule::Fixed => config.span,
        SpanRule::Scaled => scaled(config.span, free, config.cells),
    };
    Policy {
        clock: now,
        urgency,
        span,
    }
}

/// Whether a normal cycle that began at this clock keeps a soft reference with this stamp: the stamp is at most the
/// span before the clock. Java SE 17 (`java.lang.ref.SoftReference`) leaves it to the collector; this is the project's
/// profile. Takes no memory.
pub fn keeps(clock: u64, stamp: u64, span: u64) -> bool
    requires { stamp ≤ clock }
    ensures { result ≡ nat_le (clock - stamp) span }
{
    clock - stamp <= span
}

/// The span of a cycle that begins when so many of the cells are free, under `SpanRule::Scaled`: the configuration's
/// span times the free cells by all cells, rounded down. So it is at most that span. Takes no memory.
pub fn scaled(span: u64, free: u32, cells: u32) -> u64
    requires some { 1 ≤ cells }
    requires within { free ≤ cells }
    ensures { result ≡ scaled_span span free cells }
{
    (u128::from(span) * u128::from(free) / u128::from(cells)) as u64
}
