//! The versions of scripts and of their traces: what a script's header says of its configuration.

ghost use Rattle.std.specs.Prelude.{◌≡◌, ◌++◌, ◌∷◌, []};
ghost use Rattle.ref_script.specs.Lines.{words_of};
ghost use Rattle.ref_script.specs.Versions.{header_rule, is_in_version, most_cells, trace_title};

use crate::told::is_titled;
use ref_base::{Config, SpanRule};

/// The rule of the span that a line names by its version, where it is a script's header: `refscript 1` has a fixed
/// span, and `refscript 2` a scaled one.
pub fn header_rule(line: &[u8]) -> Option<SpanRule>
    ensures { result ≡ header_rule (words_of line.now) }
{
    if is_titled(line, b"refscript".as_slice(), b"1".as_slice()) {
        Some(SpanRule::Fixed)
    } else if is_titled(line, b"refscript".as_slice(), b"2".as_slice()) {
        Some(SpanRule::Scaled)
    } else {
        None
    }
}

/// Whether a configuration is within its limits, and has no more cells than its version allows.
pub fn is_in_version(config: &Config) -> bool
    ensures { result ≡ is_in_version config.now }
{
    config.check().is_ok() && config.cells <= most_cells(config.rule)
}

/// The first line of a trace, with its end.
pub fn trace_title(rule: SpanRule) -> &'static str
    ensures { result.now ≡ trace_title rule ++ 10 ∷ [] }
{
    match rule {
        SpanRule::Fixed => "reftrace 1\n",
        SpanRule::Scaled => "reftrace 2\n",
    }
}

// How many cells a script of this rule's version may have.
fn most_cells(rule: SpanRule) -> u32
    ensures { result ≡ most_cells rule }
{
    match rule {
        SpanRule::Fixed => 4_096,
        SpanRule::Scaled => 65_536,
    }
}
