//! The lines of a log in front of its rows: its header, its profile, and whether objects have names.

ghost use Rattle.std.specs.Prelude.{◌≡◌};
ghost use Rattle.ref_judge.specs.ProfiledRows.{strict};
ghost use Rattle.ref_log.specs.LogHeads.{is_naming_line, keeping_more, ordered, profile_of, rule_of, soft_freed};
ghost use Rattle.ref_log.specs.LogHeads.{with_word, with_words};
ghost use Rattle.ref_script.specs.Lines.{words_of};

use crate::fault::LogFault;
use ref_base::SpanRule;
use ref_judge::{Order, Profile};
use ref_script::{is_titled, next_word};

/// The rule of the span that a line names by its version, where it is a trace's header: `reftrace 1` has a fixed span,
/// and `reftrace 2` a scaled one.
pub fn rule_of(line: &[u8]) -> Option<SpanRule>
    ensures { result ≡ rule_of (words_of line.now) }
{
    if is_titled(line, b"reftrace".as_slice(), b"1".as_slice()) {
        Some(SpanRule::Fixed)
    } else if is_titled(line, b"reftrace".as_slice(), b"2".as_slice()) {
        Some(SpanRule::Scaled)
    } else {
        None
    }
}

/// Whether a line says that objects have names of the collector's own: `names any`.
pub fn is_naming_line(line: &[u8]) -> bool
    ensures { result ≡ is_naming_line (words_of line.now) }
{
    is_titled(line, b"names".as_slice(), b"any".as_slice())
}

/// The profile that a line gives, or its fault, where it begins with the word `profile`; `None` for any other line.
/// Behind it stand `keeps-more`, `soft-free`, and `queue-lifo` or `queue-any`, each once at most.
pub fn profile_of(line: &[u8]) -> Option<Result<Profile, LogFault>>
    ensures { result ≡ profile_of (words_of line.now) }
{
    let (name, rest) = next_word(line)?;
    if name != b"profile".as_slice() {
        return None;
    }
    Some(with_words(rest).ok_or(LogFault::BadProfile))
}

/// The profile that the words of a line make.
fn with_words(line: &[u8]) -> Option<Profile>
    ensures { result ≡ with_words strict (words_of line.now) }
{
    let mut profile = Profile::strict();
    let mut rest = line;
    while let Some((word, behind)) = next_word(rest) {
        profile = with_word(profile, word)?;
        rest = behind;
    }
    Some(profile)
}

/// The profile that a word makes of that of the words in front of it.
fn with_word(profile: Profile, word: &[u8]) -> Option<Profile>
    ensures { result ≡ with_word profile word.now }
{
    if word == b"keeps-more".as_slice() {
        keeping_more(profile)
    } else if word == b"soft-free".as_slice() {
        soft_freed(profile)
    } else if word == b"queue-lifo".as_slice() {
        ordered(Order::Last, profile)
    } else if word == b"queue-any".as_slice() {
        ordered(Order::Any, profile)
    } else {
        None
    }
}

/// The profile that keeps more, where it didn't yet.
fn keeping_more(profile: Profile) -> Option<Profile>
    ensures { result ≡ keeping_more profile }
{
    if profile.keeps_more {
        return None;
    }
    Some(Profile {
        keeps_more: true,
        ..profile
    })
}

/// The profile that may keep or clear any soft reference, where it mightn't yet.
fn soft_freed(profile: Profile) -> Option<Profile>
    ensures { result ≡ soft_freed profile }
{
    if profile.soft_free {
        return None;
    }
    Some(Profile {
        soft_free: true,
        ..profile
    })
}

/// The profile whose queues give in this order, where no other was named yet.
fn ordered(order: Order, profile: Profile) -> Option<Profile>
    ensures { result ≡ ordered order profile }
{
    match profile.order {
        Order::First => Some(Profile { order, ..profile }),
        Order::Last | Order::Any => None,
    }
}
