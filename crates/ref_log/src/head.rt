//! The head of a log: its header, its configuration, its profile, and whether objects have names.

ghost use Rattle.std.specs.Prelude.{◌≡◌, ◌||◌, [], Some, List, Option, MatchResult, MatchOption};
ghost use Rattle.ref_base.specs.declared.config.Config.{Config as Configuration};
ghost use Rattle.ref_log.specs.Checking.{Fails, in_limits};
ghost use Rattle.ref_log.specs.Failures.{is_unread};
ghost use Rattle.ref_judge.specs.declared.profile.Profile.{Profile as Loosened};
ghost use Rattle.ref_log.specs.HeadReading.{IsBehindConfig, IsBehindHead, IsBehindHeader, IsBehindProfile};
ghost use Rattle.ref_log.specs.LogHeads.{begins_config};
ghost use Rattle.ref_log.specs.ReadLines.{HasRead};
ghost use Rattle.ref_script.specs.Lines.{TextLine, words_of};
ghost use Rattle.ref_script.specs.Scripts.{config_of};

use crate::failure::LogFailure;
use crate::fault::LogFault;
use crate::heads::{is_naming_line, profile_of, rule_of};
use crate::stream::LineStream;
use crate::told::{content, next_told};
use ref_base::{Config, SpanRule};
use ref_judge::Profile;
use ref_script::{config_of, is_in_version, next_word};
use ref_text::TextSource;
use std::alloc::Allocator;

/// The head of a log.
#[derive(Clone, Copy)]
pub struct Head {
    /// The configuration, with the rule of the log, within the limits of version 2.
    pub config: Config,
    /// The profile.
    pub profile: Profile,
    /// Whether objects have names of the collector's own.
    pub is_named: bool,
    /// Whether a line stands behind the head that says something. It is the one that was read last.
    pub has_row: bool,
}

/// Reads the head of a log. The configuration is that of its line, or the given one, and then it has no such line.
pub fn head_of<R: TextSource, A: Allocator>(
    stream: &mut LineStream<A>,
    reader: &mut R,
    given: Option<Config>,
) -> Result<Head, LogFailure>
    ensures head { (lines : List TextLine) → HasRead lines [] (R.remaining reader.old) stream.old
        → MatchResult result (λ head. IsBehindHead given lines (R.remaining reader.new) stream.new head.profile
        head.config head.is_named head.has_row) (Fails given lines) }
    ensures failed { R.has_failed reader.new ≡ (R.has_failed reader.old || is_unread result) }
{
    let rule = header(stream, reader)?;
    let (config, has_line) = configuration(stream, reader, rule, given)?;
    let (profile, has_line) = profile(stream, reader, has_line)?;
    let (is_named, has_row) = naming(stream, reader, has_line)?;
    Ok(Head {
        config,
        profile,
        is_named,
        has_row,
    })
}

/// Reads the header, and answers the rule that it names.
fn header<R: TextSource, A: Allocator>(
    stream: &mut LineStream<A>,
    reader: &mut R,
) -> Result<SpanRule, LogFailure>
    ensures header { (given : Option Configuration) (lines : List TextLine)
        → HasRead lines [] (R.remaining reader.old) stream.old
        → MatchResult result (IsBehindHeader lines (R.remaining reader.new) stream.new) (Fails given lines) }
    ensures failed { R.has_failed reader.new ≡ (R.has_failed reader.old || is_unread result) }
{
    if !next_told(stream, reader)? {
        return Err(LogFailure::Line(stream.number().saturating_add(1), LogFault::BadHeader));
    }
    match rule_of(content(stream)) {
        Some(rule) => Ok(rule),
        None => Err(LogFailure::Line(stream.number(), LogFault::BadHeader)),
    }
}

/// Reads the configuration, if none is given, and up to the line behind it. Answers whether there is one.
fn configuration<R: TextSource, A: Allocator>(
    stream: &mut LineStream<A>,
    reader: &mut R,
    rule: SpanRule,
    given: Option<Config>,
) -> Result<(Config, bool), LogFailure>
    ensures config { (lines : List TextLine) → IsBehindHeader lines (R.remaining reader.old) stream.old rule
        → MatchResult result (λ r. IsBehindConfig given lines (R.remaining reader.new) stream.new r.0 r.1)
        (Fails given lines) }
    ensures failed { R.has_failed reader.new ≡ (R.has_failed reader.old || is_unread result) }
{
    match given {
        None => own_config(stream, reader, rule),
        Some(given) => given_config(stream, reader, rule, given),
    }
}

/// Reads the configuration of a log, and up to the line behind it.
fn own_config<R: TextSource, A: Allocator>(
    stream: &mut LineStream<A>,
    reader: &mut R,
    rule: SpanRule,
) -> Result<(Config, bool), LogFailure>
    ensures config { (lines : List TextLine) → IsBehindHeader lines (R.remaining reader.old) stream.old rule
        → MatchResult result (λ r. IsBehindConfig None lines (R.remaining reader.new) stream.new r.0 r.1)
        (Fails None lines) }
    ensures failed { R.has_failed reader.new ≡ (R.has_failed reader.old || is_unread result) }
{
    if !next_told(stream, reader)? {
        return Err(LogFailure::Line(stream.number().saturating_add(1), LogFault::BadConfig));
    }
    match in_limits(config_of(content(stream), rule)) {
        Some(config) => Ok((config, next_told(stream, reader)?)),
        None => Err(LogFailure::Line(stream.number(), LogFault::BadConfig)),
    }
}

/// Takes this configuration with the rule of the log, and reads up to the line behind the header, which must not be one
/// of a configuration.
fn given_config<R: TextSource, A: Allocator>(
    stream: &mut LineStream<A>,
    reader: &mut R,
    rule: SpanRule,
    given: Config,
) -> Result<(Config, bool), LogFailure>
    ensures config { (lines : List TextLine) → IsBehindHeader lines (R.remaining reader.old) stream.old rule
        → MatchResult result (λ r. IsBehindConfig (Some given) lines (R.remaining reader.new) stream.new r.0 r.1)
        (Fails (Some given) lines) }
    ensures failed { R.has_failed reader.new ≡ (R.has_failed reader.old || is_unread result) }
{
    let Some(config) = in_limits(Some(Config { rule, ..given })) else {
        return Err(LogFailure::Line(stream.number(), LogFault::BadConfig));
    };
    let has_line = next_told(stream, reader)?;
    if has_line && begins_config(content(stream)) {
        return Err(LogFailure::Line(stream.number(), LogFault::BadConfig));
    }
    Ok((config, has_line))
}

/// A configuration within the limits of version 2, whichever its own is.
fn in_limits(config: Option<Config>) -> Option<Config>
    ensures { result ≡ in_limits config }
{
    let config = config?;
    let limited = Config {
        rule: SpanRule::Scaled,
        ..config
    };
    if is_in_version(&limited) {
        Some(config)
    } else {
        None
    }
}

/// Whether the first word of a line is that of a configuration.
fn begins_config(line: &[u8]) -> bool
    ensures { result ≡ begins_config (words_of line.now) }
{
    match next_word(line) {
        Some((word, _)) => word == b"config".as_slice(),
        None => false,
    }
}

/// Reads the profile, if the line that was read last is one of a profile, and up to the line behind it. Answers whether
/// there is one.
fn profile<R: TextSource, A: Allocator>(
    stream: &mut LineStream<A>,
    reader: &mut R,
    has_line: bool,
) -> Result<(Profile, bool), LogFailure>
    ensures profile { (given : Option Configuration) (lines : List TextLine) (config : Configuration)
        → IsBehindConfig given lines (R.remaining reader.old) stream.old config has_line
        → MatchResult result (λ r. IsBehindProfile given lines (R.remaining reader.new) stream.new r.0 config r.1)
        (Fails given lines) }
    ensures failed { R.has_failed reader.new ≡ (R.has_failed reader.old || is_unread result) }
{
    if !has_line {
        return Ok((Profile::strict(), false));
    }
    match profile_of(content(stream)) {
        None => Ok((Profile::strict(), true)),
        Some(Ok(profile)) => Ok((profile, next_told(stream, reader)?)),
        Some(Err(_)) => Err(LogFailure::Line(stream.number(), LogFault::BadProfile)),
    }
}

/// Reads up to the line behind the one that says that objects have names, if the line that was read last does. Answers
/// whether it does, and whether there is a line.
fn naming<R: TextSource, A: Allocator>(
    stream: &mut LineStream<A>,
    reader: &mut R,
    has_line: bool,
) -> Result<(bool, bool), LogFailure>
    ensures naming { (given : Option Configuration) (lines : List TextLine) (profile : Loosened)
        (config : Configuration)
        → IsBehindProfile given lines (R.remaining reader.old) stream.old profile config has_line
        → MatchResult result (λ r. IsBehindHead given lines (R.remaining reader.new) stream.new profile config r.0 r.1)
        (Fails given lines) }
    ensures failed { R.has_failed reader.new ≡ (R.has_failed reader.old || is_unread result) }
{
    if !has_line || !is_naming_line(content(stream)) {
        return Ok((false, has_line));
    }
    Ok((true, next_told(stream, reader)?))
}
