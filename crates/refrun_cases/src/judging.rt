//! What judges say of the trace of a script.

use ref_base::{Config, ObjNo, Reply, Row, SpanRule};
use ref_log::{Verdict, row_of, verdict_on};
use ref_script::{ScriptReply, ScriptRow, ScriptStep, config_of};
use refrun::FromReader;
use std::alloc::{AllocError, Global};

/// Whether the judge takes the trace of a script, and up to each row with another reply for that one doesn't.
pub fn is_judged(alloc: Global, script: &[u8], trace: &[u8]) -> bool {
    let Some(config) = config_in(script) else {
        return false;
    };
    let told = verdict_on(alloc, &mut FromReader::new(trace), Some(config));
    matches!(told, Ok(Verdict::Legal { .. })) && is_told_apart(alloc, config, trace) == Ok(true)
}

/// The configuration in a script's lines.
fn config_in(script: &[u8]) -> Option<Config> {
    for line in script.split(|byte| *byte == b'\n') {
        let config = config_of(line.trim_ascii(), SpanRule::Fixed);
        if config.is_some() {
            return config;
        }
    }
    None
}

/// Whether a trace isn't legal up to each row with another reply for that one. Rows of jobs are left as they are.
fn is_told_apart(alloc: Global, config: Config, trace: &[u8]) -> Result<bool, AllocError> {
    let mut before = Vec::new(alloc);
    let mut number = 0u64;
    for line in trace.split_inclusive(|byte| *byte == b'\n') {
        if let Ok(row) = row_of(line.trim_ascii()) {
            number = number.saturating_add(1);
            if let Some(changed) = changed_row(row)
                && !is_illegal_with(alloc, config, before.as_slice(), (number, changed))?
            {
                return Ok(false);
            }
        }
        before.extend_from_slice(line)?;
    }
    Ok(true)
}

/// The row with another reply, where it is one of a world.
fn changed_row(row: ScriptRow) -> Option<Row> {
    match (row.step, row.reply) {
        (ScriptStep::World(step), ScriptReply::World(reply)) => {
            let reply = another(reply);
            Some(Row { step, reply })
        }
        _ => None,
    }
}

/// Whether this row, of this number, isn't legal behind the lines before.
fn is_illegal_with(
    alloc: Global,
    config: Config,
    before: &[u8],
    (number, row): (u64, Row),
) -> Result<bool, AllocError> {
    let mut log = Vec::from_slice(alloc, before)?;
    let line = format!(in alloc; "{row}\n")?;
    log.extend_from_slice(line.as_bytes())?;
    match verdict_on(alloc, &mut FromReader::new(log.as_slice()), Some(config)) {
        Ok(Verdict::Illegal(finding)) => Ok(finding.number == number),
        _ => Ok(false),
    }
}

/// The number of no object of a script.
const NO_OBJECT: ObjNo = ObjNo(u32::MAX);

/// A reply that no collector gives where a world gives this one.
fn another(reply: Reply) -> Reply {
    match reply {
        Reply::Object(_) => Reply::Object(NO_OBJECT),
        Reply::Null | Reply::Nothing | Reply::Selected(_) => Reply::Done,
        Reply::Done => Reply::Null,
        Reply::Refers(is_same) => Reply::Refers(!is_same),
        Reply::Notice { .. }
        | Reply::Notices { .. }
        | Reply::Outs(_)
        | Reply::TookSome(_)
        | Reply::Refused(_) => Reply::Nothing,
        Reply::Added(position) => Reply::Added(position.saturating_add(1)),
        Reply::Already | Reply::Empty => Reply::Closed,
        Reply::Closed => Reply::Already,
        Reply::Took(_) => Reply::Took(NO_OBJECT),
        Reply::Cycle(number) => Reply::Cycle(number.saturating_add(1)),
        Reply::Scanned(_) => Reply::Scanned(NO_OBJECT),
        Reply::Doomed(count) => Reply::Doomed(count.saturating_add(1)),
        Reply::Cleared(no) => Reply::Skipped(no),
        Reply::Kept(no) | Reply::Skipped(no) => Reply::Cleared(no),
        Reply::Swept(count) => Reply::Swept(count.saturating_add(1)),
        Reply::Moved(_) => Reply::Moved(NO_OBJECT),
    }
}
