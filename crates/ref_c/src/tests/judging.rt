//! The judge by numbers, against worked logs and the stories of worlds; and what numbers that are no row, a handle of
//! nothing, a judge that is stopped and profiles that are none are answered.

use super::logs::{
    ANY_ORDER, BREACHES, KEPT_MORE, LAST_FIRST, LEGAL_BATCHES, LEGAL_MOVE, SOFT_FREE,
};
use super::stories::{BATCHES, CYCLES, HANDS, RULES, SETTLED, STEPS};
use super::{NO_REPLY, Row, TWO_OF_EACH, is_spelled, low, numbers_in, read, row_of, step_from};
use crate::RefConfig;
use crate::answer::RefReply;
use crate::given::reply_of;
use crate::judge::{RefProfile, ref_judge_end, ref_judge_new, ref_judge_row};
use crate::judge_handle::RefJudge;
use crate::verdict::RefVerdict;
use ref_base::{Fault, ObjNo, PlainStep, Reply, Row as JudgedRow, Step};
use ref_judge::{Because, Breach, Earlier, Instead, Rule, Settled};
use std::alloc::Global;
use std::process::Abort;
use std::test::Fail;

/// The reference collector itself.
const STRICT: RefProfile = RefProfile {
    keeps_more: 0,
    soft_free: 0,
    order: 0,
};

/// What stands in a verdict before a call.
const NO_VERDICT: RefVerdict = RefVerdict {
    kind: 1000,
    rule: 1000,
    settled: 1000,
    object: 1000,
    row: 1000,
    choice: 1000,
    instead: NO_REPLY,
};

/// A verdict that tells its kind alone.
fn bare(kind: u64) -> [u64; 6] {
    [kind, 0, 0, 0, 0, 0]
}

/// The numbers of a verdict, in the order of its fields, but for the answer that it names.
fn said(verdict: &RefVerdict) -> [u64; 6] {
    [
        u64::from(verdict.kind),
        u64::from(verdict.rule),
        u64::from(verdict.settled),
        u64::from(verdict.object),
        verdict.row,
        u64::from(verdict.choice),
    ]
}

/// The reply of these numbers.
fn reply_from(numbers: &[u64; 7]) -> RefReply {
    RefReply {
        kind: low(numbers[0]),
        fault: low(numbers[1]),
        object: low(numbers[2]),
        queue: low(numbers[3]),
        worker: low(numbers[4]),
        count: low(numbers[5]),
        number: numbers[6],
    }
}

/// What a row lists.
fn listed<'a>(row: &'a Row<'_>) -> &'a [u64] {
    if row.count > 8 {
        return &row.lists[..];
    }
    &row.lists[..row.count]
}

/// A handle with a judge of two of each, of this profile.
fn made(rt: &impl Abort, alloc: Global, profile: &RefProfile) -> RefJudge {
    let mut judge = RefJudge::empty();
    let fault = ref_judge_new(alloc, &mut judge, &TWO_OF_EACH, profile);
    assert!(rt; fault == 0, "{fault}");
    judge
}

/// Ends the judge of a handle, which then has none.
fn ended(rt: &impl Abort, alloc: Global, judge: RefJudge) {
    let mut judge = judge;
    ref_judge_end(alloc, &mut judge);
    let left = judge.into_box(alloc);
    assert!(rt; left.is_none());
}

/// Has a row judged.
fn ask(alloc: Global, judge: &mut RefJudge, row: &Row<'_>) -> RefVerdict {
    let mut verdict = NO_VERDICT;
    ref_judge_row(
        alloc,
        judge,
        &step_from(&row.asks),
        &reply_from(&row.told),
        listed(row),
        &mut verdict,
    );
    verdict
}

/// The row of this line has this verdict, which names no answer.
fn is_bare(rt: &impl Abort, alloc: Global, judge: &mut RefJudge, line: &str, kind: u64) {
    let verdict = ask(alloc, judge, &row_of(rt, line));
    assert!(rt; said(&verdict) == bare(kind), "{line}: {}", verdict.kind);
    assert!(rt; numbers_in(&verdict.instead) == [0; 7], "{line}");
}

/// The reply of these numbers is spelled so.
fn is_replied(rt: &impl Abort, alloc: Global, row: &Row<'_>, told: &str) -> Result<(), Fail> {
    let spelled = match reply_of(&reply_from(&row.told), listed(row), 0) {
        Some(reply) => reply.to_string(alloc)?,
        None => String::new(alloc),
    };
    assert!(rt;
        spelled.as_str() == told,
        "{}: {}",
        row.text,
        spelled.as_str()
    );
    Ok(())
}

/// Has the rows of a log judged in turn. Each is spelled as its line is, and has the verdict that this tells.
fn agree(rt: &impl Abort, alloc: Global, judge: &mut RefJudge, log: &str) -> Result<(), Fail> {
    for line in log.trim().split('\n') {
        let row = row_of(rt, line);
        let (call, told) = row.text.split_once(" : ").unwrap_or(("", ""));
        is_spelled(rt, alloc, &row.asks, call)?;
        is_replied(rt, alloc, &row, told)?;
        let verdict = ask(alloc, judge, &row);
        assert!(rt;
            said(&verdict) == row.says,
            "{}: {:?}",
            row.text,
            said(&verdict)
        );
        let named = numbers_in(&verdict.instead);
        assert!(rt; named == row.instead, "{}: {named:?}", row.text);
    }
    Ok(())
}

/// Has the rows of a log judged by a new judge of this profile.
fn judged(rt: &impl Abort, alloc: Global, profile: &RefProfile, log: &str) -> Result<(), Fail> {
    let mut judge = made(rt, alloc, profile);
    let agreed = agree(rt, alloc, &mut judge, log);
    ended(rt, alloc, judge);
    agreed
}

/// The rules, in the order of their numbers.
const EACH_RULE: [Rule; 21] = [
    Rule::Answer,
    Rule::Refusal,
    Rule::Form,
    Rule::ScanObject,
    Rule::NoneLeft,
    Rule::NothingLeft,
    Rule::SomeLeft,
    Rule::DoomedCount,
    Rule::DoomedRoot,
    Rule::DoomedField,
    Rule::DoomedSoft,
    Rule::ClearedUnscanned,
    Rule::LookObject,
    Rule::LookAnswer,
    Rule::ClearedLeft,
    Rule::ReferenceLeft,
    Rule::NoReferenceLeft,
    Rule::Put,
    Rule::PutCount,
    Rule::Poll,
    Rule::MoveObject,
];

/// A row's breach of this rule.
fn breach(rule: Rule) -> Breach {
    Breach {
        rule,
        instead: Instead::Untold,
    }
}

/// What each number of a rule says.
#[test]
fn each_rule_has_its_number(rt: HostRuntime) {
    assert!(rt; RULES.trim().split('\n').count() == EACH_RULE.len());
    for (rule, line) in EACH_RULE.iter().zip(RULES.trim().split('\n')) {
        let (number, sentence) = line.split_once('|').unwrap_or(("", ""));
        let mut numbers = [0];
        assert!(rt; read(number, &mut numbers) == 1, "no number: {line}");
        let verdict = RefVerdict::illegal(breach(*rule), None);
        assert!(rt; said(&verdict) == [1, numbers[0], 0, 0, 0, 0], "{line}");
        assert!(rt; rule.sentence() == sentence.trim(), "{line}");
    }
}

/// What row 7, a mark's end, settled.
fn settled_before(settled: Settled) -> Because {
    let earlier = Earlier {
        number: 7,
        row: JudgedRow {
            step: Step::Plain(PlainStep::EndMark),
            reply: Reply::Doomed(1),
        },
    };
    Because::Settled(earlier, settled)
}

/// What each number says that an earlier row settled.
#[test]
fn each_settled_has_its_number(rt: HostRuntime) -> Result<(), Fail> {
    let each = [
        Settled::Said,
        Settled::Cycle,
        Settled::Phase,
        Settled::Mark,
        Settled::Doomed(ObjNo(1)),
        Settled::Closed,
    ];
    assert!(rt; SETTLED.trim().split('\n').count() == each.len());
    for (settled, line) in each.iter().zip(SETTLED.trim().split('\n')) {
        let (number, words) = line.split_once('|').unwrap_or(("", ""));
        let mut numbers = [0];
        assert!(rt; read(number, &mut numbers) == 1, "no number: {line}");
        let because = settled_before(*settled);
        let verdict = RefVerdict::illegal(breach(Rule::Answer), Some(because));
        let object = u64::from(*settled == Settled::Doomed(ObjNo(1)));
        assert!(rt;
            said(&verdict) == [1, 1, numbers[0], object, 7, 0],
            "{line}"
        );
        let text = settled.to_string(rt.alloc())?;
        assert!(rt; text.as_str() == words.trim(), "{line}");
    }
    Ok(())
}

#[test]
fn each_rule_and_what_settled_it(rt: HostRuntime) -> Result<(), Fail> {
    for log in BREACHES {
        judged(&rt, rt.alloc(), &STRICT, log)?;
    }
    Ok(())
}

#[test]
fn profiles(rt: HostRuntime) -> Result<(), Fail> {
    let alloc = rt.alloc();
    judged(&rt, alloc, &STRICT, LEGAL_BATCHES)?;
    judged(&rt, alloc, &STRICT, LEGAL_MOVE)?;
    judged(
        &rt,
        alloc,
        &RefProfile {
            keeps_more: 7,
            ..STRICT
        },
        KEPT_MORE,
    )?;
    judged(
        &rt,
        alloc,
        &RefProfile {
            soft_free: 1,
            ..STRICT
        },
        SOFT_FREE,
    )?;
    judged(&rt, alloc, &RefProfile { order: 1, ..STRICT }, LAST_FIRST)?;
    judged(&rt, alloc, &RefProfile { order: 2, ..STRICT }, ANY_ORDER)
}

/// What a world answers is legal: two mutators, two workers, two queues, with batches.
#[test]
fn what_worlds_answer_is_legal(rt: HostRuntime) {
    let alloc = rt.alloc();
    for story in [STEPS, HANDS, CYCLES, BATCHES] {
        let mut judge = made(&rt, alloc, &STRICT);
        for line in story.trim().split('\n') {
            is_bare(&rt, alloc, &mut judge, line, 0);
        }
        ended(&rt, alloc, judge);
    }
}

/// Numbers that are no step, or no reply, are no row: behind them the judge goes on.
#[test]
fn numbers_that_are_no_row(rt: HostRuntime) {
    let alloc = rt.alloc();
    let mut judge = made(&rt, alloc, &STRICT);
    for line in NO_STEPS.trim().split('\n') {
        is_bare(&rt, alloc, &mut judge, line, 2);
    }
    for line in NO_REPLIES.trim().split('\n') {
        is_bare(&rt, alloc, &mut judge, line, 3);
    }
    is_bare(&rt, alloc, &mut judge, FIRST, 0);
    ended(&rt, alloc, judge);
}

/// The first row of a trace.
const FIRST: &'static str = "m0 new s0 0 : object 1 | 0 0 0 0 0 0 | 64 0 1 0 0 0 0 |";

const NO_STEPS: &'static str = "
no step : object 1 | 19 0 0 0 0 0 | 64 0 1 0 0 0 0 |
no step, and no reply | 38 0 0 0 0 0 | 90 0 0 0 0 0 0 |
";

const NO_REPLIES: &'static str = "
no kind | 0 0 0 0 0 0 | 63 0 1 0 0 0 0 |
no kind behind the others | 0 0 0 0 0 0 | 90 0 0 0 0 0 0 |
an object and a count | 0 0 0 0 0 0 | 64 0 1 0 0 1 0 |
an object and a number | 0 0 0 0 0 0 | 64 0 1 0 0 0 1 |
an object and a list | 0 0 0 0 0 0 | 64 0 1 0 0 0 0 | 1
no fault | 0 0 0 0 0 0 | 89 0 0 0 0 0 0 |
no fault behind the others | 0 0 0 0 0 0 | 89 26 0 0 0 0 0 |
more than are listed | 26 0 0 0 0 2 | 71 0 0 0 0 2 1 | 2
fewer than are listed | 15 0 0 0 0 2 | 78 0 0 0 0 1 0 | 2 6
no number of an object | 15 0 0 0 0 1 | 78 0 0 0 0 1 0 | 4294967296
half of one | 28 0 0 0 0 0 | 76 0 0 0 0 1 0 | 73
places that don't follow one another | 28 0 0 0 0 0 | 76 0 0 0 0 2 0 | 73 4 73 6
a place in the middle | 28 0 0 0 0 0 | 76 0 0 0 0 2 0 | 74 1 73 6
a place that is too far | 28 0 0 0 0 0 | 76 0 0 0 0 1 0 | 73 9223372036854775808
no fault in a batch | 28 0 0 0 0 0 | 76 0 0 0 0 1 0 | 89 26
no kind in a batch | 28 0 0 0 0 0 | 76 0 0 0 0 1 0 | 77 0
";

/// A batch lists 32 at most: a row of 33 is none, and one of 32 is judged.
#[test]
fn long_lists(rt: HostRuntime) {
    let alloc = rt.alloc();
    let mut judge = made(&rt, alloc, &STRICT);
    let list = [2; 33];
    let mut reply = reply_from(&[78, 0, 0, 0, 0, 33, 0]);
    let mut verdict = NO_VERDICT;
    let step = step_from(&[15, 0, 0, 0, 0, 32]);
    ref_judge_row(alloc, &mut judge, &step, &reply, &list, &mut verdict);
    assert!(rt; said(&verdict) == bare(3), "{:?}", said(&verdict));
    reply.count = 32;
    ref_judge_row(alloc, &mut judge, &step, &reply, &list[..32], &mut verdict);
    assert!(rt;
        said(&verdict) == [1, 20, 0, 0, 0, 2],
        "{:?}",
        said(&verdict)
    );
    assert!(rt; numbers_in(&verdict.instead) == [79, 0, 0, 0, 0, 0, 0]);
    ended(&rt, alloc, judge);
}

#[test]
fn nothing_is_said_behind_an_illegal_row(rt: HostRuntime) -> Result<(), Fail> {
    let alloc = rt.alloc();
    let mut judge = made(&rt, alloc, &STRICT);
    let agreed = agree(&rt, alloc, &mut judge, BREACHES[0]);
    is_bare(&rt, alloc, &mut judge, FIRST, 6);
    is_bare(
        &rt,
        alloc,
        &mut judge,
        "no step | 19 0 0 0 0 0 | 90 0 0 0 0 0 0 |",
        6,
    );
    assert!(rt; ref_judge_new(alloc, &mut judge, &TWO_OF_EACH, &STRICT) == 0);
    is_bare(&rt, alloc, &mut judge, FIRST, 0);
    ended(&rt, alloc, judge);
    agreed
}

#[test]
fn a_handle_of_nothing_has_no_judge(rt: HostRuntime) {
    let alloc = rt.alloc();
    let mut judge = RefJudge::empty();
    is_bare(&rt, alloc, &mut judge, FIRST, 4);
    is_bare(
        &rt,
        alloc,
        &mut judge,
        "no step | 19 0 0 0 0 0 | 90 0 0 0 0 0 0 |",
        4,
    );
    ended(&rt, alloc, judge);
}

/// A configuration outside the limits and an order that is none leave the handle as it was.
#[test]
fn new_judges(rt: HostRuntime) {
    let alloc = rt.alloc();
    let mut judge = RefJudge::empty();
    let bad = RefConfig {
        workers: 9,
        ..TWO_OF_EACH
    };
    let unordered = RefProfile { order: 3, ..STRICT };
    let second = "m0 new s0 0 : object 2 | 0 0 0 0 0 0 | 64 0 2 0 0 0 0 |";
    let refusal = Fault::BadConfig.number();
    assert!(rt; ref_judge_new(alloc, &mut judge, &bad, &STRICT) == refusal);
    assert!(rt; ref_judge_new(alloc, &mut judge, &TWO_OF_EACH, &unordered) == refusal);
    is_bare(&rt, alloc, &mut judge, FIRST, 4);
    assert!(rt; ref_judge_new(alloc, &mut judge, &TWO_OF_EACH, &STRICT) == 0);
    is_bare(&rt, alloc, &mut judge, FIRST, 0);
    assert!(rt; ref_judge_new(alloc, &mut judge, &bad, &STRICT) == refusal);
    assert!(rt; ref_judge_new(alloc, &mut judge, &TWO_OF_EACH, &unordered) == refusal);
    is_bare(&rt, alloc, &mut judge, second, 0);
    assert!(rt; ref_judge_new(alloc, &mut judge, &TWO_OF_EACH, &STRICT) == 0);
    is_bare(&rt, alloc, &mut judge, FIRST, 0);
    ended(&rt, alloc, judge);
}
