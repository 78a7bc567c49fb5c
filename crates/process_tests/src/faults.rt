//! What refusals print.

use ref_process::ProcessFault;
use std::test::Fail;

#[test]
fn each_refusal_says_why(rt: HostRuntime) -> Result<(), Fail> {
    let table = [
        (ProcessFault::NoSuchReference, "no such reference"),
        (
            ProcessFault::StillOut,
            "the reference is pending or its notice is out",
        ),
        (ProcessFault::WrongPhase, "wrong phase"),
        (ProcessFault::ClockBack, "the clock goes back"),
        (ProcessFault::ClearingLeft, "something is left to look at"),
        (ProcessFault::WrongQueue, "the notice is for another queue"),
        (ProcessFault::NumbersSpent, "numbers spent"),
        (ProcessFault::NoMemory, "no memory"),
    ];
    for (fault, want) in table {
        let text = format!(in rt.alloc(); "{fault}")?;
        assert_eq!(rt; text.as_str(), want);
    }
    Ok(())
}
