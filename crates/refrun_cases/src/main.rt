//! Runs each text of the folder that it is started in, and tells whether the answer is what a file beside it says:
//!
//! - `NAME.script`, with its 64 jobs, prints its trace, `NAME.trace`;
//! - `NAME.graph` prints the listing of its strengths, `NAME.out`;
//! - `NAME.log` prints the judge's report on it, `NAME.report`, with status 0 where it is legal and else 4;
//! - a faulty text prints nothing, and is answered on standard error by the line in `NAME.err`, with status 3. A log
//!   that is cut off prints its `NAME.report` too.
//!
//! And the judge takes the trace of each script, and up to each row with another reply for that one doesn't.
//!
//! It prints a line for each text, in the order of the names, and last how many there are. A text whose answer is
//! another gets a line that says so. So does a text that has none of these files or two, and a file that is beside no
//! text. Then the exit status is 1. `README.md` and files without an ending are left alone.
#![tactic(auto)]

ghost use Rattle.std.specs.Prelude.{◌≡◌, ◌<◌, ◌+◌};

mod answer;
mod counts;
mod folder;
mod judging;

use answer::{Answer, Kind, answer_to};
use counts::Counts;
use folder::{Folder, Told};
use judging::is_judged;
use std::io::Write;
use std::process::ExitCode;
use std::{fs, io};

fn main(rt: HostRuntime) -> ExitCode {
    match tell_all(&rt) {
        Ok(true) => ExitCode::SUCCESS,
        Ok(false) => ExitCode::FAILURE,
        Err(error) => {
            let _ = rt.eprintln(format_args!("refrun_cases: {error}"));
            ExitCode::FAILURE
        }
    }
}

/// Tells of each file and of how many there are, and answers whether all are as told.
fn tell_all(rt: &HostRuntime) -> io::Result<bool> {
    let folder = Folder::here(rt)?;
    let mut counts = Counts::new();
    for file in folder.files() {
        tell_file(rt, &folder, file.as_str(), &mut counts)?;
    }
    println!(rt; "{counts}")?;
    Ok(counts.wrong == 0)
}

/// Runs a text, and tells how it went. Tells of another file if it is beside no text.
fn tell_file(rt: &HostRuntime, folder: &Folder, file: &str, counts: &mut Counts) -> io::Result<()> {
    match file.rsplit_once('.') {
        Some((name, "script")) => tell_text(rt, folder, Kind::Script, name, counts),
        Some((name, "graph")) => tell_text(rt, folder, Kind::Graph, name, counts),
        Some((name, "log")) => tell_text(rt, folder, Kind::Log, name, counts),
        Some((name, "trace")) if folder.has(name, "script") => Ok(()),
        Some((name, "out")) if folder.has(name, "graph") => Ok(()),
        Some((name, "report")) if folder.has(name, "log") => Ok(()),
        Some((name, "err")) if folder.has_text(name) => Ok(()),
        None | Some(("README", "md")) => Ok(()),
        _ => {
            counts.add_wrong();
            println!(rt; "{file}: beside no text")
        }
    }
}

/// Runs the text of this name, and tells how it went.
fn tell_text(
    rt: &HostRuntime,
    folder: &Folder,
    kind: Kind,
    name: &str,
    counts: &mut Counts,
) -> io::Result<()> {
    let Some(files) = folder.told(kind, name) else {
        counts.add_wrong();
        return println!(rt;
            "{name}: not one text with just one of .{} and .err",
            kind.printed()
        );
    };
    let text = text_of(rt, kind, name)?;
    let answer = answer_to(rt.alloc(), kind, text.as_slice())?;
    let told = told_by_files(rt, kind, name, files)?;
    if !answer.is(&told) {
        counts.add_wrong();
        println!(rt; "{name}: NOT as told, but with status {}:", answer.status)?;
        io::writer(rt).write_all(answer.printed.as_slice())?;
        return io::writer(rt).write_all(answer.error.as_bytes());
    }
    if is_misjudged(rt, kind, &answer, text.as_slice()) {
        counts.add_wrong();
        return println!(rt; "{name}: as told, but its trace is NOT judged as it must be");
    }
    counts.add(kind, files.fails);
    println!(rt; "{name}: as told")
}

/// Whether this is the trace of a script, and isn't judged as it must be.
fn is_misjudged(rt: &HostRuntime, kind: Kind, answer: &Answer, text: &[u8]) -> bool {
    match kind {
        Kind::Script if answer.status == 0 => {
            !is_judged(rt.alloc(), text, answer.printed.as_slice())
        }
        _ => false,
    }
}

/// The text of this name.
fn text_of(rt: &HostRuntime, kind: Kind, name: &str) -> io::Result<Vec<u8>> {
    let file = format!(in rt.alloc(); "{name}.{}", kind.text())?;
    fs::read(rt, file.as_str())
}

/// What the files beside the text of this name say that it answers.
fn told_by_files(rt: &HostRuntime, kind: Kind, name: &str, files: Told) -> io::Result<Answer> {
    let alloc = rt.alloc();
    let mut told = Answer {
        printed: Vec::new(alloc),
        error: String::new(alloc),
        status: 0,
    };
    if files.prints {
        let file = format!(in alloc; "{name}.{}", kind.printed())?;
        told.printed = fs::read(rt, file.as_str())?;
    }
    if files.fails {
        let file = format!(in alloc; "{name}.err")?;
        told.error = fs::read_to_string(rt, file.as_str())?;
    }
    told.status = match kind {
        _ if files.fails => 3,
        Kind::Log if !told.printed.as_slice().starts_with(b"legal") => 4,
        _ => 0,
    };
    Ok(told)
}
