//! Plans scans of Apache Iceberg tables: which live data files a snapshot has, each with the delete files that apply
//! to it.
#![tactic(auto)]

use contract_words::Text;
use icescan_commands::{
    Cleared, HostFolders, HostStores, Progress, ProgressLine, System, Terminals, links_of,
    run_program,
};
use icescan_print::Output;
use icescan_text::{RunFault, report};
use std::alloc::Global;
use std::io::IsTerminal;
use std::process::ExitCode;
use std::{env, io};

/// The words on the command line, behind the program's own name.
fn words_of(rt: &HostRuntime) -> io::Result<Vec<String>> {
    let mut words = Vec::new(rt.alloc());
    for word in env::args(rt)?.skip(1) {
        words.push(word)?;
    }
    Ok(words)
}

fn main(rt: HostRuntime) -> ExitCode {
    let line = ProgressLine::new(&rt, rt.alloc());
    let mut errors = Cleared::new(Output::new(rt.stderr()), &line);
    let status = match words_of(&rt) {
        Ok(words) => {
            let mut output = Cleared::new(Output::new(rt.stdout()), &line);
            let terminals = Terminals {
                input: rt.stdin().is_terminal(),
                errors: rt.stderr().is_terminal(),
            };
            let links = links_of(&words);
            let system = System {
                host: &rt,
                alloc: rt.alloc(),
                folders: &HostFolders::by_links(&rt, links),
                progress: &line,
            };
            run_program(
                &system,
                terminals,
                &words,
                &mut HostStores::by_links(&rt, links),
                &mut rt.stdin(),
                &mut output,
                &mut errors,
            )
        }
        Err(e) => report(&words_fault(rt.alloc(), &e), &mut errors),
    };
    line.clear();
    ExitCode::from(status)
}

/// Why the words could not be taken: memory ran out, or one of them is no text.
fn words_fault(alloc: Global, e: &io::Error) -> RunFault {
    if e.kind() == io::ErrorKind::OutOfMemory {
        return RunFault::Memory;
    }
    match String::from_str(alloc, "error: a word on the command line is not UTF-8\n") {
        Ok(text) => RunFault::Words(Text::from_string(text)),
        Err(_) => RunFault::Memory,
    }
}
