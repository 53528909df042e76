//! `flash_server`: a memcached server with flash storage.
//!
//! The program looks at its first word and calls the library: `trace` hands standard input and output to
//! `flash_trace::run_trace`, `check` to `flash_check::run_check`, `serve` standard output to `flash_serve::run_serve`.
//! A usage or fault text goes to standard error. It is proved which exit status each end of a trace, of a check and of a
//! server has.
#![tactic(auto)]

mod serve;
mod status;

use crate::serve::serve_tcp;
use crate::status::{End, check_end, exit_status, trace_end};
use flash_check::run_check;
use flash_device::FaultlessDevice;
use flash_names::{Blob, ReaderSource, WriterSink};
use flash_trace::run_trace;
use std::alloc::{AllocError, Global};
use std::process::ExitCode;
use std::{env, io};

const USAGE: &str = "usage: flash_server serve --path FILE [OPTIONS]
       flash_server trace [--journal] < SCRIPT
       flash_server check < JOURNAL
       flash_server --help | --version
";

const HELP: &str =
    "flash_server: a memcached server with flash storage. It serves clients over TCP, runs scripts on its
store, and checks journals of a store.

usage: flash_server serve --path FILE [OPTIONS]
       flash_server trace [--journal] < SCRIPT
       flash_server check < JOURNAL
       flash_server --help | --version

  serve       serve the memcached protocol; `flash_server serve --help` lists the options
  trace       run the script on standard input over a store, and write what it printed
              and what each session was answered to standard output
  --journal   write the journal of the store too
  check       read the journal on standard input, and write `legal <entries>` where it is a run
              of the store, or the line that breaks a rule, or the one that can't be read:
              `illegal <line> <rule>`, `bad <line>`

exit status: 0 done, 1 an illegal journal, 2 usage, 3 a bad line in the script or the journal, or sizes that
break a rule, 4 standard input failed, 5 standard output failed, 6 the device failed, 7 out of memory,
8 the file or the network failed
";

// The version that the server will answer to memcached's `version`.
const VERSION: &str = "flash_server 1.6-flash\n";

fn main(rt: HostRuntime) -> ExitCode {
    let end = match program_words(&rt) {
        Ok(Some(words)) => {
            if is_serve(&words) {
                let mut sink = WriterSink::new(io::writer(&rt));
                serve_tcp(&rt, rt.alloc(), &words, &mut sink)
            } else {
                run(&rt, &words)
            }
        }
        Ok(None) => End::Usage,
        Err(AllocError) => End::NoMemory,
    };
    complain(&rt, end);
    ExitCode::from(exit_status(end))
}

// The words of the command line after the program's name, or `None` where one isn't UTF-8.
fn program_words(rt: &HostRuntime) -> Result<Option<Vec<Blob>>, AllocError> {
    let alloc = rt.alloc();
    let Ok(args) = env::args(rt) else {
        return Ok(None);
    };
    let mut words = Vec::new(alloc);
    for word in args.skip(1) {
        words.push(Blob::from_slice(alloc, word.as_bytes())?)?;
    }
    Ok(Some(words))
}

// Whether the first word is `serve`.
fn is_serve(words: &[Blob]) -> bool {
    match words {
        [word, ..] => word.bytes() == b"serve".as_slice(),
        [] => false,
    }
}

fn run(rt: &HostRuntime, words: &[Blob]) -> End {
    match words {
        [word] if word.bytes() == b"--help".as_slice() => print_text(rt, HELP),
        [word] if word.bytes() == b"--version".as_slice() => print_text(rt, VERSION),
        [word, ..] if word.bytes() == b"trace".as_slice() => trace_standard_input(rt, words),
        [word, ..] if word.bytes() == b"check".as_slice() => check_standard_input(rt, words),
        _ => End::Usage,
    }
}

fn trace_standard_input(rt: &HostRuntime, words: &[Blob]) -> End {
    let mut source = ReaderSource::new(rt.reader());
    let mut sink = WriterSink::new(io::writer(rt));
    let mut device = FaultlessDevice::new(rt.alloc());
    trace_end(run_trace(rt.alloc(), words, &mut source, &mut sink, &mut device))
}

fn check_standard_input(rt: &HostRuntime, words: &[Blob]) -> End {
    let mut source = ReaderSource::new(rt.reader());
    let mut sink = WriterSink::new(io::writer(rt));
    check_end(run_check(rt.alloc(), words, &mut source, &mut sink))
}

// Prints the text to standard output.
fn print_text(rt: &HostRuntime, text: &str) -> End {
    match rt.print(text) {
        Ok(()) => End::Done,
        Err(_) => End::SinkFault,
    }
}

// Says on standard error what is wrong. A bad line and an illegal one are said on standard output, by the trace or the
// check.
fn complain(rt: &HostRuntime, end: End) {
    let _ = match end {
        End::Done | End::Illegal | End::BadLine | End::Refused | End::MakeFault => Ok(()),
        End::Usage => eprint!(rt; "{USAGE}"),
        End::Geometry(rule) => eprintln!(rt; "flash_server: the sizes break rule {rule}"),
        End::SourceFault => eprintln!(rt; "flash_server: standard input failed"),
        End::SinkFault => eprintln!(rt; "flash_server: standard output failed"),
        End::DeviceFault => eprintln!(rt; "flash_server: the device failed"),
        End::NoMemory => eprintln!(rt; "flash_server: out of memory"),
    };
}
