// Writes a stream of MQTT 5 frames, from a file or from standard input, as lines of JSON: an object for each frame on standard output, and what
// was read in all on standard error.
#![tactic(auto)]

mod args;
mod field;
mod force;
mod line;
mod list;
mod output;
mod stream;

use desk_arguments::Asked;
use outside::Source;
use std::process::ExitCode;

// The file that is named by a word.
fn read_file(rt: HostRuntime, a: Asked, filter: &[u8]) -> u8 {
    let limit = a.limit;
    let mut path = outside::word_buffer();
    let n = outside::word(&rt, a.file, &mut path).unwrap_or(0);
    let name = &path[..n];
    match outside::open(&rt, name) {
        Err(e) => {
            output::fail(rt.stderr(), name, outside::number_of(e));
            1
        }
        Ok(file) => stream::read(rt, Source::Named(file), name, limit, filter),
    }
}

// The frames that the filter lets pass, all if it is empty.
fn read(rt: HostRuntime, a: Asked, filter: &[u8]) -> u8 {
    if a.file == 0 {
        let limit = a.limit;
        let input = Source::Standard(rt.stdin());
        return stream::read(rt, input, b"standard input", limit, filter);
    }
    read_file(rt, a, filter)
}

// With the filter that is named by a word.
fn read_by_topic(rt: HostRuntime, a: Asked) -> u8 {
    let mut text = outside::word_buffer();
    let n = outside::word(&rt, a.topic, &mut text).unwrap_or(0);
    let filter = &text[..n];
    if topics::valid_filter(filter) {
        return read(rt, a, filter);
    }
    output::bad_filter(rt.stderr(), filter);
    2
}

fn run(rt: HostRuntime, a: Asked) -> u8 {
    if a.bad {
        output::usage(rt.stderr());
        return 2;
    }
    if a.topic == 0 {
        return read(rt, a, b"");
    }
    read_by_topic(rt, a)
}

// The exit status, where it is asked for, or nobody takes the lines any more; else 0.
fn main(rt: HostRuntime) -> ExitCode {
    let a = args::read(rt);
    let is_asked = a.status;
    let status = run(rt, a);
    if is_asked || status == stream::UNTAKEN {
        return ExitCode::from(status);
    }
    ExitCode::SUCCESS
}
