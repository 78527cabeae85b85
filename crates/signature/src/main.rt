// The program `signature`: a circuit text from standard input, its report to standard output.
#![tactic(auto)]

ghost use Rattle.std.specs.Prelude.{◌≡◌, ◌+◌, ◌≤◌, length, take};
ghost use Rattle.std.specs.Counts.{IsPrefixLen};
ghost use Rattle.planner.specs.PlanCall.{working_numbers};
ghost use Rattle.report_lines.specs.ReportLines.{report_bytes};
ghost use Rattle.report.specs.ReportCall.{report_of};
ghost use Rattle.text.specs.Text.{text_bytes};

use std::io;
use std::io::{Read, Write};

// The report on the text, at the front of `out`, and how many bytes it has.
fn written(text: &[u8], out: &mut [u8], work: &mut [u32]) -> usize
    requires { (report_bytes ≤ length out.old) × (working_numbers ≤ length work.old) }
    ensures { IsPrefixLen result out.new × (take result out.new ≡ report_of text.now) }
{
    // There is room, so it is Ok.
    report::report(text, out, work).unwrap_or(0)
}

// Where what the system says of an error ends: std adds the error's number, which a reader of the message has no use for, and zeros follow.
fn words_end(said: &[u8]) -> usize
    ensures { IsPrefixLen result said.now }
{
    for (i, b) in said.iter().enumerate() {
        if *b == 0 || said[i..].starts_with(b" (os error ") {
            return i;
        }
    }
    said.len()
}

// A part of a line to standard error. Where that fails, nothing is left to say it on.
fn put(rt: &HostRuntime, part: &[u8]) {
    match rt.stderr().write_all(part) {
        Ok(()) => (),
        Err(_) => (),
    }
}

// Says on standard error why a stream failed.
fn tell(rt: &HostRuntime, stream: &str, error: io::Error) {
    let mut said = [0u8; 512];
    let mut rest = &mut said[..];
    // What has no room is left out.
    match write!(rest, "{error}") {
        Ok(()) => (),
        Err(_) => (),
    }
    let end = words_end(&said);
    put(rt, b"signature: ");
    put(rt, stream.as_bytes());
    put(rt, b": ");
    put(rt, &said[..end]);
    put(rt, b"\n");
}

// Prints the report on a text, or says that it could not. It asks for that report, so that nothing else is printed.
fn print(rt: &HostRuntime, report: &[u8], text: &[u8])
    requires { report.now ≡ report_of text.now }
{
    match rt.stdout().write_all(report) {
        Ok(()) => (),
        Err(e) => tell(rt, "standard output", e),
    }
}

// One read into `rest`, of at least one byte unless the input has ended. A read that fails is told and ends the input.
fn read_some(rt: &HostRuntime, rest: &mut [u8]) -> usize
    ensures { IsPrefixLen result rest.new }
{
    match rt.stdin().read(rest) {
        Ok(got) => got,
        Err(e) => {
            tell(rt, "standard input", e);
            0
        }
    }
}

// Reads until the input ends or `text` is full. No `for`: how many bytes a read brings is not known before. (`vectors` has such a loop too: it tells nobody
// of a read that fails.)
fn read_text(rt: &HostRuntime, text: &mut [u8]) -> usize
    ensures { IsPrefixLen result text.new }
{
    let mut length = 0;
    while length < text.len() {
        let more = read_some(rt, &mut text[length..]);
        if more == 0 {
            break;
        }
        length += more;
    }
    length
}

// Asks for room for one byte more than a text may have, and fills it, so that a longer input is refused by its length and never cut to a text that passes.
fn answer(rt: &HostRuntime, text: &mut [u8], out: &mut [u8], work: &mut [u32])
    requires text_bytes_in_bounds { text_bytes + 1 ≤ length text.old }
    requires report_bytes_in_bounds { (report_bytes ≤ length out.old) × (working_numbers ≤ length work.old) }
{
    let length = read_text(rt, text);
    let bytes = written(&text[..length], out, work);
    print(rt, &out[..bytes], &text[..length]);
}

fn main(rt: HostRuntime) {
    let mut text = [0u8; text::TEXT_BYTES + 1];
    let mut out = [0u8; report::REPORT_BYTES];
    let mut work = [0u32; planner::WORKING_NUMBERS];
    answer(&rt, &mut text, &mut out, &mut work);
}
