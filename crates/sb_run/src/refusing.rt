//! Runs that are refused before they begin.

ghost use Rattle.std.specs.Prelude.{◌≡◌, ◌++◌, [], OnErr, OnOk};
ghost use Rattle.sb_disk.specs.Causes.{Rose};
ghost use Rattle.sb_run.specs.Refusing.{IsRefusedBy, RefusesWords, numbers_text, refusal_line, status_by};

use crate::report::Report;
use sb_disk::Sink;
use sb_recover::OpenFault;
use sb_sound_plays::{Starts, write_all};
use sb_value::Bytes;
use std::alloc::{AllocError, Global};

/// Writes that the words are refused. The status of the report is 2, or 5 where the sink fails.
pub fn refuse_words<K: Sink>(alloc: Global, sink: &mut K) -> Report
    ensures refused { RefusesWords (K.held sink.old) (K.held sink.new) result }
    ensures cause { result.status ≡ 5 → Rose (K.faults sink.old) (K.faults sink.new) }
{
    let status = match write_all(sink, b"? words\n") {
        Ok(()) => 2,
        Err(_) => 5,
    };
    Report {
        status,
        starts: Starts::new(alloc),
    }
}

/// Writes why no store was opened. Where the disk failed a call, or memory was wanting, nothing is written.
pub(crate) fn refuse_store<K: Sink>(alloc: Global, sink: &mut K, fault: &OpenFault) -> Report
    ensures refused { IsRefusedBy fault.now (K.held sink.old) (K.held sink.new) result }
    ensures disk { result.status ≡ 3 → fault.now ≡ OpenFault.Fault }
    ensures cause { result.status ≡ 5 → Rose (K.faults sink.old) (K.faults sink.new) }
{
    let mut line = Bytes::new(alloc);
    let status = match print_fault(fault, &mut line) {
        Ok(()) => match write_all(sink, line.as_slice()) {
            Ok(()) => status_of(fault),
            Err(_) => 5,
        },
        Err(_) => 7,
    };
    Report {
        status,
        starts: Starts::new(alloc),
    }
}

/// The status of a run that is refused so.
fn status_of(fault: &OpenFault) -> u8
    ensures status { result ≡ status_by fault.now }
    ensures disk { result ≡ 3 → fault.now ≡ OpenFault.Fault }
{
    match fault {
        OpenFault::Fault => 3,
        OpenFault::NoMemory => 7,
        _ => 6,
    }
}

/// Adds the line that says why no store was opened.
fn print_fault(fault: &OpenFault, out: &mut Bytes) -> Result<(), AllocError>
    ensures ok { OnOk result (out.new ≡ out.old ++ refusal_line fault.now) }
{
    match fault {
        OpenFault::Fault | OpenFault::NoMemory => Ok(()),
        OpenFault::TooSmall { have, need } => print_line(b"? toosmall", &[*have, *need], out),
        OpenFault::NotStore => print_line(b"? notstore", &[], out),
        OpenFault::BadLog { chunk, offset } => {
            print_line(b"? badlog", &[*chunk as u64, *offset as u64], out)
        }
        OpenFault::MissingExtension { code } => {
            print_line(b"? missingextension", &[*code as u64], out)
        }
        OpenFault::Damaged { page } => print_line(b"? damaged", &[*page as u64], out),
        OpenFault::BadExtensions { code } => print_line(b"? badextensions", &[*code as u64], out),
        OpenFault::AlreadyStore => print_line(b"? alreadystore", &[], out),
    }
}

/// Adds a line: a word, and numbers behind it.
fn print_line(word: &[u8], numbers: &[u64], out: &mut Bytes) -> Result<(), AllocError>
    ensures ok { OnOk result (out.new ≡ out.old ++ (word.now ++ numbers_text numbers.now)) }
{
    out.extend(word)?;
    for number in numbers {
        let mut digits = itoa::Buffer::new();
        out.push(b' ')?;
        out.extend(digits.format(*number).as_bytes())?;
    }
    out.push(b'\n')
}
