//! The program: a relational storage kernel that answers commands from standard input, over a store in a file.
#![tactic(auto)]

ghost use Rattle.std.specs.Prelude.{◌≡◌};
ghost use Rattle.std.specs.Process.{exit_status};

mod running;

pub use running::{run, run_to};
use sb_filedisk::{FileDisk, ReadSource, WriteSink};
use sb_heap::Heap;
use sb_registry::Extensions;
use sb_rules::{Check, Trigger};
use sb_run::{Report, refuse_words};
use sb_treemethod::TreeMethod;
use sb_value::Str;
use std::alloc::AllocError;
use std::io::ErrorKind;
use std::process::ExitCode;
use std::rt::Env;
use std::{env, io};

/// The words behind the program's name. None where one of them isn't UTF-8.
fn given_words(rt: &(impl Env + AllocGlobal)) -> Result<Option<Vec<Str>>, AllocError> {
    let args = match env::args(rt) {
        Ok(args) => args,
        Err(error) if error.kind() == ErrorKind::InvalidData => return Ok(None),
        Err(_) => return Err(AllocError),
    };
    let mut words = Vec::new(rt.alloc());
    for word in args.skip(1) {
        words.push(Str::from_string(word))?;
    }
    Ok(Some(words))
}

/// Runs the program. Its boxes are the heap and the tree as storage methods, checks and triggers as attachments.
fn answer(rt: &HostRuntime) -> Result<Report, AllocError> {
    let alloc = rt.alloc();
    let mut sink = WriteSink::new(io::writer(rt));
    let Some(words) = given_words(rt)? else {
        return Ok(refuse_words(alloc, &mut sink));
    };
    let mut exts = Extensions {
        methods: Vec::new(alloc),
        attachments: Vec::new(alloc),
        spare_methods: Vec::new(alloc),
        spare_attachments: Vec::new(alloc),
    };
    exts.methods.push(Box::new(alloc, Heap::new())?)?;
    exts.methods.push(Box::new(alloc, TreeMethod::new())?)?;
    exts.attachments.push(Box::new(alloc, Check::new())?)?;
    exts.attachments.push(Box::new(alloc, Trigger::new())?)?;
    let mut disk = FileDisk::new(rt);
    let mut source = ReadSource::new(rt.reader());
    Ok(run(alloc, &words, exts, &mut source, &mut sink, &mut disk))
}

/// The process ends with the status of the report.
fn exit_code(report: &Report) -> ExitCode
    ensures { exit_status result ≡ report.now.status }
{
    ExitCode::from(report.status)
}

fn main(rt: HostRuntime) -> ExitCode {
    match answer(&rt) {
        Ok(report) => exit_code(&report),
        Err(_) => ExitCode::from(7),
    }
}
