use sb_value::Str;
use sb_words::{Words, read_words};
use std::alloc::{AllocError, Global};
use std::test::Fail;

/// The store's name, whether it is made, its pages, the bytes of its log, and the frames.
type Asked = (&'static str, bool, u32, u64, u32);

/// Lines of words, and what they ask for where they are taken.
static LINES: [(&str, Option<Asked>); 36] = [
    ("--store s", Some(("s", false, 1024, 4_194_304, 64))),
    ("--store s --create", Some(("s", true, 1024, 4_194_304, 64))),
    (
        "--store s --create --pages 64 --log 2097152 --frames 8",
        Some(("s", true, 64, 2_097_152, 8)),
    ),
    ("--store=s", Some(("s", false, 1024, 4_194_304, 64))),
    ("--create --store s", Some(("s", true, 1024, 4_194_304, 64))),
    (
        "--frames 65536 --log 16777216 --pages 65536 --store s",
        Some(("s", false, 65_536, 16_777_216, 65_536)),
    ),
    (
        "--store s --pages=64",
        Some(("s", false, 64, 4_194_304, 64)),
    ),
    (
        "--store s --pages 0064",
        Some(("s", false, 64, 4_194_304, 64)),
    ),
    (
        "--store s --pages +64",
        Some(("s", false, 64, 4_194_304, 64)),
    ),
    (
        "--store create",
        Some(("create", false, 1024, 4_194_304, 64)),
    ),
    ("--store -", Some(("-", false, 1024, 4_194_304, 64))),
    ("--store=-s", Some(("-s", false, 1024, 4_194_304, 64))),
    ("--store=", Some(("", false, 1024, 4_194_304, 64))),
    ("--store s --", Some(("s", false, 1024, 4_194_304, 64))),
    ("", None),
    ("--create", None),
    ("s", None),
    ("--store", None),
    ("--store --create", None),
    ("--store s t", None),
    ("--store s -- t", None),
    ("--store s --store t", None),
    ("--store s --create --create", None),
    ("--store s --create=true", None),
    ("--store s --cre", None),
    ("--store s -c", None),
    ("--store s --help", None),
    ("--store s --version", None),
    ("--store s --seed 1", None),
    ("--store s --pages 63", None),
    ("--store s --pages 65537", None),
    ("--store s --log 2097151", None),
    ("--store s --log 16777217", None),
    ("--store s --frames 7", None),
    ("--store s --pages=-64", None),
    ("--store s --pages 64k", None),
];

fn words_of(alloc: Global, line: &str) -> Result<Vec<Str>, AllocError> {
    let mut words = Vec::new(alloc);
    for word in line.split_ascii_whitespace() {
        words.push(Str::from_string(String::from_str(alloc, word)?))?;
    }
    Ok(words)
}

fn is(words: &Option<Words>, asked: &Option<Asked>) -> bool {
    match (words, asked) {
        (Some(words), Some(asked)) => {
            words.store.as_str() == asked.0
                && (words.create, words.pages, words.log, words.frames)
                    == (asked.1, asked.2, asked.3, asked.4)
        }
        (None, None) => true,
        _ => false,
    }
}

#[test]
fn reads_words(rt: HostRuntime) -> Result<(), Fail> {
    let alloc = rt.alloc();
    for (line, asked) in &LINES {
        let words = words_of(alloc, line)?;
        let read = read_words(alloc, words.as_slice())?;
        assert!(rt; is(&read, asked), "at {line}");
    }
    Ok(())
}
