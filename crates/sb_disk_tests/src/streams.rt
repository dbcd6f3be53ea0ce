//! One read or write of a source or a sink.

use sb_disk::{Failed, Sink, Source};

/// Whether a read over four zeros gives so many bytes and leaves these, or fails where none are wanted. So many failures are counted then.
pub fn gives<S: Source>(source: &mut S, wanted: Option<(usize, &[u8; 4])>, faults: u64) -> bool {
    let mut buffer = [0; 4];
    let read = source.read(&mut buffer);
    let is_wanted = match wanted {
        Some((count, bytes)) => read == Ok(count) && buffer == *bytes,
        None => read == Err(Failed),
    };
    is_wanted && source.faults() == faults
}

/// Whether a write of the piece takes so many bytes, or fails where none are wanted. So many failures are counted then.
pub fn takes<K: Sink>(sink: &mut K, piece: &[u8], wanted: Option<usize>, faults: u64) -> bool {
    let written = sink.write(piece);
    written == wanted.ok_or(Failed) && sink.faults() == faults
}
