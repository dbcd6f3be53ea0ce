//! The log of a store: its journal, and the bytes of its chunks.

ghost use Rattle.std.specs.Prelude.{◌≡◌, ◌⊎◌, ◌^◌, ◌≤◌, ◌<◌, ◌++◌, ◌∷◌, [], false, length, slice_index, IfOk, OnOk, IfErr, IsErrOf};
ghost use Rattle.sb_disk.specs.Causes.{Rose};
ghost use Rattle.sb_disk.specs.Moments.{IsSettled};
ghost use Rattle.sb_images.specs.Layout.{need, gates_of, log_of, IsGeometry};
ghost use Rattle.sb_images.specs.Store.{AreChunks};
ghost use Rattle.sb_journal.specs.Calls.{OpenErr};
ghost use Rattle.sb_journal.specs.Opening.{OnlyReads, RunsPast};
ghost use Rattle.sb_journal.specs.State.{Lies, StandsOn};
ghost use Rattle.sb_recover.specs.BadLog.{AreRows, IsFirstBad, IsLog, LogErr, RowsErr, ChunkIs, AreShort};
ghost use Rattle.sb_recover.specs.Faults.{IsFree};
ghost use Rattle.sb_recover.specs.Frames.{texts};

use crate::OpenFault;
use sb_disk::Disk;
use sb_images::{gate_region, log_region};
use sb_journal::{Journal, JournalFault, Region};
use sb_log::{Geometry, count_records};
use std::alloc::{AllocError, Global};

/// The bytes of one chunk.
fn read_chunk<D: Disk>(
    alloc: Global,
    disk: &mut D,
    journal: &mut Journal,
    i: u32,
) -> Result<Vec<u8>, OpenFault>
    requires lies { Lies (D.len disk.old) journal.old.gates journal.old.log }
    requires stands { StandsOn (D.told disk.old) journal.old }
    requires up { journal.old.failed ≡ false }
    requires chunk { i < length journal.old.lens }
    ensures chunk { IfOk result (λ bytes. ChunkIs (D.told disk.old) journal.old i bytes.items) }
    ensures long { IfOk result (λ bytes. length bytes.items ≡ slice_index journal.old.lens i) }
    ensures short { IfOk result (λ bytes. length bytes.items < 2 ^ 32) }
    ensures kept { OnOk result (journal.new ≡ journal.old) }
    ensures refused { IfErr result IsFree }
    ensures fault { IsErrOf result OpenFault.Fault → Rose (D.faults disk.old) (D.faults disk.new) }
    ensures reads { OnlyReads D.told D.len D.faults disk.old disk.new }
{
    let mut bytes = vec![in alloc; 0u8; journal.chunk_len(i) as usize]?;
    journal.read_chunk(disk, i, 0, &mut bytes)?;
    Ok(bytes)
}

/// Adds a chunk behind the others.
fn add(chunks: &mut Vec<Vec<u8>>, chunk: Vec<u8>) -> Result<(), AllocError>
    ensures { OnOk result (chunks.new.items ≡ chunks.old.items ++ chunk ∷ []) }
{
    chunks.push(chunk)?;
    Ok(())
}

/// The bytes of all chunks.
fn read_chunks<D: Disk>(
    alloc: Global,
    disk: &mut D,
    journal: &mut Journal,
) -> Result<Vec<Vec<u8>>, OpenFault>
    requires lies { Lies (D.len disk.old) journal.old.gates journal.old.log }
    requires stands { StandsOn (D.told disk.old) journal.old }
    requires up { journal.old.failed ≡ false }
    ensures chunks { IfOk result (λ chunks. AreChunks (D.told disk.old) journal.old (texts chunks.items)) }
    ensures short { IfOk result (λ chunks. AreShort (texts chunks.items)) }
    ensures count { IfOk result (λ chunks. length chunks.items ≡ length journal.old.lens) }
    ensures kept { OnOk result (journal.new ≡ journal.old) }
    ensures refused { IfErr result IsFree }
    ensures fault { IsErrOf result OpenFault.Fault → Rose (D.faults disk.old) (D.faults disk.new) }
    ensures reads { OnlyReads D.told D.len D.faults disk.old disk.new }
{
    let mut chunks = Vec::new(alloc);
    for i in 0..journal.chunks() {
        let chunk = read_chunk(alloc, disk, journal, i)?;
        add(&mut chunks, chunk)?;
    }
    Ok(chunks)
}

/// Whether the chunks hold whole records alone, and else the first one that doesn't, and where.
fn test_chunks(chunks: &[Vec<u8>]) -> Result<(), OpenFault>
    requires short { AreShort (texts chunks.now) }
    requires few { length chunks.now ≤ 65536 }
    ensures ok { OnOk result (AreRows (texts chunks.now)) }
    ensures bad { IfErr result (IsFirstBad (texts chunks.now)) }
{
    for i in 0..chunks.len() {
        if let Err(bad) = count_records(&chunks[i]) {
            return Err(OpenFault::BadLog {
                chunk: i as u32,
                offset: bad.offset,
            });
        }
    }
    Ok(())
}

/// The bytes of the chunks, each of which is a row of whole records.
fn read_rows<D: Disk>(
    alloc: Global,
    disk: &mut D,
    journal: &mut Journal,
) -> Result<Vec<Vec<u8>>, OpenFault>
    requires lies { Lies (D.len disk.old) journal.old.gates journal.old.log }
    requires stands { StandsOn (D.told disk.old) journal.old }
    requires up { journal.old.failed ≡ false }
    requires few { length journal.old.lens ≤ 65536 }
    ensures chunks { IfOk result (λ chunks. AreChunks (D.told disk.old) journal.old (texts chunks.items)) }
    ensures rows { IfOk result (λ chunks. AreRows (texts chunks.items)) }
    ensures kept { OnOk result (journal.new ≡ journal.old) }
    ensures refused { IfErr result (RowsErr (D.told disk.old) journal.old) }
    ensures fault { IsErrOf result OpenFault.Fault → Rose (D.faults disk.old) (D.faults disk.new) }
    ensures reads { OnlyReads D.told D.len D.faults disk.old disk.new }
{
    let chunks = read_chunks(alloc, disk, journal)?;
    match test_chunks(&chunks) {
        Ok(()) => Ok(chunks),
        Err(fault) => Err(fault),
    }
}

/// What is answered where this open chunk runs past the region: one before it may be no row of records.
fn past<D: Disk>(alloc: Global, disk: &mut D, g: &Geometry, chunk: u32) -> OpenFault
    requires sizes { IsGeometry g.now }
    requires room { need g.now.pages g.now.log ≤ D.len disk.old }
    requires settled { IsSettled (D.told disk.old) }
    requires gate { chunk < 65536 }
    requires past { RunsPast (D.told disk.old) (gates_of g.now) (log_of g.now) chunk }
    ensures refused { LogErr (D.told disk.old) g.now result }
    ensures fault { result ≡ OpenFault.Fault → Rose (D.faults disk.old) (D.faults disk.new) }
    ensures reads { OnlyReads D.told D.len D.faults disk.old disk.new }
{
    let before = Region {
        start: gate_region(*g).start,
        len: chunk as u64,
    };
    let mut journal = match Journal::open(alloc, disk, before, log_region(*g)) {
        Ok(journal) => journal,
        Err(fault) => return fault.into(),
    };
    match read_rows(alloc, disk, &mut journal) {
        Ok(_) => OpenFault::BadLog { chunk, offset: 0 },
        Err(fault) => fault,
    }
}

/// What is answered where the journal of a store isn't opened.
fn refusal<D: Disk>(alloc: Global, disk: &mut D, g: &Geometry, fault: JournalFault) -> OpenFault
    requires sizes { IsGeometry g.now }
    requires room { need g.now.pages g.now.log ≤ D.len disk.old }
    requires settled { IsSettled (D.told disk.old) }
    requires open { OpenErr (D.told disk.old) (gates_of g.now) (log_of g.now) fault }
    ensures refused { LogErr (D.told disk.old) g.now result }
    ensures fault { result ≡ OpenFault.Fault → (fault ≡ JournalFault.Fault) ⊎ Rose (D.faults disk.old) (D.faults disk.new) }
    ensures reads { OnlyReads D.told D.len D.faults disk.old disk.new }
{
    match fault {
        JournalFault::BadChunk { chunk, .. } => past(alloc, disk, g, chunk),
        JournalFault::NoMemory => OpenFault::NoMemory,
        JournalFault::Fault => OpenFault::Fault,
        JournalFault::LogFull { .. } => OpenFault::Fault,
        JournalFault::GatesFull { .. } => OpenFault::Fault,
    }
}

/// Opens the journal of a store, and reads its chunks.
pub(crate) fn read_log<D: Disk>(
    alloc: Global,
    disk: &mut D,
    g: &Geometry,
) -> Result<(Journal, Vec<Vec<u8>>), OpenFault>
    requires sizes { IsGeometry g.now }
    requires room { need g.now.pages g.now.log ≤ D.len disk.old }
    requires settled { IsSettled (D.told disk.old) }
    ensures ok { IfOk result (λ l. IsLog (D.told disk.old) g.now l.0 (texts l.1.items)) }
    ensures refused { IfErr result (LogErr (D.told disk.old) g.now) }
    ensures fault { IsErrOf result OpenFault.Fault → Rose (D.faults disk.old) (D.faults disk.new) }
    ensures reads { OnlyReads D.told D.len D.faults disk.old disk.new }
{
    let mut journal = match Journal::open(alloc, disk, gate_region(*g), log_region(*g)) {
        Ok(journal) => journal,
        Err(fault) => return Err(refusal(alloc, disk, g, fault)),
    };
    match read_rows(alloc, disk, &mut journal) {
        Ok(chunks) => Ok((journal, chunks)),
        Err(fault) => Err(fault),
    }
}
