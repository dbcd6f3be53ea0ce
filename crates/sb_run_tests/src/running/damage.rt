//! Stores some bytes of which were written over.

use super::{comes_to, new_disk, output_of, run_row};
use sb_memdisk::MemDisk;
use sb_scripts::{OPENED, Row, SIZE, SMALLEST};
use std::alloc::Global;
use std::process::Abort;
use std::test::*;

/// Three rows in a heap, whose pages are all on the disk behind the checkpoint.
static MAKING: Row<'static> = Row {
    words: &SMALLEST,
    script: b"create t using heap (a int, b text)\n\
        insert t values (3, 'c')\n\
        insert t values (1, 'it''s')\n\
        insert t values (2, '')\n\
        checkpoint\n",
    ..OPENED
};

/// Bytes that are written over at some places, and what a run over them comes to.
struct Damage {
    places: &'static [(usize, &'static [u8])],
    output: &'static [u8],
    begun: usize,
}

/// The pages begin behind 17 pages of the super page and the gates, and behind the log of 2 MiB.
static DAMAGES: [Damage; 8] = [
    Damage {
        places: &[(17, &[2])],
        output: b"? notstore\n",
        begun: 0,
    },
    Damage {
        places: &[(4096, &[0xa5]), (69_632, &[0xff; 4])],
        output: b"? badlog 0 0\n",
        begun: 0,
    },
    Damage {
        places: &[(4096, &[0xa5]), (69_632, &[0, 0, 0, 6, 1, 0, 0, 0, 1, 9])],
        output: b"? badlog 0 5\n",
        begun: 0,
    },
    // The root of the catalogue, behind one page of owners.
    Damage {
        places: &[(2_170_880, &[0])],
        output: b"? damaged 1\n",
        begun: 0,
    },
    // The owner of the table's own page.
    Damage {
        places: &[(2_166_784, &[0, 3])],
        output: b"? damaged 0\n",
        begun: 0,
    },
    // A page of an instance that no relation has.
    Damage {
        places: &[(2_166_794, &[0, 9])],
        output: b"? damaged 0\n",
        begun: 0,
    },
    // The root of the heap: the first command that reads it ends the run.
    Damage {
        places: &[(2_174_976, &[9])],
        output: b"! damaged 2\n",
        begun: 1,
    },
    Damage {
        places: &[],
        output: b"@000000020000 (3, 'c')\n@000000020001 (1, 'it''s')\n@000000020002 (2, '')\nok 3\nt\nok 1\n",
        begun: 2,
    },
];

static LOOKING: Row<'static> = Row {
    script: b"scan t\ntables\n",
    ..OPENED
};

/// The bytes with others written over some of them.
fn write_over(bytes: &mut [u8], at: usize, new: &[u8]) {
    for (place, byte) in new.iter().enumerate() {
        if let Some(old) = bytes.get_mut(at.saturating_add(place)) {
            *old = *byte;
        }
    }
}

/// The disk with the damage.
fn damaged(rt: &impl Abort, alloc: Global, made: &MemDisk, damage: &Damage) -> MemDisk {
    let image = made.image().expect(rt, "memory");
    let mut bytes = image.as_slice().to_vec(alloc).expect(rt, "memory");
    drop(image);
    for (at, new) in damage.places.iter() {
        write_over(&mut bytes, *at, new);
    }
    MemDisk::from_image(alloc, &bytes).expect(rt, "memory")
}

/// Whether a run over the disk with the damage comes to what is said of it.
fn is_named(rt: &impl Abort, alloc: Global, made: &MemDisk, damage: &Damage) -> bool {
    let mut disk = damaged(rt, alloc, made, damage);
    let ended = run_row(rt, alloc, &LOOKING, &mut disk);
    drop(disk);
    let status = if damage.begun == 2 { 0 } else { 6 };
    comes_to(ended, damage.output, status, damage.begun)
}

/// The disk of the store that is made.
fn made(rt: &impl Abort, alloc: Global) -> MemDisk {
    let mut made = new_disk(rt, alloc, SIZE);
    let ended = run_row(rt, alloc, &MAKING, &mut made);
    drop(output_of(rt, ended));
    made
}

#[test]
fn damage_is_named(rt: HostRuntime) {
    let made = made(&rt, rt.alloc());
    for (number, damage) in DAMAGES.iter().enumerate() {
        assert!(rt; is_named(&rt, rt.alloc(), &made, damage), "damage {number}");
    }
    drop(made);
}

#[test]
fn a_file_that_is_too_short_is_no_store(rt: HostRuntime) {
    let alloc = rt.alloc();
    let made = made(&rt, alloc);
    let image = made.image().expect(&rt, "memory");
    drop(made);
    let front = image.as_slice().get(..4095).expect(&rt, "a longer store");
    let mut disk = MemDisk::from_image(alloc, front).expect(&rt, "memory");
    let ended = run_row(&rt, alloc, &LOOKING, &mut disk);
    drop(disk);
    drop(image);
    assert!(rt; comes_to(ended, b"? notstore\n", 6, 0));
}
