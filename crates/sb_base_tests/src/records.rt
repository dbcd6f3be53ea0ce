ghost use Rattle.sb_log.specs.Records.{IsRecord};
ghost use Rattle.sb_log.specs.Rec.{record_of};

use sb_log::{
    BadAt, Geometry, Rec, bad_in_one_place, count_records, one_record, one_row_of_records,
    own_changes_stand, read_rec, rec_len, write_rec,
};

const CHANGE: Rec<'static> = Rec::Change {
    tx: 1,
    owner: 3,
    page: 2,
    offset: 24,
    before: b"\0\0",
    after: b"\x01\x02",
};

/// The record is written as these bytes, and they are read again as it.
fn is_spelled(r: Rec<'_>, spelling: &[u8]) -> bool
    requires { IsRecord (record_of r) }
{
    let mut page = [0; 4101];
    let len = rec_len(&r);
    if len != spelling.len() || len > page.len() {
        return false;
    }
    let out = &mut page[..len];
    write_rec(&r, out) == len && *out == *spelling && read_rec(spelling) == Some((r, len))
}

#[test]
fn spellings(rt: HostRuntime) {
    let begin = Rec::Begin { tx: 1 };
    assert!(rt; is_spelled(begin, b"\x01\0\0\0\x01"));
    let back = Rec::Back { tx: 1, n: 3 };
    assert!(rt; is_spelled(back, b"\x04\0\0\0\x01\0\0\0\x03"));
    let change = b"\x03\0\0\0\x01\0\x03\0\0\0\x02\0\x18\0\x02\0\0\x01\x02";
    assert!(rt; is_spelled(CHANGE, change));
    let commit = Rec::Commit { tx: 258 };
    assert!(rt; is_spelled(commit, b"\x05\0\0\x01\x02"));
}

#[test]
fn image(rt: HostRuntime) {
    let mut spelling = [7; 4101];
    spelling[..5].copy_from_slice(b"\x02\0\0\x01\0");
    let page = [7; 4096];
    let image = Rec::Image {
        page: 256,
        bytes: &page,
    };
    assert!(rt; is_spelled(image, &spelling));
    assert!(rt; read_rec(&spelling[..4100]).is_none());
}

#[test]
fn no_records(rt: HostRuntime) {
    for bytes in [
        b"".as_slice(),
        b"\0".as_slice(),
        b"\x06\0\0\0\x01".as_slice(),
        b"\x01\0\0\0".as_slice(),
        b"\x04\0\0\0\x01\0\0\0".as_slice(),
        b"\x03\0\0\0\x01\0\x03\0\0\0\x02\0\x18\0\0".as_slice(),
        b"\x03\0\0\0\x01\0\x03\0\0\0\x02\x0f\xff\0\x02\0\0\x01\x02".as_slice(),
        b"\x03\0\0\0\x01\0\x03\0\0\0\x02\0\x18\0\x02\0\0\x01".as_slice(),
    ] {
        assert!(rt; read_rec(bytes).is_none());
    }
}

#[test]
fn chunks(rt: HostRuntime) {
    let rows = [
        (b"".as_slice(), Ok(0)),
        (
            b"\x01\0\0\0\x01\x03\0\0\0\x01\0\x03\0\0\0\x02\0\x18\0\x02\0\0\x01\x02\x05\0\0\0\x01".as_slice(),
            Ok(3),
        ),
        (b"\0".as_slice(), Err(BadAt { offset: 0 })),
        (
            b"\x01\0\0\0\x01\x06\0\0\0\x01".as_slice(),
            Err(BadAt { offset: 5 }),
        ),
        (
            b"\x01\0\0\0\x01\x04\0\0\0\x01\0\0\0\x03\x05\0\0".as_slice(),
            Err(BadAt { offset: 14 }),
        ),
    ];
    for (chunk, want) in rows {
        assert!(rt; chunk.len() < 100);
        assert_eq!(rt; count_records(chunk), want);
    }
}

#[test]
fn sizes_and_laws(rt: HostRuntime) {
    let geometry = Geometry {
        pages: 64,
        log: 2_097_152,
        version: 1,
    };
    assert_eq!(rt; geometry.pages, 64);
    one_record();
    one_row_of_records();
    bad_in_one_place();
    own_changes_stand();
}
