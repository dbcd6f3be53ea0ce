use sb_bytes::{
    get_u16, get_u32, get_u64, leaves_others, put_u16, put_u32, put_u64, reads_back, splice,
    writes_back,
};

#[test]
fn fields(rt: HostRuntime) {
    let mut bytes = [0xff; 16];
    put_u16(&mut bytes, 1, 0x0102);
    put_u32(&mut bytes, 3, 0x0304_0506);
    put_u64(&mut bytes, 7, 0x0708_090a_0b0c_0d0e);
    let written = [0xff, 1, 2, 3, 4, 5, 6, 7, 8, 9, 10, 11, 12, 13, 14, 0xff];
    assert_eq!(rt; bytes, written);
    assert_eq!(rt; get_u16(&bytes, 1), 0x0102);
    assert_eq!(rt; get_u32(&bytes, 3), 0x0304_0506);
    assert_eq!(rt; get_u64(&bytes, 7), 0x0708_090a_0b0c_0d0e);
    assert_eq!(rt; get_u64(&bytes, 0), 0xff01_0203_0405_0607);
    reads_back();
    writes_back();
    leaves_others();
}

#[test]
fn bytes_over_others(rt: HostRuntime) {
    let mut bytes = [1, 2, 3, 4, 5];
    splice(&mut bytes, 1, &[7, 8]);
    assert_eq!(rt; bytes, [1, 7, 8, 4, 5]);
}
