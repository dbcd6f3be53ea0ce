use sb_images::{one_geometry, restores_one_way};

#[test]
fn laws(_: HostRuntime) {
    one_geometry();
    restores_one_way();
}
