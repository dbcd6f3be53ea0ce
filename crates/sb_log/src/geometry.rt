/// The sizes of a store: how many pages of data it has, and how many bytes its log takes.
#[derive(Clone, Copy, Debug, PartialEq, Eq)]
pub struct Geometry {
    pub pages: u32,
    pub log: u64,
    pub version: u16,
}
