/// How many pages a device has, and of what size.
#[derive(Clone, Copy, Debug, PartialEq, Eq)]
pub struct Shape {
    /// The number of pages.
    pub pages: u32,
    /// The bytes of a page.
    pub page_size: u32,
}
