/// Why there is no verdict.
#[derive(Clone, Copy)]
pub enum Unfit {
    /// The rows are not the 384 of a region.
    Rows,
    /// The label rows are not the 9 of a region.
    Labels,
    /// There is no room for 512 terms.
    Terms,
}
