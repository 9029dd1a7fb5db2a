// Where the working slice has what is written.
#[derive(Clone, Copy, Debug, PartialEq, Eq)]
pub struct Places {
    // The label list: its statement numbers from here on, so many of them.
    pub list: usize,
    pub listed: usize,
    // The packed list: its steps from here on, so many of them.
    pub steps: usize,
    pub many: usize,
    // The numbers of the statements plus 1, and the number of the first mark: the lengths of the theorem's list and the label list.
    pub numbers: usize,
    pub both: u32,
}
