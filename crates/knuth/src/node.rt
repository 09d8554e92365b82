// What of a node of the links never changes.

// Its column, the first node of its row and the node behind the row's last, and the row's number.
#[derive(Clone, Copy)]
pub struct Node {
    pub column: usize,
    pub first: usize,
    pub end: usize,
    pub row: usize,
}
