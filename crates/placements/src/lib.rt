// Trays as they are lent, in records over bytes: the table of refusals in its stages, the stripping of empty outer layers, and what is counted of a tray
// before anything is written: its board's cells, its kinds, their variants, its placements and links (solver/mod.rs). Nothing is assumed of what is
// lent: `check_lent` decides, and what it accepts (`Accepted9`) is the type `LentTray`, which the other functions take.
#![tactic(auto)]

use definitions::Record;

pub mod board;
pub mod counted;
pub mod counting;
pub mod fitting;
pub mod merging;
pub mod planned;
pub mod poses;
pub mod records;
pub mod refusals;
pub mod stripping;
pub mod trays;

// The records of the pieces by value, and how many there are: of fixed length, since nothing is put on a heap.
#[derive(Clone, Copy)]
pub struct Pieces {
    pub records: [Record; 16],
    pub count: usize,
}
