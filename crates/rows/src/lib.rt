// The row system: a tray as rows of words, with the maps that its board allows and the answers that sets of rows stand for. All that the engines see
// (`compile` of fast.rs). Assumed: a tray that rows 2 to 9 of the table let pass, and what was counted of it. Promised: the system that is built is
// `system_of` the tray, and every such system is `Lawful`; what the readers read of it is what the definition has there.
// (A kind or a piece below 16, a map below the number of maps, 512 places at most, rows within the work slice: a number below a length stays a clause, as an
// index does.)
#![tactic(auto)]

pub mod answers;
mod board;
mod building;
pub mod chart;
pub mod images;
pub mod row;
pub mod row_system;
pub mod shown;
pub mod system;

// How large a row system is: filled board cells, rows, kinds, allowed turns and mirrorings, places of the board's box, pieces.
#[derive(Clone, Copy)]
pub struct Dims {
    pub size: usize,
    pub rows: usize,
    pub kinds: usize,
    pub turns: usize,
    pub mirrorings: usize,
    pub places: usize,
    pub pieces: usize,
}
