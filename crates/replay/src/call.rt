// A call that is read from a text.
ghost use Rattle.std.specs.Prelude.{◌≤◌, length};

use super::reader::Reader;
use definitions::{Config, Record, SolverKind};
use placements::Pieces;

// All that a call lends, but for its slices, of which it says how many words and links they have.
#[derive(Clone, Copy)]
pub struct Call<'a> {
    pub pieces: Pieces,
    pub board: Record,
    pub bytes: &'a [u8],
    pub config: Config,
    pub words: usize,
    pub links: usize,
}

// What is shown of a call beside its text: its row system, pages, both, or neither. (Two flags: each part asks for its own, and an enum of four would be taken
// apart into them.)
#[derive(Clone, Copy)]
pub struct Shown {
    pub system: bool,
    pub pages: bool,
}

fn read_record(reader: &mut Reader) -> Record
    ensures { length reader.new.text.now ≤ length reader.old.text.now }
{
    Record {
        a: reader.number(),
        b: reader.number(),
        c: reader.number(),
        count: u32::try_from(reader.number()).unwrap_or(u32::MAX),
        wood: u8::try_from(reader.number()).unwrap_or(u8::MAX),
        start: reader.number(),
    }
}

// n pieces, of which the first 16 are read.
fn read_pieces(reader: &mut Reader, n: usize) -> Pieces
    ensures { length reader.new.text.now ≤ length reader.old.text.now }
{
    let mut pieces = Pieces::empty(n);
    // the text does not grow
    for i in 0..n.min(16) {
        pieces.records[i] = read_record(reader);
    }
    pieces
}

// A configuration. (The solver's number by hand: in a text any above 3 counts as 3, unlike one that C hands over.)
fn read_config(reader: &mut Reader) -> Config
    ensures { length reader.new.text.now ≤ length reader.old.text.now }
{
    let solver = match reader.number() {
        0 => SolverKind::Auto,
        1 => SolverKind::Naive,
        2 => SolverKind::Fast,
        _ => SolverKind::KnuthAlgorithm,
    };
    Config {
        solver,
        identify_transformed_answers: reader.number() == 1,
        identify_mirrored_answers: reader.number() == 1,
    }
}

// The call that stands next, its cells in a buffer; and what is shown of it.
pub(crate) fn read<'a>(reader: &mut Reader, cells: &'a mut [u8]) -> (Call<'a>, Shown)
    ensures { length reader.new.text.now ≤ length reader.old.text.now }
{
    let n = reader.number();
    let config = read_config(reader);
    let words = reader.number();
    let links = reader.number();
    let asked = reader.number();
    let board = read_record(reader);
    let pieces = read_pieces(reader, n);
    let read = reader.digits(cells);
    let call = Call {
        pieces,
        board,
        bytes: &cells[..read],
        config,
        words,
        links,
    };
    let shown = Shown {
        system: asked < 2,
        pages: asked == 1 || asked == 2,
    };
    (call, shown)
}
