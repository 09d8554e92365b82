// The request that `catalogue` reads: one line, the word `cells` and a number.
ghost use Rattle.std.specs.Prelude.{◌≡◌};
ghost use Rattle.definitions.specs.CatalogueCalls.{asks_cells, cells_asked, is_request};
ghost use Rattle.definitions.specs.Files.{field, number_in};
ghost use Rattle.files.specs.Lines.{Read};

use files::fields;

// How many cells a line asks for; nothing where it does not ask. (Ten digits can stand for more than 32 bits hold: that is no number of cells.)
#[tactic(auto, using(files::proofs::PartLaws::same_are), unfolding(definitions::specs::CatalogueCalls::asks_cells))]
fn count_asked(line: &[u8]) -> Option<u32>
    ensures { Read result (asks_cells line.now) (λ n. n ≡ number_in (field line.now 1)) }
{
    if fields::count_fields(line) != 2 || fields::field(line, 0) != b"cells".as_slice() {
        return None;
    }
    let number = fields::number_in(fields::field(line, 1), 10)?;
    u32::try_from(number).ok()
}

// How many cells a text asks for; nothing where it is no request.
pub(crate) fn read_request(text: &[u8]) -> Option<u32>
    ensures { Read result (is_request text.now) (λ n. n ≡ cells_asked text.now) }
{
    let (line, rest) = files::split_line(text)?;
    if !rest.is_empty() {
        return None;
    }
    count_asked(line)
}
