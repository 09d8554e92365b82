// The catalogue: all pieces of n cells that hang together by faces (polycubes), each once under turns, page by page (document 02, A11).
//
// Every box that an entry can need is walked, in order, and of each every filling with n cells, in order; three tests say which are entries. So the entries
// come in ascending order, and no list is kept. Every function here is proved, and the crate assumes nothing.
#![tactic(auto)]

mod emission;
mod hanging;
mod pieces;
mod walk;

ghost use Rattle.std.specs.Prelude.{◌≡◌, length};
ghost use Rattle.definitions.specs.Catalogue.{Catalogued, Roomy, catalogue};
ghost use Rattle.definitions.specs.CatalogueCalls.{CatalogueDemand, MeetsCatalogueDemand, catalogue_outcome, catalogue_outcome_of};

use definitions::{Page, Refusal};
use emission::Emission;

// A page of the catalogue of the pieces of n cells, from entry `skip` on, as many as fit whole; or 21, and nothing changed, where n is not 1 to 6.
// The further clauses are what that outcome rests on, as laws: whatever is asked for, a page of the one list; the list has all pieces, each once, and none but
// those, in boxes of at most 18 cells; and of six cells it has 166.
pub fn page(n: u32, skip: u64, entries: &mut [u8]) -> Result<Page, Refusal>
    ensures outcome { catalogue_outcome_of result entries.new ≡ catalogue_outcome (record { n = n; skip = skip; entries = entries.old }) }
    ensures demand { CatalogueDemand (record { n = n; skip = skip; entries = entries.old }) (catalogue_outcome_of result entries.new) }
    ensures one_list { MeetsCatalogueDemand catalogue_outcome }
    ensures all_pieces { Catalogued × Roomy }
    ensures number { length (catalogue 6) ≡ 166 }
{
    if n < 1 || 6 < n {
        return Err(Refusal::CellCountOutOfRange);
    }
    let begun = Emission {
        skip,
        written: 0,
        further: false,
    };
    let Emission {
        written,
        further,
        ..
    } = walk::list(n as usize, entries, begun);
    Ok(Page { written, further })
}
