// The pieces as a slice of records, of which a call reads the first 16 (it is refused where there are more).
ghost use Rattle.std.specs.Prelude.{◌≡◌};
ghost use Rattle.definitions.specs.AnswersRight.{AnswersRight};
ghost use Rattle.definitions.specs.Demands.{MeetsDemand2, MeetsDemand3};
ghost use Rattle.definitions.specs.EmptyBox.{EmptyBoxes, Never1};
ghost use Rattle.definitions.specs.EmptyLayers.{AsLent, Never7, OneForm, PutBack, StrippedTrays};
ghost use Rattle.definitions.specs.Fillings.{FillingsHold};
ghost use Rattle.definitions.specs.MovesAndMaps.{MovesAreMaps};
ghost use Rattle.definitions.specs.Outcomes.{outcome, outcome_of};
ghost use Rattle.definitions.specs.PlacementsRight.{PlacementsRight};
ghost use Rattle.definitions.specs.Pruning.{Pruning};
ghost use Rattle.definitions.specs.Starts.{Meets, outcome_from};
ghost use Rattle.definitions.specs.Woods.{BoardUnread, OneWood, OneWoodCalls, WoodCarried, WoodLentCarried, WoodsBehind};
ghost use Rattle.placements.specs.Pieces.{pieces_of};
ghost use Rattle.solver.specs.Lent.{call_with};

use super::pages;
use definitions::{Config, Listing, Record, Start};
use placements::Pieces;
use placements::records::NO_RECORD;

// The first 16 records by value, and how many records were lent.
pub fn taken(pieces: &[Record]) -> Pieces
    ensures { result ≡ pieces_of pieces.now }
{
    let count = pieces.len();
    let n = count.min(16);
    let mut records = [NO_RECORD; 16];
    records[..n].copy_from_slice(&pieces[..n]);
    Pieces { records, count }
}

// A call, whatever is lent: the page of the engine's list from its start on, or the first refusal that applies. `last` is read only where the page starts
// behind it. (Beside `pages::page` over `Pieces`: of more than 16 pieces in a file only the count is kept, so that no slice has them.)
pub fn page(
    pieces: &[Record],
    board: Record,
    bytes: &[u8],
    config: Config,
    start: Start,
    last: &[u8],
    answers: &mut [u8],
    work: &mut [u64],
    links: &mut [u16],
) -> Listing
    ensures outcome { let call = call_with pieces.now board bytes.now config answers.old work.old links.old in
        outcome_of result answers.new work.new links.new ≡ outcome_from start last.now call }
    ensures meets { let call = call_with pieces.now board bytes.now config answers.old work.old links.old in
        Meets start last.now call (outcome_of result answers.new work.new links.new) }
    ensures one_list { MeetsDemand3 outcome }
    ensures exact_covers { MeetsDemand2 outcome }
    ensures moves { MovesAreMaps }
    ensures placements { PlacementsRight }
    ensures answers { AnswersRight }
    ensures stripped { StrippedTrays × OneForm × Never7 outcome }
    ensures put_back { PutBack × AsLent }
    ensures empty_box { EmptyBoxes outcome × Never1 outcome }
    ensures woods { WoodCarried × WoodLentCarried × OneWood }
    ensures wood_calls { OneWoodCalls outcome × BoardUnread outcome × WoodsBehind }
    ensures pruned { Pruning }
    ensures by_hand { FillingsHold }
{
    pages::page(
        &taken(pieces),
        board,
        bytes,
        config,
        start,
        last,
        answers,
        work,
        links,
    )
}
