// The page call over pieces by value, with the engine in its configuration.
ghost use Rattle.std.specs.Prelude.{Ok, ◌≡◌, ◌*◌, ◌<◌, ◌/◌, length};
ghost use Rattle.definitions.specs.AnswersRight.{AnswersRight};
ghost use Rattle.definitions.specs.Demands.{MeetsDemand2, MeetsDemand3};
ghost use Rattle.definitions.specs.Emission.{emits};
ghost use Rattle.definitions.specs.EmptyBox.{EmptyBoxes, Never1};
ghost use Rattle.definitions.specs.EmptyLayers.{AsLent, Never7, OneForm, PutBack, StrippedTrays};
ghost use Rattle.definitions.specs.Fillings.{FillingsHold};
ghost use Rattle.definitions.specs.MovesAndMaps.{MovesAreMaps};
ghost use Rattle.definitions.specs.Outcomes.{outcome, outcome_of};
ghost use Rattle.definitions.specs.PlacementsRight.{PlacementsRight};
ghost use Rattle.definitions.specs.Pruning.{Pruning};
ghost use Rattle.definitions.specs.Refusals.{identify_of};
ghost use Rattle.definitions.specs.Starts.{Meets, outcome_from, reply_of, waits_at};
ghost use Rattle.definitions.specs.Woods.{BoardUnread, OneWood, OneWoodCalls, WoodCarried, WoodLentCarried, WoodsBehind};
ghost use Rattle.placements.specs.Pieces.{records_of};
ghost use Rattle.rows.specs.RowSystems.{seen};
ghost use Rattle.kept.specs.Emission.{emitted_of};
ghost use Rattle.solver.specs.Lent.{FewLinks, LinksAfter, LongLinks, answers_by, call_with};

use super::{clearing, prepare};
use definitions::{Config, Listing, Page, Record, SolverKind, Start};
use fast::listing as fast_listing;
use kept::emission::Emission;
use knuth::listing as knuth_listing;
use placements::Pieces;
use rows::chart::Chart;
use rows::row_system::RowSystem;

// What a page call hands back for what an engine left: an entry that is still waited for is none of the list.
fn listed(e: Emission) -> Option<Page>
    ensures { Ok result ≡ reply_of (waits_at e.start) e.written e.further }
{
    (!e.is_waiting()).then_some(Page {
        written: e.written,
        further: e.further,
    })
}

// The engine's answers over a row system, from a state on. The engines that are not ported list nothing; their calls are refused before.
fn list(
    system: &RowSystem,
    config: Config,
    links: &mut [u16],
    last: &[u8],
    answers: &mut [u8],
    e: Emission,
) -> Emission
    requires { (0 < system.now.d.places) × LongLinks config.solver links.old × FewLinks config.solver (seen system.now) }
    ensures page { let room = length answers.old / (2 * system.now.d.places) in
        let old = emitted_of e last.now answers.old in
        emitted_of result last.now answers.new ≡ emits room (answers_by (seen system.now) (identify_of config) config.solver) old }
    ensures behind { LinksAfter config.solver links.old links.new }
{
    let turned = config.identify_transformed_answers;
    let mirrored = config.identify_mirrored_answers;
    let capacity = answers.len() / (2 * system.d.places);
    match config.solver {
        SolverKind::Auto | SolverKind::Naive => e,
        SolverKind::Fast => {
            fast_listing::list(system, turned, mirrored, capacity, last, answers, e)
        }
        SolverKind::KnuthAlgorithm => {
            knuth_listing::list(system, turned, mirrored, capacity, links, last, answers, e)
        }
    }
}

// A call, whatever is lent: the page of the engine's list from its start on, or the first refusal that applies. Where the page does not start behind `last`,
// what it holds decides nothing. (What is lent stands one by one, as in the C call.)
// The further clauses are what that outcome rests on, as laws: the one list, over packings and sequences of moves, and over exact covers; what a placement and
// an answer are, cell by cell; empty layers stripped and put back; a box with no pieces; woods; branches left early, which lose nothing; and small trays that
// are listed by hand.
#[tactic(auto, using(crate::proofs::PromiseLaws::promises))]
pub fn page(
    pieces: &Pieces,
    board: Record,
    bytes: &[u8],
    config: Config,
    start: Start,
    last: &[u8],
    answers: &mut [u8],
    work: &mut [u64],
    links: &mut [u16],
) -> Listing
    ensures outcome { let call = call_with (records_of pieces.now) board bytes.now config answers.old work.old links.old in
        outcome_of result answers.new work.new links.new ≡ outcome_from start last.now call }
    ensures meets { let call = call_with (records_of pieces.now) board bytes.now config answers.old work.old links.old in
        Meets start last.now call (outcome_of result answers.new work.new links.new) }
    ensures one_list { MeetsDemand3 outcome }
    ensures exact_covers { MeetsDemand2 outcome }
    ensures moves { MovesAreMaps }
    ensures placements { PlacementsRight }
    ensures answers { AnswersRight }
    ensures stripped { StrippedTrays × OneForm × Never7 outcome }
    ensures put_back { PutBack × AsLent }
    ensures empty_box { EmptyBoxes outcome × Never1 outcome }
    ensures woods { WoodCarried × WoodLentCarried × OneWood }
    ensures wood_calls { OneWoodCalls outcome × BoardUnread outcome × WoodsBehind }
    ensures pruned { Pruning }
    ensures by_hand { FillingsHold }
{
    let mut chart = Chart::empty();
    let d = prepare::prepare(
        pieces,
        board,
        bytes,
        config,
        work.len(),
        links.len(),
        work,
        &mut chart,
    )?;
    let begun = Emission {
        start,
        written: 0,
        further: false,
    };
    let system = RowSystem {
        d,
        work,
        chart: &chart,
    };
    let e = list(&system, config, links, last, answers, begun);
    clearing::clear_work(work);
    clearing::clear_links(config.solver, links);
    Ok(listed(e))
}
