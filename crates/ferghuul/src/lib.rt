// The calls for C and Rust, with what they answer as numbers (docs/INTERFACE.md): a page of the listing, the text for Knuth's DLX1, and a page of the
// catalogue of pieces. Nothing is assumed of what is lent; promised are the outcomes of the definitions. The exported names bear the interface's number, 1:
// `ferghuul_page` of include/ferghuul.h is `ferghuul_1_page`.
#![tactic(auto)]

ghost use Rattle.std.specs.Prelude.{◌≡◌, false, length};
ghost use Rattle.definitions.specs.AnswersRight.{AnswersRight};
ghost use Rattle.definitions.specs.Catalogue.{Catalogued, Roomy, catalogue};
ghost use Rattle.definitions.specs.CatalogueCalls.{CatalogueDemand, MeetsCatalogueDemand, catalogue_outcome};
ghost use Rattle.definitions.specs.Demands.{MeetsDemand2, MeetsDemand3};
ghost use Rattle.definitions.specs.EmptyBox.{EmptyBoxes, Never1};
ghost use Rattle.definitions.specs.EmptyLayers.{AsLent, Never7, OneForm, PutBack, StrippedTrays};
ghost use Rattle.definitions.specs.Fillings.{FillingsHold};
ghost use Rattle.definitions.specs.MovesAndMaps.{MovesAreMaps};
ghost use Rattle.definitions.specs.Outcomes.{outcome};
ghost use Rattle.definitions.specs.PlacementsRight.{PlacementsRight};
ghost use Rattle.definitions.specs.Pruning.{Pruning};
ghost use Rattle.definitions.specs.Starts.{Meets, outcome_from};
ghost use Rattle.definitions.specs.TextCalls.{MeetsTextDemand, TextDemand, text_outcome};
ghost use Rattle.definitions.specs.Woods.{BoardUnread, OneWood, OneWoodCalls, WoodCarried, WoodLentCarried, WoodsBehind};
ghost use Rattle.solver.specs.Lent.{call_with};
ghost use Rattle.dlx.specs.Texts.{text_call};
ghost use Rattle.ferghuul.specs.Numbers.{catalogue_outcome_by, config_of, engine_of, numbers_of, outcome_by};
ghost use Rattle.ferghuul.specs.Numbers.{start_of, text_numbers_of, text_outcome_by};

use definitions::{Config, Listing, Record, Refusal, SolverKind, Start};
use solver::records;

// What a call answers: the refusal's number, 0 where it is accepted; how many answers, or entries of the catalogue, were written; whether a further one
// follows; and whether no entry of the list equals the one that was lent, to begin behind it. (Numbers and flags: the C interface has no enums with fields.)
#[repr(C)]
#[derive(Clone, Copy)]
pub struct Answer {
    pub number: u32,
    pub written: usize,
    pub further: bool,
    pub missing: bool,
}

// What a page call hands back, in numbers.
impl From<Listing> for Answer {
    ghost from_gives = { λ r a. a ≡ numbers_of r };

    fn from(r: Listing) -> Answer
        ensures { result ≡ numbers_of r }
    {
        match r {
            Err(why) => Answer {
                number: u32::from(why.number()),
                written: 0,
                further: false,
                missing: false,
            },
            Ok(Some(page)) => Answer {
                number: 0,
                written: page.written,
                further: page.further,
                missing: false,
            },
            Ok(None) => Answer {
                number: 0,
                written: 0,
                further: false,
                missing: true,
            },
        }
    }
}

// What the call for the text answers: the refusal's number, 0 where it is accepted; and how many bytes were written: the whole text, or 0 where it is refused.
#[repr(C)]
#[derive(Clone, Copy)]
pub struct TextAnswer {
    pub number: u32,
    pub written: usize,
}

// What that call hands back, in numbers.
impl From<Result<usize, Refusal>> for TextAnswer {
    ghost from_gives = { λ r a. a ≡ text_numbers_of r };

    fn from(r: Result<usize, Refusal>) -> TextAnswer
        ensures { result ≡ text_numbers_of r }
    {
        match r {
            Err(why) => TextAnswer {
                number: u32::from(why.number()),
                written: 0,
            },
            Ok(written) => TextAnswer { number: 0, written },
        }
    }
}

// The engine that a number stands for: 2 Fast, 3 KnuthAlgorithm; the others are refused. (A number, as C hands it over.)
fn engine_of(engine: u8) -> SolverKind
    ensures { result ≡ engine_of engine }
{
    match engine {
        0 => SolverKind::Auto,
        2 => SolverKind::Fast,
        3 => SolverKind::KnuthAlgorithm,
        _ => SolverKind::Naive,
    }
}

// A configuration. (A number and two flags, as C hands them over.)
fn config_of(engine: u8, turned: bool, mirrored: bool) -> Config
    ensures { result ≡ config_of engine turned mirrored }
{
    Config {
        identify_transformed_answers: turned,
        identify_mirrored_answers: mirrored,
        solver: engine_of(engine),
    }
}

// Where a page starts: behind the entry that is lent, or at entry `skip`. (A flag and a number, as C hands them over.)
fn start_of(behind: bool, skip: u64) -> Start
    ensures { result ≡ start_of behind skip }
{
    if behind {
        Start::Behind
    } else {
        Start::Entry(skip)
    }
}

// A call, whatever is lent: `solver::records::page` in numbers. Behind `meets` stands what the outcome rests on, as there.
#[unsafe(no_mangle)]
pub extern "C" fn ferghuul_1_page(
    pieces: &[Record],
    board: Record,
    bytes: &[u8],
    engine: u8,
    turned: bool,
    mirrored: bool,
    behind: bool,
    skip: u64,
    last: &[u8],
    answers: &mut [u8],
    work: &mut [u64],
    links: &mut [u16],
) -> Answer
    ensures outcome { let config = config_of engine turned mirrored in
        let call = call_with pieces.now board bytes.now config answers.old work.old links.old in
        outcome_by result answers.new work.new links.new ≡ outcome_from (start_of behind skip) last.now call }
    ensures meets { let config = config_of engine turned mirrored in
        let call = call_with pieces.now board bytes.now config answers.old work.old links.old in
        Meets (start_of behind skip) last.now call (outcome_by result answers.new work.new links.new) }
    ensures one_list { MeetsDemand3 outcome }
    ensures exact_covers { MeetsDemand2 outcome }
    ensures moves { MovesAreMaps }
    ensures placements { PlacementsRight }
    ensures answers { AnswersRight }
    ensures stripped { StrippedTrays × OneForm × Never7 outcome }
    ensures put_back { PutBack × AsLent }
    ensures empty_box { EmptyBoxes outcome × Never1 outcome }
    ensures woods { WoodCarried × WoodLentCarried × OneWood }
    ensures wood_calls { OneWoodCalls outcome × BoardUnread outcome × WoodsBehind }
    ensures pruned { Pruning }
    ensures by_hand { FillingsHold }
{
    let config = config_of(engine, turned, mirrored);
    let start = start_of(behind, skip);
    records::page(
        pieces, board, bytes, config, start, last, answers, work, links,
    )
    .into()
}

// A call for the text, whatever is lent: `dlx::records::text` in numbers.
#[unsafe(no_mangle)]
pub extern "C" fn ferghuul_1_dlx1(
    pieces: &[Record],
    board: Record,
    bytes: &[u8],
    output: &mut [u8],
    work: &mut [u64],
) -> TextAnswer
    ensures outcome { text_outcome_by result output.new work.new ≡ text_outcome (text_call pieces.now board bytes.now output.old work.old) }
    ensures demand { TextDemand (text_call pieces.now board bytes.now output.old work.old) (text_outcome_by result output.new work.new) }
    ensures texts { MeetsTextDemand text_outcome }
{
    dlx::records::text(pieces, board, bytes, output, work).into()
}

// A call for the catalogue, whatever is lent: `polycubes::page` in numbers, with what its pages rest on, as there. (It waits for no entry, so that none is
// missing.)
#[unsafe(no_mangle)]
pub extern "C" fn ferghuul_1_catalogue(n: u32, skip: u64, entries: &mut [u8]) -> Answer
    ensures outcome { catalogue_outcome_by result entries.new ≡ catalogue_outcome (record { n = n; skip = skip; entries = entries.old }) }
    ensures demand { CatalogueDemand (record { n = n; skip = skip; entries = entries.old }) (catalogue_outcome_by result entries.new) }
    ensures none_waited { result.missing ≡ false }
    ensures one_list { MeetsCatalogueDemand catalogue_outcome }
    ensures all_pieces { Catalogued × Roomy }
    ensures number { length (catalogue 6) ≡ 166 }
{
    polycubes::page(n, skip, entries).map(Some).into()
}
