// The pieces as a slice of records.
ghost use Rattle.std.specs.Prelude.{◌≡◌};
ghost use Rattle.definitions.specs.TextCalls.{MeetsTextDemand, TextDemand, text_outcome, text_outcome_of};
ghost use Rattle.dlx.specs.Texts.{text_call};

use super::calls;
use definitions::{Record, Refusal};
use solver::records;

// A call, whatever is lent: how many bytes of the text were written, or the first refusal that applies.
pub fn text(
    pieces: &[Record],
    board: Record,
    bytes: &[u8],
    output: &mut [u8],
    work: &mut [u64],
) -> Result<usize, Refusal>
    ensures outcome { text_outcome_of result output.new work.new ≡ text_outcome (text_call pieces.now board bytes.now output.old work.old) }
    ensures demand { TextDemand (text_call pieces.now board bytes.now output.old work.old) (text_outcome_of result output.new work.new) }
    ensures texts { MeetsTextDemand text_outcome }
{
    calls::text(&records::taken(pieces), board, bytes, output, work)
}
