// What an accepted call leaves of the slices that it worked in.
ghost use Rattle.std.specs.Prelude.{cond, ◌≡◌, ◌≤◌, length};
ghost use Rattle.definitions.specs.Outcomes.{cleared};
ghost use Rattle.definitions.specs.Refusals.{is_knuth};
ghost use Rattle.solver.specs.Lent.{LongLinks};

use definitions::SolverKind;

// The first 8,192 words made 0.
pub fn clear_work(work: &mut [u64])
    requires { 8192 ≤ length work.old }
    ensures { work.new ≡ cleared 8192 work.old }
{
    work[..8192].fill(0);
}

// The first 32,768 numbers made 0 where links were built: only KnuthAlgorithm builds them.
#[tactic(auto, unfolding(definitions::specs::Refusals::is_knuth))]
pub fn clear_links(solver: SolverKind, links: &mut [u16])
    requires { LongLinks solver links.old }
    ensures { links.new ≡ cond (is_knuth solver) (cleared 32768 links.old) links.old }
{
    if solver == SolverKind::KnuthAlgorithm {
        links[..32768].fill(0);
    }
}
