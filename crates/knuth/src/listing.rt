// KnuthAlgorithm's list over a row system, whole or from an entry on, as far as there is room for it.
ghost use Rattle.std.specs.Prelude.{◌≡◌, ◌*◌, ◌≤◌, drop, length};
ghost use Rattle.definitions.specs.Emission.{emits};
ghost use Rattle.definitions.specs.Refusals.{identifies};
ghost use Rattle.rows.specs.RowSystems.{seen};
ghost use Rattle.kept.specs.Emission.{emitted_of};
ghost use Rattle.kept.specs.Wanted.{identified};
ghost use Rattle.knuth.specs.Matrix.{link_nodes};
ghost use Rattle.knuth.specs.Listing.{knuth_answers};

use super::{building, search};
use kept::emission::Emission;
use kept::path::Path;
use kept::wanted::Wanted;
use rows::row_system::RowSystem;

// The answers of KnuthAlgorithm's list, one after the other, until the page is full and a further one is known. The links are built first, and stand in
// their slice afterwards as they were built: their 32,768 numbers are free.
pub fn list(
    system: &RowSystem,
    turned: bool,
    mirrored: bool,
    capacity: usize,
    links: &mut [u16],
    last: &[u8],
    answers: &mut [u8],
    e: Emission,
) -> Emission
    requires links { (32768 ≤ length links.old) × (length (link_nodes (seen system.now)) ≤ 4096) }
    requires room { capacity * (2 * system.now.d.places) ≤ length answers.old }
    ensures page { let old = emitted_of e last.now answers.old in
        emitted_of result last.now answers.new ≡ emits capacity (knuth_answers (seen system.now) (identifies turned mirrored)) old }
    ensures behind { drop 32768 links.new ≡ drop 32768 links.old }
{
    let wanted = Wanted::new(system, turned, mirrored, capacity, last);
    let links = links::first_links(links);
    building::build_links(system, links);
    let mut path = Path::new();
    search::choose(&wanted, links, system.d.size, &mut path, answers, e)
}
