// The lines of entries that stand in the answer buffer.
ghost use Rattle.std.specs.Prelude.{◌+◌, ◌*◌, ◌≤◌, ◌<◌, length};
ghost use Rattle.output.specs.Rest.{LinesPut};

use files::printing;

// How many bytes were made, and the entry of the page behind those whose lines they are.
#[derive(Clone, Copy)]
pub struct Lines {
    pub made: usize,
    pub next: usize,
}

// The lines of a page's entries from one on, as many as fit and at least one, at the start of a buffer. The page begins with entry
// `base` of its list. (The whole page and no subslice by chunks: entries' numbers, and where the lines stop, are counted from its start.)
pub fn put_lines(
    out: &mut [u8],
    base: u64,
    answers: &[u8],
    places: usize,
    from: usize,
    end: usize,
) -> Lines
    requires { (from < end) × (places ≤ 512) × (8 * places + 64 ≤ length out.old)
        × (end * (2 * places) ≤ length answers.now) × (base + end ≤ 18446744073709551616) }
    ensures { LinesPut base (2 * places) from end answers.now out.old out.new result }
{
    let size = 2 * places;
    let mut made = 0;
    // the lines of the entries before i stand before `made`
    for i in from..end {
        if out.len() - made < 4 * size + 64 {
            return Lines { made, next: i };
        }
        let answer = &answers[i * size..i * size + size];
        made = printing::put_entry(out, made, base + i as u64, answer);
    }
    Lines { made, next: end }
}
