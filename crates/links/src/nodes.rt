// The nodes of the links, by their numbers: eight numbers to a node. They stand in the first 32,768 numbers of a slice that the caller lends; a node names
// another by its number.
ghost use Rattle.std.specs.Prelude.{◌≡◌, ◌≤◌, ◌<◌, ◌++◌, length, get_or, set as set_at, take, drop};
ghost use Rattle.std.specs.Borrow.{Lends, sem, u16 as word, Array};
ghost use Rattle.links.specs.Links.{at};

// What a node's eight numbers are, in the order in which they stand.
#[derive(Clone, Copy)]
pub enum Field {
    // The node above it in its column's ring.
    Up,
    // The node below it.
    Down,
    // Its column.
    Column,
    // The first node of its row.
    First,
    // The node behind the last of its row.
    End,
    // Of a column: how many rows in it are still possible.
    Size,
    // Of a kind's column: how many copies are left.
    Copies,
    // The number of its row.
    Row,
}

// The numbers of all nodes, eight to a node. A struct that borrows them, with a model, was tried: when it goes, its lender's last value is not known.
pub type Links = [u16; 32768];

// The links in the first numbers of a slice, as they stand there. When the loan ends, the slice holds what was last written to them, then what lay behind.
pub fn first_links(numbers: &mut [u16]) -> &mut Links
    requires { 32768 ≤ length numbers.old }
    ensures* writes_back { sem 𝓛 (Lends (Array word 0) (Array word 0) numbers.entry result (λ links. links ++ drop 32768 numbers.old)) }
    ensures value { result.now ≡ take 32768 numbers.old }
{
    let Some(links) = numbers.first_chunk_mut() else {
        unreachable!()
    };
    links
}

// The links in the first numbers of a slice that is only read.
pub fn read_links(numbers: &[u16]) -> &Links
    requires { 32768 ≤ length numbers.now }
    ensures { result.now ≡ take 32768 numbers.now }
{
    let Some(links) = numbers.first_chunk() else {
        unreachable!()
    };
    links
}

// Field f of node x.
#[inline(always)]
pub fn get(links: &Links, x: usize, f: Field) -> usize
    requires { x < 4096 }
    ensures value { result ≡ get_or links.now (at f x) 0 }
    ensures small { result < 65536 }
{
    links[8 * x + f as usize] as usize
}

// Writes n into field f of node x.
#[inline(always)]
pub fn set(links: &mut Links, x: usize, f: Field, n: usize)
    requires { (x < 4096) × (n < 65536) }
    ensures { links.new ≡ set_at links.old (at f x) n }
{
    links[8 * x + f as usize] = n as u16;
}
