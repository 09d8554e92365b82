// Bytes put into a buffer: numbers in decimal, bytes as they stand, and lines of both. Each function puts its bytes from a place on, leaves every
// other byte as it was, and hands back the place behind them.
//
// The buffer and the place in it stay two: a struct of both would hold the slice lent on, and what the slice holds once it is given back is then not known
// to the caller's proof.
//
// No Display and no String: what a program prints is made by proved functions on slices, and nothing is put on a heap.
//
// Every function here is proved, and the crate assumes nothing. Each asks that the buffer has room for the most that it can put.
#![tactic(auto)]

ghost use Rattle.std.specs.Prelude.{◌++◌, ◌∷◌, [], ◌+◌, ◌≤◌, length};
ghost use Rattle.definitions.specs.Files.{decimal};
ghost use Rattle.texts.specs.Put.{Put};

// A number in decimal: at most 20 digits.
pub fn put_decimal(out: &mut [u8], at: usize, n: u64) -> usize
    requires { at + 20 ≤ length out.old }
    ensures { Put out.old at (decimal n) out.new result × (result ≤ at + 20) }
{
    if n < 10 {
        out[at] = b'0' + n as u8;
        return at + 1;
    }
    let end = put_decimal(out, at, n / 10);
    out[end] = b'0' + (n % 10) as u8;
    end + 1
}

// Bytes as they stand.
pub fn put_bytes(out: &mut [u8], at: usize, bytes: &[u8]) -> usize
    requires { at + length bytes.now ≤ length out.old }
    ensures { Put out.old at bytes.now out.new result }
{
    let end = at + bytes.len();
    out[at..end].copy_from_slice(bytes);
    end
}

// A line of two fields: a word and a number.
pub fn put_labelled(out: &mut [u8], at: usize, word: &[u8], n: u64) -> usize
    requires { at + length word.now + 22 ≤ length out.old }
    ensures { Put out.old at (word.now ++ 9 ∷ decimal n ++ 10 ∷ []) out.new result
        × (result ≤ at + length word.now + 22) }
{
    let tab = put_bytes(out, at, word);
    out[tab] = b'\t';
    let end = put_decimal(out, tab + 1, n);
    out[end] = b'\n';
    end + 1
}
