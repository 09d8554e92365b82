// The fields of a line: numbers and cells.
ghost use Rattle.std.specs.Prelude.{◌≡◌, ◌||◌, ◌^◌, ◌≤◌, ◌<◌, eqb, length};
ghost use Rattle.lists.specs.Lists.{all};
ghost use Rattle.definitions.specs.Files.{field, fields_of, is_number, number_in};
ghost use Rattle.files.specs.Lines.{Read};

// How many fields a line has.
pub fn count_fields(line: &[u8]) -> usize
    ensures { result ≡ length (fields_of line.now) }
{
    line.split(|&byte| byte == b'\t').count()
}

// Field n of a line; nothing where it has no such field.
// (No Option: document 01's `field` is the empty text then, and how many fields a line has is tested before one of them is read.)
pub fn field(line: &[u8], n: usize) -> &[u8]
    ensures { result.now ≡ field line.now n }
{
    line.split(|&byte| byte == b'\t').nth(n).unwrap_or(&[])
}

// The number that decimal digits stand for; none where there is no digit, where there are more than `most`, or where a byte is no digit.
pub fn number_in(digits: &[u8], most: usize) -> Option<usize>
    requires { most ≤ 10 }
    ensures { Read result (is_number most digits.now) (λ n. (n ≡ number_in digits.now) × (n < 10 ^ most)) }
{
    if digits.is_empty() || most < digits.len() {
        return None;
    }
    let mut number = 0;
    // the digits so far are decimal, and `number` is what they stand for
    for &digit in digits {
        if !digit.is_ascii_digit() {
            return None;
        }
        number = number * 10 + (digit - b'0') as usize;
    }
    Some(number)
}

// Whether each byte is `0` or `1`.
pub(crate) fn are_cells(bytes: &[u8]) -> bool
    ensures { result ≡ all (λ x. eqb x 48 || eqb x 49) bytes.now }
{
    bytes.iter().all(|byte| matches!(byte, b'0' | b'1'))
}
