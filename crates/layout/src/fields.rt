// Tests of bytes and of single fields of S and H records. Most tests in a row are joined by & and |, so that no branch
// is taken.
ghost use Rattle.std.specs.Prelude.{◌≡◌, length};
ghost use Rattle.model.specs.Base.{all, record_size};
ghost use Rattle.model.specs.Records.{is_zero, uses_u, uses_w, uses_first, uses_second, value_byte};
ghost use Rattle.model.specs.Records.{pointer_field, target_below, fields_s, targets_s};
ghost use Rattle.layout.specs.Checked.{head_h};

// Whether all bytes are zero: their bits are gathered, without a branch for each.
pub fn all_zero(bytes: &[u8]) -> bool
    ensures { result ≡ all is_zero bytes.now }
{
    bytes.iter().fold(0, |met, b| met | *b) == 0
}

// Whether a byte is a node below k, null or undefined.
pub fn value_byte(k: u8, b: u8) -> bool
    ensures { result ≡ value_byte k b }
{
    (b < k) | (b == model::NULL) | (b == model::UNDEFINED)
}

// Whether all bytes are values in a shape of k nodes, without a branch for each.
pub fn all_values(bytes: &[u8], k: u8) -> bool
    ensures { result ≡ all (value_byte k) bytes.now }
{
    bytes.iter().fold(true, |good, b| good & value_byte(k, *b))
}

// ---- S records: which fields an op uses, and what stands in them. The op is its byte, which is still to be checked.

pub fn uses_u(op: u8) -> bool
    ensures { result ≡ uses_u op }
{
    matches!(op, 1..=9 | 12 | 13)
}

pub fn uses_w(op: u8) -> bool
    ensures { result ≡ uses_w op }
{
    matches!(op, 2 | 3 | 5 | 9 | 12)
}

pub fn uses_first(op: u8) -> bool
    ensures { result ≡ uses_first op }
{
    1 <= op
}

pub fn uses_second(op: u8) -> bool
    ensures { result ≡ uses_second op }
{
    matches!(op, 8..=10)
}

// A used pointer is below 6, an unused one zero.
pub fn pointer_field(used: bool, b: u8) -> bool
    ensures { result ≡ pointer_field used b }
{
    if used {
        (b as usize) < model::POINTERS
    } else {
        b == 0
    }
}

// Each field as its op uses it: both pointers, both targets, and zeros after them.
pub fn fields_ok(rec: &[u8]) -> bool
    requires { length rec.now ≡ record_size }
    ensures { result ≡ fields_s rec.now }
{
    let op = rec[1];
    let u = pointer_field(uses_u(op), rec[2]);
    let w = pointer_field(uses_w(op), rec[3]);
    let first = uses_first(op) | (rec[4] == 0);
    let second = uses_second(op) | (rec[5] == 0);
    u & w & first & second & all_zero(&rec[6..])
}

// A used target is one of n statements.
pub fn target_below(n: usize, used: bool, b: u8) -> bool
    ensures { result ≡ target_below n used b }
{
    !used | ((b as usize) < n)
}

// Each used target is one of n statements.
pub fn targets_ok(n: usize, rec: &[u8]) -> bool
    requires { length rec.now ≡ record_size }
    ensures { result ≡ targets_s n rec.now }
{
    let op = rec[1];
    target_below(n, uses_first(op), rec[4]) & target_below(n, uses_second(op), rec[5])
}

// ---- H records

// Bytes 0 to 2: the tag, statement 0 and fault 0.
pub fn head_ok(tag: u8, statement: u8, fault: u8) -> bool
    ensures { result ≡ head_h tag statement fault }
{
    (tag == b'H') & (statement == 0) & (fault == 0)
}
