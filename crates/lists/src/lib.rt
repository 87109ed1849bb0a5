// Definitions on lists that contracts cite, with their laws, and the search that many crates use.

#![tactic(auto)]

ghost use Rattle.std.specs.Prelude.{◌≡◌, false, ℕ, ◌+◌, ◌≤◌, ◌<◌, length, get_or, drop};
ghost use Rattle.lists.specs.First.{first_where, is_byte};
ghost use Rattle.lists.specs.Bytes.{same_bytes};
ghost use Rattle.lists.specs.InsideFirstSoFar.{first_after};

// The place of the first byte b of s, or the length where there is none.
pub fn find(s: &[u8], b: u8) -> usize
    ensures { result ≡ first_where (is_byte b) s.now }
{
    for (i, x) in s.iter().enumerate() {
        if *x == b {
            return i;
        }
    }
    s.len()
}

// Whether a byte of a block is b. There is no early exit, so that many bytes are compared at once.
fn block_has(block: &[u8], b: u8) -> bool
    ensures { result ≡ false → (k : ℕ) → k < length block.now → is_byte b (get_or block.now k 0) ≡ false }
{
    let mut found = false;
    for x in block {
        if *x == b {
            found = true;
        }
    }
    found
}

// How many bytes at the start of s can be passed over, block by block, before one that has b.
fn pass_over(s: &[u8], b: u8, width: usize) -> usize
    requires { 0 < width }
    ensures { (result ≤ length s.now) × (first_where (is_byte b) s.now ≡ result + first_where (is_byte b) (drop result s.now)) }
{
    let blocks = s.len() / width;
    for k in 0..blocks {
        let start = k * width;
        if block_has(&s[start..start + width], b) {
            return start;
        }
    }
    blocks * width
}

// What find says, for a byte that is likely to stand far from the start: 32 bytes are passed over at a time, and near to it 8.
pub fn find_far(s: &[u8], b: u8) -> usize
    ensures { result ≡ first_where (is_byte b) s.now }
{
    let far = pass_over(s, b, 32);
    let near = far + pass_over(&s[far..], b, 8);
    near + find(&s[near..], b)
}

// The first place at which a test holds, once place i of n is asked; n stands for none, and `first` was kept before.
pub fn first_so_far(holds: bool, first: usize, n: usize, i: usize) -> usize
    ensures { result ≡ first_after holds first n i }
{
    if first != n {
        return first;
    }
    if holds {
        return i;
    }
    n
}

// Whether two runs of bytes are the same: the library's `==`, as `same_bytes` of the definitions.
pub fn same_bytes(s: &[u8], t: &[u8]) -> bool
    ensures { result ≡ same_bytes s.now t.now }
{
    s == t
}
