// Tests 2 and 4: the format of a line, and the order of the lines' types.

#![tactic(auto)]

ghost use Rattle.std.specs.Prelude.{◌≡◌, not, ◌≤◌, ◌<◌, length, get_or};
ghost use Rattle.lists.specs.Below.{some_below};
ghost use Rattle.records.specs.InsidePlacedLines.{part};
ghost use Rattle.format.specs.Format.{is_printable, unformatted, misplaced, first_misplaced};

// Whether a byte of s is not 32 to 126, one byte after the other.
fn has_unprintable_byte(s: &[u8]) -> bool
    ensures { result ≡ some_below (λ i. not (is_printable (get_or s.now i 0))) (length s.now) }
{
    s.iter().any(|&b| b < 32 || 126 < b)
}

// Whether a byte of a block of 32 is not 32 to 126. There is no early exit, so that many bytes are compared at once.
fn block_has_unprintable(s: &[u8]) -> bool
    requires { length s.now ≡ 32 }
    ensures { result ≡ some_below (λ i. not (is_printable (get_or s.now i 0))) 32 }
{
    let mut found = false;
    for i in 0..32 {
        let b = s[i];
        if b < 32 {
            found = true;
        }
        if 126 < b {
            found = true;
        }
    }
    found
}

// Whether a byte of s is not 32 to 126: block by block, and last the block of the last 32 bytes, which may overlap the one before.
pub fn has_unprintable(s: &[u8]) -> bool
    ensures { result ≡ some_below (λ i. not (is_printable (get_or s.now i 0))) (length s.now) }
{
    let n = s.len();
    if n < 32 {
        return has_unprintable_byte(s);
    }
    for k in 0..(n - 1) / 32 {
        let i = k * 32;
        if block_has_unprintable(&s[i..i + 32]) {
            return true;
        }
    }
    block_has_unprintable(&s[n - 32..])
}

// Whether the line from a to e fails test 2.
pub fn is_unformatted(file: &[u8], a: usize, e: usize) -> bool
    requires { (a ≤ e) × (e ≤ length file.now) }
    ensures { result ≡ unformatted (part file.now a e) }
{
    if has_unprintable(&file[a..e]) {
        return true;
    }
    let r = records::record_at(file, a, e);
    let record_type = r.record_type;
    let count = r.count;
    if 9 <= record_type {
        return true;
    }
    count != tables::field_count(record_type)
}

// Whether the type at i may not stand there.
fn is_misplaced(types: &[u64], i: usize) -> bool
    requires { i < length types.now }
    ensures { result ≡ misplaced types.now i }
{
    let present = types[i];
    if i + 1 == types.len() {
        if present != tables::FT {
            return true;
        }
    }
    if i == 0 {
        return present != tables::FH;
    }
    !tables::may_follow(types[i - 1], present)
}

// Test 4. A loop: the test of a place reads the type before it and the number of types, so `position` would go over places alike, and is no plainer.
pub fn first_misplaced(types: &[u64]) -> usize
    ensures { result ≡ first_misplaced types.now }
{
    for i in 0..types.len() {
        if is_misplaced(types, i) {
            return i;
        }
    }
    types.len()
}
