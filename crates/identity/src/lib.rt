// Tests 9, 10, 17 and 38: their definitions, test 9, and how a record is compared with the one that it hangs under.

#![tactic(auto)]

ghost use Rattle.std.specs.Prelude.{◌≡◌, false, cond, not, ◌+◌, ◌-◌, ◌*◌, ◌≤◌, ◌<◌, eqb, length};
ghost use Rattle.tables.specs.Groups.{at};
ghost use Rattle.identity.specs.Identity.{first_repeated};

// Whether a record's own value is not that of the record at its place, where it has a place.
pub fn is_unlike(place: u64, own: u64, theirs: &[u64]) -> bool
    requires { place ≤ length theirs.now }
    ensures { result ≡ cond (eqb place 0) false (not (eqb own (at theirs.now (place - 1)))) }
{
    if place == 0 {
        return false;
    }
    own != theirs[place as usize - 1]
}

// Test 9, by a tree of so many words and buckets. A small tree is soon set to 0.
fn first_by_tree<const WORDS: usize>(ids: &[u64], buckets: usize) -> usize
    requires { (0 < buckets) × (buckets ≤ 65536) × (buckets + 2 * length ids.now ≤ WORDS) × (WORDS ≤ 65536) }
    ensures { result ≡ first_repeated ids.now }
{
    let mut tree = [0u16; WORDS];
    buckets::first_repeated(ids, buckets, &mut tree)
}

// Test 9: the first record whose ID an earlier one has, or their number.
pub fn first_repeated(ids: &[u64]) -> usize
    requires { length ids.now ≤ 4096 }
    ensures { result ≡ first_repeated ids.now }
{
    if ids.len() <= 1024 {
        return first_by_tree::<3072>(ids, 1024);
    }
    first_by_tree::<16384>(ids, 8192)
}
