// Places by their values, in buckets: the first place that has a value, by a tree in each bucket, and all places that have one, by a chain.
// In a tree a search looks at one place for each bit of its value at most, however the values are chosen.
// A place stands as itself and one, in 16 bits: there are at most 65,535 places.

#![tactic(auto)]

ghost use Rattle.std.specs.Prelude.{◌≡◌, ℕ, ◌+◌, ◌-◌, ◌*◌, ◌≤◌, ◌<◌, length, get_or, MatchOption};
ghost use Rattle.buckets.specs.InsideBuckets.{first_place, Led, bucket_of};
ghost use Rattle.lists.specs.Below.{first_below};
ghost use Rattle.buckets.specs.InsideTrees.{TreeRoom, Indexed, Searched, repeats_at};
ghost use Rattle.buckets.specs.InsideChains.{ChainRoom, Pushed, link_of};

// The bucket of a value, of so many.
pub fn bucket(value: u64, size: usize) -> usize
    requires { (0 < size) × (size ≤ 65536) }
    ensures { (result ≡ bucket_of size value) × (result < size) }
{
    ((value % 4294967296 + value / 4294967296) * 2135587861 / 2 % 4294967296 * (size as u64)
        / 4294967296) as usize
}

// Where a search ends: the slot, and what it holds.
#[derive(Clone, Copy)]
pub struct Spot {
    pub slot: usize,
    pub content: usize,
}

// Searches for a value in a tree of the first m places. m is an argument, since a proof could not
// tell it from the others. A `while`: it walks from slot to slot, and an iterator would need a law and an invariant of its own.
fn search(values: &[u64], m: usize, size: usize, slots: &[u16], value: u64) -> Spot
    requires room { TreeRoom size m (length slots.now) × (m ≤ length values.now) }
    requires indexed { ∥ Indexed size values.now m slots.now ∥₁ }
    ensures { Searched size values.now m slots.now value result }
{
    let mut slot = bucket(value, size);
    let mut content = slots[slot] as usize;
    let mut rest = value;
    while content != 0 {
        if values[content - 1] == value {
            return Spot { slot, content };
        }
        let bit = (rest % 2) as usize;
        slot = size + 2 * (content - 1) + bit;
        content = slots[slot] as usize;
        rest = rest / 2;
    }
    Spot { slot, content }
}

// Puts the place m into the tree, unless an earlier one has its value, and answers the first place that has it.
fn put(values: &[u64], m: usize, size: usize, slots: &mut [u16]) -> usize
    requires room { TreeRoom size (length values.now) (length slots.old) × (m < length values.now) }
    requires indexed { Indexed size values.now m slots.old }
    ensures { Indexed size values.now (m + 1) slots.new × (result ≡ first_place values.now m (get_or values.now m 0)) }
{
    let Spot { slot, content } = search(values, m, size, slots, values[m]);
    if content != 0 {
        return content - 1;
    }
    slots[slot] = (m + 1) as u16;
    m
}

// Puts all places into an empty tree, and the first place that has the value of each into `leaders`.
pub fn index(values: &[u64], size: usize, slots: &mut [u16], leaders: &mut [u16])
    requires room { TreeRoom size (length values.now) (length slots.old) × (length values.now ≤ length leaders.old) }
    requires by_index { (s : ℕ) → get_or slots.old s 0 ≡ 0 }
    ensures { let n = length values.now in Indexed size values.now n slots.new × Led values.now n leaders.new n }
{
    for i in 0..values.len() {
        leaders[i] = put(values, i, size, slots) as u16;
    }
}

// The first place whose value an earlier one has, or how many there are. In that case the tree, empty before, has all of them.
pub fn first_repeated(values: &[u64], size: usize, slots: &mut [u16]) -> usize
    requires room { TreeRoom size (length values.now) (length slots.old) }
    requires by_index { (s : ℕ) → get_or slots.old s 0 ≡ 0 }
    ensures value { result ≡ first_below (repeats_at values.now) (length values.now) }
    ensures indexed { result ≡ length values.now → Indexed size values.now (length values.now) slots.new }
{
    let n = values.len();
    for i in 0..n {
        if put(values, i, size, slots) != i {
            return i;
        }
    }
    n
}

// All places of the values, in a tree of so many buckets. That they stand there is kept without how a search comes to each: a struct keeps only what holds in one way.
#[derive(Clone, Copy)]
pub struct Tree<'a> {
    pub values: &'a [u64],
    pub size: usize,
    pub slots: &'a [u16],
    pub ghost room: { TreeRoom size (length values.now) (length slots.now) },
    pub ghost indexed: { ∥ Indexed size values.now (length values.now) slots.now ∥₁ },
}

impl<'a> Tree<'a> {
    // The first place that has a value, or none.
    pub fn place_of(&self, value: u64) -> Option<usize>
        ensures { let values = self.now.values.now in MatchOption result (first_place values (length values) value ≡ length values) (λ p. (p < length values) × (p ≡ first_place values (length values) value)) }
    {
        let spot = search(self.values, self.values.len(), self.size, self.slots, value);
        if spot.content == 0 {
            return None;
        }
        Some(spot.content - 1)
    }
}

// Puts the place i, which has a value, after all places before it into its bucket. Heads and links stay two slices: the writers lend them apart, and what a chain
// holds is said of what stands at its places, which a struct of the two would not have.
pub fn push(value: u64, i: usize, heads: &mut [u16], links: &mut [u16])
    requires { ChainRoom (i + 1) heads.old links.old }
    ensures { Pushed value i heads.old links.old heads.new links.new }
{
    let b = bucket(value, heads.len());
    links[i] = heads[b];
    heads[b] = (i + 1) as u16;
}

// The place that a column holds, or none.
fn linked(link: u16) -> Option<usize>
    ensures { link_of result ≡ link }
{
    if link == 0 {
        return None;
    }
    Some(link as usize - 1)
}

// The place at which the chain of a value begins, or none.
pub fn head(heads: &[u16], value: u64) -> Option<usize>
    requires { (0 < length heads.now) × (length heads.now ≤ 65536) }
    ensures { link_of result ≡ get_or heads.now (bucket_of (length heads.now) value) 0 }
{
    linked(heads[bucket(value, heads.len())])
}

// The place that stands before a place in its chain, or none.
pub fn next(links: &[u16], place: usize) -> Option<usize>
    requires { place < length links.now }
    ensures { link_of result ≡ get_or links.now place 0 }
{
    linked(links[place])
}
