// Labels of one name and level brought together: written again, a label keeps its first place and takes the new position.
// Where it is, chains of labels by a hash of level and name tell, in lent memory (specs/Index.antt).
#![tactic(auto)]

ghost use Rattle.std.specs.Prelude.{◌≡◌, ◌-◌, ◌≤◌, ◌<◌, [], length, take};
ghost use Rattle.labels.specs.Labels.{first_same, moved, Placed, Merged};
ghost use Rattle.labels.specs.Index.{hash_of, bucket_in, linked, Chains, ChainsOf, Distinct, Indexed, Finds};

use entries::{Label, label_of, label_word};
use label_names::{is_named, name_of};

const FIRST_SEED: u32 = 1540483477;

// Where a label stands, its bucket, and how many steps the walk took. One not found has the place where it is put, which None would drop.
#[derive(Clone, Copy)]
struct Found {
    place: usize,
    bucket: usize,
    steps: usize,
}

// How many labels there are, the seed of their index, and how many steps walks may take before another.
#[derive(Clone, Copy)]
pub struct Merging {
    pub labels: usize,
    seed: u32,
    left: usize,
}

// Where a label stands, and the index after the walk.
#[derive(Clone, Copy)]
pub struct LookedUp {
    pub place: usize,
    pub merging: Merging,
}

// The hash of a level and a name. The multiplication at the end spreads names that differ in the last byte only.
fn hash_of(seed: u32, level: usize, name: &[u8]) -> u64
    requires { level < 4294967295 }
    ensures { result ≡ hash_of seed level name.now }
{
    let base = u64::from(seed);
    let mut h = level as u64 + 1;
    for b in name {
        h = (h * base + u64::from(*b)) % 4294967296;
    }
    h * base % 4294967296
}

// The bucket of a label: it goes by level and name alone. The high bits of their hash tell it, with no division by n.
fn bucket(seed: u32, n: usize, level: usize, name: &[u8]) -> usize
    requires { (n < 4294967296) × (level < 4294967295) }
    ensures { result ≡ bucket_in seed n level name.now }
{
    let h = hash_of(seed, level, name);
    (h * n as u64 / 4294967296) as usize
}

// The label j before the others of its bucket b.
fn link(index: &mut [u64], b: usize, j: usize)
    requires { (b < length index.old) × ((j < length index.old) × (length index.old < 4294967296)) }
    ensures { index.new ≡ linked index.old b j }
{
    let head = index[b] % 4294967296;
    index[j] = index[j] % 4294967296 + head * 4294967296;
    index[b] = index[b] / 4294967296 * 4294967296 + (j + 1) as u64;
}

// The chains of the first m words of `out`.
fn rebuild(text: &[u8], s: &[u64], seed: u32, out: &[u64], m: usize, index: &mut [u64])
    requires { (m ≤ length out.now) × ((m < length index.old) × (length index.old < 4294967296)) }
    ensures { ChainsOf text.now s.now seed (take m out.now) index.new }
{
    index.fill(0);
    for j in 0..m {
        let w = out[j];
        let b = bucket(seed, index.len(), label_of(w).level, name_of(text, s, w));
        link(index, b, j);
    }
}

// Any seed is right: only speed hangs on it. An odd one stays odd, so that no bits are lost.
fn next_seed(seed: u32) -> u32 {
    ((u64::from(seed) * 1664525 + 1013904222) % 4294967296) as u32
}

// Once walks have taken too many steps, the index anew with another seed: names made to meet in one bucket cost little more.
fn spread(text: &[u8], s: &[u64], out: &[u64], t: Merging, index: &mut [u64]) -> Merging
    requires { Indexed text.now s.now t.seed t.labels out.now index.old }
    ensures kept { result.labels ≡ t.labels }
    ensures chained { ChainsOf text.now s.now result.seed (take result.labels out.now) index.new }
{
    if 0 < t.left {
        return t;
    }
    let m = t.labels;
    let seed = next_seed(t.seed);
    rebuild(text, s, seed, out, m, index);
    Merging {
        labels: m,
        seed,
        left: index.len() * 8,
    }
}

// The place of the first label of that level and name among the first m, or m: a walk along its bucket's chain.
fn find_label(
    text: &[u8],
    s: &[u64],
    seed: u32,
    out: &[u64],
    m: usize,
    index: &[u64],
    w: u64,
) -> Found
    requires { Indexed text.now s.now seed m out.now index.now }
    ensures { Finds text.now s.now seed w (take m out.now) (length index.now) result }
{
    let level = label_of(w).level;
    let name = name_of(text, s, w);
    let b = bucket(seed, index.len(), level, name);
    let mut steps = 0;
    let mut next = (index[b] % 4294967296) as usize;
    while 0 < next {
        let j = next - 1;
        steps += 1;
        if is_named(text, s, level, name, out[j]) {
            return Found {
                place: j,
                bucket: b,
                steps,
            };
        }
        next = (index[j] / 4294967296) as usize;
    }
    Found {
        place: m,
        bucket: b,
        steps,
    }
}

// The label v at the position of w.
fn move_label(w: u64, v: u64) -> u64
    ensures { result ≡ moved w v }
{
    let kept = label_of(v);
    let label = Label {
        level: kept.level,
        token: kept.token,
        position: label_of(w).position,
    };
    label_word(label)
}

// One label more.
fn put_label(
    text: &[u8],
    s: &[u64],
    w: u64,
    t: Merging,
    out: &mut [u64],
    index: &mut [u64],
) -> Merging
    requires { (t.labels < length out.old) × Indexed text.now s.now t.seed t.labels out.old index.old }
    ensures placed { Placed text.now s.now w t.labels out.old out.new result.labels }
    ensures chained { ChainsOf text.now s.now result.seed (take result.labels out.new) index.new }
{
    let m = t.labels;
    let seed = t.seed;
    let found = find_label(text, s, seed, out, m, index, w);
    let k = found.place;
    let left = t.left.saturating_sub(found.steps);
    if k < m {
        let v = out[k];
        out[k] = move_label(w, v);
        return Merging {
            labels: m,
            seed,
            left,
        };
    }
    out[m] = w;
    link(index, found.bucket, m);
    Merging {
        labels: m + 1,
        seed,
        left,
    }
}

// The labels of the first n words, at the front of `out`; how many they are.
pub fn merge_labels(
    text: &[u8],
    s: &[u64],
    words: &[u64],
    n: usize,
    out: &mut [u64],
    index: &mut [u64],
) -> usize
    requires n_in_bounds { (n ≤ length words.now) × (n ≤ length out.old) }
    requires n_in_bounds_2 { (n ≤ length index.old) × (n < 4294967296) }
    ensures { Merged text.now s.now (take n words.now) out.old out.new result }
{
    let chains = &mut index[..n];
    chains.fill(0);
    let mut t = Merging {
        labels: 0,
        seed: FIRST_SEED,
        left: n * 8,
    };
    for i in 0..n {
        t = spread(text, s, out, t, chains);
        t = put_label(text, s, words[i], t, out, chains);
    }
    t.labels
}

// ---- a table that is merged already

// The index of the first m labels of a table, of which none stands twice.
pub fn index_labels(text: &[u8], s: &[u64], labels: &[u64], m: usize, index: &mut [u64]) -> Merging
    requires m_in_bounds { (m ≤ length labels.now) × ((m < length index.old) × (length index.old < 4294967296)) }
    requires distinct { Distinct text.now s.now (take m labels.now) }
    ensures all { result.labels ≡ m }
    ensures indexed { Indexed text.now s.now result.seed result.labels labels.now index.new }
{
    let seed = FIRST_SEED;
    rebuild(text, s, seed, labels, m, index);
    Merging {
        labels: m,
        seed,
        left: index.len() * 8,
    }
}

// The place of the first label of the level and name of w, or how many labels there are.
pub fn look_up(
    text: &[u8],
    s: &[u64],
    labels: &[u64],
    t: Merging,
    index: &mut [u64],
    w: u64,
) -> LookedUp
    requires { Indexed text.now s.now t.seed t.labels labels.now index.old }
    ensures found { result.place ≡ first_same text.now s.now w (take t.labels labels.now) }
    ensures kept { result.merging.labels ≡ t.labels }
    ensures indexed { Indexed text.now s.now result.merging.seed result.merging.labels labels.now index.new }
{
    let u = spread(text, s, labels, t, index);
    let m = u.labels;
    let seed = u.seed;
    let found = find_label(text, s, seed, labels, m, index, w);
    let left = u.left.saturating_sub(found.steps);
    let merging = Merging {
        labels: m,
        seed,
        left,
    };
    LookedUp {
        place: found.place,
        merging,
    }
}
