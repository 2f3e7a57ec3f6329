// What is filled into records and found out only when they have their places: sizes of bodies, flags of a Try, offsets of jumps. Past the
// output's end nothing is stored.
#![tactic(auto)]

ghost use Rattle.std.specs.Prelude.{◌≡◌, ◌+◌, ◌*◌, ◌-◌, ◌<◌, ◌≤◌, ◌%◌, ◌/◌, min, set, get_or};
ghost use Rattle.std.proofs.Math.IntN.{sub_ℕ};
ghost use Rattle.std.proofs.lemmas.List.Edits.{sets};
ghost use Rattle.action_records.specs.Fields.{low_first, two's_complement, is_signed16};
ghost use Rattle.filling.specs.Pieces.{with_flag};
ghost use Rattle.filling.specs.Filling.{filled, unless, byte_at, action_at, aimed, far_at, aimed_to, far_to};

use entries::Block;

// An action that a field tells of unless it holds its number; 1,048,576 is none.
// No Option: the lowest of several is their `min`, of which None would be the lowest.
pub fn unless_holds(holds: bool, a: usize) -> usize
    ensures { result ≡ unless holds a }
{
    if holds { 1048576 } else { a }
}

fn word_at(table: &[u64], at: usize) -> u64
    ensures { result ≡ get_or table.now at 0 }
{
    table.get(at).copied().unwrap_or(0)
}

fn put_byte(out: &mut [u8], at: usize, b: u8)
    ensures { out.new ≡ set out.old at b }
{
    if at < out.len() {
        out[at] = b;
    }
}

fn put_16(out: &mut [u8], at: usize, n: usize)
    ensures { out.new ≡ sets out.old at (low_first 2 n) }
{
    if at < out.len() {
        let bytes = n.to_le_bytes();
        put_byte(out, at, bytes[0]);
        put_byte(out, at + 1, bytes[1]);
    }
}

// A flag of the Try at the output's front.
fn add_flag(out: &mut [u8], flag: u8)
    ensures { out.new ≡ with_flag flag out.old }
{
    if 3 < out.len() {
        out[3] = out[3].wrapping_add(flag);
    }
}

// The size of a body, in the record of r bytes at the output's front.
pub fn fill_block(out: &mut [u8], block: Block, r: usize, size: usize)
    requires { 2 ≤ r }
    ensures { out.new ≡ filled block r size out.old }
{
    match block {
        Block::Top => {}
        Block::Body(_) => put_16(out, r - 2, size),
        Block::Try(_) => put_16(out, 4, size),
        Block::Catch(_) => {
            add_flag(out, 1);
            put_16(out, 6, size);
        }
        Block::Finally(_) => {
            add_flag(out, 2);
            put_16(out, 8, size);
        }
    }
}

// ---- offsets

fn byte_at(place: &[u64], k: usize) -> usize
    ensures value { result ≡ byte_at place.now k }
    ensures upper_bound { result < 17592186044416 }
{
    (word_at(place, k) / 1048576) as usize
}

fn action_at(place: &[u64], k: usize) -> usize
    ensures { result ≡ action_at place.now k }
{
    (word_at(place, k) % 1048576) as usize
}

// Byte and action of position k.
pub fn mark(place: &mut [u64], k: usize, byte: usize, action: usize)
    requires { (byte < 1099511627776) × (action < 1048576) }
    ensures { place.new ≡ set place.old k (byte * 1048576 + action) }
{
    if k < place.len() {
        place[k] = (byte * 1048576 + action) as u64;
    }
}

// From one byte to another in 16 bits: a jump back as the number that many below 65,536.
fn offset_16(from: usize, to: usize) -> usize
    ensures { result ≡ two's_complement 16 (sub_ℕ to from) }
{
    if from <= to {
        return to - from;
    }
    if from - to < 65536 {
        return 65536 - (from - to);
    }
    0
}

fn is_near(from: usize, to: usize) -> bool
    ensures { result ≡ is_signed16 (sub_ℕ to from) }
{
    if from <= to {
        return to - from < 32768;
    }
    from - to < 32769
}

// The offset of the jump at position k of a level with n actions; its action, if the offset does not fit. An aim is a word of the lent
// table of aims, so 0 stands for none.
fn aim_jump(place: &[u64], n: usize, k: usize, aim: usize, out: &mut [u8]) -> usize
    requires { k < n }
    ensures out_after { out.new ≡ aimed place.now n k aim out.old }
    ensures value { result ≡ far_at place.now n k aim }
{
    if aim == 0 {
        return 1048576;
    }
    let from = byte_at(place, k + 1);
    let to = byte_at(place, n.min(aim - 1));
    let number = offset_16(from, to);
    put_16(out, byte_at(place, k) + 3, number);
    let near = is_near(from, to);
    unless_holds(near, action_at(place, k))
}

// The offsets of a level's jumps, behind its n actions; the lowest whose offset does not fit.
pub fn aim_jumps(aims: &[u64], place: &[u64], n: usize, out: &mut [u8]) -> usize
    ensures out_after { out.new ≡ aimed_to aims.now place.now n n out.old }
    ensures value { result ≡ far_to aims.now place.now n n }
{
    let mut far: usize = 1048576;
    for k in 0..n {
        let aim = word_at(aims, action_at(place, k)) as usize;
        far = far.min(aim_jump(place, n, k, aim, out));
    }
    far
}
