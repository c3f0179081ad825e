// One look at the lists of the quick question: the first position at fault, or else the marker to begin at.
ghost use Rattle.std.specs.Prelude.{◌<◌, ◌+◌, ◌≡◌, length};
ghost use Rattle.markers.specs.Looking.{Rises, SoundOn, Sound, Near, InBlocks, TellsFault, FaultBehind, LastFrom, Looks};

// How many positions are looked at together, where so many follow.
const QUARTER: usize = 4;

const HALF: usize = 8;

const BLOCK: usize = 16;

// What a look finds: the offset of the last marker that is not above the key, or none; or the first position at fault.
pub type Looked = Result<Option<u32>, usize>;

// How far the lists are in order, a block at a time; and where the last block that begins not above the key does.
#[derive(Clone, Copy)]
struct Reached {
    position: usize,
    near: usize,
}

// An offset, as the end is given.
fn wide(offset: u32) -> u64
    ensures { result ≡ offset }
{
    offset as u64
}

// Whether each of four numbers is below the one behind it. Every comparison is made, so that they become one test.
fn rise_four(list: &[u32], i: usize) -> bool
    requires { i + 4 < length list.now }
    ensures { Rises list.now i 4 result }
{
    (list[i] < list[i + 1])
        & (list[i + 1] < list[i + 2])
        & (list[i + 2] < list[i + 3])
        & (list[i + 3] < list[i + 4])
}

fn rise_eight(list: &[u32], i: usize) -> bool
    requires { i + 8 < length list.now }
    ensures { Rises list.now i 8 result }
{
    rise_four(list, i) & rise_four(list, i + QUARTER)
}

fn rise_sixteen(list: &[u32], i: usize) -> bool
    requires { i + 16 < length list.now }
    ensures { Rises list.now i 16 result }
{
    rise_eight(list, i) & rise_eight(list, i + HALF)
}

// Whether the sixteen positions behind one are without fault. Offsets that rise are below the end if the last one is.
fn is_sound_block(indices: &[u32], offsets: &[u32], end: u64, i: usize) -> bool
    requires { (i + 16 < length indices.now) × (i + 16 < length offsets.now) }
    ensures { SoundOn indices.now offsets.now end i result }
{
    if !rise_sixteen(indices, i) {
        return false;
    }
    if !rise_sixteen(offsets, i) {
        return false;
    }
    wide(offsets[i + BLOCK]) < end
}

// Which of two positions is the nearer one to the last that is not above the key.
fn nearer(indices: &[u32], near: usize, position: usize, key: u32) -> usize
    requires near { Near indices.now key near }
    requires position_in_bounds { position < length indices.now }
    ensures { Near indices.now key result }
{
    if indices[position] <= key {
        return position;
    }
    near
}

fn in_blocks(indices: &[u32], offsets: &[u32], end: u64, key: u32) -> Reached
    requires sound { Sound indices.now offsets.now end 0 }
    requires indices_len { length indices.now ≡ length offsets.now }
    ensures { InBlocks indices.now offsets.now end key result.position result.near }
{
    let mut position = 0;
    let mut near = 0;
    while BLOCK < indices.len() - position {
        if !is_sound_block(indices, offsets, end, position) {
            return Reached { position, near };
        }
        near = nearer(indices, near, position, key);
        position += BLOCK;
    }
    Reached { position, near }
}

// Whether a position behind the first is at fault.
fn is_at_fault(indices: &[u32], offsets: &[u32], end: u64, i: usize) -> bool
    requires i_nonzero { 0 < i }
    requires i_in_bounds { (i < length indices.now) × (i < length offsets.now) }
    ensures { TellsFault indices.now offsets.now end i result }
{
    if indices[i] <= indices[i - 1] {
        return true;
    }
    if offsets[i] <= offsets[i - 1] {
        return true;
    }
    end <= wide(offsets[i])
}

// The first position at fault behind one that is not, or how many positions there are.
fn fault_behind(indices: &[u32], offsets: &[u32], end: u64, position: usize) -> usize
    requires sound { Sound indices.now offsets.now end position }
    requires indices_len { length indices.now ≡ length offsets.now }
    ensures { FaultBehind indices.now offsets.now end result }
{
    let mut i = position + 1;
    while i < indices.len() {
        if is_at_fault(indices, offsets, end, i) {
            return i;
        }
        i += 1;
    }
    i
}

// The last position from `near` on that is not above the key, in a list that rises.
fn last_from(indices: &[u32], near: usize, key: u32) -> usize
    requires { near < length indices.now }
    ensures { LastFrom indices.now near key result }
{
    let mut i = near;
    while i + 1 < indices.len() {
        if key < indices[i + 1] {
            return i;
        }
        i += 1;
    }
    i
}

// Lists of one length, of any numbers.
pub fn look(indices: &[u32], offsets: &[u32], end: u64, key: u32) -> Looked
    requires { length indices.now ≡ length offsets.now }
    ensures { Looks indices.now offsets.now end key result }
{
    if indices.len() == 0 {
        return Ok(None);
    }
    if end <= wide(offsets[0]) {
        return Err(0);
    }
    let reached = in_blocks(indices, offsets, end, key);
    let fault = fault_behind(indices, offsets, end, reached.position);
    if fault < indices.len() {
        return Err(fault);
    }
    if key < indices[0] {
        return Ok(None);
    }
    let start = last_from(indices, reached.near, key);
    Ok(Some(offsets[start]))
}
