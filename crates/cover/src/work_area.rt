//! The work area: bytes of the caller's that hold H, Q, P and the current block of keystream while a call needs them.
ghost use Rattle.std.specs.Prelude.{◌≡◌, ℕ, ◌+◌, ◌≤◌, length, take};
ghost use Rattle.units.specs.Strings.{same};
ghost use Rattle.units.specs.Sums.{sums};
ghost use Rattle.field.specs.Blocks.{block_bytes, polynomial};
ghost use Rattle.cover.specs.WorkArea.{held, slot, wiped};

use field::Block;

/// How many bytes the work area of a call has to have. One of any other length is refused.
pub const WORK_AREA: usize = 64;

/// How long a block is.
pub(crate) const BLOCK: usize = 16;

/// Where H stands in a work area.
pub(crate) const H: usize = 0;

/// Where Q stands.
pub(crate) const Q: usize = 16;

/// Where P stands.
pub(crate) const P: usize = 32;

/// Where the current block of keystream stands, and the tag while it is made, copied or compared.
pub(crate) const CURRENT: usize = 48;

/// A guard over the caller's bytes, of whatever length. All of them are zero once it is dropped, on whatever way. The field is
/// the cover's own, so that no layer above can put other bytes in its place; it covers and opens by the guard's own calls.
pub struct WorkArea<'a> {
    pub(crate) bytes: &'a mut [u8],
}

impl Drop for WorkArea<'_> {
    fn drop(self)
        ensures { self.exit.0.now ≡ wiped self.entry.bytes.now }
    {
        self.bytes.fill(0);
        let WorkArea { bytes: _ } = self;
    }
}

impl<'a> WorkArea<'a> {
    pub fn new(bytes: &'a mut [u8]) -> WorkArea<'a>
        ensures now { held result ≡ bytes.entry.now }
        ensures name { result.bytes.ghost_name ≡ bytes.entry.ghost_name }
    {
        WorkArea { bytes }
    }
}

impl WorkArea<'_> {
    pub fn len(&self) -> usize
        ensures { result ≡ length (held self.now) }
    {
        self.bytes.len()
    }

    /// Puts a block at a place. Blocks before it stay.
    pub(crate) fn put(&mut self, place: usize, block: Block)
        requires { place + 16 ≤ length self.now.bytes.now }
        ensures name { self.new.bytes.ghost_name ≡ self.old.bytes.ghost_name }
        ensures length { length self.new.bytes.now ≡ length self.old.bytes.now }
        ensures here { slot self.new.bytes.now place ≡ block_bytes block.0 }
        ensures before { (i : ℕ) → i + 16 ≤ place → slot self.new.bytes.now i ≡ slot self.old.bytes.now i }
    {
        self.bytes[place..place + BLOCK].copy_from_slice(&block.to_bytes());
    }

    /// The block at a place.
    #[tactic(auto, unfolding(crate::specs::WorkArea::slot))]
    pub(crate) fn block(&self, place: usize) -> Block
        requires { place + 16 ≤ length self.now.bytes.now }
        ensures { result.0 ≡ polynomial (slot self.now.bytes.now place) }
    {
        match self.bytes[place..].first_chunk() {
            Some(block) => Block::from_bytes(block),
            None => unreachable!(),
        }
    }

    /// Adds the current block to at most sixteen bytes.
    #[tactic(auto, unfolding(crate::specs::WorkArea::slot), using(crate::proofs::SlotLaws::slot_last))]
    pub(crate) fn add_current(&self, text: &[u8], sum: &mut [u8])
        requires room { length self.now.bytes.now ≡ 64 }
        requires short { length text.now ≤ 16 }
        requires alike { length sum.now ≡ length text.now }
        ensures { sum.new ≡ sums text.now (slot self.now.bytes.now 48) }
    {
        add(text, &self.bytes[CURRENT..], sum);
    }

    /// Whether a tag is the beginning of the current block. Every byte of it is looked at, whatever the others are.
    #[tactic(auto, unfolding(crate::specs::WorkArea::slot), using(crate::proofs::TagLaws::slot_begins))]
    pub(crate) fn begins_with(&self, tag: &[u8]) -> bool
        requires room { length self.now.bytes.now ≡ 64 }
        requires short { length tag.now ≤ 16 }
        ensures { result ≡ same tag.now (take (length tag.now) (slot self.now.bytes.now 48)) }
    {
        begins_with(&self.bytes[CURRENT..], tag)
    }

    /// Copies the beginning of the current block.
    #[tactic(auto, unfolding(crate::specs::WorkArea::slot))]
    pub(crate) fn copy_to(&self, tag: &mut [u8])
        requires room { length self.now.bytes.now ≡ 64 }
        requires short { length tag.now ≤ 16 }
        ensures { tag.new ≡ take (length tag.old) (slot self.now.bytes.now 48) }
    {
        tag.copy_from_slice(&self.bytes[CURRENT..CURRENT + tag.len()]);
    }
}

/// Writes the sums of the bytes of a text and of the first ones of a key.
#[tactic(auto, using(crate::proofs::SlotLaws::sums_more, crate::proofs::SlotLaws::sums_whole))]
fn add(text: &[u8], key: &[u8], sum: &mut [u8])
    requires enough { length text.now ≤ length key.now }
    requires alike { length sum.now ≡ length text.now }
    ensures { sum.new ≡ sums text.now key.now }
{
    for i in 0..text.len() {
        sum[i] = text[i] ^ key[i];
    }
}

/// Whether `bytes` begin with `tag`. Every byte of the tag is looked at, whatever the others are.
#[tactic(auto, using(crate::proofs::TagLaws::difference_none, crate::proofs::TagLaws::difference_more, crate::proofs::TagLaws::difference_tells))]
fn begins_with(bytes: &[u8], tag: &[u8]) -> bool
    requires { length tag.now ≤ length bytes.now }
    ensures { result ≡ same tag.now (take (length tag.now) bytes.now) }
{
    let mut unlike = 0;
    for i in 0..tag.len() {
        unlike |= tag[i] ^ bytes[i];
    }
    unlike == 0
}
