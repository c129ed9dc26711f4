//! The arithmetic of space in an update: blocks of 4096 bytes, exception stores, groups.
#![tactic(auto)]

ghost use Rattle.std.specs.Prelude.{◌≡◌, ◌≤◌, ◌<◌, ◌+◌, ◌*◌, ◌^◌, ◌↔◌, IsTrue};
ghost use Rattle.vab_space.specs.Space.{need_of, blocks_of, growth_of, used_of, group_sum_of};
ghost use Rattle.vab_space.specs.Chunks.{blocks_in, block_in, chunk_at, place_in, chunks_in};
ghost use Rattle.vab_space.specs.Chunks.{chunks_for, entries_in, need_at, page_block, pages_in};
ghost use Rattle.vab_space.specs.Chunks.{is_area, is_data, new_chunk_of, page_of, entry_of};
ghost use Rattle.vab_space.specs.Sectors.{sectors_in, chunk_of_sectors};

/// The size of a chunk of an exception store, in blocks of 4096 bytes.
#[derive(Clone, Copy, Debug, PartialEq, Eq)]
pub enum Chunk {
    One,
    Two,
    Four,
}

impl Chunk {
    /// How many blocks it has.
    pub fn blocks(self) -> u64
        ensures is { result ≡ blocks_in self }
        ensures some { 0 < result }
        ensures few { result ≤ 4 }
    {
        match self {
            Chunk::One => 1,
            Chunk::Two => 2,
            Chunk::Four => 4,
        }
    }

    /// How many sectors of 512 bytes it has: 8, 16 or 32.
    pub fn sectors(self) -> u64
        ensures { result ≡ sectors_in self }
    {
        8 * self.blocks()
    }

    /// The chunk of so many sectors, which are 8, 16 or 32.
    pub fn from_sectors(sectors: u64) -> Option<Chunk>
        ensures { result ≡ chunk_of_sectors sectors }
    {
        match sectors {
            8 => Some(Chunk::One),
            16 => Some(Chunk::Two),
            32 => Some(Chunk::Four),
            _ => None,
        }
    }

    /// Block `place` of a chunk.
    pub fn block_in(self, chunk: u64, place: u64) -> u64
        requires chunk { chunk < 2 ^ 61 }
        requires place { place < 4 }
        ensures { result ≡ block_in self chunk place }
    {
        match self {
            Chunk::One => chunk,
            Chunk::Two => 2 * chunk + place,
            Chunk::Four => 4 * chunk + place,
        }
    }

    /// The chunk of a block.
    pub fn chunk_at(self, block: u64) -> u64
        ensures is { result ≡ chunk_at self block }
        ensures most { result ≤ block }
    {
        match self {
            Chunk::One => block,
            Chunk::Two => block / 2,
            Chunk::Four => block / 4,
        }
    }

    /// The place of a block in its chunk.
    pub fn place_in(self, block: u64) -> u64
        ensures is { result ≡ place_in self block }
        ensures few { result < 4 }
    {
        match self {
            Chunk::One => 0,
            Chunk::Two => block % 2,
            Chunk::Four => block % 4,
        }
    }

    /// The whole chunks of so many blocks.
    pub fn chunks_in(self, blocks: u64) -> u64
        ensures is { result ≡ chunks_in self blocks }
        ensures most { result ≤ blocks }
    {
        match self {
            Chunk::One => blocks,
            Chunk::Two => blocks / 2,
            Chunk::Four => blocks / 4,
        }
    }

    /// The chunks in which so many blocks stand, the last one perhaps not full.
    pub fn chunks_for(self, blocks: u64) -> u64
        ensures { result ≡ chunks_for self blocks }
    {
        match self {
            Chunk::One => blocks,
            Chunk::Two => blocks / 2 + blocks % 2,
            Chunk::Four => blocks.div_ceil(4),
        }
    }

    /// The entries of an area.
    pub fn entries(self) -> u64
        ensures is { result ≡ entries_in self }
        ensures some { 0 < result }
    {
        match self {
            Chunk::One => 256,
            Chunk::Two => 512,
            Chunk::Four => 1024,
        }
    }

    /// The block of a page of 256 entries. Each block of an area is a page.
    pub fn page_block(self, page: u64) -> u64
        requires { page < 2 ^ 52 }
        ensures { result ≡ page_block self page }
    {
        match self {
            Chunk::One => 1 + 257 * page,
            Chunk::Two => 2 * (1 + 513 * (page / 2)) + page % 2,
            Chunk::Four => 4 * (1 + 1025 * (page / 4)) + page % 4,
        }
    }

    /// How many pages so many blocks have.
    pub fn pages_in(self, blocks: u64) -> u64
        requires { blocks < 2 ^ 60 }
        ensures { result ≡ pages_in self blocks }
    {
        match self {
            Chunk::One => (blocks + 255) / 257,
            Chunk::Two => 2 * ((blocks / 2 + 511) / 513),
            Chunk::Four => 4 * ((blocks / 4 + 1023) / 1025),
        }
    }

    /// Whether a chunk is an area.
    pub fn is_area(self, chunk: u64) -> bool
        ensures { result ≡ is_area self chunk }
    {
        match self {
            Chunk::One => chunk % 257 == 1,
            Chunk::Two => chunk % 513 == 1,
            Chunk::Four => chunk % 1025 == 1,
        }
    }

    /// Whether a chunk is neither the header nor an area.
    pub fn is_data(self, chunk: u64) -> bool
        ensures { result ≡ is_data self chunk }
    {
        chunk != 0 && !self.is_area(chunk)
    }

    /// The chunk that a writer gives exception `j`.
    pub fn new_chunk(self, j: u64) -> u64
        requires { j < 2 ^ 62 }
        ensures { result ≡ new_chunk_of self j }
    {
        match self {
            Chunk::One => 2 + j + j / 256,
            Chunk::Two => 2 + j + j / 512,
            Chunk::Four => 2 + j + j / 1024,
        }
    }

    /// The page that a block of an area is.
    pub fn page_of(self, block: u64) -> u64
        ensures is { result ≡ page_of self block }
        ensures most { 256 * result ≤ block + 768 }
    {
        match self {
            Chunk::One => block / 257,
            Chunk::Two => 2 * (block / 2 / 513) + block % 2,
            Chunk::Four => 4 * (block / 4 / 1025) + block % 4,
        }
    }

    /// The exception of a data chunk of a store that was written.
    pub fn entry_of(self, chunk: u64) -> u64
        ensures is { result ≡ entry_of self chunk }
        ensures most { result ≤ chunk }
    {
        let behind = chunk.saturating_sub(2);
        match self {
            Chunk::One => behind - behind / 257,
            Chunk::Two => behind - behind / 513,
            Chunk::Four => behind - behind / 1025,
        }
    }
}

/// Blocks of an exception store for `n` exceptions: the header, the areas with room for the entry
/// that ends the list, and a chunk for each exception.
pub fn need_at(n: u64, chunk: Chunk) -> u64
    requires { blocks_in chunk * n < 2 ^ 63 }
    ensures { result ≡ need_at n chunk }
{
    match chunk {
        Chunk::One => 1 + (n / 256 + 1) + n,
        Chunk::Two => 2 * (1 + (n / 512 + 1) + n),
        Chunk::Four => 4 * (1 + (n / 1024 + 1) + n),
    }
}

/// What an update wants of one partition, in blocks of 4096 bytes.
#[derive(Clone, Copy, Debug, PartialEq, Eq)]
pub struct Want {
    /// Blocks of the source's partition of the same base name, 0 where there is none.
    pub before: u64,
    /// Blocks of the target's partition.
    pub blocks: u64,
    /// Blocks of its exception store, 0 where it has none.
    pub store: u64,
}

/// Bytes of a block.
pub const BLOCK: usize = 4096;

/// Chunks of an exception store for `n` exceptions (the kernel's dm-snapshot persistent store, with
/// chunks of 8 sectors): the header, areas of 256 entries with room for the entry that ends the
/// list, and `n` chunks of data.
pub fn need(n: u64) -> u64
    requires { n < 2 ^ 63 }
    ensures { result ≡ need_of n }
{
    1 + (n / 256 + 1) + n
}

/// Whole blocks for so many bytes, rounded up.
pub fn blocks(bytes: u64) -> u64
    ensures is { result ≡ blocks_of bytes }
    ensures enough { bytes ≤ 4096 * result }
    ensures least { 4096 * result < bytes + 4096 }
{
    bytes.div_ceil(BLOCK as u64)
}

/// Whether the used blocks are within the capacity.
pub fn fits(used: u64, cap: u64) -> bool
    ensures { IsTrue result ↔ (used ≤ cap) }
{
    used <= cap
}

// The blocks that an entry adds to those of the source.
fn growth(want: &Want) -> u64
    ensures { result ≡ growth_of want.now }
{
    want.blocks.saturating_sub(want.before)
}

/// Blocks in use: those of the source's images, what the plan adds to them, and all stores.
pub fn used(source: &[u64], plan: &[Want]) -> u64
    requires { used_of source.now plan.now < 2 ^ 63 }
    ensures { result ≡ used_of source.now plan.now }
{
    let kept: u64 = source.iter().sum();
    let grown: u64 = plan.iter().map(|want| growth(want)).sum();
    let stored: u64 = plan.iter().map(|want| want.store).sum();
    kept + grown + stored
}

/// Bytes in all these blocks: what the limit of a partition group is compared with.
pub fn group_sum(blocks: &[u64]) -> u64
    requires { group_sum_of blocks.now < 2 ^ 63 }
    ensures { result ≡ group_sum_of blocks.now }
{
    let sum: u64 = blocks.iter().sum();
    BLOCK as u64 * sum
}
