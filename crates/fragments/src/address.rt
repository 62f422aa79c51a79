// Block numbers and sector addresses: two kinds of number. The conversion between them by 16 stands in this file alone.
ghost use Rattle.std.specs.Prelude.{◌≡◌, ◌+◌};
ghost use Rattle.fragments.specs.Address.{sectors_in, whole_blocks, left_over, missing, block, wide, lba, first_sector, passes, sectors_before};

// The number of an ECC block, from 0. A disc's block numbers fit 32 bits.
#[derive(Clone, Copy, PartialEq, Eq, PartialOrd, Ord, Default, Debug)]
pub struct Block(pub u32);

// A block number computed from the fields of a record, which may hold any numbers: it has 64 bits, so that no sum wraps.
#[derive(Clone, Copy, PartialEq, Eq, PartialOrd, Ord, Default, Debug)]
pub struct WideBlock(pub u64);

// A sector's logical block address. It has 64 bits, so that an address of a command block and a length add up without wrapping.
#[derive(Clone, Copy, PartialEq, Eq, PartialOrd, Ord, Default, Debug)]
pub struct Lba(pub u64);

// Sectors in an ECC block.
const SECTORS_PER_BLOCK: u32 = 16;

// How many sectors that many blocks have.
pub fn sectors_in(blocks: u32) -> u64
    ensures { result ≡ sectors_in blocks }
{
    u64::from(SECTORS_PER_BLOCK) * u64::from(blocks)
}

// How many blocks that many sectors fill.
pub fn whole_blocks(sectors: usize) -> usize
    ensures { result ≡ whole_blocks sectors }
{
    sectors / SECTORS_PER_BLOCK as usize
}

// How many sectors are left over then.
pub fn left_over(sectors: usize) -> usize
    ensures { result ≡ left_over sectors }
{
    sectors % SECTORS_PER_BLOCK as usize
}

// How many sectors a block lacks that has so many; none where it has more than it can hold.
pub fn missing(sectors: usize) -> usize
    ensures { result ≡ missing sectors }
{
    (SECTORS_PER_BLOCK as usize).saturating_sub(sectors)
}

// The same block, where its number may be past every disc.
impl From<Block> for WideBlock {
    fn from(block: Block) -> WideBlock
        ensures { result ≡ wide block }
    {
        WideBlock(u64::from(block.0))
    }
}

impl Block {
    // The address of the block's first sector.
    pub fn first_sector(self) -> Lba
        ensures { result ≡ first_sector self }
    {
        Lba(sectors_in(self.0))
    }

    // The address of the first sector of the block that is so many blocks on.
    pub(crate) fn sector_after(self, blocks: u32) -> Lba
        ensures { result ≡ first_sector (block (self.0 + blocks)) }
    {
        Lba(u64::from(SECTORS_PER_BLOCK) * (u64::from(self.0) + u64::from(blocks)))
    }

    // The address of a sector, counted from 0, in the block that is so many blocks on.
    pub(crate) fn sector_in(self, blocks: u32, sector: u8) -> Lba
        ensures { result ≡ lba ((first_sector (block (self.0 + blocks))).0 + sector) }
    {
        Lba(self.sector_after(blocks).0 + u64::from(sector))
    }
}

impl Lba {
    // Whether a run of sectors goes past an end. An address may be any number, so the sum is not formed: it could wrap.
    pub fn passes(self, sectors: u32, end: Lba) -> bool
        ensures { result ≡ passes self sectors «end» }
    {
        if self > end {
            return true;
        }
        end.0 - self.0 < u64::from(sectors)
    }

    // Of a run of sectors, how many lie before an end.
    pub fn sectors_before(self, sectors: u32, end: Lba) -> u32
        ensures { result ≡ sectors_before self sectors «end» }
    {
        end.0.saturating_sub(self.0).min(u64::from(sectors)) as u32
    }

    // The sector's place in its block, from 0.
    pub fn place(self) -> u32
        ensures { result ≡ left_over self.0 }
    {
        (self.0 % u64::from(SECTORS_PER_BLOCK)) as u32
    }
}
