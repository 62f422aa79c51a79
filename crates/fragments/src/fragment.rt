// A record of the fragment list, and what is computed of one record alone. Every method is total: the fields may hold any numbers.
ghost use Rattle.std.specs.Prelude.{◌≡◌, ◌&&◌};
ghost use Rattle.fragments.specs.Address.{wide, first_sector};
ghost use Rattle.fragments.specs.Fragment.{unused_record, reserved_at, shortened_record, end, first_unrecorded, complete, is_reserved, is_tail, is_incomplete_reserved, next_fragment_start, next_session_start, next_after, takes, last_recorded, last_readable_of};

use crate::address::{Block, Lba, WideBlock};

// Blocks between two fragments: the dividing block in a session, Closure and Intro between sessions.
const DIVIDING: u64 = 1;

const CLOSURE: u64 = 64;

const INTRO: u64 = 64;

// Reserved stands first: it is the kind of an unused record, which is all zero.
#[derive(Clone, Copy, PartialEq, Eq, PartialOrd, Ord, Default, Debug)]
pub enum Kind {
    #[default]
    Reserved,
    Appended,
}

#[derive(Clone, Copy, PartialEq, Eq, Default, Debug)]
pub struct Fragment {
    // The first block.
    pub start: Block,
    // Length in blocks (document 01's L); 0 in an unused record.
    pub length: u32,
    // Recorded blocks (document 01's W), from the start on.
    pub recorded: u32,
    // Sectors of them that the drive filled with zeros by itself (document 01's F).
    pub zeroed: u32,
    // The session, from 1.
    pub session: u8,
    pub kind: Kind,
}

impl Kind {
    pub fn is_reserved(self) -> bool
        ensures { result ≡ is_reserved self }
    {
        self == Kind::Reserved
    }
}

impl Fragment {
    // An unused record.
    pub fn unused() -> Fragment
        ensures { result ≡ unused_record }
    {
        Fragment::default()
    }

    // A reserved record of so many blocks in the place of the tail.
    pub fn reserved(self, blocks: u32) -> Fragment
        ensures { result ≡ reserved_at self blocks }
    {
        Fragment {
            session: self.session,
            start: self.start,
            length: blocks,
            ..Fragment::unused()
        }
    }

    // The record that ends with its recorded blocks.
    pub fn shortened(self) -> Fragment
        ensures { result ≡ shortened_record self }
    {
        Fragment {
            length: self.recorded,
            ..self
        }
    }

    // The first block after the fragment.
    pub(crate) fn end(self) -> WideBlock
        ensures { result ≡ wide (end self) }
    {
        WideBlock(u64::from(self.start.0) + u64::from(self.length))
    }

    // Where the next fragment of the session starts.
    pub fn next_start(self) -> WideBlock
        ensures { result ≡ wide (next_fragment_start (end self)) }
    {
        WideBlock(self.end().0 + DIVIDING)
    }

    // Where the first fragment of the next session starts.
    pub fn next_session_start(self) -> WideBlock
        ensures { result ≡ wide (next_session_start (end self)) }
    {
        WideBlock(self.end().0 + (CLOSURE + INTRO))
    }

    // The address of the first sector after the fragment.
    pub fn end_address(self) -> Lba
        ensures { result ≡ first_sector (end self) }
    {
        self.start.sector_after(self.length)
    }

    // The address of the first sector that is not recorded.
    pub fn recorded_end(self) -> Lba
        ensures { result ≡ first_sector (first_unrecorded self) }
    {
        self.start.sector_after(self.recorded)
    }

    pub fn is_complete(self) -> bool
        ensures { result ≡ complete self }
    {
        self.recorded == self.length
    }

    pub fn is_tail(self) -> bool
        ensures { result ≡ is_tail self }
    {
        !self.kind.is_reserved() & !self.is_complete()
    }

    pub(crate) fn is_incomplete_reserved(self) -> bool
        ensures { result ≡ is_incomplete_reserved self }
    {
        self.kind.is_reserved() & !self.is_complete()
    }

    // The next writable address, after the recorded blocks and the sectors pending in the fragment.
    pub fn next_writable(self, pending: u8) -> Lba
        ensures { result ≡ next_after pending self }
    {
        self.start.sector_in(self.recorded, pending)
    }

    // Whether the fragment is incomplete and the address its next writable one.
    pub fn takes(self, address: Lba, pending: u8) -> bool
        ensures { result ≡ takes address pending self }
    {
        !self.is_complete() & (address == self.next_writable(pending))
    }

    // The address of the last recorded sector, or 0. No Option: the reply's number, which `last_recorded` holds.
    pub fn last_recorded(self) -> Lba
        ensures { result ≡ last_recorded self }
    {
        if self.recorded == 0 {
            return Lba(0);
        }
        Lba(self.recorded_end().0 - 1)
    }

    // The address of the last readable sector, with so many sectors pending in the fragment, or 0. No Option: the reply's number, which
    // `last_readable_of` holds.
    pub(crate) fn last_readable(self, pending: u8) -> Lba
        ensures { result ≡ last_readable_of pending self }
    {
        if (self.recorded == 0) & (pending == 0) {
            return Lba(0);
        }
        Lba(self.next_writable(pending).0 - 1)
    }
}
