// READ TOC's reply, written into a lent buffer as far as there is room.
ghost use Rattle.std.specs.Prelude.{◌≡◌, [], ◌∷◌, ◌++◌, ◌+◌, ◌-◌, ◌*◌, ◌≤◌, ◌^◌, length};
ghost use Rattle.features.specs.Bytes.{bytes16, stored};
ghost use Rattle.fragments.specs.List.{limit};
ghost use Rattle.contents.specs.Sessions.{sessions_left};
ghost use Rattle.contents.specs.Contents.{session_entries, toc_bytes};

use crate::closed::{Closing, Sessions};
use crate::entry::{self, entry};
use fragments::{Fragment, LIMIT};

// Bytes of the header.
pub const HEADER: usize = 4;

// Bytes of the longest table: an entry for each record, and the lead-out's.
pub const LONGEST: usize = HEADER + entry::LENGTH * (LIMIT + 1);

// The number of the lead-out's entry.
pub const LEAD_OUT: u8 = 0xAA;

// Puts bytes from a place on, as many as there is room for; the place after them.
fn put(target: &mut [u8], at: usize, source: &[u8]) -> usize
    requires { at + length source.now ≤ 2 ^ 32 }
    ensures place { result ≡ at + length source.now }
    ensures bytes { target.new ≡ stored target.old at source.now }
{
    let from = at.min(target.len());
    let count = source.len().min(target.len() - from);
    target[from..from + count].copy_from_slice(&source[..count]);
    at + source.len()
}

// Puts an entry for each of some sessions from a starting number on, after the header; the place after them.
fn put_sessions(sessions: Sessions, time: u8, start: u8, reply: &mut [u8]) -> usize
    requires { length (sessions_left sessions) ≤ limit }
    ensures place { result ≡ 4 + length (session_entries time start (sessions_left sessions.entry)) }
    ensures bytes { reply.new ≡ stored reply.old 4 (session_entries time start (sessions_left sessions.entry)) }
    ensures most { result ≤ 4 + 8 * limit }
{
    let mut at = HEADER;
    for f in sessions {
        if start <= f.session {
            at = put(reply, at, &entry(time, f.session, f.start.first_sector()));
        }
    }
    at
}

// The header: the length of all that follows it, and the numbers of the first and the last closed session.
fn header(last: u8, entries: usize) -> [u8; HEADER]
    requires { entries ≤ 2 ^ 32 }
    ensures { result ≡ bytes16 (2 + entries) ++ 1 ∷ last ∷ [] }
{
    let [high, low] = (((2 + entries) % 0x10000) as u16).to_be_bytes();
    [high, low, 1, last]
}

// Writes the table of contents of a list, as much of it as there is room for; the rest of the buffer stays. Form and time stay numbers, here
// and in an entry: public, and `toc_bytes` takes every number.
pub fn write(
    fragments: [Fragment; LIMIT],
    finalized: bool,
    form: u8,
    time: u8,
    start: u8,
    reply: &mut [u8],
)
    ensures { reply.new ≡ stored reply.old 0 (toc_bytes finalized fragments form time start) }
{
    let records = fragments::in_use(&fragments);
    let newest = fragments::last_record(fragments);
    let closing = Closing {
        finalized,
        last: newest.fragment.session,
    };
    let last = closing.last_fragment(records);
    let sessions = closing.sessions(records);
    let end = if form == 0 {
        let at = put_sessions(sessions, time, start, reply);
        put(reply, at, &entry(time, LEAD_OUT, last.end_address()))
    } else {
        let first = sessions.last().unwrap_or_default();
        let address = first.start.first_sector();
        put(reply, HEADER, &entry(time, first.session, address))
    };
    put(reply, 0, &header(last.session, end - HEADER));
}
