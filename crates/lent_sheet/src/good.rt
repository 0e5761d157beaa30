// A good sheet in lent bytes, and its table, its events and their tracks, handed out into lent room.
ghost use Rattle.std.specs.Prelude.{◌≡◌, ◌+◌, ◌*◌, ◌/◌, ◌%◌, ◌<◌, ◌≤◌, ◌&&◌, ◌++◌, true, IfOk, length, drop, nat_le};
ghost use Rattle.sheet.specs.Words.{tab};
ghost use Rattle.sheet.specs.Check.{word};
ghost use Rattle.sheet.specs.Reading.{form_in, verdict_up_to, words_in, entries_in, entry_in, track_on};
ghost use Rattle.sheet.specs.Refusals.{verdict_code, header_in};

use crate::{blocks, entry, words};
use sheet::layout::{BLOCK_BYTES, PER_BLOCK};
use sheet::{Header, Refusal};
use std::marker::Model;

// The bytes of a sheet that testing accepted (`Shape.Kept` says what that keeps); in a clause it stands for them.
#[derive(Drop)]
pub struct Good<'a> {
    bytes: &'a [u8],
}

impl<'a> Model for Good<'a> {
    ghost use Rattle.std.specs.Prelude.{ℕ, List};

    ghost Value = { List ℕ };

    ghost view = { λ sheet. sheet.bytes.now };

    ghost use Rattle.sheet.specs.Shape.{Kept};

    ghost invariant = { λ sheet. Kept sheet.bytes.now };
}

impl<'a> Good<'a> {
    // Tests a sheet that may be of `most` tracks.
    pub fn test(bytes: &'a [u8], most: u32) -> Result<Good<'a>, Refusal>
        ensures tested { verdict_code result ≡ verdict_up_to most bytes.now }
        ensures same { IfOk result (λ sheet. sheet ≡ bytes.now) }
    {
        blocks::test_up_to(bytes, most)?;
        Ok(Good { bytes })
    }

    // What it says beside its table and its events.
    pub fn header(&self) -> Header
        ensures { result ≡ header_in self.now }
    {
        Header {
            tracks: words::get_word(self.bytes, 0),
            posts: words::get_word(self.bytes, 4),
            stamp: words::get_word(self.bytes, 8),
            events: self.entries() as u32,
        }
    }

    // How many words its table has.
    fn table_words(&self) -> usize
        ensures { result ≡ words_in self.now }
    {
        crate::table_words(
            words::get_word(self.bytes, 0),
            words::get_word(self.bytes, 4),
        )
    }

    // How many events it has.
    pub fn entries(&self) -> usize
        ensures { result ≡ entries_in self.now }
    {
        let n = self.bytes.len() / BLOCK_BYTES;
        if n <= 1 {
            return 0;
        }
        let last = n - 1;
        (n - 2) * PER_BLOCK + words::get_word(self.bytes, last * BLOCK_BYTES) as usize
    }

    // Whether its table, its events and their tracks fit into rooms for so many.
    pub fn fits(&self, words: usize, events: usize, tracks: usize) -> bool
        ensures { result ≡ ((nat_le (words_in self.now) words && nat_le (entries_in self.now) events) && nat_le (entries_in self.now) tracks) }
    {
        self.table_words() <= words && self.entries() <= events && self.entries() <= tracks
    }

    // Its table, to the front of `room`.
    pub fn table(&self, room: &mut [u32])
        requires { words_in self.now ≤ length room.old }
        ensures { room.new ≡ tab (λ i. word self.now 0 (3 + i)) (words_in self.now) ++ drop (words_in self.now) room.old }
    {
        for i in 0..self.table_words() {
            room[i] = words::get_word(self.bytes, (3 + i) * 4);
        }
    }

    // Event `i` and its track.
    fn event_at(&self, i: usize) -> ([u32; 4], u32)
        requires { i < entries_in self.now }
        ensures event { result.0 ≡ entry_in self.now i }
        ensures track { result.1 ≡ track_on self.now i }
    {
        let tracks = words::get_word(self.bytes, 0);
        let at = (1 + i / PER_BLOCK) * BLOCK_BYTES + (1 + i % PER_BLOCK * 2) * 4;
        let event = entry::unpack(words::get_word(self.bytes, at), tracks).unwrap();
        let stamp = words::get_word(self.bytes, at + 4);
        ([event.number, event.post, event.answer, stamp], event.track)
    }

    // Its events, to the front of `room`.
    pub fn events(&self, room: &mut [[u32; 4]])
        requires { entries_in self.now ≤ length room.old }
        ensures { room.new ≡ tab (entry_in self.now) (entries_in self.now) ++ drop (entries_in self.now) room.old }
    {
        for i in 0..self.entries() {
            let (event, _) = self.event_at(i);
            room[i] = event;
        }
    }

    // The track of each of its events, to the front of `room`.
    pub fn tracks(&self, room: &mut [u32])
        requires { entries_in self.now ≤ length room.old }
        ensures { room.new ≡ tab (track_on self.now) (entries_in self.now) ++ drop (entries_in self.now) room.old }
    {
        for i in 0..self.entries() {
            let (_, track) = self.event_at(i);
            room[i] = track;
        }
    }
}
