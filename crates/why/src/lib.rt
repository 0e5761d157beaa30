// Tell the pupil why: for a worked sheet, of one track or of two, and an event of it that was refused with 8, 9 or 13, the position of the event that put the relay in that state. 02, items 1 and 7.

#![tactic(auto)]

ghost use Rattle.std.specs.Prelude.{◌≤◌, ◌≡◌, true, not, ◌&&◌, eqb, length};
ghost use Rattle.relay.specs.Choice.{pick};
ghost use Rattle.relay.specs.Posts.{at};
ghost use Rattle.row.specs.Row.{line_of};
ghost use Rattle.sheet.specs.Layout.{two_tracks};
ghost use Rattle.sheet.specs.Reading.{form_ok, table_fits};
ghost use Rattle.why.specs.Why.{since_of, since_tracks_of, since_when, since_told, so, speaks};
ghost use Rattle.why.specs.declared.Refusal.TheVariants.{Sheet};

use sheet::Verdict;
use sheet::layout::{MOST_ENTRIES, MOST_TABLE};
use tracks::Track;
use working::Session;

// The number of a question with no answer, in the table of the numbers returned.
pub const NO_SUCH_REFUSAL: u32 = 29;

// Why a question has no answer: the sheet's answers aren't the ones that working its events gives, or the chosen event has another answer or doesn't exist; or the sheet itself is refused.
#[derive(Clone, Copy, PartialEq, Eq)]
pub enum Refusal {
    NoSuchRefusal,
    Sheet(sheet::Refusal),
}

impl From<sheet::Refusal> for Refusal {
    ghost from_gives = { λ refusal r. r ≡ Sheet refusal };

    fn from(refusal: sheet::Refusal) -> Refusal {
        Refusal::Sheet(refusal)
    }
}

// An answer in numbers: a refusal with its block and the event's position in that block, as reading gives them; or 0 and 0 with the position in the sheet, from 1, of the event since which it is so; 0 is the start.
#[repr(C)]
#[derive(Clone, Copy)]
pub struct Since {
    pub number: u32,
    pub block: u32,
    pub position: u32,
}

impl From<Result<u32, Refusal>> for Since {
    // What asking said.
    fn from(asked: Result<u32, Refusal>) -> Since
        ensures { result ≡ since_told asked }
    {
        let (number, block, position) = match asked {
            Ok(position) => (0, 0, position),
            Err(Refusal::NoSuchRefusal) => (NO_SUCH_REFUSAL, 0, 0),
            Err(Refusal::Sheet(refusal)) => {
                let Verdict {
                    number,
                    block,
                    position,
                } = refusal.verdict();
                (number, block, position)
            }
        };
        Since {
            number,
            block,
            position,
        }
    }
}

// What is asked of a run: since when the relay that `answer` speaks of is as it says, at post `place` of `track`, before the event at `position`.
#[derive(Clone, Copy)]
struct Question {
    track: u32,
    answer: u32,
    place: u32,
    position: u32,
}

// Whether an answer says that L or RL is down, or that RL is up.
#[tactic(auto, unfolding(crate::specs::Why::speaks), using(relay::proofs::Tests::tests))]
fn speaks(answer: u32) -> bool
    ensures { result ≡ speaks answer }
{
    matches!(
        relay::Refusal::decode(answer),
        Some(relay::Refusal::LDown | relay::Refusal::RlDown | relay::Refusal::RlUp)
    )
}

// Whether the relay that such an answer speaks of is as it says.
#[tactic(auto, unfolding(crate::specs::Why::so, relay::specs::Relays::up), using(relay::proofs::Tests::tests))]
fn so(answer: u32, word: u32) -> bool
    ensures { result ≡ so answer word }
{
    match relay::Refusal::decode(answer) {
        Some(relay::Refusal::LDown) => word & relay::L == 0,
        Some(relay::Refusal::RlDown) => word & relay::RL == 0,
        _ => word & relay::RL != 0,
    }
}

// The word of a post of a track's line, 0 where that line has no such post.
fn word_on(session: &Session, track: u32, place: u32) -> u32
    ensures { result ≡ (at (pick (eqb track 1) (line_of session.now.second) (line_of session.now.first)) place).word }
{
    match Track::decode(track) {
        Some(Track::Two) => row::word_at(session.second, place as usize),
        _ => row::word_at(session.first, place as usize),
    }
}

// The event at `here` where it made it so, else the one before.
fn later(was: bool, is: bool, here: u32, since: u32) -> u32
    ensures { result ≡ pick (not was && is) here since }
{
    if !was && is { here } else { since }
}

// Works all events, each on its track, from the fresh lines and compares each one's answer with what the sheet says; up to the event that is asked about it watches that event's relay.
fn watch(
    tracks: u32,
    table: &[u32],
    stamp: u32,
    events: &[[u32; 4]],
    on: &[u32],
    asked: Question,
) -> Result<u32, Refusal>
    requires right { (form_ok two_tracks tracks && table_fits tracks table.now) ≡ true }
    requires there { (1 ≤ asked.position) × (asked.position ≤ length events.now) }
    requires few { length events.now ≤ 3780 }
    ensures { since_told result ≡ since_when (record { form = tracks; stamp = stamp; table = table.now; events = events.now; tracks = on.now }) asked.track asked.answer asked.place asked.position }
{
    let mut session = Session::begin(tracks, table, stamp).unwrap();
    let mut was = word_on(&session, asked.track, asked.place);
    let mut since: u32 = 0;
    for i in 0..events.len() {
        let e = events[i];
        let given = session.step(working::track_at(on, i), e[0], e[1], e[3]);
        if given != e[2] {
            return Err(Refusal::NoSuchRefusal);
        }
        let is = word_on(&session, asked.track, asked.place);
        let here = i as u32 + 1;
        let past = asked.position <= here;
        since = later(
            so(asked.answer, was) | past,
            so(asked.answer, is),
            here,
            since,
        );
        was = is;
    }
    Ok(since)
}

// Since when what the refusal of the event at `position` says is so, in a sheet of one track or of two: at the post and on the track that the event names.
pub fn since_when_tracks(s: &[u8], position: u32) -> Result<u32, Refusal>
    ensures { since_told result ≡ since_tracks_of s.now position }
{
    let mut table = [0u32; MOST_TABLE];
    let mut events = [[0u32; 4]; MOST_ENTRIES];
    let mut on = [0u32; MOST_ENTRIES];
    let header = lent_sheet::read_tracks(s, &mut table, &mut events, &mut on)?;
    let n = lent_sheet::table_words(header.tracks, header.posts);
    let m = header.events as usize;
    let k = position as usize;
    if k == 0 || m < k {
        return Err(Refusal::NoSuchRefusal);
    }
    let e = events[k - 1];
    if !speaks(e[2]) {
        return Err(Refusal::NoSuchRefusal);
    }
    let asked = Question {
        track: on[k - 1],
        answer: e[2],
        place: e[1],
        position,
    };
    watch(
        header.tracks,
        &table[..n],
        header.stamp,
        &events[..m],
        &on[..m],
        asked,
    )
}

// The same in a sheet of one track.
pub fn since_when(s: &[u8], position: u32) -> Result<u32, Refusal>
    ensures { since_told result ≡ since_of s.now position }
{
    lent_sheet::test(s)?;
    since_when_tracks(s, position)
}
