// The twelve events on the post named and its neighbour: a list of refusals for each, and a change for each. A list takes the ordinary form of the post's kind.
#![tactic(auto, unfolding(relay::specs::Line::numbered, relay::specs::Events::reverse_refusal, relay::specs::Events::normal_refusal, relay::specs::Events::announce_refusal, relay::specs::Events::release_refusal, relay::specs::Events::garage_refusal, relay::specs::Events::under_way_refusal, relay::specs::Events::restore_refusal, relay::specs::Events::lacks, relay::specs::Events::jam_hinders, relay::specs::Events::nothing_to_free, relay::specs::Events::own_refusal, relay::specs::Events::refusal, relay::specs::Events::reversed, relay::specs::Events::normal, relay::specs::Events::passed, relay::specs::Events::struck, relay::specs::Events::announced, relay::specs::Events::released, relay::specs::Events::garaged, relay::specs::Events::release_under_way, relay::specs::Events::arrived, relay::specs::Events::lost, relay::specs::Events::restored, relay::specs::Events::jammed, relay::specs::Events::freed, relay::specs::Events::changed, relay::specs::Relays::up, relay::specs::Relays::raise, relay::specs::Relays::lower, relay::specs::Kinds::has_signal_pedal, relay::specs::Kinds::has_passage_pedal, relay::specs::Kinds::has_garage_release, relay::specs::Kinds::blocks_at_pedal), using(relay::proofs::Tests::tests))]

ghost use Rattle.std.specs.Prelude.{◌≡◌};
ghost use Rattle.relay.specs.Choice.{grown};
ghost use Rattle.relay.specs.Numbers.{refusal_code};
ghost use Rattle.relay.specs.Events.{reverse_refusal, normal_refusal, announce_refusal, release_refusal, garage_refusal, under_way_refusal, restore_refusal, lacks, jam_hinders, nothing_to_free, own_refusal, refusal};
ghost use Rattle.relay.specs.Events.{reversed, normal, passed, struck, announced, released, garaged, release_under_way, arrived, lost, restored, jammed, freed, changed, pair};

use relay::{Event, Form, Pair, Post, Refusal};

// The events by their numbers, for a match over the number. Of a match over the enum the compiler works out where to jump long before it jumps, and the stack of a call can then not be bounded from its code.
const REVERSE: u32 = Event::Reverse as u32;

const NORMAL: u32 = Event::Normal as u32;

const PASS: u32 = Event::Pass as u32;

const STRIKE: u32 = Event::Strike as u32;

const ANNOUNCE: u32 = Event::Announce as u32;

const RELEASE: u32 = Event::Release as u32;

const GARAGE: u32 = Event::Garage as u32;

const ARRIVE: u32 = Event::Arrive as u32;

const LOSE: u32 = Event::Lose as u32;

const RESTORE: u32 = Event::Restore as u32;

const JAM: u32 = Event::Jam as u32;

const FREE: u32 = Event::Free as u32;

// A count, one greater.
pub fn grow(n: u32) -> u32
    ensures { result ≡ grown n }
{
    n.wrapping_add(1)
}

// 1. Reverse the lever.
pub fn reverse_refusal(kind: u32, w: u32) -> Result<(), Refusal>
    ensures { refusal_code result ≡ reverse_refusal kind w }
{
    if w & relay::LEVER != 0 {
        return Err(Refusal::LeverThere);
    }
    if !matches!(Form::decode(kind), Some(Form::Terminus)) && w & relay::L == 0 {
        return Err(Refusal::LDown);
    }
    Ok(())
}

pub fn reverse(p: Post) -> Post
    ensures { result ≡ reversed p }
{
    Post {
        word: p.word | relay::LEVER | relay::SIGNAL,
        ..p
    }
}

// 2. Lever to normal.
pub fn normal_refusal(w: u32) -> Result<(), Refusal>
    ensures { refusal_code result ≡ normal_refusal w }
{
    if w & relay::LEVER == 0 {
        return Err(Refusal::LeverThere);
    }
    Ok(())
}

pub fn to_normal(p: Post) -> Post
    ensures { result ≡ normal p }
{
    Post {
        word: p.word & (relay::ALL ^ relay::LEVER) & (relay::ALL ^ relay::SIGNAL),
        ..p
    }
}

// 3. Passage pedal: an early strike is lost, but at a short post.
pub fn pass(p: Post) -> Post
    ensures { result ≡ passed p }
{
    let may_record = crate::kinds::is_short(p.kind) || p.word & relay::AN != 0;
    if may_record && p.word & relay::KPG == 0 {
        return Post {
            word: p.word | relay::KPG,
            q: grow(p.q),
            ..p
        };
    }
    p
}

// 4. Signal pedal.
pub fn strike(p: Post) -> Post
    ensures { result ≡ struck p }
{
    if p.word & relay::LEVER == 0 {
        return p;
    }
    let closed = p.word & (relay::ALL ^ relay::SIGNAL);
    match Form::decode(crate::kinds::ordinary(p.kind)) {
        Some(Form::Origin | Form::PedalStation) => Post {
            word: closed & (relay::ALL ^ relay::L),
            ..p
        },
        _ => Post { word: closed, ..p },
    }
}

// 5. Announce.
pub fn announce_refusal(w: u32) -> Result<(), Refusal>
    ensures { refusal_code result ≡ announce_refusal w }
{
    if w & relay::RL == 0 {
        return Err(Refusal::RlDown);
    }
    if w & relay::LEVER != 0 {
        return Err(Refusal::LeverReversed);
    }
    Ok(())
}

pub fn announce(p: Post) -> Post
    ensures { result ≡ announced p }
{
    Post {
        word: p.word & (relay::ALL ^ relay::RL) & (relay::ALL ^ relay::L) | relay::W314,
        a: grow(p.a),
        ..p
    }
}

// 6. Release.
pub fn release_refusal(kind: u32, w: u32) -> Result<(), Refusal>
    ensures { refusal_code result ≡ release_refusal kind w }
{
    garage_refusal(w)?;
    if matches!(Form::decode(kind), Some(Form::Terminus)) {
        if w & relay::LEVER != 0 {
            return Err(Refusal::LeverReversed);
        }
    } else if w & relay::RL != 0 {
        return Err(Refusal::RlUp);
    }
    Ok(())
}

pub fn release(p: Post) -> Post
    ensures { result ≡ released p }
{
    Post {
        word: p.word & (relay::ALL ^ relay::AN) & (relay::ALL ^ relay::KPG),
        e: grow(p.e),
        ..p
    }
}

// 7. Garage release: the onward block is not asked.
pub fn garage_refusal(w: u32) -> Result<(), Refusal>
    ensures { refusal_code result ≡ garage_refusal w }
{
    if w & relay::AN == 0 {
        return Err(Refusal::AnDown);
    }
    if w & relay::KPG == 0 {
        return Err(Refusal::KpgDown);
    }
    Ok(())
}

pub fn garage(p: Post) -> Post
    ensures { result ≡ garaged p }
{
    Post {
        c: grow(p.c),
        ..release(p)
    }
}

// 6 and 7: the release is under way in the section upstream.
pub fn send_release(o: Post) -> Post
    ensures { result ≡ release_under_way o }
{
    Post {
        word: o.word | relay::W241,
        ..o
    }
}

// 8 and 9: something is under way.
pub fn under_way_refusal(w: u32) -> Result<(), Refusal>
    ensures { refusal_code result ≡ under_way_refusal w }
{
    if w & relay::W314 == 0 && w & relay::W241 == 0 {
        return Err(Refusal::NothingUnderWay);
    }
    Ok(())
}

// 8. Arrival: an announcement that arrives at a jammed post is lost.
pub fn arrive(p: Post, o: Post) -> Pair
    ensures { result ≡ arrived p o }
{
    if p.word & relay::W314 == 0 {
        let word = p.word & (relay::ALL ^ relay::W241) | relay::L | relay::RL;
        return with_here(
            Post {
                word,
                v: grow(p.v),
                ..p
            },
            o,
        );
    }
    let word = p.word & (relay::ALL ^ relay::W314);
    if o.word & relay::JAM != 0 {
        return with_here(
            Post {
                word,
                x: grow(p.x),
                ..p
            },
            o,
        );
    }
    Pair {
        here: Post { word, ..p },
        other: Post {
            word: o.word | relay::AN,
            r: grow(o.r),
            ..o
        },
    }
}

// 9. Loss.
pub fn lose(p: Post) -> Post
    ensures { result ≡ lost p }
{
    if p.word & relay::W314 != 0 {
        return Post {
            word: p.word & (relay::ALL ^ relay::W314),
            x: grow(p.x),
            ..p
        };
    }
    Post {
        word: p.word & (relay::ALL ^ relay::W241),
        y: grow(p.y),
        ..p
    }
}

// 10. Restoration by the supervisor.
pub fn restore_refusal(w: u32, z: u32) -> Result<(), Refusal>
    ensures { refusal_code result ≡ restore_refusal w z }
{
    if w & relay::RL != 0 {
        return Err(Refusal::SectionFree);
    }
    if w & relay::W314 != 0 || w & relay::W241 != 0 {
        return Err(Refusal::SignalUnderWay);
    }
    if z & relay::AN != 0 {
        return Err(Refusal::AnUp);
    }
    Ok(())
}

pub fn restore(p: Post) -> Post
    ensures { result ≡ restored p }
{
    Post {
        word: p.word | relay::L | relay::RL,
        g: grow(p.g),
        ..p
    }
}

// 11. The button jams.
pub fn jam_button(p: Post) -> Post
    ensures { result ≡ jammed p }
{
    Post {
        word: p.word | relay::JAM,
        ..p
    }
}

// 12. It is freed.
pub fn free_button(p: Post) -> Post
    ensures { result ≡ freed p }
{
    Post {
        word: p.word & (relay::ALL ^ relay::JAM),
        ..p
    }
}

// 6: a post of this kind, in its ordinary form, lacks the device of the event.
pub fn lacks_device(number: u32, kind: u32) -> bool
    ensures { result ≡ lacks number kind }
{
    let form = Form::decode(kind);
    match number {
        PASS | RELEASE | JAM | FREE => matches!(form, Some(Form::Origin)),
        STRIKE => !matches!(
            form,
            Some(Form::Origin | Form::Terminus | Form::PedalStation)
        ),
        ANNOUNCE => matches!(form, Some(Form::Terminus)),
        GARAGE => !matches!(form, Some(Form::PedalStation | Form::AnnouncementStation)),
        _ => false,
    }
}

// 22: the event needs a button that is not jammed.
pub fn jam_hinders(number: u32, w: u32) -> bool
    ensures { result ≡ jam_hinders number w }
{
    matches!(
        Event::decode(number),
        Some(Event::Release | Event::Garage | Event::Jam)
    ) && w & relay::JAM != 0
}

// 23: there is no jam to free.
pub fn nothing_to_free(number: u32, w: u32) -> bool
    ensures { result ≡ nothing_to_free number w }
{
    matches!(Event::decode(number), Some(Event::Free)) && w & relay::JAM == 0
}

// The event's own list, by its number; `w` is the word of the post named, `z` its neighbour's.
pub fn own_refusal(number: u32, kind: u32, w: u32, z: u32) -> Result<(), Refusal>
    ensures { refusal_code result ≡ own_refusal number kind w z }
{
    match number {
        REVERSE => reverse_refusal(kind, w),
        NORMAL => normal_refusal(w),
        ANNOUNCE => announce_refusal(w),
        RELEASE => release_refusal(kind, w),
        GARAGE => garage_refusal(w),
        ARRIVE | LOSE => under_way_refusal(w),
        RESTORE => restore_refusal(w, z),
        _ => Ok(()),
    }
}

// 6, then 22 and 23, then the event's own list, of the ordinary form of the kind.
pub fn refusal_of(number: u32, kind: u32, w: u32, z: u32) -> Result<(), Refusal>
    ensures { refusal_code result ≡ refusal number kind w z }
{
    let form = crate::kinds::ordinary(kind);
    if lacks_device(number, form) {
        return Err(Refusal::NoDevice);
    }
    if jam_hinders(number, w) {
        return Err(Refusal::ButtonJammed);
    }
    if nothing_to_free(number, w) {
        return Err(Refusal::ButtonFree);
    }
    own_refusal(number, form, w, z)
}

// The post named alone, altered.
pub fn with_here(p: Post, o: Post) -> Pair
    ensures { result ≡ pair p o }
{
    Pair { here: p, other: o }
}

// What the event, taken, makes of the two posts.
pub fn change(number: u32, p: Post, o: Post) -> Pair
    ensures { result ≡ changed number p o }
{
    match number {
        REVERSE => with_here(reverse(p), o),
        NORMAL => with_here(to_normal(p), o),
        PASS => with_here(pass(p), o),
        STRIKE => with_here(strike(p), o),
        ANNOUNCE => with_here(announce(p), o),
        RELEASE => with_here(release(p), send_release(o)),
        GARAGE => with_here(garage(p), send_release(o)),
        ARRIVE => arrive(p, o),
        LOSE => with_here(lose(p), o),
        RESTORE => with_here(restore(p), o),
        JAM => with_here(jam_button(p), o),
        FREE => with_here(free_button(p), o),
        _ => with_here(p, o),
    }
}
