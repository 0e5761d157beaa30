// The event word: number, post, answer and track, packed and unpacked by shifts and masks. Its fields are handed out by `unpack` alone.
#![tactic(auto, unfolding(sheet::specs::Entry::packed, sheet::specs::Entry::on_track, sheet::specs::Entry::number_in, sheet::specs::Entry::post_in, sheet::specs::Entry::answer_in, sheet::specs::Entry::track_in, sheet::specs::Entry::upper_zero, sheet::specs::Entry::unpacked, sheet::specs::Entry::in_fields), using(relay::proofs::Tests::tests))]

ghost use Rattle.std.specs.Prelude.{◌≡◌, ◌<◌, ◌≤◌};
ghost use Rattle.sheet.specs.Entry.{packed, on_track, number_in, post_in, answer_in, track_in, upper_zero, values_of, unpacked, in_fields};

use sheet::Unpacked;

pub fn pack(number: u32, post: u32, answer: u32, track: u32) -> u32
    requires { (number < 32) × ((post < 64) × ((answer < 32) × (track < 2))) }
    ensures { result ≡ on_track (packed number post answer) track }
{
    number | post << 5 | answer << 11 | track << 16
}

fn number_in(w: u32) -> u32
    ensures { result ≡ number_in w }
{
    w & 31
}

fn post_in(w: u32) -> u32
    ensures { result ≡ post_in w }
{
    w >> 5 & 63
}

fn answer_in(w: u32) -> u32
    ensures { result ≡ answer_in w }
{
    w >> 11 & 31
}

fn track_in(w: u32) -> u32
    ensures { result ≡ track_in w }
{
    w >> 16 & 1
}

// Bits 16 to 31 are zero; of a sheet of two tracks bits 17 to 31.
pub fn upper_zero(w: u32, tracks: u32) -> bool
    ensures { result ≡ upper_zero tracks w }
{
    w >> 16 < tracks
}

// The fields of an event word, where its upper bits are zero.
pub fn unpack(w: u32, tracks: u32) -> Option<Unpacked>
    ensures { values_of result ≡ unpacked tracks w }
{
    if !upper_zero(w, tracks) {
        return None;
    }
    Some(Unpacked {
        number: number_in(w),
        post: post_in(w),
        answer: answer_in(w),
        track: track_in(w),
    })
}

// Number, post and answer are in their fields.
pub fn in_fields(e: [u32; 4]) -> bool
    ensures { result ≡ in_fields e }
{
    e[0] < 32 && e[1] < 64 && e[2] < 32
}
