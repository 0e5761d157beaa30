// The register of a sheet as comma-separated text by RFC 4180, put into lent bytes. 02, item 3.

#![tactic(auto)]

ghost use Rattle.std.specs.Prelude.{◌+◌, ◌≤◌, ◌<◌, ◌≡◌, length};
ghost use Rattle.digits.specs.Texts.{Put};
ghost use Rattle.exporting.specs.Fields.{field, ended, text_of, count, fields_at, register_of, Few};
ghost use Rattle.exporting.specs.Exporting.{exported_of, Exports, ExportsTracks};

use sheet::Refusal;
use sheet::layout::MOST_ENTRIES;

// Room for any register: the header, the start, 32 kinds and 3,780 events.
pub const PAGE: usize = 34 + 16 + 32 * 10 + MOST_ENTRIES * 26;

// What export returns to C: the number, block and position of a refusal, or zeros and how long the text is.
#[repr(C)]
#[derive(Clone, Copy)]
pub struct Exported {
    pub number: u32,
    pub block: u32,
    pub position: u32,
    pub bytes: usize,
}

// What the first record says.
const HEADER: &[u8] = b"position,event,post,stamp,answer\r\n";

// The five fields of a record; an empty one is none.
#[derive(Clone, Copy)]
struct Fields {
    position: Option<u64>,
    event: Option<u64>,
    post: Option<u64>,
    stamp: Option<u64>,
    answer: Option<u64>,
}

// A record with nothing in it.
const EMPTY: Fields = Fields {
    position: None,
    event: None,
    post: None,
    stamp: None,
    answer: None,
};

// How long a field is with the byte after it.
#[tactic(auto, unfolding(crate::specs::Fields::field), using(digits::proofs::Value::counted))]
fn field_size(number: Option<u64>) -> usize
    ensures { (result ≡ length (field number) + 1) × (result ≤ 21) }
{
    match number {
        Some(n) => digits::size_of(n) + 1,
        None => 1,
    }
}

// How long a record is with its line end.
#[tactic(auto, using(crate::proofs::Marks::text_long))]
fn record_size(f: Fields) -> usize
    ensures { (result ≡ length (text_of f)) × (result ≤ 106) }
{
    field_size(f.position)
        + field_size(f.event)
        + field_size(f.post)
        + field_size(f.stamp)
        + field_size(f.answer)
        + 1
}

// A text's bytes at the front; how many they are.
#[tactic(auto, unfolding(digits::specs::Texts::stored))]
fn put_bytes(out: &mut [u8], text: &[u8]) -> usize
    requires { length text.now ≤ length out.old }
    ensures { Put text.now 0 result out.old out.new }
{
    out[..text.len()].copy_from_slice(text);
    text.len()
}

// A field, from `at` on; the place past it.
#[tactic(auto, unfolding(crate::specs::Fields::field), using(digits::proofs::Stores::stored_none))]
fn put_number(out: &mut [u8], at: usize, number: Option<u64>) -> usize
    requires { at + length (field number) ≤ length out.old }
    ensures { Put (field number) at result out.old out.new }
{
    match number {
        Some(n) => digits::put_number(out, at, n),
        None => at,
    }
}

// A field and the byte after it, from `at` on; the place past them.
fn put_field(out: &mut [u8], at: usize, number: Option<u64>, end: u8) -> usize
    requires { at + length (ended number end) ≤ length out.old }
    ensures { Put (ended number end) at result out.old out.new }
{
    let p = put_number(out, at, number);
    out[p] = end;
    p + 1
}

// A record and its line end, from `at` on; the place past them. Its fields stand by their names, and are no list.
fn put_record(out: &mut [u8], at: usize, f: Fields) -> usize
    requires { at + length (text_of f) ≤ length out.old }
    ensures { Put (text_of f) at result out.old out.new }
{
    let a = put_field(out, at, f.position, b',');
    let b = put_field(out, a, f.event, b',');
    let c = put_field(out, b, f.post, b',');
    let d = put_field(out, c, f.stamp, b',');
    let e = put_field(out, d, f.answer, b'\r');
    out[e] = b'\n';
    e + 1
}

// What a register says: the start, each post's kind, each event. No more of either than a sheet can have.
#[derive(Clone, Copy)]
struct Register<'a> {
    stamp: u32,
    kinds: &'a [u32],
    events: &'a [[u32; 4]],
    ghost few: { Few kinds.now events.now },
}

impl<'a> Register<'a> {
    // How many records follow the header.
    fn count(&self) -> usize
        ensures { result ≡ count self.now.kinds.now self.now.events.now }
    {
        1 + self.kinds.len() + self.events.len()
    }

    // The fields of record `i` after the header.
    #[tactic(auto, unfolding(crate::specs::Fields::fields_at, crate::specs::Fields::event_fields))]
    fn fields_at(&self, i: usize) -> Fields
        requires { i < count self.now.kinds.now self.now.events.now }
        ensures { result ≡ fields_at self.now.stamp self.now.kinds.now self.now.events.now i }
    {
        if i == 0 {
            return Fields {
                stamp: Some(self.stamp as u64),
                ..EMPTY
            };
        }
        let post = i - 1;
        if post < self.kinds.len() {
            return Fields {
                event: Some(self.kinds[post] as u64),
                post: Some(post as u64),
                ..EMPTY
            };
        }
        let before = post - self.kinds.len();
        let [event, post, answer, stamp] = self.events[before];
        Fields {
            position: Some(before as u64 + 1),
            event: Some(event as u64),
            post: Some(post as u64),
            stamp: Some(stamp as u64),
            answer: Some(answer as u64),
        }
    }

    // How long its text is.
    fn size(&self) -> usize
        ensures { result ≡ length (register_of self.now.stamp self.now.kinds.now self.now.events.now) }
    {
        let mut size = HEADER.len();
        for i in 0..self.count() {
            size += record_size(self.fields_at(i));
        }
        size
    }

    // Its text at the front; how long it is.
    fn put(&self, out: &mut [u8]) -> usize
        requires { length (register_of self.now.stamp self.now.kinds.now self.now.events.now) ≤ length out.old }
        ensures { Put (register_of self.now.stamp self.now.kinds.now self.now.events.now) 0 result out.old out.new }
    {
        let mut p = put_bytes(out, HEADER);
        for i in 0..self.count() {
            p = put_record(out, p, self.fields_at(i));
        }
        p
    }
}

impl From<Result<usize, Refusal>> for Exported {
    // What export said, in numbers.
    fn from(exported: Result<usize, Refusal>) -> Exported
        ensures { result ≡ exported_of exported }
    {
        match exported {
            Ok(bytes) => Exported {
                number: 0,
                block: 0,
                position: 0,
                bytes,
            },
            Err(refusal) => {
                let verdict = refusal.verdict();
                Exported {
                    number: verdict.number,
                    block: verdict.block,
                    position: verdict.position,
                    bytes: 0,
                }
            }
        }
    }
}

// The register of the sheet to the front of `out`; how long it is. A refusal leaves `out` as it was.
pub fn export(s: &[u8], out: &mut [u8]) -> Result<usize, Refusal>
    ensures { Exports s.now (exported_of result) out.old out.new }
{
    let mut kinds = [0u32; 32];
    let mut events = [[0u32; 4]; MOST_ENTRIES];
    let header = lent_sheet::read(s, &mut kinds, &mut events)?;
    let register = Register {
        stamp: header.stamp,
        kinds: &kinds[..header.posts as usize],
        events: &events[..header.events as usize],
    };
    let size = register.size();
    if out.len() < size {
        return Err(Refusal::RoomShort);
    }
    Ok(register.put(out))
}

// The same where sheets of one track and of two are read: one of two tracks, which has no register, is refused.
pub fn export_tracks(s: &[u8], out: &mut [u8]) -> Result<usize, Refusal>
    ensures { ExportsTracks s.now (exported_of result) out.old out.new }
{
    lent_sheet::test_tracks(s)?;
    if lent_sheet::test(s).is_err() {
        return Err(Refusal::Contents(0));
    }
    export(s, out)
}
