// The interface for C and Rust: a static library, declared in include/tdload.h.
//
// A `&[u8]` passes as a pointer and then a length, a `&mut [u8; 48]` as a pointer. Nothing is kept after a call.

#![tactic(auto)]

ghost use Rattle.std.specs.Prelude.{◌≡◌};
ghost use Rattle.std.proofs.Math.ListN as list;
ghost use Rattle.sha384.specs.Hash.{sha384};
ghost use Rattle.launch.specs.Host.{host_with};
ghost use Rattle.launch.specs.Launch.{answer, plan_after, handoff_after};
ghost use Rattle.launch.specs.Begin.{begun};
ghost use Rattle.tdload.specs.Outward.{place_number, place_index, outward, words_of, hash_of, state_of, progress_of, outward_begun, moved, turned_with, standing, turn_answer, slice_number, viewed};

use measure::{Progress, turn, turn_number, turn_place};
use verdict::{Place, number_of, place_of};

// `struct tdload_answer` of the header, field by field; its `hob_length` is `handoff` here. C has no enums with values and no `Option`, so
// here and in the structs below a refusal, a place and a slice are the header's numbers.
#[repr(C)]
#[derive(Clone, Copy)]
pub struct Answer {
    pub refusal: u32,
    pub place: u32,
    pub index: u64,
    pub pages: u64,
    pub handoff: u64,
    pub blocks: u64,
    pub measurement: [u8; 48],
}

// `struct tdload_view` of the header: where the bytes behind a record are. All zeros where there are none.
#[repr(C)]
#[derive(Clone, Copy)]
pub struct View {
    // 0 neither, 1 the image, 2 the HOB list.
    pub slice: u32,
    pub offset: u32,
    pub length: u32,
}

// Writes SHA-384 of the message into the digest.
#[unsafe(no_mangle)]
pub extern "C" fn tdload_sha384(message: &[u8], digest: &mut [u8; 48])
    ensures { digest.new ≡ sha384 message.now }
{
    *digest = sha384::digest(message);
}

// What the place of a refusal is: none, a section, or a record of the map. The number is the C interface's, and neither type is this
// crate's, so it is no `From`.
#[tactic(auto, unfolding(crate::specs::Outward::place_number))]
fn place_number(place: Place) -> u32
    ensures { result ≡ place_number place }
{
    match place {
        Place::Nowhere => 0,
        Place::Section(_) => 1,
        Place::Record(_) => 2,
    }
}

// Which one it is, counted from 0.
#[tactic(auto, unfolding(crate::specs::Outward::place_index))]
fn place_index(place: Place) -> u64
    ensures { result ≡ place_index place }
{
    match place {
        Place::Nowhere => 0,
        Place::Section(k) => k as u64,
        Place::Record(k) => k as u64,
    }
}

// The answer of a launch, in numbers.
impl From<launch::Answer> for Answer {
    ghost from_gives = { λ a answer. answer ≡ outward a };

    #[tactic(auto, unfolding(crate::specs::Outward::outward))]
    fn from(a: launch::Answer) -> Answer {
        let place = place_of(a.refusal);
        let measurement = a.measurement;
        Answer {
            refusal: number_of(a.refusal),
            place: place_number(place),
            index: place_index(place),
            pages: a.pages,
            handoff: a.handoff,
            blocks: a.blocks,
            measurement,
        }
    }
}

// The launch.
#[unsafe(no_mangle)]
pub extern "C" fn tdload_launch(
    image: &[u8],
    map: &[u8],
    width: u32,
    plan: &mut [u8],
    handoff: &mut [u8],
) -> Answer
    ensures answered { result ≡ outward (answer (host_with map.now width (list.length plan.old) (list.length handoff.old)) image.now) }
    ensures plan_after { plan.new ≡ plan_after (host_with map.now width (list.length plan.old) (list.length handoff.old)) image.now }
    ensures handoff_after { handoff.new ≡ handoff_after (host_with map.now width (list.length plan.old) (list.length handoff.old)) image.now }
{
    Answer::from(launch::launch(image, map, width, plan, handoff))
}

// ---- the measurement in turns

// `struct tdload_state` of the header; its `image_length` and `plan_length` are `image` and `plan` here.
#[repr(C)]
#[derive(Clone, Copy)]
pub struct State {
    pub hash: [u64; 8],
    pub done: u64,
    pub total: u64,
    pub image: u64,
    pub plan: u64,
    pub refusal: u32,
    pub place: u32,
    pub index: u64,
}

// `struct tdload_begun` of the header.
#[repr(C)]
#[derive(Clone, Copy)]
pub struct Begun {
    pub answer: Answer,
    pub state: State,
}

// `struct tdload_turned` of the header.
#[repr(C)]
#[derive(Clone, Copy)]
pub struct Turned {
    pub state: State,
    pub refusal: u32,
    pub place: u32,
    pub index: u64,
    pub blocks: u64,
    pub measurement: [u8; 48],
}

// A hash value's words, as the header has them. Neither type is this crate's, so this and the way back are no `From`.
#[tactic(auto, unfolding(crate::specs::Outward::words_of))]
fn words_of(hash: sha384::State) -> [u64; 8]
    ensures { result ≡ words_of hash }
{
    [
        hash.a, hash.b, hash.c, hash.d, hash.e, hash.f, hash.g, hash.h,
    ]
}

// The hash value with these words.
#[tactic(auto, unfolding(crate::specs::Outward::hash_of))]
fn hash_of(words: [u64; 8]) -> sha384::State
    ensures { result ≡ hash_of words }
{
    sha384::State {
        a: words[0],
        b: words[1],
        c: words[2],
        d: words[3],
        e: words[4],
        f: words[5],
        g: words[6],
        h: words[7],
    }
}

// A state in numbers.
impl From<Progress> for State {
    ghost from_gives = { λ p state. state ≡ state_of p };

    #[tactic(auto, unfolding(crate::specs::Outward::state_of))]
    fn from(p: Progress) -> State {
        let place = place_of(p.refusal);
        State {
            hash: words_of(p.hash),
            done: p.done,
            total: p.total,
            image: p.image,
            plan: p.plan,
            refusal: number_of(p.refusal),
            place: place_number(place),
            index: place_index(place),
        }
    }
}

// A state that is not refused, from its numbers. It is no `From`: of a refused state it would lose the refusal.
#[tactic(auto, unfolding(crate::specs::Outward::progress_of))]
fn progress_of(s: State) -> Progress
    ensures { result ≡ progress_of s }
{
    Progress {
        hash: hash_of(s.hash),
        done: s.done,
        total: s.total,
        image: s.image,
        plan: s.plan,
        refusal: None,
    }
}

// A state after a turn, which changes its hash value and its count alone.
#[tactic(auto, unfolding(crate::specs::Outward::moved))]
fn moved(s: State, p: Progress) -> State
    ensures { result ≡ moved s p }
{
    let hash = words_of(p.hash);
    State {
        hash,
        done: p.done,
        ..s
    }
}

// The answer of a turn, in numbers.
#[tactic(auto, unfolding(crate::specs::Outward::turned_with))]
fn turned_with(s: State, t: measure::Turned) -> Turned
    ensures { result ≡ turned_with s t }
{
    let place = turn_place(t.refusal);
    let measurement = t.measurement;
    Turned {
        state: s,
        refusal: turn_number(t.refusal),
        place: place_number(place),
        index: place_index(place),
        blocks: t.blocks,
        measurement,
    }
}

// The answer of a refused state. Its number need not be one of the page's: a caller can make any state.
#[tactic(auto, unfolding(crate::specs::Outward::standing))]
fn standing(s: State) -> Turned
    ensures { result ≡ standing s }
{
    Turned {
        state: s,
        refusal: s.refusal,
        place: s.place,
        index: s.index,
        blocks: 0,
        measurement: [0; 48],
    }
}

// The start of a measurement in turns.
#[unsafe(no_mangle)]
pub extern "C" fn tdload_begin(
    image: &[u8],
    map: &[u8],
    width: u32,
    plan: &mut [u8],
    handoff: &mut [u8],
) -> Begun
    ensures begun { result ≡ outward_begun (begun (host_with map.now width (list.length plan.old) (list.length handoff.old)) image.now) }
    ensures plan_after { plan.new ≡ plan_after (host_with map.now width (list.length plan.old) (list.length handoff.old)) image.now }
    ensures handoff_after { handoff.new ≡ handoff_after (host_with map.now width (list.length plan.old) (list.length handoff.old)) image.now }
{
    let begun = launch::begin(image, map, width, plan, handoff);
    Begun {
        answer: Answer::from(begun.answer),
        state: State::from(begun.progress),
    }
}

// A turn. It takes every state.
#[unsafe(no_mangle)]
pub extern "C" fn tdload_turn(state: State, image: &[u8], plan: &[u8], quota: u64) -> Turned
    ensures { result ≡ turn_answer state image.now plan.now quota }
{
    if state.refusal != 0 {
        return standing(state);
    }
    let turned = turn(progress_of(state), image, plan, quota);
    turned_with(moved(state, turned.next), turned)
}

// ---- the page view

// Which slice a record's bytes are in, by its type: the header's number.
fn slice_number(sort: u8) -> u32
    ensures { result ≡ slice_number sort }
{
    match sort {
        0..=1 => 1,
        2 => 2,
        _ => 0,
    }
}

// The page view. No reference passes to C, so the answer says where the part is.
#[unsafe(no_mangle)]
pub extern "C" fn tdload_view<'a>(
    image: &'a [u8],
    handoff: &'a [u8],
    offset: u32,
    length: u16,
    sort: u8,
) -> View
    ensures { result ≡ viewed image.now handoff.now offset length sort }
{
    let shown = plan::view(image, handoff, offset, length, sort);
    if shown.len() == 0 {
        return View {
            slice: 0,
            offset: 0,
            length: 0,
        };
    }
    View {
        slice: slice_number(sort),
        offset,
        length: length as u32,
    }
}
