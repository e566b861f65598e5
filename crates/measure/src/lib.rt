// The measured stream, by blocks of 128 bytes, its digest, and its measurement in turns.
//
// A lent plan's bytes say which blocks there are, so the stream is never formed: a cursor names a record and a block of its
// page, and each block is hashed as it is reached. Between two turns only the hash value and the counts are kept; where the
// next block stands is found anew in the plan that is lent.

#![tactic(auto)]

ghost use Rattle.std.specs.Prelude.{◌≡◌, ◌+◌, ◌-◌, ◌*◌, ◌^◌, ◌<◌, ◌≤◌, min, [], length, take, drop, slice_index_or};
ghost use Rattle.sha384.specs.Hash.{compressed};
ghost use Rattle.plan.specs.Plan.{page_at};
ghost use Rattle.plan.specs.View.{content, held};
ghost use Rattle.measure.specs.Stream.{head_block, page_blocks, block_at, count_of, before, folded, digest_of};
ghost use Rattle.measure.specs.Turn.{turn_number, turn_place, next_block, answered, halted, other_lengths, turned};

use plan::Page;
use sha384::State;
use std::num::wrapping_add_u64;
use verdict::{Place, Refusal, number_of, place_of};
use wire::LittleEndian;

// Where a block stands: block `block` of the page of record `record`.
#[derive(Clone, Copy)]
pub struct Cursor {
    pub record: usize,
    pub block: usize,
}

// ---- the records

// The only last byte of a record that measures its page.
const MEASURED: u8 = 1;

// The page of a record that is lent whole.
#[tactic(auto, unfolding(plan::specs::Plan::page_at, wire::specs::Number::number_at))]
fn page_in(bytes: &[u8]) -> Page
    requires { 16 ≤ length bytes.now }
    ensures { result ≡ page_at bytes.now 0 }
{
    Page {
        address: u64::number_at(bytes, 0),
        offset: u32::number_at(bytes, 8),
        length: u16::number_at(bytes, 12),
        sort: bytes[14],
        measured: bytes[15],
    }
}

// The page of a record, by the plan and the record's number: any number names one, so nothing ties the two. What the plan's end cuts off
// reads as zeros.
pub fn page_at(plan: &[u8], index: usize) -> Page
    requires { index < 2 ^ 59 }
    ensures { result ≡ page_at plan.now index }
{
    let at = 16 * index;
    let end = at + 16;
    if end <= plan.len() {
        return page_in(&plan[at..end]);
    }
    let first = at.min(plan.len());
    let mut last = [0u8; 16];
    wire::copy(&mut last, 0, &plan[first..]);
    page_in(&last)
}

// The page of any record, however far past the plan's end: there it is of zeros.
fn record_page(plan: &[u8], index: usize) -> Page
    ensures { result ≡ page_at plan.now index }
{
    if plan.len() / 16 < index {
        return Page {
            address: 0,
            offset: 0,
            length: 0,
            sort: 0,
            measured: 0,
        };
    }
    page_at(plan, index)
}

// How many blocks a record gives: the page is added, and only the byte 1 measures it.
#[tactic(auto, using(crate::proofs::Blocks::count_past), unfolding(crate::specs::Stream::count_of, plan::specs::Plan::page_at, wire::specs::Number::number_at))]
fn count_of(plan: &[u8], index: usize) -> usize
    ensures { result ≡ count_of plan.now index }
{
    if index < plan.len() / 16 && plan[16 * index + 15] == MEASURED {
        return 49;
    }
    1
}

// How many blocks the first `records` records give.
pub fn count_blocks(plan: &[u8], records: usize) -> u64
    requires { records ≤ 2 ^ 32 }
    ensures { result ≡ before plan.now records }
{
    (0..records).map(|index| count_of(plan, index) as u64).sum()
}

// The cursor moved on until its record has its block: from record 0 this finds a block of the stream by its number, and from
// the block behind the last it goes on to the next. Past the plan's end each record has one block, so no more is read there.
fn forward(plan: &[u8], c: Cursor) -> Cursor
    requires { c.record + c.block < 2 ^ 64 }
    ensures { (before plan.now result.record + result.block ≡ before plan.now c.record + c.block)
        × (result.block < count_of plan.now result.record)
        × (result.record ≤ c.record + c.block) }
{
    let end = c.record.max(plan.len() / 16);
    let mut block = c.block;
    for record in c.record..end {
        let count = count_of(plan, record);
        if block < count {
            return Cursor { record, block };
        }
        block -= count;
    }
    Cursor {
        record: end + block,
        block: 0,
    }
}

// ---- the blocks

// A block that names an address: the tag at 0, the address at 16, zeros elsewhere.
fn head(tag: &[u8], address: u64) -> [u8; 128]
    requires { length tag.now ≤ 16 }
    ensures { result ≡ head_block tag.now address }
{
    let mut block = [0u8; 128];
    wire::copy(&mut block, 0, tag);
    address.put_at(&mut block, 16);
    block
}

// The hash value after the block at `at` of a page that shows `shown`. A block that lies wholly in it is hashed where it
// stands; only one with a zero tail is built.
fn data(state: State, shown: &[u8], at: usize) -> State
    requires within_page { at + 128 ≤ 4096 }
    ensures { result ≡ compressed state (take 128 (drop at (content shown.now))) }
{
    let end = at + 128;
    if end <= shown.len() {
        return sha384::block(state, &shown[at..end]);
    }
    let first = at.min(shown.len());
    let mut block = [0u8; 128];
    wire::copy(&mut block, 0, &shown[first..]);
    sha384::block(state, &block)
}

// The hash value after the block at a cursor. No HOB list is lent: what is measured is in the image. A lent plan's address may
// be so high that a chunk's passes 2^64: it is taken modulo 2^64, as its eight bytes are.
#[tactic(auto, using(crate::proofs::Blocks::count_most))]
fn absorb_block(state: State, image: &[u8], plan: &[u8], c: Cursor) -> State
    requires stands { c.block < count_of plan.now c.record }
    ensures { result ≡ compressed state (slice_index_or (page_blocks (page_at plan.now c.record)
        (held image.now [] (page_at plan.now c.record))) c.block []) }
{
    let p = record_page(plan, c.record);
    let n = c.block;
    if n == 0 {
        return sha384::block(state, &head(b"MEM.PAGE.ADD", p.address));
    }
    let chunk = (n - 1) / 3;
    let place = (n - 1) % 3;
    if place == 0 {
        let address = wrapping_add_u64(p.address, 256 * chunk as u64);
        return sha384::block(state, &head(b"MR.EXTEND", address));
    }
    let shown = plan::view(image, &image[0..0], p.offset, p.length, p.sort);
    data(state, shown, 256 * chunk + 128 * (place - 1))
}

// ---- the digest

// The hash value after `blocks` blocks more, from block `from` on.
#[tactic(auto, using(crate::proofs::Blocks::count_most))]
pub fn absorb(state: State, image: &[u8], plan: &[u8], from: u64, blocks: u64) -> State
    requires few_blocks { from + blocks < 2 ^ 64 }
    ensures { result ≡ folded (block_at image.now plan.now) state from blocks }
{
    let mut value = state;
    let mut c = forward(
        plan,
        Cursor {
            record: 0,
            block: from as usize,
        },
    );
    for done in 0..blocks {
        value = absorb_block(value, image, plan, c);
        c = forward(
            plan,
            Cursor {
                record: c.record,
                block: c.block + 1,
            },
        );
    }
    value
}

// The measurement: SHA-384 of the first `blocks` blocks. They are whole, so nothing is left for the padding's block.
#[tactic(auto, unfolding(crate::specs::Stream::digest_of))]
pub fn measure(image: &[u8], plan: &[u8], blocks: u64) -> [u8; 48]
    requires { blocks ≤ 2 ^ 32 }
    ensures { result ≡ digest_of image.now plan.now blocks }
{
    let state = absorb(sha384::start(), image, plan, 0, blocks);
    sha384::finish(state, &image[0..0], 128 * blocks)
}

// ---- the turns

// What a turn is handed and hands back.
#[derive(Clone, Copy)]
pub struct Progress {
    // The hash value after the blocks that are done.
    pub hash: State,
    // How many blocks are done, and how many there are in all. The padding's is one of them.
    pub done: u64,
    pub total: u64,
    // How long the image and the plan buffer were at the start.
    pub image: u64,
    pub plan: u64,
    // The launch's refusal, if it was refused.
    pub refusal: Option<Refusal>,
}

// Why a turn was refused. `specs/Turn.antt` has the numbers.
#[derive(Clone, Copy)]
pub enum TurnRefusal {
    // The launch was refused, with this.
    Launch(Refusal),
    // 24: the quota is 0.
    Quota,
    // 27: the image or the plan buffer has another length than at the start.
    Lengths,
}

// The number of why a turn was refused; 0 where it was not. It is no `From`: `turn_number` of `specs/Turn.antt` speaks of none too.
#[tactic(auto, unfolding(crate::specs::Turn::turn_number))]
pub fn turn_number(refusal: Option<TurnRefusal>) -> u32
    ensures { result ≡ turn_number refusal }
{
    match refusal {
        None => 0,
        Some(TurnRefusal::Launch(broken)) => number_of(Some(broken)),
        Some(TurnRefusal::Quota) => 24,
        Some(TurnRefusal::Lengths) => 27,
    }
}

// Its place: none, but for the launch's own.
#[tactic(auto, unfolding(crate::specs::Turn::turn_place))]
pub fn turn_place(refusal: Option<TurnRefusal>) -> Place
    ensures { result ≡ turn_place refusal }
{
    match refusal {
        None => Place::Nowhere,
        Some(TurnRefusal::Launch(broken)) => place_of(Some(broken)),
        Some(TurnRefusal::Quota) => Place::Nowhere,
        Some(TurnRefusal::Lengths) => Place::Nowhere,
    }
}

// What a turn answers.
#[derive(Clone, Copy)]
pub struct Turned {
    // The state for the next turn.
    pub next: Progress,
    // Why it was refused, if it was.
    pub refusal: Option<TurnRefusal>,
    // How many blocks were done.
    pub blocks: u64,
    // The measurement where it is finished, else the 48 zero bytes that the page asks for: no `Option`.
    pub measurement: [u8; 48],
}

// The hash value after the next blocks. The last of the total is the padding's, and the others are the stream's, of the plan's
// whole records.
fn advance(state: Progress, image: &[u8], plan: &[u8], blocks: u64) -> State
    requires some { 0 < blocks }
    requires left { state.done + blocks ≤ state.total }
    ensures { result ≡ folded (next_block image.now plan.now state.total) state.hash state.done blocks }
{
    let whole = state.total - 1;
    let stream = blocks.min(whole.saturating_sub(state.done));
    let end = 16 * (plan.len() / 16);
    let value = absorb(state.hash, image, &plan[..end], state.done, stream);
    if stream == blocks {
        return value;
    }
    sha384::block(value, &sha384::padding_block(whole))
}

// The answer of a turn that was not refused.
#[tactic(auto, unfolding(crate::specs::Turn::answered, crate::specs::Turn::measurement_of, crate::specs::Turn::is_finished))]
fn answered(next: Progress, blocks: u64) -> Turned
    ensures { result ≡ answered next blocks }
{
    let measurement = if next.total <= next.done {
        sha384::leftmost(next.hash)
    } else {
        [0; 48]
    };
    Turned {
        next,
        refusal: None,
        blocks,
        measurement,
    }
}

// The answer of a turn that was refused.
#[tactic(auto, unfolding(crate::specs::Turn::halted))]
fn halted(state: Progress, refusal: TurnRefusal) -> Turned
    ensures { result ≡ halted state refusal }
{
    Turned {
        next: state,
        refusal: Some(refusal),
        blocks: 0,
        measurement: [0; 48],
    }
}

// Whether the image or the plan buffer has another length than at the start.
#[tactic(auto, unfolding(crate::specs::Turn::other_lengths))]
fn other_lengths(state: Progress, image: u64, plan: u64) -> bool
    ensures { result ≡ other_lengths state image plan }
{
    image != state.image || plan != state.plan
}

// A turn: at most `quota` blocks of the measurement. It takes every state, also one that no start and no turn gave. The image and the plan
// are two slices, as C lends them, and the functions above get them from here.
#[tactic(auto, unfolding(crate::specs::Turn::turned, crate::specs::Turn::advanced, crate::specs::Turn::blocks_in, crate::specs::Stream::folded))]
pub fn turn(state: Progress, image: &[u8], plan: &[u8], quota: u64) -> Turned
    ensures { result ≡ turned state image.now plan.now quota }
{
    if let Some(refusal) = state.refusal {
        return halted(state, TurnRefusal::Launch(refusal));
    }
    if quota == 0 {
        return halted(state, TurnRefusal::Quota);
    }
    if other_lengths(state, image.len() as u64, plan.len() as u64) {
        return halted(state, TurnRefusal::Lengths);
    }
    let blocks = quota.min(state.total.saturating_sub(state.done));
    if blocks == 0 {
        return answered(state, 0);
    }
    let hash = advance(state, image, plan, blocks);
    answered(
        Progress {
            hash,
            done: state.done + blocks,
            ..state
        },
        blocks,
    )
}
