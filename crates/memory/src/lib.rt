// The memory map: records of 24 bytes, their rules, and what lies inside one of them.
//
// Page 01 calls every fault of a map 4 and names no place. The cause and the record are known all the same, and
// `specs/Map.antt` says in one place which number and which place each cause is answered with.

#![tactic(auto)]

ghost use Rattle.std.specs.Prelude.{◌≡◌, ◌&&◌, ◌+◌, ◌*◌, ◌≤◌, length};
ghost use Rattle.memory.specs.Map.{record_at, records, count_broken, multiple_broken, bits, Widens, top, end_broken, kind_broken, order_broken, record_tried, map_tried, first_fault, fault_refusal, holds, ram_or, lies};

use verdict::{Place, Refusal};
use wire::LittleEndian;

// A record of the map.
#[derive(Clone, Copy)]
pub struct Record {
    pub start: u64,
    pub length: u64,
    // 1 RAM, 2 firmware, 3 MMIO. It is a number and no enum: a record is read before its rules are tried, and rule 4 refuses the others.
    pub kind: u32,
    // The four bytes behind the kind, which are zero.
    pub filler: u32,
}

// What is wrong with a map.
#[derive(Clone, Copy)]
pub enum Cause {
    // It has no record, a length that is not a multiple of 24, or more than 64 records.
    Count,
    // A record's start or length is not a multiple of 4,096, or its length is 0.
    Multiple,
    // A record's end is too high.
    End,
    // A record's kind is not 1, 2 or 3, or its filler is not zero.
    Kind,
    // A record starts before the end of the one before.
    Order,
}

// The first fault of a map: what is wrong, and at which record, counted from 0; a wrong count is no record's, and has 0.
#[derive(Clone, Copy)]
pub struct Fault {
    pub cause: Cause,
    pub record: usize,
}

// What a fault of the map is answered with.
impl From<Fault> for Refusal {
    ghost from_gives = { λ fault refusal. refusal ≡ fault_refusal fault };

    #[tactic(auto, using(crate::proofs::First::fault_answer))]
    fn from(_fault: Fault) -> Refusal {
        Refusal::Map(Place::Nowhere)
    }
}

// A guest address width.
#[derive(Clone, Copy)]
pub enum Width {
    Bits48,
    Bits52,
}

// The width with so many bits, or the refusal of a number that is none's.
impl TryFrom<u32> for Width {
    type Error = Refusal;

    ghost try_from_gives = { Widens };

    #[tactic(auto, unfolding(crate::specs::Map::bits, crate::specs::Map::width_allowed, verdict::specs::Refusal::refusal_of))]
    fn try_from(bits: u32) -> Result<Width, Refusal> {
        match bits {
            48 => Ok(Width::Bits48),
            52 => Ok(Width::Bits52),
            _ => Err(Refusal::Width(Place::Nowhere)),
        }
    }
}

// 2^48, where the addresses of 48 bits end.
const TOP_48: u64 = 0x1_0000_0000_0000;

// 2^52, where the addresses of 52 bits end.
const TOP_52: u64 = 0x10_0000_0000_0000;

// Record `i` of the map. It takes no rule for granted: a map is read record by record while its rules are tried.
#[tactic(auto, unfolding(crate::specs::Map::record_at))]
pub fn record_at(map: &[u8], i: usize) -> Record
    requires { 24 * i + 24 ≤ length map.now }
    ensures { result ≡ record_at map.now i }
{
    let at = 24 * i;
    Record {
        start: u64::number_at(map, at),
        length: u64::number_at(map, at + 8),
        kind: u32::number_at(map, at + 16),
        filler: u32::number_at(map, at + 20),
    }
}

// Whether the number of records is wrong, or the bytes are not whole records.
#[tactic(auto, unfolding(crate::specs::Map::count_broken))]
fn count_broken(map: &[u8]) -> bool
    ensures { result ≡ count_broken map.now }
{
    let count = map.len() / 24;
    map.len() % 24 != 0 || count == 0 || 64 < count
}

// Whether the start or the length is not in whole pages, or there is no page.
#[tactic(auto, unfolding(crate::specs::Map::multiple_broken))]
fn multiple_broken(r: Record) -> bool
    ensures { result ≡ multiple_broken r }
{
    r.start % 4096 != 0 || r.length % 4096 != 0 || r.length == 0
}

// The highest end that a record may have. It is asked with the record's kind, so that a bound of a kind is a matter of
// this function alone.
#[tactic(auto, unfolding(crate::specs::Map::top, crate::specs::Map::bits))]
fn top_of(kind: u32, width: Width) -> u64
    ensures { result ≡ top kind (bits width) }
{
    match width {
        Width::Bits48 => TOP_48,
        Width::Bits52 => TOP_52,
    }
}

// Whether the record ends too high. No sum of untrusted numbers is formed: the start is tried against what the length
// leaves below the bound, and that difference is formed where the length is at most the bound.
#[tactic(auto, unfolding(crate::specs::Map::end_broken))]
fn end_broken(r: Record, width: Width) -> bool
    ensures { result ≡ end_broken (bits width) r }
{
    let top = top_of(r.kind, width);
    top < r.length || top - r.length < r.start
}

// Whether the kind is none of the three, or the four bytes behind it are not zero.
#[tactic(auto, unfolding(crate::specs::Map::kind_broken))]
fn kind_broken(r: Record) -> bool
    ensures { result ≡ kind_broken r }
{
    r.kind < 1 || 3 < r.kind || r.filler != 0
}

// Whether the record starts before the end of the one before it, `before`.
#[tactic(auto, unfolding(crate::specs::Map::order_broken))]
fn order_broken(r: Record, before: u64) -> bool
    ensures { result ≡ order_broken before r }
{
    r.start < before
}

// The first rule that record `i`, which is `r`, breaks behind a record that ends at `before`.
#[tactic(auto, unfolding(crate::specs::Map::record_tried, crate::specs::Map::first_fault))]
fn record_fault(r: Record, before: u64, width: Width, i: usize) -> Result<(), Fault>
    ensures { result ≡ first_fault (record_tried (bits width) before r i) }
{
    let cause = if multiple_broken(r) {
        Cause::Multiple
    } else if end_broken(r, width) {
        Cause::End
    } else if kind_broken(r) {
        Cause::Kind
    } else if order_broken(r, before) {
        Cause::Order
    } else {
        return Ok(());
    };
    Err(Fault { cause, record: i })
}

// The map's first fault: the count, then record by record. The end of a record is formed where its rules are kept, among
// them that this end is at most the bound, so it does not wrap.
pub fn check(map: &[u8], width: Width) -> Result<(), Fault>
    ensures { result ≡ first_fault (map_tried (bits width) map.now) }
{
    if count_broken(map) {
        return Err(Fault {
            cause: Cause::Count,
            record: 0,
        });
    }
    let mut before: u64 = 0;
    for i in 0..map.len() / 24 {
        let r = record_at(map, i);
        record_fault(r, before, width, i)?;
        before = r.start + r.length;
    }
    Ok(())
}

// Whether a record's kind is allowed: RAM, and firmware where `firmware` says so.
// A `bool`, and no enum: it is what `tdvf::firmware_allowed` answers, and an `if` would have to make the enum of it.
// No closure: a clause over any closure is no equation with `ram_or`, and asks of callers that the closure can be called.
#[tactic(auto, unfolding(crate::specs::Map::ram_or))]
fn allowed(firmware: bool, kind: u32) -> bool
    ensures { result ≡ ram_or firmware kind }
{
    kind == 1 || firmware && kind == 2
}

// Whether the `size` addresses from `address` on lie in the record. The two are no struct: a section has them so, and
// nothing ties them, since their end and the record's may be above 2^64. So no end is formed: behind the start, and no more of them than the
// record has, they lie in it exactly where they are no further from the start than the addresses that the record has to spare.
#[tactic(auto, unfolding(crate::specs::Map::holds))]
fn within(r: Record, address: u64, size: u64) -> bool
    ensures { result ≡ holds r address size }
{
    r.start <= address && size <= r.length && address - r.start <= r.length - size
}

// Whether the record is of an allowed kind and the addresses lie in it.
fn serves(r: Record, firmware: bool, address: u64, size: u64) -> bool
    ensures { result ≡ (ram_or firmware r.kind && holds r address size) }
{
    allowed(firmware, r.kind) && within(r, address, size)
}

// The first record of an allowed kind that holds the `size` addresses from `address` on.
pub fn lies_in(map: &[u8], firmware: bool, address: u64, size: u64) -> Option<usize>
    ensures { result ≡ lies (ram_or firmware) (records map.now) 0 address size }
{
    (0..map.len() / 24).find(|i| serves(record_at(map, *i), firmware, address, size))
}
