// The image: the offset word, the descriptor and its sections, and the rules that the image alone decides.
//
// No sum is formed that could wrap: a number that the image gives is widened first, or what is left is compared.
// The loop over the sections, which the memory map decides too, is in crate `launch`.

#![tactic(auto)]

ghost use Rattle.std.specs.Prelude.{◌≡◌, List, [], ◌∷◌, ◌++◌, ◌+◌, ◌*◌, ◌^◌, ◌≤◌, ◌<◌, leb, length, get_or};
ghost use Rattle.std.specs.Iterator.{YieldsFirst, item_count};
ghost use Rattle.verdict.specs.Rules.{judge};
ghost use Rattle.verdict.specs.Turns.{up_to};
ghost use Rattle.tdvf.specs.Image.{fields_of, offset_word, section_count, section_at, descriptor_broken, descriptor_rules, located};
ghost use Rattle.tdvf.specs.Part.{part_of};
ghost use Rattle.tdvf.specs.Section.{sort_broken, attributes_broken, raw_broken, data_broken, memory_broken, image_rules, shares, totals_of};

use std::marker::Model;
use verdict::{Place, Refusal};
use wire::LittleEndian;

// "TDVF", little-endian: what a descriptor starts with.
const SIGNATURE: u32 = 0x4656_4454;

// A section, as the descriptor has it.
#[derive(Clone, Copy)]
pub struct Section {
    // Where its data starts in the image.
    pub offset: u32,
    // How much data the image has.
    pub raw: u32,
    // Where it is loaded.
    pub address: u64,
    // How much memory it takes.
    pub size: u64,
    // The page's "type": 0 boot volume, 1 configuration volume, 2 TD HOB, 3 temporary memory. It is a number and no enum: rule 9
    // refuses the others after it was read, and the page has it taken apart by a match with ranges.
    pub sort: u32,
    // Bit 0: its pages are measured.
    pub attributes: u32,
}

// Where a descriptor is: where it starts, and how many sections it has.
#[derive(Clone, Copy)]
pub struct Located {
    pub offset: usize,
    pub count: usize,
}

// What rules 16 to 19 go by.
#[derive(Clone, Copy)]
pub struct Totals {
    // How many sections are boot volumes, and how many TD HOB.
    pub boots: usize,
    pub handoffs: usize,
    // How many pages the sections have in all.
    pub pages: u64,
    // Where the TD HOB section is, and how much memory it takes.
    pub address: u64,
    pub size: u64,
}

// ---- the descriptor

// Where the image says that its descriptor starts, counted from the image's start.
#[tactic(auto, unfolding(crate::specs::Image::offset_word))]
pub fn offset_word(image: &[u8]) -> u32
    requires { 32 ≤ length image.now }
    ensures { result ≡ offset_word image.now }
{
    u32::number_at(image, image.len() - 32)
}

// How many sections a descriptor says that it has.
#[tactic(auto, unfolding(crate::specs::Image::section_count))]
fn section_count(descriptor: &[u8]) -> usize
    requires { 16 ≤ length descriptor.now }
    ensures { result ≡ section_count descriptor.now }
{
    u32::number_at(descriptor, 12) as usize
}

// Section `k` of a descriptor, which starts where the slice does.
#[tactic(auto, unfolding(crate::specs::Image::section_at))]
pub fn section_at(descriptor: &[u8], k: usize) -> Section
    requires { 16 + 32 * k + 32 ≤ length descriptor.now }
    ensures { result ≡ section_at descriptor.now k }
{
    let at = 16 + 32 * k;
    Section {
        offset: u32::number_at(descriptor, at),
        raw: u32::number_at(descriptor, at + 4),
        address: u64::number_at(descriptor, at + 8),
        size: u64::number_at(descriptor, at + 16),
        sort: u32::number_at(descriptor, at + 24),
        attributes: u32::number_at(descriptor, at + 28),
    }
}

// Rule 8: 1 to 32 sections, the length that so many have, and an end at or before the image's last 32 bytes. The slice
// starts at the descriptor, and `room` is what is left from there to those bytes: no end is computed.
#[tactic(auto, unfolding(crate::specs::Image::descriptor_broken, crate::specs::Image::length_field))]
fn descriptor_broken(descriptor: &[u8], room: usize) -> bool
    requires { (16 ≤ room) × (room ≤ length descriptor.now) }
    ensures { result ≡ descriptor_broken (part_of room descriptor.now) }
{
    let count = section_count(descriptor);
    count == 0
        || 32 < count
        || u32::number_at(descriptor, 4) as usize != 16 + 32 * count
        || room < 16 + 32 * count
}

// Rules 6 to 8 of a descriptor, of the slice that starts at it.
#[tactic(auto, unfolding(crate::specs::Image::descriptor_rules, crate::specs::Image::offset_broken, crate::specs::Image::signature_broken, crate::specs::Image::signature, crate::specs::Image::version_broken, crate::specs::Image::version, wire::specs::Number::number_at, verdict::specs::Rules::judge, verdict::specs::Refusal::refusal_of))]
fn descriptor_verdict(descriptor: &[u8], room: usize) -> Result<(), Refusal>
    requires { (16 ≤ room) × (room ≤ length descriptor.now) }
    ensures { result ≡ judge (descriptor_rules (part_of room descriptor.now)) }
{
    // "TDVF", bytes 54 44 56 46.
    if u32::number_at(descriptor, 0) != SIGNATURE {
        return Err(Refusal::Signature(Place::Nowhere));
    }
    if u32::number_at(descriptor, 8) != 1 {
        return Err(Refusal::Version(Place::Nowhere));
    }
    if descriptor_broken(descriptor, room) {
        return Err(Refusal::Descriptor(Place::Nowhere));
    }
    Ok(())
}

// Where the descriptor of an image is, by rules 5 to 8. Rule 3 was kept, so the image has the 32 bytes that end it.
pub fn locate(image: &[u8]) -> Result<Located, Refusal>
    requires { 32 ≤ length image.now }
    ensures { result ≡ located (fields_of image.now) }
{
    let d = offset_word(image) as usize;
    let last = image.len() - 32;
    // 32 bits, widened: the sum doesn't wrap.
    if last < d + 16 {
        return Err(Refusal::Offset(Place::Nowhere));
    }
    let descriptor = &image[d..];
    descriptor_verdict(descriptor, last - d)?;
    Ok(Located {
        offset: d,
        count: section_count(descriptor),
    })
}

// ---- the rules of a section

// Rule 9: the type is above 3.
#[tactic(auto, unfolding(crate::specs::Section::sort_broken))]
fn sort_broken(s: Section) -> bool
    ensures { result ≡ sort_broken s }
{
    3 < s.sort
}

// Rule 10: bit 0 is 1 for a boot volume, 0 or 1 for a configuration volume, else 0, and all other bits are 0.
#[tactic(auto, unfolding(crate::specs::Section::attributes_broken, crate::specs::Section::attributes_allowed))]
fn attributes_broken(s: Section) -> bool
    ensures { result ≡ attributes_broken s }
{
    let sort = s.sort;
    let attributes = s.attributes;
    match sort {
        0 => attributes != 1,
        1 => 1 < attributes,
        _ => attributes != 0,
    }
}

// Rule 11: the volumes have data, and the others have none, at offset 0.
#[tactic(auto, unfolding(crate::specs::Section::raw_broken, crate::specs::Section::raw_allowed))]
fn raw_broken(s: Section) -> bool
    ensures { result ≡ raw_broken s }
{
    let sort = s.sort;
    match sort {
        0..=1 => s.raw == 0,
        _ => s.raw != 0 || s.offset != 0,
    }
}

// Rule 12: the data does not end inside the image. The sum of two numbers of 32 bits is formed in 64.
#[tactic(auto, unfolding(crate::specs::Section::data_broken))]
fn data_broken(length: usize, s: Section) -> bool
    ensures { result ≡ data_broken length s }
{
    (length as u64) < s.offset as u64 + s.raw as u64
}

// Rule 13: address and size are multiples of a page's 4,096 bytes, and the size is not 0 and not below the raw size.
#[tactic(auto, unfolding(crate::specs::Section::memory_broken))]
fn memory_broken(s: Section) -> bool
    ensures { result ≡ memory_broken s }
{
    s.address % 4096 != 0 || s.size % 4096 != 0 || s.size == 0 || s.size < s.raw as u64
}

// Rules 9 to 13 of section `k`, which is `s`, in an image of `length` bytes.
#[tactic(auto, unfolding(crate::specs::Section::image_rules, verdict::specs::Rules::judge, verdict::specs::Refusal::refusal_of))]
pub fn image_verdict(s: Section, length: usize, k: usize) -> Result<(), Refusal>
    ensures { result ≡ judge (image_rules length s k) }
{
    if sort_broken(s) {
        return Err(Refusal::Type(Place::Section(k)));
    }
    if attributes_broken(s) {
        return Err(Refusal::Attributes(Place::Section(k)));
    }
    if raw_broken(s) {
        return Err(Refusal::Raw(Place::Section(k)));
    }
    if data_broken(length, s) {
        return Err(Refusal::Data(Place::Section(k)));
    }
    if memory_broken(s) {
        return Err(Refusal::Memory(Place::Section(k)));
    }
    Ok(())
}

// Whether a section of this type may lie in firmware memory: the volumes may, the others lie in RAM alone.
pub fn firmware_allowed(sort: u32) -> bool
    ensures { result ≡ leb sort 1 }
{
    match sort {
        0..=1 => true,
        _ => false,
    }
}

// Whether two sections share an address: the distance of their starts is below the size of the lower one, and the
// higher one is not empty. An end can pass 2^64, so none is computed.
#[tactic(auto, unfolding(crate::specs::Section::shares))]
pub fn meet(s: Section, t: Section) -> bool
    ensures { result ≡ shares s t }
{
    if s.address <= t.address {
        t.address - s.address < s.size && 0 < t.size
    } else {
        s.address - t.address < t.size && 0 < s.size
    }
}

// ---- the table

// The sections of a descriptor. The slice is long enough for them, so that nobody who has a table asks for that again. That they
// are 32 at most is no part of it: `plan::write_plan` and `handoff::piece_at` take more, and go on doing so.
#[derive(Drop)]
pub struct Table<'a> {
    // It starts where the descriptor does.
    descriptor: &'a [u8],
    count: usize,
}

impl<'a> Model for Table<'a> {
    ghost use Rattle.std.specs.Prelude.{◌+◌, ◌*◌, ◌≤◌, List, length};
    ghost use Rattle.verdict.specs.Turns.{up_to};
    ghost use Rattle.tdvf.specs.declared.Section.{Section};
    ghost use Rattle.tdvf.specs.Image.{section_at};

    ghost Value = { List Section };

    ghost view = { λ t. up_to (section_at t.descriptor.now) t.count };

    ghost invariant = { λ t. 16 + 32 * t.count ≤ length t.descriptor.now };
}

impl<'a> Table<'a> {
    // The first `count` sections of a descriptor, which starts where the slice does.
    pub fn new(descriptor: &'a [u8], count: usize) -> Table<'a>
        requires { 16 + 32 * count ≤ length descriptor.now }
        ensures { result ≡ up_to (section_at descriptor.now) count }
    {
        Table { descriptor, count }
    }

    // How many there are.
    pub fn count(&self) -> usize
        ensures { result ≡ length self.now }
    {
        self.count
    }

    // The sections, in table order.
    pub fn iter(&self) -> Sections<'a>
        ensures { result ≡ self.now }
    {
        Sections {
            descriptor: self.descriptor,
            next: 0,
            count: self.count,
        }
    }

    // Section `k`.
    pub fn section(&self, k: usize) -> Section
        requires { k < length self.now }
        ensures { (d : Section) → result ≡ get_or self.now k d }
    {
        section_at(self.descriptor, k)
    }
}

// The sections of a table that are still to come.
#[derive(Drop)]
pub struct Sections<'a> {
    descriptor: &'a [u8],
    next: usize,
    count: usize,
}

impl<'a> Model for Sections<'a> {
    ghost use Rattle.std.specs.Prelude.{◌+◌, ◌*◌, ◌≤◌, List, length, drop};
    ghost use Rattle.verdict.specs.Turns.{up_to};
    ghost use Rattle.tdvf.specs.declared.Section.{Section};
    ghost use Rattle.tdvf.specs.Image.{section_at};

    ghost Value = { List Section };

    ghost view = { λ s. drop s.next (up_to (section_at s.descriptor.now) s.count) };

    ghost invariant = { λ s. 16 + 32 * s.count ≤ length s.descriptor.now };
}

impl<'a> Iterator for Sections<'a> {
    type Item = Section;

    ghost next_gives = { YieldsFirst (λ s. s) };

    ghost remaining = { item_count (λ s. s) };

    fn next(&mut self) -> Option<Section> {
        if self.count <= self.next {
            return None;
        }
        let s = section_at(self.descriptor, self.next);
        self.next += 1;
        Some(s)
    }
}

// ---- all sections

// The totals of some sections with one section more. The TD HOB section is the first there is, so a later one only counts.
fn counted(t: Totals, s: Section) -> Totals
    requires { (t.boots < 32) × (t.handoffs < 32) × (t.pages < 2 ^ 63) }
    ensures one_more { (ss : List Section) → t ≡ totals_of ss → result ≡ totals_of (ss ++ (s ∷ [])) }
    ensures few { result.pages ≤ t.pages + 2 ^ 52 }
{
    let pages = t.pages + s.size / 4096;
    let sort = s.sort;
    match sort {
        0 => Totals {
            boots: t.boots + 1,
            pages,
            ..t
        },
        2 if t.handoffs == 0 => Totals {
            handoffs: 1,
            pages,
            address: s.address,
            size: s.size,
            ..t
        },
        2 => Totals {
            handoffs: t.handoffs + 1,
            pages,
            ..t
        },
        _ => Totals { pages, ..t },
    }
}

// The totals of a table. A section has fewer than 2^52 pages, so 32 of them have a number of pages that 64 bits hold.
pub fn totals_of(table: &Table) -> Totals
    requires { length table.now ≤ 32 }
    ensures { result ≡ totals_of table.now }
{
    let mut totals = Totals {
        boots: 0,
        handoffs: 0,
        pages: 0,
        address: 0,
        size: 0,
    };
    for s in table.iter() {
        totals = counted(totals, s);
    }
    totals
}
