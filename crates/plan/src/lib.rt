// The plan: a record of 16 bytes for each page that the TDX module adds, and the view of the bytes behind one.
//
// No sum is formed that could wrap: the contracts say what the launch's rules keep, and what is left is compared.

#![tactic(auto)]

ghost use Rattle.std.specs.Prelude.{◌≡◌, ◌+◌, ◌*◌, ◌^◌, ◌≤◌, ◌<◌, All, length};
ghost use Rattle.std.proofs.lemmas.List.Edits.{sets};
ghost use Rattle.tdvf.specs.Section.{page_count, pages_in_all};
ghost use Rattle.plan.specs.Plan.{Fits, source_of, data_length, data_offset, page_of, pages_of, pages, page_bytes, plan_bytes};
ghost use Rattle.plan.specs.View.{part, view};

use tdvf::{Section, Table};

// A planned page.
#[derive(Clone, Copy)]
pub struct Page {
    pub address: u64,
    // Where its data starts, in the image or in the HOB list; 0 where it has none.
    pub offset: u32,
    // How much data it has; zeros follow up to 4,096 bytes.
    pub length: u16,
    // The type of its section, and 1 where the page is measured, else 0. They are the record's own bytes: a lent plan can have any, and
    // `page_at` of `specs/Plan.antt` reads them as they are.
    pub sort: u8,
    pub measured: u8,
}

// Where a section's data comes from.
#[derive(Clone, Copy)]
pub struct Source {
    // Where it starts, in the image or in the HOB list.
    pub start: u64,
    // How much there is.
    pub amount: u64,
}

// ---- the pages of a section

// A section's type decides the source: the volumes' data is in the image, the TD HOB section's is the HOB list, of
// `handoff` bytes, and temporary memory has none.
#[tactic(auto, unfolding(crate::specs::Plan::source_of))]
fn source_of(s: Section, handoff: u64) -> Source
    ensures { result ≡ source_of handoff s }
{
    let sort = s.sort;
    let offset = s.offset as u64;
    let raw = s.raw as u64;
    match sort {
        0..=1 => Source {
            start: offset,
            amount: raw,
        },
        2 => Source {
            start: 0,
            amount: handoff,
        },
        _ => Source {
            start: 0,
            amount: 0,
        },
    }
}

// How much data page `k` has: what is left behind the pages before it, and a page's bytes at most.
#[tactic(auto, unfolding(crate::specs::Plan::data_length))]
fn data_length(source: Source, k: u64) -> u64
    requires { 4096 * k < 2 ^ 64 }
    ensures { result ≡ data_length source k }
{
    let before = 4096 * k;
    if source.amount <= before {
        return 0;
    }
    let left = source.amount - before;
    if 4096 < left {
        return 4096;
    }
    left
}

// Where the data of page `k` starts; 0 where it has none. A page that has some starts before the source's end, so the sum fits.
#[tactic(auto, unfolding(crate::specs::Plan::data_offset, crate::specs::Plan::data_length))]
fn data_offset(source: Source, k: u64) -> u64
    requires { (4096 * k < 2 ^ 64) × (source.start + source.amount < 2 ^ 64) }
    ensures { result ≡ data_offset source k }
{
    if data_length(source, k) == 0 {
        return 0;
    }
    source.start + 4096 * k
}

// Page `k` of a section, where the HOB list is `handoff` bytes long. That it is 2^32 at most stays a clause, here and where pages are written: a
// `u32` would ask for less than that.
#[tactic(auto, unfolding(crate::specs::Plan::page_of))]
pub fn page_of(s: Section, handoff: u64, k: u64) -> Page
    requires { (s.address + 4096 * k < 2 ^ 64) × (s.offset + s.raw ≤ 2 ^ 32) × (handoff ≤ 2 ^ 32) × (s.sort < 256) }
    ensures { result ≡ page_of handoff s k }
{
    let source = source_of(s, handoff);
    Page {
        address: s.address + 4096 * k,
        offset: data_offset(source, k) as u32,
        length: data_length(source, k) as u16,
        sort: s.sort as u8,
        measured: (s.attributes % 2) as u8,
    }
}

// ---- the records

// Writes a page's fields over the 16 bytes of a record.
fn put_fields(part: &mut [u8], p: Page)
    requires { length part.old ≡ 16 }
    ensures { part.new ≡ page_bytes p }
{
    wire::put(&mut part[0..8], p.address);
    wire::put(&mut part[8..12], p.offset as u64);
    wire::put(&mut part[12..14], p.length as u64);
    wire::put(&mut part[14..15], p.sort as u64);
    wire::put(&mut part[15..16], p.measured as u64);
}

// Writes a page's record at the start of a part.
pub fn put_page(part: &mut [u8], p: Page)
    requires { 16 ≤ length part.old }
    ensures { part.new ≡ sets part.old 0 (page_bytes p) }
{
    put_fields(&mut part[..16], p);
}

// Writes the records of a section's pages at the start of a part, and answers how long they are.
pub fn put_pages(part: &mut [u8], s: Section, handoff: u64) -> usize
    requires room { 16 * page_count s ≤ length part.old }
    requires list_fits { handoff ≤ 2 ^ 32 }
    requires section_fits { Fits s }
    ensures written { part.new ≡ sets part.old 0 (plan_bytes (pages_of handoff s)) }
    ensures size { result ≡ 16 * page_count s }
{
    let mut next = 0;
    for k in 0..s.size / 4096 {
        put_page(&mut part[next..], page_of(s, handoff, k));
        next += 16;
    }
    next
}

// Writes the records of a table's sections from the buffer's start on, and answers where they end. The launch's rules made sure
// that each section fits the fields, and that the buffer has room for all pages.
#[tactic(auto, using(crate::proofs::Records::count_next))]
pub fn write_plan(buffer: &mut [u8], table: &Table, handoff: u64) -> usize
    requires room { 16 * pages_in_all table.now ≤ length buffer.old }
    requires list_fits { handoff ≤ 2 ^ 32 }
    requires sections_fit { All Fits table.now }
    ensures written { buffer.new ≡ sets buffer.old 0 (plan_bytes (pages handoff table.now)) }
    ensures next_place { result ≡ 16 * pages_in_all table.now }
{
    let mut next = 0;
    for s in table.iter() {
        next += put_pages(&mut buffer[next..], s, handoff);
    }
    next
}

// ---- the view

// The part of a slice that starts at `start` and has `size` bytes: an empty one where it is not inside the slice, or is longer
// than a page. Both numbers are widened first, so their sum doesn't wrap.
#[tactic(auto, unfolding(crate::specs::View::part))]
fn part_of<'a>(slice: &'a [u8], start: u32, size: u16) -> &'a [u8]
    ensures { result.now ≡ part slice.now start size }
{
    let first = start as usize;
    let last = first + size as usize;
    if slice.len() < last {
        return &slice[0..0];
    }
    if 4096 < size {
        return &slice[0..0];
    }
    &slice[first..last]
}

// The page view: the bytes behind a record's offset, length and type, of the image for types 0 and 1, of the HOB list for
// type 2, and none for another type. One lifetime stands for both slices and the answer: two that outlive a third are not
// covered by the prover.
#[tactic(auto, unfolding(crate::specs::View::view, crate::specs::View::slice_of))]
pub fn view<'a>(image: &'a [u8], handoff: &'a [u8], offset: u32, length: u16, sort: u8) -> &'a [u8]
    ensures { result.now ≡ view image.now handoff.now offset length sort }
{
    match sort {
        0..=1 => part_of(image, offset, length),
        2 => part_of(handoff, offset, length),
        _ => &image[0..0],
    }
}
