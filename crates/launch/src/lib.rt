// The launch: the rules in the page's order, and what it answers; and the start of a launch that is measured in turns.

#![tactic(auto)]

ghost use Rattle.std.specs.Prelude.{◌≡◌, IfOk, [], ◌+◌, ◌*◌, ◌^◌, ◌≤◌, replicate};
ghost use Rattle.std.proofs.Math.ListN as list;
ghost use Rattle.std.proofs.lemmas.List.Edits.{sets};
ghost use Rattle.verdict.specs.Turns.{in_turn};
ghost use Rattle.verdict.specs.Rules.{judge};
ghost use Rattle.memory.specs.Map.{bits};
ghost use Rattle.tdvf.specs.Image.{fields_of, section_count};
ghost use Rattle.plan.specs.Plan.{plan_bytes};
ghost use Rattle.handoff.specs.Pieces.{EndsFit};
ghost use Rattle.measure.specs.Stream.{block_count};
ghost use Rattle.launch.specs.Host.{host_with};
ghost use Rattle.launch.specs.Rules.{first_rules, section_rules, checked};
ghost use Rattle.launch.specs.Launch.{page_list, handoff_list, accepted_answer, refused_answer, answer, plan_after, handoff_after};
ghost use Rattle.launch.specs.Begin.{answer_of, unmeasured, started_with, begun};
ghost use Rattle.launch.specs.Stages.{judged, fields_with, last_of, laid_out, Sound};

use handoff::{count_pieces, list_length, write_list};
use measure::{Progress, count_blocks, measure};
use memory::{Width, lies_in};
use plan::write_plan;
use tdvf::{Table, Totals, firmware_allowed, image_verdict, locate, meet, section_at, totals_of};
use verdict::{Place, Refusal};
use wire::clear;

// An image is not shorter: its offset word stands so far before its end.
const SHORTEST_IMAGE: usize = 32;

// What a launch answers. A refused one has counts of 0 and a measurement of zeros: the page asks for them, and names this form, the refusal
// in the answer beside the measurement.
#[derive(Clone, Copy)]
pub struct Answer {
    // The first broken rule and its place, or none.
    pub refusal: Option<Refusal>,
    // How many pages are planned.
    pub pages: u64,
    // How long the HOB list is.
    pub handoff: u64,
    // How many blocks of 128 bytes the measured stream has.
    pub blocks: u64,
    pub measurement: [u8; 48],
}

// What the start of a measurement in turns answers.
#[derive(Clone, Copy)]
pub struct Begun {
    // The launch's answer, with zeros in the measurement's place.
    pub answer: Answer,
    // The state for the first turn.
    pub progress: Progress,
}

// An accepted launch: what its image and its host come to.
#[derive(Clone, Copy)]
pub struct Layout {
    // Where the descriptor starts, and how many sections it has.
    pub offset: usize,
    pub count: usize,
    // How many pages are planned.
    pub pages: u64,
    // How long the HOB list is, and where the TD HOB section is.
    pub handoff: u64,
    pub address: u64,
}

// Rules 1 to 3, which need the lengths alone, and the width where none of them is broken.
#[tactic(auto, unfolding(crate::specs::Rules::first_rules, crate::specs::Host::buffers_broken, crate::specs::Host::width_broken, tdvf::specs::Image::length_broken, verdict::specs::Rules::judge, verdict::specs::Refusal::refusal_of))]
fn first(length: usize, width: u32, plan: usize, handoff: usize) -> Result<Width, Refusal>
    ensures judged { judged result ≡ judge (first_rules (host_with [] width plan handoff) (fields_with length 0 [])) }
    ensures width { IfOk result (λ w. bits w ≡ width) }
{
    if plan < 65536 || handoff < 8192 {
        return Err(Refusal::Buffers(Place::Nowhere));
    }
    let width = Width::try_from(width)?;
    if length < SHORTEST_IMAGE || 16777216 < length {
        return Err(Refusal::Length(Place::Nowhere));
    }
    Ok(width)
}

// Rules 9 to 15, for section 0, then for section 1, and so on: the loop is left at the first that is broken. It takes the descriptor's bytes
// and no table, since its contract is the row of `section_rules` of `specs/Rules.antt`, which reads them there.
fn sections(descriptor: &[u8], count: usize, length: usize, map: &[u8]) -> Result<(), Refusal>
    requires { 16 + 32 * count ≤ list.length descriptor.now }
    ensures { result ≡ judge (in_turn (section_rules (host_with map.now 0 0 0) (fields_with length 0 descriptor.now)) count) }
{
    let mut verdict = Ok(());
    'sections: for k in 0..count {
        let s = section_at(descriptor, k);
        let own = image_verdict(s, length, k);
        let Ok(()) = own else {
            verdict = own;
            break 'sections;
        };
        let lies = lies_in(map, firmware_allowed(s.sort), s.address, s.size);
        let Some(_) = lies else {
            verdict = Err(Refusal::Outside(Place::Section(k)));
            break 'sections;
        };
        for j in 0..k {
            if meet(section_at(descriptor, j), s) {
                verdict = Err(Refusal::Shared(Place::Section(k)));
                break 'sections;
            }
        }
    }
    verdict
}

// Rules 16 to 19, by what was counted.
#[tactic(auto, unfolding(crate::specs::Stages::last_of, verdict::specs::Rules::judge, verdict::specs::Refusal::refusal_of))]
fn last(totals: Totals, list: u64) -> Result<(), Refusal>
    ensures { result ≡ judge (last_of totals list) }
{
    if totals.boots == 0 {
        return Err(Refusal::Boot(Place::Nowhere));
    }
    if totals.handoffs != 1 {
        return Err(Refusal::Handoff(Place::Nowhere));
    }
    if 4096 < totals.pages {
        return Err(Refusal::Pages(Place::Nowhere));
    }
    if totals.size < list {
        return Err(Refusal::List(Place::Nowhere));
    }
    Ok(())
}

// Rules 9 to 19, of what stands from the descriptor on, and what the writers need where none of them is broken.
fn lay_out(
    descriptor: &[u8],
    offset: usize,
    count: usize,
    length: usize,
    map: &[u8],
) -> Result<Layout, Refusal>
    requires whole_table { (count ≤ 32) × (16 + 32 * count ≤ list.length descriptor.now) }
    requires counted_all { count ≡ section_count descriptor.now }
    requires ends_fit { EndsFit map.now }
    ensures { result ≡ laid_out (host_with map.now 0 0 0) (fields_with length offset descriptor.now) }
{
    sections(descriptor, count, length, map)?;
    let table = Table::new(descriptor, count);
    let totals = totals_of(&table);
    let handoff = list_length(count_pieces(&table, map));
    last(totals, handoff)?;
    Ok(Layout {
        offset,
        count,
        pages: totals.pages,
        handoff,
        address: totals.address,
    })
}

// The checks: rules 1 to 19 in the page's order. It takes every image, map and width.
pub fn check(
    image: &[u8],
    map: &[u8],
    width: u32,
    plan: usize,
    handoff: usize,
) -> Result<Layout, Refusal>
    ensures { result ≡ checked (host_with map.now width plan handoff) (fields_of image.now) }
{
    let width = first(image.len(), width, plan, handoff)?;
    memory::check(map, width)?;
    let located = locate(image)?;
    let offset = located.offset;
    lay_out(&image[offset..], offset, located.count, image.len(), map)
}

// The answer of a refused launch.
#[tactic(auto, unfolding(crate::specs::Launch::refused_answer))]
fn refused_answer(refusal: Option<Refusal>) -> Answer
    ensures { result ≡ refused_answer refusal }
{
    Answer {
        refusal,
        pages: 0,
        handoff: 0,
        blocks: 0,
        measurement: [0; 48],
    }
}

// Fills both buffers for a launch that breaks no rule, and answers how many blocks the plan gives.
fn write_buffers(
    image: &[u8],
    map: &[u8],
    layout: Layout,
    plan: &mut [u8],
    handoff: &mut [u8],
) -> u64
    requires { Sound image.now map.now layout (list.length plan.old) (list.length handoff.old) }
    ensures counted { result ≡ block_count (page_list (host_with map.now 0 0 0) (fields_of image.now)) }
    ensures plan_after { plan.new ≡ sets plan.old 0 (plan_bytes (page_list (host_with map.now 0 0 0) (fields_of image.now))) }
    ensures handoff_after { handoff.new ≡ sets handoff.old 0 (handoff_list (host_with map.now 0 0 0) (fields_of image.now)) }
{
    let offset = layout.offset;
    let table = Table::new(&image[offset..], layout.count);
    write_list(handoff, &table, map, layout.address, layout.handoff);
    write_plan(plan, &table, layout.handoff);
    count_blocks(plan, layout.pages as usize)
}

// The answer of a launch that breaks no rule.
#[tactic(auto, unfolding(crate::specs::Begin::answer_of))]
fn answer_of(layout: Layout, blocks: u64, measurement: [u8; 48]) -> Answer
    ensures { result ≡ answer_of layout blocks measurement }
{
    Answer {
        refusal: None,
        pages: layout.pages,
        handoff: layout.handoff,
        blocks,
        measurement,
    }
}

// Clears both buffers and then checks: on every path, so that no older plan can survive in them.
fn clear_and_check(
    image: &[u8],
    map: &[u8],
    width: u32,
    plan: &mut [u8],
    handoff: &mut [u8],
) -> Result<Layout, Refusal>
    ensures checked { result ≡ checked (host_with map.now width (list.length plan.new) (list.length handoff.new)) (fields_of image.now) }
    ensures plan_after { plan.new ≡ replicate (list.length plan.old) 0 }
    ensures handoff_after { handoff.new ≡ replicate (list.length handoff.old) 0 }
{
    clear(plan);
    clear(handoff);
    check(image, map, width, plan.len(), handoff.len())
}

// All of the launch but the measurement: a refused one is answered whole.
fn prepare(image: &[u8], map: &[u8], width: u32, plan: &mut [u8], handoff: &mut [u8]) -> Answer
    ensures answered { result ≡ unmeasured (answer (host_with map.now width (list.length plan.old) (list.length handoff.old)) image.now) }
    ensures plan_after { plan.new ≡ plan_after (host_with map.now width (list.length plan.old) (list.length handoff.old)) image.now }
    ensures handoff_after { handoff.new ≡ handoff_after (host_with map.now width (list.length plan.old) (list.length handoff.old)) image.now }
{
    let checked = clear_and_check(image, map, width, plan, handoff);
    let Ok(layout) = checked else {
        return refused_answer(checked.err());
    };
    let blocks = write_buffers(image, map, layout, plan, handoff);
    answer_of(layout, blocks, [0; 48])
}

// The launch. Both buffers are cleared first. What it takes is what C hands over, in the header's order, and the functions above get it from
// here: no struct holds it.
pub fn launch(image: &[u8], map: &[u8], width: u32, plan: &mut [u8], handoff: &mut [u8]) -> Answer
    ensures answered { result ≡ answer (host_with map.now width (list.length plan.old) (list.length handoff.old)) image.now }
    ensures plan_after { plan.new ≡ plan_after (host_with map.now width (list.length plan.old) (list.length handoff.old)) image.now }
    ensures handoff_after { handoff.new ≡ handoff_after (host_with map.now width (list.length plan.old) (list.length handoff.old)) image.now }
{
    let laid = prepare(image, map, width, plan, handoff);
    if laid.refusal.is_some() {
        return laid;
    }
    Answer {
        measurement: measure(image, plan, laid.blocks),
        ..laid
    }
}

// ---- the start of a measurement in turns

// An answer and the state for the first turn: no block is done of the stream's and the padding's.
#[tactic(auto, unfolding(crate::specs::Begin::started_with, crate::specs::Begin::first_progress))]
fn started(answer: Answer, image: u64, plan: u64) -> Begun
    requires { answer.blocks ≤ 2 ^ 32 }
    ensures { result ≡ started_with answer image plan }
{
    Begun {
        answer,
        progress: Progress {
            hash: sha384::start(),
            done: 0,
            total: answer.blocks + 1,
            image,
            plan,
            refusal: answer.refusal,
        },
    }
}

// The start of a measurement in turns.
pub fn begin(image: &[u8], map: &[u8], width: u32, plan: &mut [u8], handoff: &mut [u8]) -> Begun
    ensures begun { result ≡ begun (host_with map.now width (list.length plan.old) (list.length handoff.old)) image.now }
    ensures plan_after { plan.new ≡ plan_after (host_with map.now width (list.length plan.old) (list.length handoff.old)) image.now }
    ensures handoff_after { handoff.new ≡ handoff_after (host_with map.now width (list.length plan.old) (list.length handoff.old)) image.now }
{
    let answer = prepare(image, map, width, plan, handoff);
    started(answer, image.len() as u64, plan.len() as u64)
}
