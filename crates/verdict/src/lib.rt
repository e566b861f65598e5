// What a launch answers where it is refused: the rule of page 01 that is broken, and where.
//
// A rule is a variant that carries its place. `specs/Refusal.antt` has the page's number and place for each variant, and
// `specs/Rules.antt` the row of rules whose first broken one is the verdict.

#![tactic(auto)]

ghost use Rattle.std.specs.Prelude.{◌≡◌};
ghost use Rattle.verdict.specs.Refusal.{number, place};

// Where a rule is broken. The owner's page names this form, an enum of none, section and record, so `Nowhere` is a case of it and no `None`.
#[derive(Clone, Copy)]
pub enum Place {
    // The page names no place.
    Nowhere,
    // A section of the descriptor, counted from 0.
    Section(usize),
    // A record of the memory map, counted from 0.
    Record(usize),
}

// The rule that is broken, in the order of the page. What a row of rules comes to is a `Result<(), Refusal>`, and where an answer
// holds it, it is an `Option<Refusal>`.
#[derive(Clone, Copy)]
pub enum Refusal {
    // 1: the plan buffer or the HOB buffer is too short.
    Buffers(Place),
    // 2: the guest address width is neither 48 nor 52.
    Width(Place),
    // 3: the image's length is out of range.
    Length(Place),
    // 4: the memory map breaks one of its rules.
    Map(Place),
    // 5: the descriptor's first 16 bytes don't end at or before L - 32.
    Offset(Place),
    // 6: the signature differs.
    Signature(Place),
    // 7: the version is not 1.
    Version(Place),
    // 8: the section count, the descriptor's length or its end is wrong.
    Descriptor(Place),
    // 9: a section's type is above 3.
    Type(Place),
    // 10: a section's attributes.
    Attributes(Place),
    // 11: a section's raw size or data offset against its type.
    Raw(Place),
    // 12: a section's data is outside the image.
    Data(Place),
    // 13: a section's memory address or size.
    Memory(Place),
    // 14: a section is not inside one record of an allowed kind.
    Outside(Place),
    // 15: a section shares an address with an earlier section.
    Shared(Place),
    // 16: there is no boot volume.
    Boot(Place),
    // 17: the TD HOB sections are not exactly one.
    Handoff(Place),
    // 18: more than 4,096 pages in all.
    Pages(Place),
    // 19: the HOB list is longer than the TD HOB section's memory.
    List(Place),
}

// The page's number of a refusal; 0 where nothing is refused. The definition with the page's number for each case, `number` of
// `specs/Refusal.antt`, speaks of a refusal that may be none, as this function does: it is no `From` of the refusal alone.
#[tactic(auto, unfolding(crate::specs::Refusal::number))]
pub fn number_of(refusal: Option<Refusal>) -> u32
    ensures { result ≡ number refusal }
{
    match refusal {
        None => 0,
        Some(Refusal::Buffers(_)) => 1,
        Some(Refusal::Width(_)) => 2,
        Some(Refusal::Length(_)) => 3,
        Some(Refusal::Map(_)) => 4,
        Some(Refusal::Offset(_)) => 5,
        Some(Refusal::Signature(_)) => 6,
        Some(Refusal::Version(_)) => 7,
        Some(Refusal::Descriptor(_)) => 8,
        Some(Refusal::Type(_)) => 9,
        Some(Refusal::Attributes(_)) => 10,
        Some(Refusal::Raw(_)) => 11,
        Some(Refusal::Data(_)) => 12,
        Some(Refusal::Memory(_)) => 13,
        Some(Refusal::Outside(_)) => 14,
        Some(Refusal::Shared(_)) => 15,
        Some(Refusal::Boot(_)) => 16,
        Some(Refusal::Handoff(_)) => 17,
        Some(Refusal::Pages(_)) => 18,
        Some(Refusal::List(_)) => 19,
    }
}

// The place of a refusal; none where nothing is refused. It is no `From`, as `number_of` is none.
#[tactic(auto, unfolding(crate::specs::Refusal::place))]
pub fn place_of(refusal: Option<Refusal>) -> Place
    ensures { result ≡ place refusal }
{
    match refusal {
        None => Place::Nowhere,
        Some(Refusal::Buffers(place)) => place,
        Some(Refusal::Width(place)) => place,
        Some(Refusal::Length(place)) => place,
        Some(Refusal::Map(place)) => place,
        Some(Refusal::Offset(place)) => place,
        Some(Refusal::Signature(place)) => place,
        Some(Refusal::Version(place)) => place,
        Some(Refusal::Descriptor(place)) => place,
        Some(Refusal::Type(place)) => place,
        Some(Refusal::Attributes(place)) => place,
        Some(Refusal::Raw(place)) => place,
        Some(Refusal::Data(place)) => place,
        Some(Refusal::Memory(place)) => place,
        Some(Refusal::Outside(place)) => place,
        Some(Refusal::Shared(place)) => place,
        Some(Refusal::Boot(place)) => place,
        Some(Refusal::Handoff(place)) => place,
        Some(Refusal::Pages(place)) => place,
        Some(Refusal::List(place)) => place,
    }
}
