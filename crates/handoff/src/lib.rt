// The hand-off block (HOB) list: what the guest is told of its memory.

#![tactic(auto)]

mod write;

ghost use Rattle.std.specs.Prelude.{◌≡◌, [], ◌+◌, ◌*◌, ◌^◌, ◌≤◌, ◌<◌, min};
ghost use Rattle.std.specs.Iterator.{YieldsFirst, item_count};
ghost use Rattle.std.proofs.Math.ListN as list;
ghost use Rattle.memory.specs.Map.{end, records};
ghost use Rattle.handoff.specs.Pieces.{EndsFit, resource_type, resource_attributes, lower_of, next_of, piece_at, cut, pieces_of, pieces};

use memory::{Record, record_at};
use std::marker::Model;
use tdvf::{Section, Table};
pub use write::write_list;

// What a piece of the memory map is. A variant's number is the page's resource type.
#[derive(Clone, Copy)]
pub enum Resource {
    // Memory that is there: a section.
    Memory = 0,
    // Memory-mapped input and output.
    Mapped = 1,
    // Memory that is not accepted yet: a run without a section.
    Unaccepted = 7,
}

impl Resource {
    // The resource type that a piece's block has.
    #[tactic(auto, unfolding(crate::specs::Pieces::resource_type))]
    pub fn sort(self) -> u32
        ensures { result ≡ resource_type self }
    {
        self as u32
    }

    // The attributes that it has.
    #[tactic(auto, unfolding(crate::specs::Pieces::resource_attributes))]
    pub fn attributes(self) -> u32
        ensures { result ≡ resource_attributes self }
    {
        match self {
            Resource::Memory => 7,
            Resource::Mapped => 0x403,
            Resource::Unaccepted => 7,
        }
    }
}

// A piece of the memory map that the list names.
#[derive(Clone, Copy)]
pub struct Piece {
    pub resource: Resource,
    pub start: u64,
    pub length: u64,
}

// The section with the lowest start at some address or above: the pair that the definition `next_of` answers.
#[derive(Clone, Copy)]
pub struct Next {
    // Its start, or the end of the record that is cut where there is none below that.
    pub start: u64,
    // Its size, or 0 where there is none.
    pub size: u64,
}

// The section with the lowest start at `at` or above and below `top`. Tried from the last section down, as its definition goes.
fn next_of(table: &Table, at: u64, top: u64) -> Next
    ensures { result ≡ next_of table.now at top }
{
    let mut next = Next {
        start: top,
        size: 0,
    };
    for k in (0..table.count()).rev() {
        next = lower(next, table.section(k), at);
    }
    next
}

// The lower of the two, where the section starts at `at` or above.
#[tactic(auto, unfolding(crate::specs::Pieces::lower_of))]
fn lower(next: Next, s: Section, at: u64) -> Next
    ensures { result ≡ lower_of next s at }
{
    if at <= s.address {
        if s.address < next.start {
            return Next {
                start: s.address,
                size: s.size,
            };
        }
    }
    next
}

// The piece at `at`: the section that starts there, or else the run up to the next start.
#[tactic(auto, unfolding(crate::specs::Pieces::piece_at))]
pub fn piece_at(table: &Table, at: u64, top: u64) -> Piece
    requires { at ≤ top }
    ensures { result ≡ piece_at table.now at top }
{
    let next = next_of(table, at, top);
    if next.start == at {
        return Piece {
            resource: Resource::Memory,
            start: at,
            length: next.size,
        };
    }
    Piece {
        resource: Resource::Unaccepted,
        start: at,
        length: next.start - at,
    }
}

// Where the next piece starts: never above `top`, so that no sum can wrap.
fn past(at: u64, length: u64, top: u64) -> u64
    requires { at ≤ top }
    ensures { result ≡ min (at + length) top }
{
    if length < top - at { at + length } else { top }
}

// The pieces of a record that are still to come.
#[derive(Drop)]
struct RecordPieces<'a> {
    // The one of an MMIO record.
    mapped: Option<Piece>,
    // Those that a record of RAM is still cut into, from `at` up to `top`. `steps` bounds how many there can be.
    table: &'a Table<'a>,
    steps: usize,
    at: u64,
    top: u64,
}

impl<'a> Model for RecordPieces<'a> {
    ghost use Rattle.std.specs.Prelude.{List, ◌++◌};
    ghost use Rattle.std.specs.Option.{option_to_list};
    ghost use Rattle.handoff.specs.declared.Piece.{Piece};
    ghost use Rattle.handoff.specs.Pieces.{cut};

    ghost Value = { List Piece };

    ghost view = { λ p. option_to_list p.mapped ++ cut p.steps p.table.now p.at p.top };
}

impl<'a> Iterator for RecordPieces<'a> {
    type Item = Piece;

    ghost next_gives = { YieldsFirst (λ p. p) };

    ghost remaining = { item_count (λ p. p) };

    fn next(&mut self) -> Option<Piece> {
        if let Some(p) = self.mapped.take() {
            return Some(p);
        }
        if self.steps == 0 || self.top <= self.at {
            return None;
        }
        let p = piece_at(self.table, self.at, self.top);
        self.at = past(self.at, p.length, self.top);
        self.steps -= 1;
        Some(p)
    }
}

// The pieces of a record that gives none.
#[tactic(auto, unfolding(crate::specs::Pieces::cut))]
fn none<'a>(table: &'a Table<'a>) -> RecordPieces<'a>
    ensures { result ≡ [] }
{
    RecordPieces {
        mapped: None,
        table,
        steps: 0,
        at: 0,
        top: 0,
    }
}

// The pieces of a record, by its kind: RAM is cut, firmware gives none, and MMIO is one piece.
#[tactic(auto, unfolding(crate::specs::Pieces::cut, crate::specs::Pieces::pieces_of))]
fn record_pieces<'a>(table: &'a Table<'a>, r: Record) -> RecordPieces<'a>
    requires whole_table { list.length table.now ≤ 32 }
    requires fits { end r < 2 ^ 64 }
    ensures { result ≡ pieces_of table.now r }
{
    let kind = r.kind;
    match kind {
        0 => none(table),
        1 => RecordPieces {
            mapped: None,
            table,
            steps: 2 * table.count() + 1,
            at: r.start,
            top: r.start + r.length,
        },
        2 => none(table),
        _ => RecordPieces {
            mapped: Some(Piece {
                resource: Resource::Mapped,
                start: r.start,
                length: r.length,
            }),
            table,
            steps: 0,
            at: 0,
            top: 0,
        },
    }
}

// The pieces of the map that are still to come. It keeps what the launch's rules made sure of, so that no step of the walk asks for it.
#[derive(Drop)]
struct MapPieces<'a> {
    // Those of the record that was come to last.
    these: RecordPieces<'a>,
    table: &'a Table<'a>,
    map: &'a [u8],
    // The record that comes next.
    next: usize,
}

impl<'a> Model for MapPieces<'a> {
    ghost use Rattle.std.specs.Prelude.{◌≤◌, List, ◌++◌, length, drop};
    ghost use Rattle.memory.specs.Map.{records};
    ghost use Rattle.handoff.specs.declared.Piece.{Piece};
    ghost use Rattle.handoff.specs.Pieces.{EndsFit, pieces};

    ghost Value = { List Piece };

    ghost view = { λ p. p.these ++ pieces p.table.now (drop p.next (records p.map.now)) };

    ghost invariant = { λ p. (length p.table.now ≤ 32) × EndsFit p.map.now };
}

impl<'a> MapPieces<'a> {
    // All pieces of the map.
    fn new(table: &'a Table<'a>, map: &'a [u8]) -> MapPieces<'a>
        requires whole_table { list.length table.now ≤ 32 }
        requires ends_fit { EndsFit map.now }
        ensures { result ≡ pieces table.now (records map.now) }
    {
        MapPieces {
            these: none(table),
            table,
            map,
            next: 0,
        }
    }
}

impl<'a> Iterator for MapPieces<'a> {
    type Item = Piece;

    ghost next_gives = { YieldsFirst (λ p. p) };

    ghost remaining = { item_count (λ p. p) };

    fn next(&mut self) -> Option<Piece> {
        // A `loop`, since a record may give no piece: how many are passed over only their kinds tell.
        loop {
            if let Some(p) = self.these.next() {
                return Some(p);
            }
            if self.map.len() / 24 <= self.next {
                return None;
            }
            self.these = record_pieces(self.table, record_at(self.map, self.next));
            self.next += 1;
        }
    }
}

// How many pieces the map gives, for the sections of a table.
pub fn count_pieces(table: &Table, map: &[u8]) -> usize
    requires whole_table { list.length table.now ≤ 32 }
    requires ends_fit { EndsFit map.now }
    ensures { result ≡ list.length (pieces table.now (records map.now)) }
{
    MapPieces::new(table, map).count()
}

// How long the list of so many pieces is.
pub fn list_length(pieces: usize) -> u64
    requires { pieces ≤ 4160 }
    ensures { result ≡ 56 + (48 * pieces + 8) }
{
    56 + 48 * pieces as u64 + 8
}
