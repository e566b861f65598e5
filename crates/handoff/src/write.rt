// The list's bytes, block by block into a lent buffer, each right behind the one before.
ghost use Rattle.std.specs.Prelude.{◌≡◌, ◌+◌, ◌*◌, ◌^◌, ◌≤◌, ◌<◌};
ghost use Rattle.std.proofs.Math.ListN as list;
ghost use Rattle.std.proofs.lemmas.List.Edits.{sets};
ghost use Rattle.memory.specs.Map.{records};
ghost use Rattle.handoff.specs.Pieces.{EndsFit, pieces};
ghost use Rattle.handoff.specs.List.{block_head, first_block, piece_block, last_block, piece_blocks, list_length, list_bytes};

use crate::{MapPieces, Piece};
use tdvf::Table;
use wire::{clear, put};

// What each block starts with: its type, its length, and four bytes of zero.
fn put_head(head: &mut [u8], sort: u64, size: u64)
    requires { list.length head.old ≡ 8 }
    ensures { head.new ≡ block_head sort size }
{
    put(&mut head[0..2], sort);
    put(&mut head[2..4], size);
    put(&mut head[4..8], 0);
}

// The first block. `behind` is the address just past the list.
fn put_first(block: &mut [u8], behind: u64)
    requires { list.length block.old ≡ 56 }
    ensures { block.new ≡ first_block behind }
{
    put_head(&mut block[0..8], 1, 56);
    put(&mut block[8..12], 9);
    // The boot mode of 4 bytes and the four zeros of 8, as one.
    clear(&mut block[12..48]);
    put(&mut block[48..56], behind);
}

// A piece's block. Its owner is 16 bytes of zero.
fn put_piece(block: &mut [u8], p: Piece)
    requires { list.length block.old ≡ 48 }
    ensures { block.new ≡ piece_block p }
{
    put_head(&mut block[0..8], 3, 48);
    clear(&mut block[8..24]);
    put(&mut block[24..28], p.resource.sort() as u64);
    put(&mut block[28..32], p.resource.attributes() as u64);
    put(&mut block[32..40], p.start);
    put(&mut block[40..48], p.length);
}

// The block that ends the list.
#[tactic(auto, unfolding(crate::specs::List::last_block))]
fn put_last(block: &mut [u8])
    requires { list.length block.old ≡ 8 }
    ensures { block.new ≡ last_block }
{
    put_head(block, 0xFFFF, 8);
}

// The blocks of pieces, one after the other at the start of a part; answers how long they are.
fn put_pieces(part: &mut [u8], pieces: MapPieces<'_>) -> usize
    requires { 48 * list.length pieces ≤ list.length part.old }
    ensures written { part.new ≡ sets part.old 0 (piece_blocks pieces.entry) }
    ensures size { result ≡ 48 * list.length pieces.entry }
{
    let mut next = 0;
    for p in pieces {
        put_piece(&mut part[next..next + 48], p);
        next += 48;
    }
    next
}

// Writes the list at the buffer's start, for a table's sections and a TD HOB section at `address`, and answers its length. The
// caller knows that already, as `length`: the first block says where the list ends.
#[tactic(auto, unfolding(crate::specs::List::list_length))]
pub fn write_list(buffer: &mut [u8], table: &Table, map: &[u8], address: u64, length: u64) -> usize
    requires whole_table { list.length table.now ≤ 32 }
    requires ends_fit { EndsFit map.now }
    requires whole_list { length ≡ list_length (pieces table.now (records map.now)) }
    requires room { (length ≤ list.length buffer.old) × (address + length < 2 ^ 64) }
    ensures written { buffer.new ≡ sets buffer.old 0 (list_bytes address (pieces table.now (records map.now))) }
    ensures next_place { result ≡ length }
{
    put_first(&mut buffer[0..56], address + length);
    let next = 56 + put_pieces(&mut buffer[56..], MapPieces::new(table, map));
    put_last(&mut buffer[next..next + 8]);
    next + 8
}
