// SHA-384 of FIPS 180-4, each function proved equal to its definition in specs/.
//
// `digest` hashes a message that is lent whole. A message that comes in pieces is hashed by blocks: `start`,
// `block` for each 128 bytes, and `finish` with what is left and the length of the whole. Where the pieces are whole
// blocks, the padding is a block like the others: `padding_block`, and then `leftmost`.

#![tactic(auto)]

mod constants;
mod padding;
mod rounds;
mod schedule;
mod words;

ghost use Rattle.std.specs.Prelude.{◌≡◌, ◌*◌, ◌%◌, length};
ghost use Rattle.sha384.specs.Constants.{H⁰};
ghost use Rattle.sha384.specs.Padding.{padding};
ghost use Rattle.sha384.specs.Hash.{compressed, left384, finished, sha384};

// How long what is left of a message and its padding are where one block has room for both.
const ONE_BLOCK: usize = 128;

// The eight words of a hash value, and the eight working variables of a round.
#[derive(Clone, Copy)]
pub struct State {
    pub a: u64,
    pub b: u64,
    pub c: u64,
    pub d: u64,
    pub e: u64,
    pub f: u64,
    pub g: u64,
    pub h: u64,
}

// The initial hash value.
pub fn start() -> State
    ensures { result ≡ H⁰ }
{
    State {
        a: 0xcbbb9d5dc1059ed8,
        b: 0x629a292a367cd507,
        c: 0x9159015a3070dd17,
        d: 0x152fecd8f70e5939,
        e: 0x67332667ffc00b31,
        f: 0x8eb44a8768581511,
        g: 0xdb0c2e0d64f98fa7,
        h: 0x47b5481dbefa4fa4,
    }
}

// The hash value after one block more.
#[tactic(auto, unfolding(crate::specs::Hash::compressed))]
pub fn block(state: State, bytes: &[u8]) -> State
    requires whole_block { length bytes.now ≡ 128 }
    ensures { result ≡ compressed state bytes.now }
{
    let w = schedule::words(bytes);
    let v = rounds::all(state, &w);
    rounds::add(state, v)
}

// The padding's block, the last of a message of `blocks` whole blocks. The length in bits can take 74 bits, so its two words
// are found without forming it.
pub fn padding_block(blocks: u64) -> [u8; 128]
    ensures { result ≡ padding (128 * blocks) }
{
    let mut last = [0u8; 128];
    last[0] = 0x80;
    padding::put_word(&mut last, 112, blocks / 0x40_0000_0000_0000);
    padding::put_word(&mut last, 120, blocks % 0x40_0000_0000_0000 * 1024);
    last
}

// The digest that a hash value holds once the padding's block is done.
pub fn leftmost(state: State) -> [u8; 48]
    ensures { result ≡ left384 state }
{
    padding::left_384(state)
}

// The digest of a message of `total` bytes, from the hash value after its whole blocks and the bytes that are left.
pub fn finish(state: State, left: &[u8], total: u64) -> [u8; 48]
    requires left_over { length left.now ≡ total % 128 }
    ensures { result ≡ finished state left.now total }
{
    let last = padding::last(left, total);
    let behind = padding::end(left.len());
    let next = block(state, &last[0..128]);
    if behind == ONE_BLOCK {
        return padding::left_384(next);
    }
    padding::left_384(block(next, &last[128..256]))
}

// SHA-384 of a message of any length.
#[tactic(auto, unfolding(crate::specs::Hash::after, crate::specs::Padding::block))]
pub fn digest(message: &[u8]) -> [u8; 48]
    ensures { result ≡ sha384 message.now }
{
    let blocks = message.len() / 128;
    let mut state = start();
    for n in 0..blocks {
        state = block(state, &message[128 * n..128 * n + 128]);
    }
    finish(state, &message[128 * blocks..], message.len() as u64)
}
