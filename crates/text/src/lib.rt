// The text of an answer, written into a lent buffer. No writer allocates or can fail, and each that writes a text answers where it ends,
// so that the next can go on there. The contracts cite `specs/Text.antt`.
//
// No `Display` in their place: it can fail, and its `output` speaks of an `Ok` alone, so that a `fmt` that answers nothing but `Err` is
// proved; `put_refusal` and the others promise the bytes and the length of every call.
// No cursor that holds the buffer and the place: tried, with both as fields; behind a field's `&mut` the proof does not know at the end that
// the buffer written is the caller's. `put_decimal` and `put_labelled` take both in any case.

#![tactic(auto)]

ghost use Rattle.std.specs.Prelude.{◌≡◌, ◌+◌, ◌*◌, ◌<◌, ◌≤◌, length};
ghost use Rattle.std.proofs.lemmas.List.Edits.{sets};
ghost use Rattle.text.specs.Text.{decimal, hex_digit, digits, hexadecimal, labelled, newline, place_text, refusal_text, summary_text, spaced, page_text, bytes_text, measurement_text};

use plan::Page;
use verdict::{Place, Refusal, number_of, place_of};

// ---- numbers

// The ASCII code of a digit, in lower case.
fn digit_code(digit: u8) -> u8
    requires { digit < 16 }
    ensures { result ≡ hex_digit digit }
{
    if digit < 10 { 48 + digit } else { 87 + digit }
}

// Writes the last `count` digits of a number at `at`, the last one first.
#[tactic(auto, using(crate::proofs::Digits::sets_digits, crate::proofs::Digits::sets_none))]
fn put_digits<const BASE: u64>(buffer: &mut [u8], at: usize, count: usize, value: u64)
    requires base { (0 < BASE) × (BASE ≤ 16) }
    requires room { at + count ≤ length buffer.old }
    ensures { buffer.new ≡ sets buffer.old at (digits BASE count value) }
{
    let mut rest = value;
    for k in (0..count).rev() {
        buffer[at + k] = digit_code((rest % BASE) as u8);
        rest /= BASE;
    }
}

// How many decimal digits a number has; 0 has one.
#[tactic(auto, using(crate::proofs::Decimal::count_is))]
fn digit_count(value: u64) -> usize
    ensures is { result ≡ length (decimal value) }
    ensures at_most { result ≤ 20 }
{
    1 + value.checked_ilog10().unwrap_or(0) as usize
}

// Writes a number at `at` in decimal digits.
#[tactic(auto, using(crate::proofs::Decimal::decimal_digits))]
pub fn put_decimal(buffer: &mut [u8], at: usize, value: u64) -> usize
    requires { at + 20 ≤ length buffer.old }
    ensures written { buffer.new ≡ sets buffer.old at (decimal value) }
    ensures next_place { result ≡ at + length (decimal value) }
    ensures at_most { result ≤ at + 20 }
{
    let count = digit_count(value);
    put_digits::<10>(buffer, at, count, value);
    at + count
}

// Writes a number at `at` in 16 hexadecimal digits, as many as the largest has.
fn put_hexadecimal(buffer: &mut [u8], at: usize, value: u64) -> usize
    requires { at + 16 ≤ length buffer.old }
    ensures written { buffer.new ≡ sets buffer.old at (hexadecimal 16 value) }
    ensures next_place { result ≡ at + 16 }
{
    put_digits::<16>(buffer, at, 16, value);
    at + 16
}

// ---- parts of a line

// Writes a label at `at`, and a number behind it, of at most 20 digits.
#[tactic(auto, using(wire::proofs::Sets::sets_then), unfolding(crate::specs::Text::labelled))]
pub fn put_labelled(buffer: &mut [u8], at: usize, label: &[u8], value: u64) -> usize
    requires { at + (length label.now + 20) ≤ length buffer.old }
    ensures written { buffer.new ≡ sets buffer.old at (labelled label.now value) }
    ensures next_place { result ≡ at + length (labelled label.now value) }
    ensures at_most { result ≤ at + (length label.now + 20) }
{
    wire::copy(buffer, at, label);
    put_decimal(buffer, at + label.len(), value)
}

// Writes the newline of a line that ends at `end`.
#[tactic(auto, unfolding(crate::specs::Text::newline))]
fn put_newline(buffer: &mut [u8], end: usize) -> usize
    requires { end + 1 ≤ length buffer.old }
    ensures written { buffer.new ≡ sets buffer.old end newline }
    ensures next_place { result ≡ end + 1 }
{
    buffer[end] = b'\n';
    end + 1
}

// ---- a refusal

// Writes the place of a refusal at `at`: nothing, or a label and an index, at most 29 bytes.
fn put_place(buffer: &mut [u8], at: usize, place: Place) -> usize
    requires { at + 29 ≤ length buffer.old }
    ensures written { buffer.new ≡ sets buffer.old at (place_text place) }
    ensures next_place { result ≡ at + length (place_text place) }
    ensures at_most { result ≤ at + 29 }
{
    match place {
        Place::Nowhere => at,
        Place::Section(k) => put_labelled(buffer, at, b" section ", k as u64),
        Place::Record(k) => put_labelled(buffer, at, b" record ", k as u64),
    }
}

// Writes a refusal's line at the start of the buffer, at most 58 bytes, and answers how long it is.
#[tactic(auto, using(crate::proofs::Texts::one_behind_another))]
pub fn put_refusal(buffer: &mut [u8], refusal: Option<Refusal>) -> usize
    requires { 64 ≤ length buffer.old }
    ensures written { buffer.new ≡ sets buffer.old 0 (refusal_text refusal) }
    ensures next_place { result ≡ length (refusal_text refusal) }
    ensures at_most { result ≤ 58 }
{
    let after = put_labelled(buffer, 0, b"refused ", number_of(refusal) as u64);
    let end = put_place(buffer, after, place_of(refusal));
    put_newline(buffer, end)
}

// ---- an accepted launch

// Writes the first line of a listing at the start of the buffer, at most 80 bytes, and answers how long it is.
#[tactic(auto, using(crate::proofs::Texts::one_behind_another))]
pub fn put_summary(buffer: &mut [u8], pages: u64, handoff: u64, blocks: u64) -> usize
    requires { 96 ≤ length buffer.old }
    ensures written { buffer.new ≡ sets buffer.old 0 (summary_text pages handoff blocks) }
    ensures next_place { result ≡ length (summary_text pages handoff blocks) }
    ensures at_most { result ≤ 80 }
{
    let after_pages = put_labelled(buffer, 0, b"pages ", pages);
    let after_handoff = put_labelled(buffer, after_pages, b" hob ", handoff);
    let after_blocks = put_labelled(buffer, after_handoff, b" blocks ", blocks);
    put_newline(buffer, after_blocks)
}

// Writes a space at `at`, and a number behind it, at most 21 bytes.
fn put_spaced(buffer: &mut [u8], at: usize, value: u64) -> usize
    requires { at + 21 ≤ length buffer.old }
    ensures written { buffer.new ≡ sets buffer.old at (spaced value) }
    ensures next_place { result ≡ at + length (spaced value) }
    ensures at_most { result ≤ at + 21 }
{
    put_labelled(buffer, at, b" ", value)
}

// Writes a page's line at the start of the buffer, at most 101 bytes, and answers how long it is.
#[tactic(auto, using(crate::proofs::Texts::one_behind_another))]
pub fn put_page(buffer: &mut [u8], p: Page) -> usize
    requires { 128 ≤ length buffer.old }
    ensures written { buffer.new ≡ sets buffer.old 0 (page_text p) }
    ensures next_place { result ≡ length (page_text p) }
    ensures at_most { result ≤ 101 }
{
    let after_address = put_hexadecimal(buffer, 0, p.address);
    let after_offset = put_spaced(buffer, after_address, p.offset as u64);
    let after_length = put_spaced(buffer, after_offset, p.length as u64);
    let after_sort = put_spaced(buffer, after_length, p.sort as u64);
    let after_measured = put_spaced(buffer, after_sort, p.measured as u64);
    put_newline(buffer, after_measured)
}

// Writes bytes at the start of the buffer, in two hexadecimal digits each, and answers where they end.
#[tactic(auto, using(crate::proofs::Bytes::sets_bytes, crate::proofs::Bytes::bytes_none))]
fn put_bytes(buffer: &mut [u8], bytes: &[u8]) -> usize
    requires { 2 * length bytes.now ≤ length buffer.old }
    ensures written { buffer.new ≡ sets buffer.old 0 (bytes_text bytes.now) }
    ensures next_place { result ≡ 2 * length bytes.now }
{
    for (k, byte) in bytes.iter().enumerate() {
        put_digits::<16>(buffer, 2 * k, 2, *byte as u64);
    }
    2 * bytes.len()
}

// Writes a measurement's line at the start of the buffer, and answers how long it is: two digits for each of the 48 bytes, and the
// newline.
#[tactic(auto, using(crate::proofs::Texts::one_behind_another))]
pub fn put_measurement(buffer: &mut [u8], measurement: &[u8; 48]) -> usize
    requires { 97 ≤ length buffer.old }
    ensures written { buffer.new ≡ sets buffer.old 0 (measurement_text measurement.now) }
    ensures next_place { result ≡ 97 }
{
    let end = put_bytes(buffer, measurement);
    put_newline(buffer, end)
}
