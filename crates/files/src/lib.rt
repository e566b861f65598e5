// What the programs share: reading the two files that a launch is made of, and printing a line.
//
// No contract can say what a file gives or a terminal takes. What a writer is handed the printers' contracts say: where they answer `Ok`,
// the bytes that the writer holds have grown by the line.

#![tactic(auto)]

ghost use Rattle.std.specs.Prelude.{◌≡◌, ◌≤◌, ◌⊎◌, OnOk, length};
ghost use Rattle.std.specs.Io.KnownBytes.{Appends};
ghost use Rattle.io.specs.Counts.{IsPrefixLen};
ghost use Rattle.text.specs.Text.{refusal_text, measurement_text};
ghost use Rattle.files.specs.Inputs.{too_long};

use std::fs::File;
use std::io;
use std::io::{Read, Write};
use std::rt::Files;
use verdict::Refusal;

// The file with this name, if it can be opened. A name that is not UTF-8 names no file that can.
fn open<R: Files>(rt: &R, path: &[u8]) -> Option<R::File> {
    let name = str::from_utf8(path).ok()?;
    File::open(rt, name).ok()
}

// Reads until the buffer is full, the file ends or a read fails, and answers how many bytes it read.
// A `while`, and no `for`: what ends it is a read's answer, and std's `read_exact` does not say how far it came.
fn read_full<R: Read>(file: &mut R, buffer: &mut [u8]) -> usize
    ensures { IsPrefixLen result buffer.new }
{
    let mut done = 0;
    while done < buffer.len() {
        let Ok(count) = file.read(&mut buffer[done..]) else {
            break;
        };
        if count == 0 {
            break;
        }
        done += count;
    }
    done
}

// Reads a file as far as the buffer goes, and answers the part that it read. A file that can't be opened counts as empty.
pub fn read_file<'a, R: Files>(rt: &R, path: &[u8], buffer: &'a mut [u8]) -> &'a [u8]
    ensures { length result.now ≤ length buffer.entry.now }
{
    let Some(mut file) = open(rt, path) else {
        return &buffer[..0];
    };
    let count = read_full(&mut file, buffer);
    &buffer[..count]
}

// Writes a line, whole.
pub fn print_line<W: Write>(out: &mut W, line: &[u8]) -> io::Result<()>
    ensures { OnOk result (Appends (W.contents out.old) (W.contents out.new) line.now) }
{
    out.write_all(line)
}

// Writes a refusal's line.
#[tactic(auto, using(crate::proofs::Line::line_written))]
pub fn print_refusal<W: Write>(out: &mut W, refusal: Option<Refusal>) -> io::Result<()>
    ensures { OnOk result (Appends (W.contents out.old) (W.contents out.new) (refusal_text refusal)) }
{
    let mut line = [0u8; 64];
    let count = text::put_refusal(&mut line, refusal);
    print_line(out, &line[..count])
}

// Writes a measurement's line.
#[tactic(auto, using(crate::proofs::Line::line_written, text::proofs::Texts::one_behind_another))]
pub fn print_measurement<W: Write>(out: &mut W, measurement: &[u8; 48]) -> io::Result<()>
    ensures { OnOk result (Appends (W.contents out.old) (W.contents out.new) (measurement_text measurement.now)) }
{
    let mut line = [0u8; 97];
    let count = text::put_measurement(&mut line, measurement);
    print_line(out, &line[..count])
}

// Reads `image.bin` and `map.bin` in the folder that the program is started in, and runs it on them. An image above 65,536 bytes prints
// `too long` and nothing else. Either the answer is `run`'s on some image and map, and nothing is written to `out`, or that line is.
//
// The image's buffer has a byte more than an image may have, so that one too long is seen. A map of 64 records has 1,536 bytes,
// and one that the map's buffer cuts short has too many records either way.
pub fn with_inputs<R: Files, W: Write, F: FnOnce(&[u8], &[u8]) -> io::Result<()>>(
    rt: &R,
    out: &mut W,
    run: F,
) -> io::Result<()>
    requires { (image : _) (map : _) → length image.now ≤ 65536 → length map.now ≤ 4096 → F.pre run image map }
    ensures { ((image : _) × (map : _) × (length image.now ≤ 65536) × (length map.now ≤ 4096) × F.post run image map result × (out.new ≡ out.old))
        ⊎ OnOk result (Appends (W.contents out.old) (W.contents out.new) too_long) }
{
    let mut image_buffer = [0u8; 65537];
    let image = read_file(rt, b"image.bin", &mut image_buffer);
    if 65536 < image.len() {
        return print_line(out, b"too long\n");
    }
    let mut map_buffer = [0u8; 4096];
    let map = read_file(rt, b"map.bin", &mut map_buffer);
    run(image, map)
}
