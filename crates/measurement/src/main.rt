// Reads `image.bin` and `map.bin` in the folder that it is started in, and prints the measurement of a launch of them at width 48, or
// the refusal's line. An image above 65,536 bytes prints `too long` and nothing else.
//
// `main` reads, calls and writes; each line is made by a function of `text`, whose contract says which it is.

#![tactic(auto)]

use files::{print_measurement, print_refusal, with_inputs};
use launch::Answer;
use std::io;
use std::io::Write;

fn print_answer<W: Write>(out: &mut W, answer: Answer) -> io::Result<()> {
    if answer.refusal.is_some() {
        return print_refusal(out, answer.refusal);
    }
    let measurement = answer.measurement;
    print_measurement(out, &measurement)
}

fn print_launch<W: Write>(out: &mut W, image: &[u8], map: &[u8]) -> io::Result<()> {
    let mut plan = [0u8; 65536];
    let mut handoff = [0u8; 8192];
    print_answer(out, launch::launch(image, map, 48, &mut plan, &mut handoff))
}

fn main(rt: HostRuntime) -> io::Result<()> {
    with_inputs(
        &rt,
        &mut io::writer(&rt),
        |image, map| print_launch(&mut io::writer(&rt), image, map),
    )
}
