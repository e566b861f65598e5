// Reads `image.bin` and `map.bin` in the folder that it is started in, and measures a launch of them at width 48 in turns of 1, of 5
// and of 1,000 blocks at most. For each it prints a line with the quota, the turns and the blocks that they reported, and the measurement
// below it. A refused launch prints the refusal's line, and an image above 65,536 bytes `too long` and nothing else.

#![tactic(auto)]

ghost use Rattle.std.specs.Prelude.{◌≤◌, length};

use files::{print_line, print_measurement, print_refusal, with_inputs};
use measure::{Progress, turn};
use std::io;
use std::io::Write;

// What turns to the end came to.
#[derive(Clone, Copy)]
struct Run {
    turns: u64,
    blocks: u64,
    measurement: [u8; 48],
}

// Measures to the end, and counts what the turns report. A turn that does nothing (24, 27) would do nothing again.
// A `while`, and no `for`: what ends it is a turn's answer, and no count of turns is known before it.
fn finish(start: Progress, image: &[u8], plan: &[u8], quota: u64) -> Run {
    let mut state = start;
    let mut turns: u64 = 0;
    let mut blocks: u64 = 0;
    let mut measurement = [0u8; 48];
    while state.done < state.total {
        let turned = turn(state, image, plan, quota);
        if turned.blocks == 0 {
            break;
        }
        turns += 1;
        blocks += turned.blocks;
        state = turned.next;
        measurement = turned.measurement;
    }
    Run {
        turns,
        blocks,
        measurement,
    }
}

fn print_labelled<W: Write>(out: &mut W, label: &[u8], value: u64) -> io::Result<()>
    requires { length label.now ≤ 8 }
{
    let mut line = [0u8; 28];
    let count = text::put_labelled(&mut line, 0, label, value);
    print_line(out, &line[..count])
}

fn print_run<W: Write>(out: &mut W, quota: u64, run: Run) -> io::Result<()> {
    print_labelled(out, b"quota ", quota)?;
    print_labelled(out, b" turns ", run.turns)?;
    print_labelled(out, b" blocks ", run.blocks)?;
    print_line(out, b"\n")?;
    let measurement = run.measurement;
    print_measurement(out, &measurement)
}

fn print_runs<W: Write>(out: &mut W, start: Progress, image: &[u8], plan: &[u8]) -> io::Result<()> {
    if start.refusal.is_some() {
        return print_refusal(out, start.refusal);
    }
    for quota in [1, 5, 1000] {
        print_run(out, quota, finish(start, image, plan, quota))?;
    }
    Ok(())
}

fn print_launch<W: Write>(out: &mut W, image: &[u8], map: &[u8]) -> io::Result<()> {
    let mut plan = [0u8; 65536];
    let mut handoff = [0u8; 8192];
    let begun = launch::begin(image, map, 48, &mut plan, &mut handoff);
    print_runs(out, begun.progress, image, &plan)
}

fn main(rt: HostRuntime) -> io::Result<()> {
    with_inputs(
        &rt,
        &mut io::writer(&rt),
        |image, map| print_launch(&mut io::writer(&rt), image, map),
    )
}
