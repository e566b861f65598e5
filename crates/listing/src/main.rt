// Reads `image.bin` and `map.bin` in the folder that it is started in, and prints what a launch of them at width 48 answers: the
// refusal's line, or the listing of page 01, "A launch in full". An image above 65,536 bytes prints `too long` and nothing else.
//
// `main` reads, calls and writes; each line is made by a function of `text`, whose contract says which it is.

#![tactic(auto)]

ghost use Rattle.std.specs.Prelude.{◌≤◌};

use files::{print_line, print_refusal, with_inputs};
use launch::Answer;
use plan::Page;
use std::io;
use std::io::Write;

fn print_summary<W: Write>(out: &mut W, pages: u64, handoff: u64, blocks: u64) -> io::Result<()> {
    let mut line = [0u8; 96];
    let count = text::put_summary(&mut line, pages, handoff, blocks);
    print_line(out, &line[..count])
}

fn print_page<W: Write>(out: &mut W, page: Page) -> io::Result<()> {
    let mut line = [0u8; 128];
    let count = text::put_page(&mut line, page);
    print_line(out, &line[..count])
}

// The lines of the plan's first records. No launch plans more than 4,096 pages.
fn print_pages<W: Write>(out: &mut W, plan: &[u8], pages: u64) -> io::Result<()>
    requires { pages ≤ 4096 }
{
    for index in 0..pages {
        print_page(out, measure::page_at(plan, index as usize))?;
    }
    Ok(())
}

fn print_answer<W: Write>(out: &mut W, answer: Answer, plan: &[u8]) -> io::Result<()>
    requires { answer.pages ≤ 4096 }
{
    if answer.refusal.is_some() {
        return print_refusal(out, answer.refusal);
    }
    print_summary(out, answer.pages, answer.handoff, answer.blocks)?;
    print_pages(out, plan, answer.pages)
}

fn print_launch<W: Write>(out: &mut W, image: &[u8], map: &[u8]) -> io::Result<()> {
    let mut plan = [0u8; 65536];
    let mut handoff = [0u8; 8192];
    let answer = launch::launch(image, map, 48, &mut plan, &mut handoff);
    print_answer(out, answer, &plan)
}

fn main(rt: HostRuntime) -> io::Result<()> {
    with_inputs(
        &rt,
        &mut io::writer(&rt),
        |image, map| print_launch(&mut io::writer(&rt), image, map),
    )
}
