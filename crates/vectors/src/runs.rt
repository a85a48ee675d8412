// A whole run: a description, and event after event on its fresh bench, each with its line and its
// report.
use crate::benches::{print_bench, print_counters, print_report};
use crate::print;
use crate::token::{INPUT, Tokens};
use bench::Bench;
use counters::Counters;
use event::{Event, letter_of, read_event, size_of};
use lines::Line;
use refusal::Refusal;
use std::io;
use turn::{Done, received_by, refusal_of, verdict_of};

// An event's line is shorter.
const LINE: usize = 40;

fn print_line(rt: &impl Print, l: Line) -> io::Result<()> {
    let mut line = [0u8; LINE];
    let end = lines::put_line(&mut line, 0, l);
    rt.write_all(&line[..end])
}

// The event's line, and the report if it was accepted.
fn print_event(
    rt: &impl Print,
    number: u32,
    e: Event,
    answer: Result<Done, Refusal>,
    flying: usize,
) -> io::Result<()> {
    print_line(
        rt,
        Line {
            number,
            letter: letter_of(e),
            refusal: refusal_of(answer),
            verdict: verdict_of(answer),
            received: received_by(answer),
            flying: (flying % 0x1_0000) as u16,
        },
    )?;
    match answer {
        Ok(done) => print_report(rt, done),
        Err(_) => Ok(()),
    }
}

// The events from a place on; a bad record ends the run. Each event takes at least one byte of the input.
fn run_from(
    rt: &impl Print,
    input: &[u8],
    start: usize,
    bench: &mut Bench,
    counters: &mut Counters,
) -> io::Result<()> {
    let mut at = start;
    let mut number: u32 = 1;
    for _ in 0..input.len() {
        if input.len() <= at {
            break;
        }
        let Ok(e) = read_event(input, at) else {
            return println!(rt; "stop 20");
        };
        let answer = counters::event(bench, e, counters);
        print_event(rt, number, e, answer, bench.flying)?;
        at = at.saturating_add(size_of(e));
        number = number.wrapping_add(1);
    }
    Ok(())
}

pub(crate) fn run(rt: &impl Print, line: Tokens<'_>) -> io::Result<()> {
    let mut room = [0; INPUT];
    let Some(long) = line.whole_input(&mut room) else {
        return print::unreadable(rt);
    };
    let input = &room[..long];
    let described = match network::read(input) {
        Ok(described) => described,
        Err(why) => return print::refused(rt, why),
    };
    // What was read is a network that the writer accepts.
    let mut bench = match Bench::fresh(&described.network) {
        Ok(bench) => bench,
        Err(why) => return print::refused(rt, why),
    };
    let mut counters = Counters::zero();
    run_from(rt, input, described.end, &mut bench, &mut counters)?;
    print_bench(rt, &bench)?;
    print_counters(rt, &counters)
}
