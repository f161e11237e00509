// The bench sheet of document 01: each row goes through the public calls, and what they answer is written.
#![tactic(auto)]

mod calls;

use crate::calls::{ask_all, audit, curve, form, list, look_all, read, replay, word_six};
use meaning::Settings;
use settings::Policy;
use std::io;

// The settings of a row.
fn with(policy: u32, capacity: u32, first: u32, second: u32) -> Settings {
    Settings {
        policy,
        capacity,
        first,
        second,
    }
}

// Writes the lists of a directory in turn, under their names.
fn named(rt: &impl Print, words: &[u32], names: &[&str]) -> io::Result<()> {
    for (which, name) in (1..5).zip(names) {
        list(rt, name, words, which)?;
    }
    Ok(())
}

// Writes the lists of a directory, and the hand of CLOCK or the target of ARC.
fn lists(rt: &impl Print, policy: u32, words: &[u32]) -> io::Result<()> {
    match Policy::try_from(policy) {
        Ok(Policy::Lru) => named(rt, words, &["list 1"]),
        Ok(Policy::Clock) => {
            named(rt, words, &["list 1"])?;
            word_six(rt, "hand", words)
        }
        Ok(Policy::Segmented) => named(rt, words, &["P", "Q"]),
        Ok(Policy::TwoQ) => named(rt, words, &["A1in", "Am", "A1out"]),
        Ok(Policy::Arc) => {
            named(rt, words, &["T1", "T2", "B1", "B2"])?;
            word_six(rt, "p", words)
        }
        Err(refusal) => println!(rt; "{refusal}"),
    }
}

// A stage of a row: asks for the pages of a trace, then writes the lists.
fn stage(rt: &impl Print, policy: u32, words: &mut [u32], trace: &[u32]) -> io::Result<()> {
    ask_all(rt, words, trace)?;
    lists(rt, policy, words)
}

// The end of a row: looks at its pages, and audits.
fn end(rt: &impl Print, words: &[u32], pages: &[u32]) -> io::Result<()> {
    look_all(rt, words, pages)?;
    audit(rt, words)
}

// A row of one stage, in a directory formed for it.
fn row(
    rt: &impl Print,
    settings: Settings,
    words: &mut [u32],
    trace: &[u32],
    pages: &[u32],
) -> io::Result<()> {
    form(rt, settings, words)?;
    stage(rt, settings.policy, words, trace)?;
    end(rt, words, pages)
}

// A trace by replay, in a directory formed for it.
fn replay_row(
    rt: &impl Print,
    settings: Settings,
    words: &mut [u32],
    trace: &[u32],
) -> io::Result<()> {
    form(rt, settings, words)?;
    replay(rt, words, trace)?;
    lists(rt, settings.policy, words)?;
    audit(rt, words)
}

// The rows are functions of one shape: they differ in the numbers that document 01 gives for each.

// S1: LRU.
fn s1(rt: &impl Print) -> io::Result<()> {
    println!(rt; "S1 LRU, C 2")?;
    let mut words = [0u32; 34];
    row(rt, with(1, 2, 0, 0), &mut words, &[7, 9, 7, 5], &[7, 9, 5])
}

// S2: the curve.
fn s2(rt: &impl Print) -> io::Result<()> {
    println!(rt; "\nS2 curve, m 5")?;
    curve(rt, &[1, 2, 3, 4, 1, 2, 5, 1, 2, 3, 4, 5])
}

// S3: CLOCK clears one mark.
fn s3(rt: &impl Print) -> io::Result<()> {
    println!(rt; "\nS3 CLOCK, C 3")?;
    let mut words = [0u32; 44];
    row(
        rt,
        with(2, 3, 0, 0),
        &mut words,
        &[1, 2, 3, 1, 4, 5],
        &[1, 2, 3, 4, 5],
    )
}

// S4: CLOCK clears every mark.
fn s4(rt: &impl Print) -> io::Result<()> {
    println!(rt; "\nS4 CLOCK, C 2")?;
    let mut words = [0u32; 34];
    row(
        rt,
        with(2, 2, 0, 0),
        &mut words,
        &[1, 2, 1, 2, 3],
        &[1, 2, 3],
    )
}

// S5: segmented LRU.
fn s5(rt: &impl Print) -> io::Result<()> {
    println!(rt; "\nS5 segmented, C 3, first 1")?;
    let mut words = [0u32; 44];
    row(
        rt,
        with(3, 3, 1, 0),
        &mut words,
        &[1, 2, 1, 2, 3, 4],
        &[1, 2, 3, 4],
    )
}

// S6: 2Q, by requests and then, formed anew in the same words, by replay.
fn s6(rt: &impl Print) -> io::Result<()> {
    println!(rt; "\nS6 2Q, C 3, Kin 1, Kout 2")?;
    let trace = [1, 2, 3, 4, 1, 4, 5, 6, 4, 7];
    let mut space = [0u32; 64];
    let words: &mut [u32] = &mut space;
    row(rt, with(4, 3, 1, 2), words, &trace, &[1, 2, 3, 4, 5, 6, 7])?;
    println!(rt; "\nS6 by replay")?;
    replay_row(rt, with(4, 3, 1, 2), words, &trace)
}

// S7: ARC in four stages.
fn s7(rt: &impl Print) -> io::Result<()> {
    println!(rt; "\nS7 ARC, C 2")?;
    let mut space = [0u32; 52];
    let words: &mut [u32] = &mut space;
    form(rt, with(5, 2, 0, 0), words)?;
    stage(rt, 5, words, &[1, 2, 1, 3, 2])?;
    stage(rt, 5, words, &[1])?;
    stage(rt, 5, words, &[4])?;
    stage(rt, 5, words, &[5])?;
    end(rt, words, &[1, 2, 3, 4, 5])
}

// S8: ARC puts out with no ghost.
fn s8(rt: &impl Print) -> io::Result<()> {
    println!(rt; "\nS8 ARC, C 2")?;
    let mut words = [0u32; 52];
    row(rt, with(5, 2, 0, 0), &mut words, &[1, 2, 3], &[1, 2, 3])
}

// S9: an empty trace.
fn s9(rt: &impl Print) -> io::Result<()> {
    println!(rt; "\nS9 empty trace: LRU, C 2, then the curve, m 5")?;
    let trace = [0u32; 1];
    let mut words = [0u32; 34];
    replay_row(rt, with(1, 2, 0, 0), &mut words, &trace[..0])?;
    curve(rt, &trace[..0])
}

// S10: CLOCK with one slot.
fn s10(rt: &impl Print) -> io::Result<()> {
    println!(rt; "\nS10 CLOCK, C 1")?;
    let mut words = [0u32; 25];
    row(rt, with(2, 1, 0, 0), &mut words, &[8, 8, 9], &[8, 9])
}

// S11: the bounds of the capacity; the refusals leave the directory of 512 as it was.
fn s11(rt: &impl Print) -> io::Result<()> {
    println!(rt; "\nS11 LRU, C 512")?;
    let mut space = [0u32; 4624];
    let words: &mut [u32] = &mut space;
    form(rt, with(1, 512, 0, 0), words)?;
    audit(rt, words)?;
    println!(rt; "LRU, C 513")?;
    form(rt, with(1, 513, 0, 0), words)?;
    println!(rt; "segmented, C 1, first 1")?;
    form(rt, with(3, 1, 1, 0), words)?;
    audit(rt, words)
}

// S12: an empty text.
fn s12(rt: &impl Print) -> io::Result<()> {
    println!(rt; "\nS12 empty text")?;
    read(rt, b"")
}

// Every row of the bench sheet in turn.
fn main(rt: HostRuntime) -> io::Result<()> {
    s1(&rt)?;
    s2(&rt)?;
    s3(&rt)?;
    s4(&rt)?;
    s5(&rt)?;
    s6(&rt)?;
    s7(&rt)?;
    s8(&rt)?;
    s9(&rt)?;
    s10(&rt)?;
    s11(&rt)?;
    s12(&rt)
}
