// The public calls, each with its answer written as a line.
use meaning::{Refusal, Settings};
use std::{fmt, io};

// Writes what a call answered, and ends the line.
fn show<T: fmt::Display + Drop>(rt: &impl Print, answer: Result<T, Refusal>) -> io::Result<()> {
    match answer {
        Ok(given) => println!(rt; "{given}"),
        Err(refusal) => println!(rt; "{refusal}"),
    }
}

// Writes a line of numbers under a name.
fn line(rt: &impl Print, name: &str, numbers: &[u32]) -> io::Result<()> {
    print!(rt; "{name}:")?;
    for n in numbers {
        print!(rt; " {n}")?;
    }
    println!(rt)
}

// Forms a directory; writes the length asked, and the answer.
pub(crate) fn form(rt: &impl Print, settings: Settings, words: &mut [u32]) -> io::Result<()> {
    print!(rt; "words_for: ")?;
    show(rt, policies::words_for(settings))?;
    print!(rt; "form: ")?;
    show(rt, policies::form(settings, words).map(|_| "done"))
}

// Asks for the pages of a trace in turn.
pub(crate) fn ask_all(rt: &impl Print, words: &mut [u32], trace: &[u32]) -> io::Result<()> {
    for &page in trace {
        print!(rt; "{page}: ")?;
        show(rt, policies::request(words, page))?;
    }
    Ok(())
}

// Looks at pages in turn.
pub(crate) fn look_all(rt: &impl Print, words: &[u32], pages: &[u32]) -> io::Result<()> {
    for &page in pages {
        print!(rt; "look {page}: ")?;
        show(rt, policies::look(words, page))?;
    }
    Ok(())
}

// Writes the pages of a list, front first, under its name, or the refusal.
pub(crate) fn list(rt: &impl Print, name: &str, words: &[u32], which: u32) -> io::Result<()> {
    let mut result = [0u32; 8];
    match policies::report(words, which, &mut result) {
        Ok(n) => line(rt, name, &result[..n as usize]),
        Err(refusal) => println!(rt; "{name}: {refusal}"),
    }
}

// Writes word 6, the hand or the target, under its name; nothing of words too few to have one.
pub(crate) fn word_six(rt: &impl Print, name: &str, words: &[u32]) -> io::Result<()> {
    match words.get(6) {
        Some(word) => println!(rt; "{name}: {word}"),
        None => Ok(()),
    }
}

// Writes whether the words are a sound directory.
pub(crate) fn audit(rt: &impl Print, words: &[u32]) -> io::Result<()> {
    if sound::audit(words) {
        println!(rt; "audit: sound")
    } else {
        println!(rt; "audit: not sound")
    }
}

// Replays a trace and writes the counts.
pub(crate) fn replay(rt: &impl Print, words: &mut [u32], trace: &[u32]) -> io::Result<()> {
    print!(rt; "replay: ")?;
    show(rt, replay::replay(words, trace))
}

// Takes the curve of a trace for capacities 1 to 5, into words that stood at 9, and writes both buffers.
pub(crate) fn curve(rt: &impl Print, trace: &[u32]) -> io::Result<()> {
    let mut result = [9u32; 5];
    let mut work = [9u32; 5];
    print!(rt; "curve: ")?;
    show(
        rt,
        replay::curve(5, trace, &mut result, &mut work).map(|_| "done"),
    )?;
    line(rt, "result", &result)?;
    line(rt, "work", &work)
}

// Reads a trace text into two words that stood at 9; writes the answer and the words.
pub(crate) fn read(rt: &impl Print, text: &[u8]) -> io::Result<()> {
    let mut trace = [9u32; 2];
    print!(rt; "read: ")?;
    show(rt, trace_text::read(text, &mut trace))?;
    line(rt, "trace", &trace)
}
