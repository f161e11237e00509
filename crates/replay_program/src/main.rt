// The replay program: a trace text on standard input, five lines on standard output.
#![tactic(auto)]

ghost use Rattle.std.specs.Prelude.{IfOk, ◌≡◌, ◌≤◌, length, take};
ghost use Rattle.meaning.specs.Answers.{replay_says};
ghost use Rattle.meaning.specs.Program.{finished, onward, program_room, programmed, five_lines};
ghost use Rattle.replay_program.specs.Numbers.{five_of};

use meaning::{Counts, Refusal};
use policies::{form, words_for};
use replay::replay;
use std::io;
use std::io::{Read, Write};
use text_lines::put_line;

// The numbers of the five lines.
#[derive(Clone, Copy)]
struct Five {
    refused: u32,
    line: u32,
    counts: Counts,
}

// Reads a text, forms a directory in as many words as form asks, and replays the pages in it; the first refusal ends it.
fn replay_text(text: &[u8], trace: &mut [u32], words: &mut [u32]) -> Result<Counts, Refusal>
    requires { (length trace.old ≡ program_room) × (9232 ≤ length words.old) }
    ensures { onward (replay_says result) finished ≡ programmed text.now }
{
    let head = trace_text::read(text, trace)?;
    let n = words_for(head.settings)?;
    let directory = &mut words[..n as usize];
    form(head.settings, directory)?;
    replay(directory, &trace[..head.count as usize])
}

// The numbers of the five lines: a refusal's number and the line that it carries, or the counts; unused numbers are 0.
fn numbers(played: Result<Counts, Refusal>) -> Five
    ensures { five_of result ≡ onward (replay_says played) finished }
{
    match played {
        Ok(counts) => Five {
            refused: 0,
            line: 0,
            counts,
        },
        Err(refusal) => Five {
            refused: refusal.number(),
            line: refusal.carried(),
            counts: Counts {
                hits: 0,
                loads: 0,
                swaps: 0,
            },
        },
    }
}

// Writes the five lines at the front of a buffer that they always fit in, and gives their length: five calls, since a loop over pairs of a key and a number is longer.
#[tactic(auto, using(crate::proofs::Writing::line_short))]
fn write_five(five: Five, out: &mut [u8; 96]) -> usize
    ensures { (take result out.new ≡ five_lines (five_of five)) × (result ≤ length out.new) }
{
    let a = put_line(out, 0, b"refused=", five.refused);
    let b = put_line(out, a, b"line=", five.line);
    let c = put_line(out, b, b"hits=", five.counts.hits);
    let d = put_line(out, c, b"loads=", five.counts.loads);
    put_line(out, d, b"swaps=", five.counts.swaps)
}

// The whole program, from the text that was read to the bytes that are written: their length, at the front of a buffer that they always fit in, as there is no heap.
fn answer(text: &[u8], out: &mut [u8; 96]) -> usize
    ensures { (take result out.new ≡ five_lines (programmed text.now)) × (result ≤ length out.new) }
{
    let mut trace = [0u32; 9362];
    let mut words = [0u32; 9232];
    let played = replay_text(text, &mut trace, &mut words);
    write_five(numbers(played), out)
}

// Fills the buffer from its front with what is read, up to its end or the input's, and gives how many bytes that are.
// A loop by hand: no heap for read_to_end, read_exact does not tell how many bytes came before the end, and copy reads again where this fails.
fn read_full(input: &mut impl Read, text: &mut [u8]) -> io::Result<usize>
    ensures { IfOk result (λ n. n ≤ length text.new) }
{
    let mut done = 0;
    while done < text.len() {
        let n = input.read(&mut text[done..])?;
        if n == 0 {
            break;
        }
        done += n;
    }
    Ok(done)
}

// Reads standard input as far as the byte that makes a text too long, and writes the five lines.
fn main(rt: HostRuntime) -> io::Result<()> {
    let mut text = [0u8; 65536];
    let n = read_full(&mut rt.stdin(), &mut text)?;
    let mut out = [0u8; 96];
    let k = answer(&text[..n], &mut out);
    rt.stdout().write_all(&out[..k])
}
