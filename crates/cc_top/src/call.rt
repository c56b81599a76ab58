// The top call.
ghost use Rattle.std.specs.Prelude.{◌≡◌, ◌⊎◌, ◌<◌, ℕ, IfSome, map, string_bytes};
ghost use Rattle.cc_io.specs.Count.{Rose};
ghost use Rattle.cc_io.specs.Sink.{GrowsByPrefix};
ghost use Rattle.cc_top.specs.Counts.{counts_of};
ghost use Rattle.cc_top.specs.Ends.{held_of};
ghost use Rattle.cc_top.specs.Refusal.{line_of, memory_line, status_of, usage_line};
ghost use Rattle.cc_top.specs.Run.{Answers, Covers, RefusesReached, SomeEnd};
ghost use Rattle.cc_top.specs.Told.{Reported, Told};
ghost use Rattle.cc_top.specs.Words.{IsNoCommand, gen_words};

use crate::refusal::Refusal;
use crate::steps::text_for;
use cc_first_runs::laws::listed_leaves_none_out;
use cc_io::{Shelf, Sink, SinkFault};
use std::alloc::Global;

// Puts a line, and answers the status that this gives.
fn tell<E: Sink>(err: &mut E, line: &[u8], status: u8) -> u8
    ensures { Told line.now status (E.held err.old) (E.held err.new)
        (E.faults err.old) (E.faults err.new) result }
{
    match err.put(line) {
        Ok(()) => status,
        Err(SinkFault::Failed) => 4,
        Err(SinkFault::Memory) => 5,
    }
}

// Puts a line whatever comes of it.
fn tell_last<E: Sink>(err: &mut E, line: &[u8])
    ensures { GrowsByPrefix (E.held err.old) (E.held err.new) line.now }
{
    let _ = err.put(line);
}

fn tell_memory<E: Sink>(err: &mut E) -> u8
    ensures { Told memory_line 5 (E.held err.old) (E.held err.new)
        (E.faults err.old) (E.faults err.new) result }
{
    tell(err, b"out of memory\n", 5)
}

// Puts a refusal's line, or that memory is wanting.
fn report<E: Sink>(alloc: Global, err: &mut E, refusal: &Refusal) -> u8
    ensures { Reported (line_of refusal.now) (status_of refusal.now) (E.held err.old) (E.held err.new)
        (E.faults err.old) (E.faults err.new) result }
{
    match refusal.line(alloc) {
        Ok(line) => tell(err, line.as_bytes(), refusal.status()),
        Err(_) => tell_memory(err),
    }
}

/// Answers the words of a command line over the files of the shelf: the text goes to `out` in one put, or one line to
/// `err` that says why there is none. The answer is the status: 0 done, 1 done where a criterion that `score` or `gen`
/// judges is not met, 2 the words are no command, 3 the input is refused, 4 a fault of the shelf or of a sink, 5 want of memory.
///
/// Whatever is read is read from the shelf by the names that the words, the project file and `include` lines give. `gen` reads
/// nothing from it: it makes its files itself.
pub fn run<S: Shelf, K: Sink, E: Sink>(
    alloc: Global,
    words: &[String],
    shelf: &mut S,
    out: &mut K,
    err: &mut E,
) -> u8
    // Over a shelf that tells its files, a status below 4 is the answer's, with the answer's bytes, whatever counts rose.
    ensures told { IfSome (S.files shelf.old) (λ files. Answers (map string_bytes words.now) files
        (K.held out.old) (K.held out.new) (E.held err.old) (E.held err.new) result) }

    // A project file, or one of its files that the reading reaches, that is missing or too long is what is refused, where the
    // status is below 4.
    ensures reached { IfSome (S.files shelf.old) (λ files.
        RefusesReached (map string_bytes words.now) files
        (K.held out.old) (K.held out.new) (E.held err.old) (E.held err.new) result) }

    // Soundness of `list`: where the status is 0, an out that tells its bytes has the table of a program that the files make, and each
    // call coupling that any run of this program exercises, whatever calls of the entry and turns, has its line in it.
    ensures sound { IfSome (S.files shelf.old) (λ files. Covers (map string_bytes words.now) files
        (K.held out.old) (K.held out.new) result) }

    // Some end says what stands on out and err, and which count rose. Over a told shelf its text or refusal is the answer's,
    // and a read fault names a file that may be read.
    ensures ends { SomeEnd (S.files shelf.old) (map string_bytes words.now)
        (held_of (K.held out.old) (K.faults out.old)) (held_of (K.held out.new) (K.faults out.new))
        (held_of (E.held err.old) (E.faults err.old)) (held_of (E.held err.new) (E.faults err.new))
        (counts_of (S.faults shelf.old) (S.misses shelf.old) (S.longs shelf.old))
        (counts_of (S.faults shelf.new) (S.misses shelf.new) (S.longs shelf.new)) result }

    // The status is at most 5, and 4 only where a count of faults rose.
    ensures most { result < 6 }
    ensures fault { result ≡ 4 →
        (Rose (S.faults shelf.old) (S.faults shelf.new)
        ⊎ Rose (K.faults out.old) (K.faults out.new))
        ⊎ Rose (E.faults err.old) (E.faults err.new) }

    // The shelf's files stay as they are.
    ensures keeps { S.files shelf.new ≡ S.files shelf.old }

    // Words that are no command read nothing, whatever the shelf is.
    ensures usage { IsNoCommand (map string_bytes words.now) →
        (shelf.new ≡ shelf.old) × (out.new ≡ out.old)
        × Reported usage_line 2 (E.held err.old) (E.held err.new)
        (E.faults err.old) (E.faults err.new) result }
    ensures not_usage { result ≡ 2 → IsNoCommand (map string_bytes words.now) }

    // Words that ask for a generated project read nothing either.
    ensures apart { (n : ℕ) → map string_bytes words.now ≡ gen_words n → shelf.new ≡ shelf.old }
{
    // The law that `sound` rests on.
    listed_leaves_none_out();
    let output = match text_for(alloc, words, shelf) {
        Ok(output) => output,
        Err(refusal) => return report(alloc, err, &refusal),
    };
    match out.put(&output.text) {
        Ok(()) => output.status(),
        Err(SinkFault::Failed) => {
            tell_last(err, b"write fault\n");
            4
        }
        Err(SinkFault::Memory) => tell_memory(err),
    }
}
