// The top call: reads the words and does what they ask for.

ghost use Rattle.std.specs.Prelude.{◌≡◌, ◌≤◌, ◌⊎◌, ◌↔◌, ℕ, List, map, None, IfOk, IfErr, string_bytes};
ghost use Rattle.turbomap.specs.declared.status.Status.{Status};
ghost use Rattle.turbomap.specs.Command.{stored, around, Runs};
ghost use Rattle.turbomap.specs.Prepared.{IsReady, HasCause};
ghost use Rattle.turbomap.specs.Run.{number, command_of, IsRun, Answers, IsToldLong, IsToldRefused, IsToldAccepted, IsFaultless};
ghost use Rattle.turbomap.specs.Words.{seen, asked_of};

use crate::bound_file::prepare_bound;
use crate::check_files::prepare_check;
use crate::deliver::deliver;
use crate::large::make_large;
use crate::line::BAD_WORDS;
use crate::map_file::prepare_map;
use crate::reading::Reading;
use crate::ready::Ready;
use crate::refusal::Refusal;
use crate::say::tell;
use crate::show_file::prepare_show;
use crate::sim_files::prepare_sim;
use crate::status::{Status, number_of};
use crate::words::reading_of;
use std::alloc::Global;
use tm_store::{Say, Store};

/// Does what the words ask for, with the files of a store, and says how it ended: the answer is the exit status
/// of the program.
pub fn run<S: Store, W: Say>(alloc: Global, words: &[String], store: &mut S, say: &mut W) -> u8
    // What was done, what the files hold and what was said, by the status.
    ensures answers { Answers (asked_of (map string_bytes words.now))
        (around S.held S.read_faults S.write_faults W.said W.faults store.old store.new say.old say.new) result }

    // Words are refused exactly where they have no reading.
    ensures words { (result ≡ 2) ↔ (asked_of (map string_bytes words.now) ≡ None) }

    // Where a longer file is told, or texts for which too much is to be made, nothing else is answered but a read's failure.
    ensures long { IsToldLong (asked_of (map string_bytes words.now)) (S.held store.old)
        → (result ≡ 1) ⊎ ((result ≡ 3) ⊎ (result ≡ 6)) }

    // Where texts are told that are refused with a status, nothing else is answered but a read's failure.
    ensures refused { (status : Status) → IsToldRefused (asked_of (map string_bytes words.now)) (S.held store.old) status
        → (result ≡ 1) ⊎ ((result ≡ 3) ⊎ (result ≡ number status)) }

    // What can be done is done, but for want of memory, where no fault of a file or of the sayer is counted.
    ensures complete { IsToldAccepted (asked_of (map string_bytes words.now)) (S.held store.old)
        → IsFaultless (asked_of (map string_bytes words.now))
        (around S.held S.read_faults S.write_faults W.said W.faults store.old store.new say.old say.new)
        → (result ≡ 0) ⊎ (result ≡ 1) }
{
    number_of(run_words(alloc, words, store, say))
}

// Does what the words ask for.
fn run_words<S: Store, W: Say>(
    alloc: Global,
    words: &[String],
    store: &mut S,
    say: &mut W,
) -> Status
    ensures { IsRun (asked_of (map string_bytes words.now))
        (around S.held S.read_faults S.write_faults W.said W.faults store.old store.new say.old say.new) result }
{
    match reading_of(words) {
        None => {
            tell(say, BAD_WORDS);
            Status::BadWords
        }
        Some(reading) => run_command(alloc, reading, store, say),
    }
}

// Does what a command asks for: what it makes of its files is delivered, or why nothing is made is said.
fn run_command<S: Store, W: Say>(
    alloc: Global,
    reading: Reading<'_>,
    store: &mut S,
    say: &mut W,
) -> Status
    ensures { Runs (command_of (seen reading.entry))
        (around S.held S.read_faults S.write_faults W.said W.faults store.old store.new say.old say.new) result }
{
    match prepare(alloc, reading, store) {
        Ok(ready) => deliver(ready, store, say),
        Err(refusal) => {
            tell(say, refusal.line());
            refusal.status()
        }
    }
}

// All of a command that comes before its first write: the reads, the work and every line that may be said.
fn prepare<'a, S: Store>(
    alloc: Global,
    reading: Reading<'a>,
    store: &mut S,
) -> Result<Ready<'a>, Refusal>
    ensures ready { IfOk result (IsReady (command_of (seen reading.entry)) (S.held store.old)) }
    ensures refused { IfErr result
        (HasCause (command_of (seen reading.entry)) (stored S.held S.read_faults S.write_faults store.old store.new)) }
    ensures same { S.held store.new ≡ S.held store.old }
    ensures write_counts { (n : List ℕ) → S.write_faults store.old n ≤ S.write_faults store.new n }
{
    match reading {
        Reading::Map(words) => prepare_map(alloc, words, store),
        Reading::Check(words) => prepare_check(alloc, words, store),
        Reading::Sim(words) => prepare_sim(alloc, words, store),
        Reading::Show(input) => prepare_show(alloc, input, store),
        Reading::Large(words) => make_large(alloc, words),
        Reading::Bound(words) => prepare_bound(alloc, words, store),
    }
}
