//! The top call.
ghost use Rattle.std.specs.Prelude.{◌≡◌, ◌⊎◌, ◌<◌, [], List, ℕ, length, map, string_bytes};
ghost use Rattle.api_gate.specs.inner.Decisions.{IsFew, IsFinding, outcome_of};
ghost use Rattle.api_gate.specs.runs.Clients.{KeepsClients};
ghost use Rattle.api_gate.specs.runs.Effects.{Failed, NeverFell, Took, change, effects};
ghost use Rattle.api_gate.specs.runs.Outcomes.{ChecksAtMost};
ghost use Rattle.api_gate.specs.runs.Runs.{Ends, IsComplete, MayWrite};
ghost use Rattle.api_words.specs.Words.{AreBad, IsRequest};

use crate::laws::{clients_kept, one_outcome};
use crate::reports::decision::Decision;
use crate::reports::deliver::deliver;
use crate::requests::{on_files, on_made};
use crate::status::Status;
use api_words::request::Request;
use api_words::words::read_words;
use go_base::memory::NoMemory;
use go_base::steps::Steps;
use go_outside::files::Files;
use go_outside::gate::Gate;
use go_outside::sink::Sink;
use std::alloc::Global;
use std::thread::Threads;

// What a request decides.
fn on_request<R: Threads + Sync, F: Files, G: Gate + Sync, L: Copy + Send>(
    rt: &R,
    alloc: Global,
    files: &mut F,
    request: &Request,
    gate: &G,
    steps: &mut Steps<L>,
) -> Decision
    requires platforms { 0 < length request.now.platforms }
    requires few { IsFew request.now.made }
    requires client { IsFinding request.now.mode request.now.client }
    ensures written { (words : List (List ℕ)) → IsRequest words request.now
        → MayWrite words (change F.told F.faults files.old files.new) (outcome_of result) }
    ensures same { F.told files.new ≡ F.told files.old }
    ensures count { NeverFell (change F.told F.faults files.old files.new) }
    ensures steps { (words : List (List ℕ)) → IsRequest words request.now → ChecksAtMost words (F.told files.old) steps.old steps.new }
{
    match request.made {
        None => on_files(rt, alloc, files, request, gate, steps),
        Some(made) => on_made(rt, alloc, made, request, gate, steps),
    }
}

// What a run is to write.
fn decide<R: Threads + Sync, F: Files, G: Gate + Sync, L: Copy + Send>(
    rt: &R,
    alloc: Global,
    words: &[String],
    files: &mut F,
    gate: &G,
    steps: &mut Steps<L>,
) -> Decision
    ensures written { MayWrite (map string_bytes words.now) (change F.told F.faults files.old files.new) (outcome_of result) }
    ensures same { F.told files.new ≡ F.told files.old }
    ensures count { NeverFell (change F.told F.faults files.old files.new) }
    ensures steps { ChecksAtMost (map string_bytes words.now) (F.told files.old) steps.old steps.new }
{
    match read_words(alloc, words) {
        Err(NoMemory) => Decision::NoMemory,
        Ok(None) => Decision::Words,
        Ok(Some(request)) => on_request(rt, alloc, files, &request, gate, steps),
    }
}

/// Runs the gate on these words, which are those after the program's name: the report goes to
/// `out`, a fault line to `err`, in pieces of at most 65,536 bytes, none of them empty.
///
/// The report of `features` is the feature lines of the new tree; that of `frozen` the lines that it lost and gained
/// against frozen lines; that of `judge` what is broken on each platform where the new tree takes the place of the old one, how much was
/// left out of both, and the class of the release; that of `advise` how much was left out, the class and the version that follows the last
/// one; that of `gate` what `frozen` and `judge` tell, and that version; that of `skipped` what was left out of the new tree; that of `vet` whether
/// a client is typed over the new tree, and in the profile. In mode `make` both trees are the generator's, and nothing is asked of the store: the
/// report is how many packages and feature lines they have and how much is broken, and the class.
///
/// The status is `Words` exactly where the words aren't good. Else it is `Refused` where the trees, the folder of a client, the files of frozen lines
/// or, platform by platform and the old tree before the new one, the packages or a client's files are refused, or the last version isn't a
/// release or none can follow it. Else it is `Broken` where `frozen` or `gate` tells a lost line, `judge` or `gate` what is
/// broken, or `vet` a client that is untyped, and else `Pass`. In place of these may come `ReadFault`, only where the store failed and never in mode `make`,
/// and `NoMemory`, at any time; and in place of all `WriteFault`, only where a sink failed. The hook hears of each
/// package right before it is checked, as of worker 0 or, where several share the packages of a tree, of the worker's number among them, and the counter rises by one for each.
/// A package that stands as it is in the old tree, or on the platform that was looked at before, with all that it imports, is taken over from there and isn't checked; where several
/// workers look at one platform, all are checked. As many workers as the words give look at platforms at once and, where there are more of them than platforms, at both trees and at
/// packages that don't need each other. None of these clauses speaks of their number: a run ends with the same report by any.
pub fn run<R: Threads + Sync, F: Files, S: Sink, E: Sink, G: Gate + Sync, L: Copy + Send>(
    rt: &R,
    alloc: Global,
    words: &[String],
    files: &mut F,
    out: &mut S,
    err: &mut E,
    gate: &G,
    steps: &mut Steps<L>,
) -> Status
    // What the definitions give for the words over this store is delivered; or that the store failed, where it did; or
    // that no memory was left.
    ensures outcome { Ends (map string_bytes words.now)
        (effects (change F.told F.faults files.old files.new) (change S.told S.faults out.old out.new)
        (change E.told E.faults err.old err.new)) result }
    // Where the store tells its files and nothing failed, what the definitions give for them was written
    // whole, or no memory was left.
    ensures complete { IsComplete (map string_bytes words.now)
        (effects (change F.told F.faults files.old files.new) (change S.told S.faults out.old out.new)
        (change E.told E.faults err.old err.new)) result }

    // Each of these statuses has its cause, and after bad words nothing is on the output.
    ensures words { result ≡ Status.Words → AreBad (map string_bytes words.now) }
    ensures bad_words { AreBad (map string_bytes words.now)
        → ((result ≡ Status.Words) ⊎ (result ≡ Status.WriteFault) ⊎ (result ≡ Status.NoMemory))
        × Took (change S.told S.faults out.old out.new) [] }
    ensures read { result ≡ Status.ReadFault → Failed (change F.told F.faults files.old files.new) }
    ensures write { result ≡ Status.WriteFault → Failed (change S.told S.faults out.old out.new)
        ⊎ Failed (change E.told E.faults err.old err.new) }

    // What the store tells stays, no count of faults falls, and at most the packages of both trees on all platforms together are
    // checked, or those of the module and those that it and a client reach.
    ensures same { F.told files.new ≡ F.told files.old }
    ensures store_count { NeverFell (change F.told F.faults files.old files.new) }
    ensures output_count { NeverFell (change S.told S.faults out.old out.new) }
    ensures error_count { NeverFell (change E.told E.faults err.old err.new) }
    ensures steps { ChecksAtMost (map string_bytes words.now) (F.told files.old) steps.old steps.new }

    // On each platform whose verdict tells no break, each client of the profile that is typed against the old tree, bodies and all, is typed
    // against the new one.
    ensures clients { KeepsClients (map string_bytes words.now) (F.told files.old) }
{
    clients_kept();
    one_outcome();
    let decision = decide(rt, alloc, words, files, gate, steps);
    deliver(out, err, &decision)
}
