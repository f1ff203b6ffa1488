//! The program's one call.

ghost use Rattle.std.specs.Prelude.{◌≡◌, ◌↔◌, ◌⊎◌, ◌-◌, ◌^◌, ◌<◌, ◌≤◌, ℕ, [], List, map, Some, IfSome, IsSome, IsTrue, string_bytes};
ghost use Rattle.std.specs.Io.KnownBytes.{append_known};
ghost use Rattle.cpt_io.specs.Meaning.{AppendsFront};
ghost use Rattle.cpt_answer.specs.Endings.{Answer, answer, read_answer};
ghost use Rattle.cpt_answer.specs.Lines.{memory_line, read_line};
ghost use Rattle.cpt_answer.specs.Promise.{AnswersOver, IsQuiet, MayWrite, Performs, call};
ghost use Rattle.cpt_answer.specs.Writing.{output};
ghost use Rattle.cpt_words.specs.Laws.{AsksBench, AsksChecking, AsksCounting, AsksExplaining, AsksExport, AsksJson, AsksJudging, AsksListing, AsksProving, AsksSolving, AsksTightening, AsksTrimming, AsksValidation, IsUsage};
ghost use Rattle.cpt_words.specs.Words.{IsWithin, asked_of};
ghost use Rattle.cpt_options.specs.declared.options.Budget.{Budget};
ghost use Rattle.cpt_cert_form.specs.declared.forms.Version.{Version};
ghost use Rattle.cpt_validate.specs.Commands.{ValidatesProblem, ValidatesTask};
ghost use Rattle.cpt_listing.specs.Listing.{ListsProblem};
ghost use Rattle.cpt_check_files.specs.Commands.{ChecksProblem};
ghost use Rattle.cpt_bench.specs.Commands.{BenchesProblem};
ghost use Rattle.cpt_prove.specs.Commands.{ProvesProblem};
ghost use Rattle.cpt_trim_files.specs.Commands.{TrimsProblem};
ghost use Rattle.cpt_plan_files.specs.Commands.{ExplainsProblem, TightensProblem};
ghost use Rattle.cpt_explain_cert_files.specs.Commands.{CountsProblem};
ghost use Rattle.cpt_json_files.specs.Exporting.{ExportsProblem};
ghost use Rattle.cpt_json_files.specs.Validating.{ValidatesJson};
ghost use Rattle.cpt_solve.specs.Commands.{SolvesProblem};
ghost use Rattle.cpt_top.specs.Commands.{Answers, Keeps, NamesFiles, Reaches};

use cpt_answer::put_usage;
use cpt_bench::bench;
use cpt_check_files::check_certificate;
use cpt_explain_cert_files::explain_cert;
use cpt_io::{Library, Sink};
use cpt_json_files::{export, validate_json};
use cpt_listing::ground;
use cpt_plan_files::{explain_plan, tighten_plan};
use cpt_prove::prove;
use cpt_solve::solve;
use cpt_trim_files::trim_certificate;
use cpt_validate::{validate, validate_task};
use cpt_words::{Command, command_in};
use std::alloc::Global;

/// Does what the command asks for, and answers the exit status.
fn perform<L: Library, K: Sink>(alloc: Global, command: Command<'_>, lib: &mut L, out: &mut K) -> u8
    requires lib { L.faults lib.old < 2 ^ 64 - 1 }
    requires out { K.faults out.old < 2 ^ 64 - 1 }
    requires within { IsWithin (asked_of command) }
    ensures performs { Performs (AnswersOver (L.holds lib.old) (λ files. Reaches files (asked_of command.entry))) (call (L.steady lib.old) (L.faults lib.old) (L.faults lib.new) (output (K.faults out.old) (K.written out.old)) (output (K.faults out.new) (K.written out.new)) result) }
    ensures keeps { IfSome (L.holds lib.old) (λ files. Keeps files (asked_of command.entry) (call (L.steady lib.old) (L.faults lib.old) (L.faults lib.new) (output (K.faults out.old) (K.written out.old)) (output (K.faults out.new) (K.written out.new)) result)) }
    ensures end { result ≡ 0 → NamesFiles (asked_of command.entry) → IsSome (L.holds lib.old) → L.left lib.new ≡ Some [] }
{
    match command {
        Command::ValidateTask(task, plan) => validate_task(alloc, task, plan, lib, out),
        Command::Validate(domain, problem, plan) => {
            validate(alloc, domain, problem, plan, lib, out)
        }
        Command::Ground(domain, problem) => ground(alloc, domain, problem, lib, out),
        Command::Check(domain, problem, cert) => {
            check_certificate(alloc, domain, problem, cert, lib, out)
        }
        Command::Solve(domain, problem, budget) => {
            solve(alloc, domain, problem, budget, lib, out)
        }
        Command::Prove(domain, problem, budget, version) => {
            prove(alloc, domain, problem, budget, version, lib, out)
        }
        Command::Trim(domain, problem, cert) => {
            trim_certificate(alloc, domain, problem, cert, lib, out)
        }
        Command::Tighten(domain, problem, plan) => {
            tighten_plan(alloc, domain, problem, plan, lib, out)
        }
        Command::Explain(domain, problem, plan) => {
            explain_plan(alloc, domain, problem, plan, lib, out)
        }
        Command::ExplainCert(domain, problem, cert) => {
            explain_cert(alloc, domain, problem, cert, lib, out)
        }
        Command::Export(domain, problem) => { export(alloc, domain, problem, lib, out) }
        Command::ValidateJson(task, plan) => { validate_json(alloc, task, plan, lib, out) }
        Command::Bench(n) => bench(alloc, n, out),
    }
}

/// Does what the words ask for, and answers the exit status.
pub fn run<L: Library, K: Sink>(alloc: Global, words: &[String], lib: &mut L, out: &mut K) -> u8
    requires lib { L.faults lib.old < 2 ^ 64 - 1 }
    requires out { K.faults out.old < 2 ^ 64 - 1 }
    ensures known { result ≤ 9 }

    // A status below 7 comes only where it is that of an answer to the words over the files, and then the answer's text was written.
    ensures only { IfSome (L.holds lib.old) (λ files. result < 7
        → (text : List ℕ) × Answers files (map string_bytes words.now) (answer result text) × (K.written out.new ≡ append_known (K.written out.old) text)) }
    // An answer is given, unless a read or a write fails or memory is refused. Over a steady library a read fails only where that is an answer.
    ensures given { IfSome (L.holds lib.old) (λ files. IsQuiet (Answers files (map string_bytes words.now) read_answer → ⊥) (call (L.steady lib.old) (L.faults lib.old) (L.faults lib.new) (output (K.faults out.old) (K.written out.old)) (output (K.faults out.new) (K.written out.new)) result)
        → (result ≡ 9) ⊎ ((a : Answer) × Answers files (map string_bytes words.now) a × (a.status < 7) × (result ≡ a.status) × (K.written out.new ≡ append_known (K.written out.old) a.text))) }
    // At 0 the file that was opened last was read to its end, where its bytes are told; `bench` opens none.
    ensures end { result ≡ 0 → ((n : ℕ) → AsksBench (map string_bytes words.now) n → ⊥) → IsSome (L.holds lib.old) → L.left lib.new ≡ Some [] }

    // 5 comes only where the words ask for no command, and wherever they do, unless the write fails.
    ensures usage { result ≡ 5 → IsUsage (map string_bytes words.now) }
    ensures unknown { IsUsage (map string_bytes words.now) → (result ≡ 5) ⊎ (result ≡ 8) }

    // 7 comes exactly where a read failed and no write did.
    ensures read { (result ≡ 7) ↔ ((L.faults lib.old < L.faults lib.new) × (K.faults out.new ≡ K.faults out.old)) }
    ensures read_text { result ≡ 7 → K.written out.new ≡ append_known (K.written out.old) read_line }
    // Over a steady library a read fails only where a file that the words name, and that is reached, is not held.
    ensures lacking { IfSome (L.holds lib.old) (λ files. IsTrue (L.steady lib.old) → L.faults lib.old < L.faults lib.new → Answers files (map string_bytes words.now) read_answer) }

    // 8 comes exactly where a write failed, and then a front of a text was written that the words may write.
    ensures write { (result ≡ 8) ↔ (K.faults out.old < K.faults out.new) }
    ensures front { IfSome (L.holds lib.old) (λ files. result ≡ 8
        → (text : List ℕ) × MayWrite (Answers files (map string_bytes words.now)) text × AppendsFront (K.written out.old) (K.written out.new) text) }

    // 9 says that memory was refused.
    ensures memory { result ≡ 9 → K.written out.new ≡ append_known (K.written out.old) memory_line }

    // No count of faults falls.
    ensures reads { L.faults lib.old ≤ L.faults lib.new }
    ensures writes { K.faults out.old ≤ K.faults out.new }

    // What each command promises.
    ensures validate_task { IfSome (L.holds lib.old) (λ files. (task_name plan_name : List ℕ) → AsksValidation (map string_bytes words.now) task_name plan_name
        → ValidatesTask files task_name plan_name (call (L.steady lib.old) (L.faults lib.old) (L.faults lib.new) (output (K.faults out.old) (K.written out.old)) (output (K.faults out.new) (K.written out.new)) result)) }
    ensures validate { IfSome (L.holds lib.old) (λ files. (domain_name problem_name plan_name : List ℕ) → AsksJudging (map string_bytes words.now) domain_name problem_name plan_name
        → ValidatesProblem files domain_name problem_name plan_name (call (L.steady lib.old) (L.faults lib.old) (L.faults lib.new) (output (K.faults out.old) (K.written out.old)) (output (K.faults out.new) (K.written out.new)) result)) }
    ensures ground { IfSome (L.holds lib.old) (λ files. (domain_name problem_name : List ℕ) → AsksListing (map string_bytes words.now) domain_name problem_name
        → ListsProblem files domain_name problem_name (call (L.steady lib.old) (L.faults lib.old) (L.faults lib.new) (output (K.faults out.old) (K.written out.old)) (output (K.faults out.new) (K.written out.new)) result)) }
    ensures check { IfSome (L.holds lib.old) (λ files. (domain_name problem_name cert_name : List ℕ) → AsksChecking (map string_bytes words.now) domain_name problem_name cert_name
        → ChecksProblem files domain_name problem_name cert_name (call (L.steady lib.old) (L.faults lib.old) (L.faults lib.new) (output (K.faults out.old) (K.written out.old)) (output (K.faults out.new) (K.written out.new)) result)) }
    ensures solve { IfSome (L.holds lib.old) (λ files. (domain_name problem_name : List ℕ) (budget : Budget) → AsksSolving (map string_bytes words.now) domain_name problem_name budget
        → SolvesProblem files domain_name problem_name budget (call (L.steady lib.old) (L.faults lib.old) (L.faults lib.new) (output (K.faults out.old) (K.written out.old)) (output (K.faults out.new) (K.written out.new)) result)) }
    ensures prove { IfSome (L.holds lib.old) (λ files. (domain_name problem_name : List ℕ) (budget : Budget) (version : Version) → AsksProving (map string_bytes words.now) domain_name problem_name budget version
        → ProvesProblem files domain_name problem_name budget version (call (L.steady lib.old) (L.faults lib.old) (L.faults lib.new) (output (K.faults out.old) (K.written out.old)) (output (K.faults out.new) (K.written out.new)) result)) }
    ensures trim { IfSome (L.holds lib.old) (λ files. (domain_name problem_name cert_name : List ℕ) → AsksTrimming (map string_bytes words.now) domain_name problem_name cert_name
        → TrimsProblem files domain_name problem_name cert_name (call (L.steady lib.old) (L.faults lib.old) (L.faults lib.new) (output (K.faults out.old) (K.written out.old)) (output (K.faults out.new) (K.written out.new)) result)) }
    ensures tighten { IfSome (L.holds lib.old) (λ files. (domain_name problem_name plan_name : List ℕ) → AsksTightening (map string_bytes words.now) domain_name problem_name plan_name
        → TightensProblem files domain_name problem_name plan_name (call (L.steady lib.old) (L.faults lib.old) (L.faults lib.new) (output (K.faults out.old) (K.written out.old)) (output (K.faults out.new) (K.written out.new)) result)) }
    ensures explain { IfSome (L.holds lib.old) (λ files. (domain_name problem_name plan_name : List ℕ) → AsksExplaining (map string_bytes words.now) domain_name problem_name plan_name
        → ExplainsProblem files domain_name problem_name plan_name (call (L.steady lib.old) (L.faults lib.old) (L.faults lib.new) (output (K.faults out.old) (K.written out.old)) (output (K.faults out.new) (K.written out.new)) result)) }
    ensures explain_cert { IfSome (L.holds lib.old) (λ files. (domain_name problem_name cert_name : List ℕ) → AsksCounting (map string_bytes words.now) domain_name problem_name cert_name
        → CountsProblem files domain_name problem_name cert_name (call (L.steady lib.old) (L.faults lib.old) (L.faults lib.new) (output (K.faults out.old) (K.written out.old)) (output (K.faults out.new) (K.written out.new)) result)) }
    ensures export { IfSome (L.holds lib.old) (λ files. (domain_name problem_name : List ℕ) → AsksExport (map string_bytes words.now) domain_name problem_name
        → ExportsProblem files domain_name problem_name (call (L.steady lib.old) (L.faults lib.old) (L.faults lib.new) (output (K.faults out.old) (K.written out.old)) (output (K.faults out.new) (K.written out.new)) result)) }
    ensures validate_json { IfSome (L.holds lib.old) (λ files. (task_name plan_name : List ℕ) → AsksJson (map string_bytes words.now) task_name plan_name
        → ValidatesJson files task_name plan_name (call (L.steady lib.old) (L.faults lib.old) (L.faults lib.new) (output (K.faults out.old) (K.written out.old)) (output (K.faults out.new) (K.written out.new)) result)) }
    ensures bench { IfSome (L.holds lib.old) (λ files. (n : ℕ) → AsksBench (map string_bytes words.now) n
        → BenchesProblem n (call (L.steady lib.old) (L.faults lib.old) (L.faults lib.new) (output (K.faults out.old) (K.written out.old)) (output (K.faults out.new) (K.written out.new)) result)) }
{
    match command_in(words) {
        Some(command) => perform(alloc, command, lib, out),
        None => put_usage(out),
    }
}
