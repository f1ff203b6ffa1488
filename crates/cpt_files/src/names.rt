//! Who knows the names of a plan's actions.

ghost use Rattle.std.specs.Prelude.{◌≡◌};
ghost use Rattle.cpt_domain.specs.Sound.{IsSound};
ghost use Rattle.cpt_facts.specs.Fitting.{Fits};
ghost use Rattle.cpt_plan_text.specs.Knowing.{task_finds};
ghost use Rattle.cpt_instance.specs.NameReading.{named_duration};
ghost use Rattle.cpt_files.specs.Names.{KnowsAs, else_named};

use cpt_domain::Domain;
use cpt_facts::Problem;
use cpt_instance::instance_of;
use cpt_reach::Pruned;
use cpt_task::Task;
use cpt_text::{Found, Roster};
use std::marker::Model;

/// The names of a domain, a problem that fits it, and the kept part of their task: the kept actions are known, and the
/// other instances are known to be unreachable.
#[derive(Drop)]
pub struct KeptNames<'a> {
    domain: &'a Domain,
    problem: &'a Problem,
    kept: &'a Pruned,
}

impl<'a> Model for KeptNames<'a> {
    ghost use Rattle.cpt_domain.specs.Sound.{IsSound};
    ghost use Rattle.cpt_facts.specs.Fitting.{Fits};
    ghost use Rattle.cpt_files.specs.Names.{NamesShape};

    ghost Value = { NamesShape };

    ghost view = { λ n. record { domain = n.domain.now; problem = n.problem.now; kept = n.kept.now } };

    ghost invariant = { λ n. IsSound n.domain.now × Fits n.domain.now n.problem.now };
}

impl<'a> KeptNames<'a> {
    /// The names of these.
    pub fn new(domain: &'a Domain, problem: &'a Problem, kept: &'a Pruned) -> KeptNames<'a>
        requires sound { IsSound domain.now }
        requires fits { Fits domain.now problem.now }
        ensures { result ≡ record { domain = domain.now; problem = problem.now; kept = kept.now } }
    {
        KeptNames {
            domain,
            problem,
            kept,
        }
    }
}

fn find_kept(task: &Task, name: &[u8]) -> Found
    ensures { result ≡ task_finds task.now name.now }
{
    task.find(name)
}

fn find_name(domain: &Domain, problem: &Problem, task: &Task, name: &[u8]) -> Found
    requires sound { IsSound domain.now }
    requires fits { Fits domain.now problem.now }
    ensures { result ≡ else_named (task_finds task.now name.now) (named_duration domain.now problem.now name.now) }
{
    match find_kept(task, name) {
        Found::Unknown => match instance_of(domain, problem, name) {
            Some(dur) => Found::Unreachable(dur),
            None => Found::Unknown,
        },
        found => found,
    }
}

impl<'a> Roster for KeptNames<'a> {
    ghost use Rattle.cpt_files.specs.Names.{kept_finds};

    ghost finds = { λ n. kept_finds n.domain n.problem n.kept };

    fn find(&self, name: &[u8]) -> Found
        ensures value { result ≡ kept_finds self.now.domain self.now.problem self.now.kept name.now }
        // A kept action is known by its least number, another instance is unreachable, and any other name is unknown.
        ensures knows { KnowsAs self.now.domain self.now.problem self.now.kept.task name.now result }
    {
        find_name(self.domain, self.problem, &self.kept.task, name)
    }
}
