//! One small problem in every form that a command reads, and what each command answers.

/// A name and the text of its file.
pub type File = (&'static str, &'static str);

/// Words with their status and text.
#[derive(Drop)]
pub struct Command {
    pub words: &'static [&'static str],
    pub status: u8,
    pub text: &'static str,
}

/// An action needs what another one makes. The certificate has a step that it does not need.
pub const FILES: [File; 7] = [
    (
        "d",
        "(define (domain lock) (:predicates (k) (g))
(:durative-action u :parameters () :duration (= ?duration 1) :condition () :effect (at end (k)))
(:durative-action v :parameters () :duration (= ?duration 2) :condition (over all (k)) :effect (at end (g))))",
    ),
    (
        "p",
        "(define (problem lock) (:domain lock) (:init) (:goal (g)))",
    ),
    ("n", "0: (u)\n1: (v)\n"),
    (
        "c",
        "cpt 1\nclaim optimal 3\ntask 2 2\nplan 2\n0 0\n1 1\npairs\nh 0 0\nh 0\ndists\nd 0 0\nd 0 0\ntree 2\n4 1 1 2\n10 1 0 1\n7 1 1 o1\nclose\nend\n",
    ),
    (
        "t",
        "task 2 2\natom (k)\natom (g)\naction (u) 1\npre\nadd 0\ndel\naction (v) 2\npre 0\nadd 1\ndel\ninit\ngoal 1\n",
    ),
    (
        "tj",
        "{\"actions\":[{\"add\":[0],\"del\":[],\"dur\":1,\"name\":\"(u)\",\"pre\":[]},{\"add\":[1],\"del\":[],\"dur\":2,\"name\":\"(v)\",\"pre\":[0]}],\"atoms\":[\"(k)\",\"(g)\"],\"goal\":[1],\"init\":[]}",
    ),
    (
        "nj",
        "[{\"name\":\"(u)\",\"start\":0},{\"dur\":2,\"name\":\"(v)\",\"start\":1}]",
    ),
];

/// Each command, and what it answers over these files.
pub const COMMANDS: [Command; 13] = [
    Command {
        words: &["solve", "d", "p"],
        status: 0,
        text: "0: (u) [1]\n1: (v) [2]\n; makespan 3\n",
    },
    Command {
        words: &["prove", "d", "p", "--cert", "1"],
        status: 0,
        text: "cpt 1\nclaim optimal 3\ntask 2 2\nplan 2\n0 0\n1 1\npairs\nh 1 3\nh 3\ndists\nd 0 0\nd 0 0\ntree 2\nclose\nend\n",
    },
    Command {
        words: &["bench", "1"],
        status: 0,
        text: "bench 1\natoms 6\nactions 5\nmakespan 5\naccepted: optimal 5\n",
    },
    Command {
        words: &["check", "d", "p", "c"],
        status: 0,
        text: "version 1\naccepted: optimal 3\n",
    },
    Command {
        words: &["validate", "d", "p", "n"],
        status: 0,
        text: "valid 3\n",
    },
    Command {
        words: &["validate-task", "t", "n"],
        status: 0,
        text: "valid 3\n",
    },
    Command {
        words: &["ground", "d", "p"],
        status: 0,
        text: "task 2 2\natom (k)\natom (g)\naction (u) 1\npre\nadd 0\ndel\naction (v) 2\npre 0\nadd 1\ndel\ninit\ngoal 1\n",
    },
    Command {
        words: &["trim", "d", "p", "c"],
        status: 0,
        text: "cpt 1\nclaim optimal 3\ntask 2 2\nplan 2\n0 0\n1 1\npairs\nh 0 0\nh 0\ndists\nd 0 0\nd 0 0\ntree 2\n10 1 0 1\n7 1 1 o1\nclose\nend\n",
    },
    Command {
        words: &["tighten", "d", "p", "n"],
        status: 0,
        text: "0: (u) [1]\n1: (v) [2]\n; makespan 3\n; critical 0: (u)\n; critical 1: (v)\n",
    },
    Command {
        words: &["export", "d", "p"],
        status: 0,
        text: "{\"actions\":[{\"add\":[0],\"del\":[],\"dur\":1,\"name\":\"(u)\",\"pre\":[]},{\"add\":[1],\"del\":[],\"dur\":2,\"name\":\"(v)\",\"pre\":[0]}],\"atoms\":[\"(k)\",\"(g)\"],\"goal\":[1],\"init\":[]}\n",
    },
    Command {
        words: &["validate-json", "tj", "nj"],
        status: 0,
        text: "{\"makespan\":3,\"valid\":true}\n",
    },
    Command {
        words: &["explain", "d", "p", "n"],
        status: 0,
        text: "valid 3\nfaults 0\n",
    },
    Command {
        words: &["explain-cert", "d", "p", "c"],
        status: 0,
        text: "version 1\naccepted: optimal 3\nnodes 1\nclosed 1\nbranched 0\nopen 0\nsteps 3\nrule 4: 1\nrule 7: 1\nrule 10: 1\n",
    },
];
