//! The problem of a size.

ghost use Rattle.std.specs.Prelude.{◌≡◌, ◌-◌, ◌<◌, ◌^◌, ◌++◌, IfOk, OnOk, string_bytes};
ghost use Rattle.std.specs.Prelude.{◌+◌};
ghost use Rattle.cpt_gen.specs.Texts.{objects_text, init_text, goal_text, problem_text};

use crate::parts::Part;
use std::alloc::{AllocError, Global};

fn push_objects(text: &mut String, n: u32) -> Result<(), AllocError>
    requires { n < 2 ^ 32 - 1 }
    ensures { OnOk result (string_bytes text.new ≡ string_bytes text.old ++ objects_text n) }
{
    text.push_str("(:objects")?;
    Part::Place.push_row(text, n, 0, n + 1)?;
    text.push_str(" - place t1 - truck")?;
    Part::Package.push_row(text, n, 1, n)?;
    text.push_str(" - package)\n")?;
    Ok(())
}

fn push_init(text: &mut String, n: u32) -> Result<(), AllocError>
    requires { n < 2 ^ 32 - 1 }
    ensures { OnOk result (string_bytes text.new ≡ string_bytes text.old ++ init_text n) }
{
    text.push_str("(:init (at t1 l0)")?;
    Part::AtFirst.push_row(text, n, 1, n)?;
    Part::Road.push_row(text, n, 0, n)?;
    Part::Time.push_row(text, n, 0, n)?;
    text.push_str(")\n")?;
    Ok(())
}

fn push_goal(text: &mut String, n: u32) -> Result<(), AllocError>
    requires { n < 2 ^ 32 - 1 }
    ensures { OnOk result (string_bytes text.new ≡ string_bytes text.old ++ goal_text n) }
{
    text.push_str("(:goal (and")?;
    Part::AtLast.push_row(text, n, 1, n)?;
    text.push_str(")))\n")?;
    Ok(())
}

#[tactic(auto, unfolding(crate::specs::Texts::problem_text))]
pub(crate) fn problem_bytes(alloc: Global, n: u32) -> Result<Vec<u8>, AllocError>
    requires { n < 2 ^ 32 - 1 }
    ensures { IfOk result (λ text. text.items ≡ problem_text n) }
{
    let mut text = String::new(alloc);
    text.push_str("(define (problem gen)\n")?;
    text.push_str("(:domain gen)\n")?;
    push_objects(&mut text, n)?;
    push_init(&mut text, n)?;
    push_goal(&mut text, n)?;
    Ok(text.into_bytes())
}
