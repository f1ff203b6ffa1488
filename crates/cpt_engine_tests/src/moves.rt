//! Commands to an engine, where they may be given.

ghost use Rattle.std.specs.Prelude.{◌≡◌, ◌<◌};

use cpt_engine::{Engine, State};
use cpt_sheet::Decision;
use cpt_store::Rule;
use cpt_task::Steps;
use std::sync::ledger::{Blank, Ledger};
use std::test::Fail;

/// Makes the decision, where the engine is alive and it fits.
pub fn decide<R: Rule + Copy>(engine: &mut Engine<R>, decision: Decision) -> Result<State, Fail> {
    let is_alive = engine.state() == State::Alive;
    if !is_alive || !engine.store().fits(&engine.ctx(), &decision) {
        return Err("the decision does not fit")?;
    }
    if engine.store().tokens() > 1000 || engine.used() > 1_000_000 {
        return Err("too many decisions")?;
    }
    Ok(engine.decide(decision)?)
}

/// Opens the engine at another bound.
pub fn reopen<R: Rule + Copy>(engine: &mut Engine<R>, bound: u64) -> Result<(), Fail> {
    if bound > 1_000_000 || engine.used() > 1_000_000 {
        return Err("too great a number")?;
    }
    engine.reopen(bound)?;
    Ok(())
}

/// Takes the newest decision back, with a counter that nobody reads. Whether there is one.
pub fn take_back<R: Rule + Copy, L: Ledger>(engine: &mut Engine<R>, blank: Blank) -> bool
    requires name { blank.name ≡ L.name }
    requires parts { blank.parts ≡ L.parts }
    requires some { 0 < L.parts }
{
    let mut ticks = Steps::<L>::new(blank);
    engine.retract(&mut ticks)
}
