//! The turns of a connection.

ghost use Rattle.std.specs.Prelude.{◌≡◌};

use crate::begun::{Begun, TurnEnd};
use crate::connection::Connection;
use crate::engine::Engine;
use crate::request::first_turn;
use crate::stage::Stage;
use crate::turn::Turn;
use compound::Fault;
use disk::Device;
use std::mem;

#[tactic(auto, unfolding(crate::specs::Connections::connection_view))]
impl Connection {
    ghost use Rattle.std.specs.Prelude.{◌≡◌, ℕ, List, Some, true, false, OnOk, IfOk, OnErr};
    ghost use Rattle.model.specs.Server.World.{turned};
    ghost use Rattle.rpc.specs.Assembly.{Holds};
    ghost use Rattle.compound.specs.Volumes.{TurnGives, ending};
    ghost use Rattle.server.specs.Connections.{connection_view, turn_view, ConnectionTurns, Leads, IsOfRun, HasGoneOn};
    ghost use Rattle.server.specs.Engines.{AltersFiles, BorrowsSame, KeepsRest, files_in, state_in};
    ghost use Rattle.server.specs.Stages.{CanGoOn, held_record, busy_with, turn_of_end, left_by_turn, can_follow};

    /// Runs one operation of the request that waits or has begun, or has a seat hold the reply of
    /// one that has ended, at this moment in nanoseconds since 1970.
    pub fn turn<D: Device>(&mut self, engine: &mut Engine<'_, D>) -> Result<Turn, Fault>
        requires up { (files_in engine.old).volume.is_down ≡ false }
        requires run { IsOfRun (files_in engine.old).volume.run (connection_view self.old) }
        ensures turn { D.keeps_word
            → IfOk result (ConnectionTurns engine.old.moment (state_in engine.old)
            (state_in engine.new) (connection_view self.old) (connection_view self.new)) }
        ensures further { OnOk result
            (HasGoneOn (Some (connection_view self.old)) (Some (connection_view self.new))) }
        ensures run { IsOfRun (files_in engine.old).volume.run (connection_view self.new) }
        // If it fails
        ensures back { OnErr result ((connection_view self.new ≡ connection_view self.old)
            × KeepsRest engine.old engine.new) }
        // However it ends
        ensures volume { AltersFiles engine.old engine.new (TurnGives (state_in engine.old)
            (λ world number. turned world number engine.old.moment
            (Some (connection_view self.old)))) (ending result) }
        ensures same { BorrowsSame engine.old engine.new }
    {
        match mem::replace(&mut self.stage, Stage::Receiving) {
            Stage::Receiving => match self.assembler.record() {
                Some(record) => match first_turn(record, engine, &mut self.results_buffer) {
                    Ok(done) => Ok(self.settle(done)),
                    Err(fault) => Err(fault),
                },
                None => Ok(Turn::Idle),
            },
            Stage::Running(begun) => self.next_turn(begun, engine),
            Stage::Replied(reply) => {
                self.stage = Stage::Replied(reply);
                Ok(Turn::Idle)
            }
        }
    }

    /// One more operation of the request that has begun, or its reply.
    fn next_turn<D: Device>(
        &mut self,
        begun: Begun,
        engine: &mut Engine<'_, D>,
    ) -> Result<Turn, Fault>
        requires goes_on { (request : List ℕ) × (self.old.assembler ≡ Holds request)
            × CanGoOn (files_in engine.old).volume.run request begun }
        requires up { (files_in engine.old).volume.is_down ≡ false }
        // What it returns
        ensures turn { D.keeps_word → IfOk result (λ done. Leads (λ world number.
            turned world number engine.old.moment
            (Some (busy_with (held_record self.old.assembler) begun)))
            (state_in engine.old) (state_in engine.new)
            (connection_view self.new) (turn_view done)) }
        ensures further { OnOk result (HasGoneOn
            (Some (busy_with (held_record self.old.assembler) begun))
            (Some (connection_view self.new))) }
        ensures run { IsOfRun (files_in engine.old).volume.run (connection_view self.new) }
        // If it fails
        ensures back { OnErr result
            ((connection_view self.new ≡ busy_with (held_record self.old.assembler) begun)
            × KeepsRest engine.old engine.new) }
        // However it ends
        ensures volume { AltersFiles engine.old engine.new (TurnGives (state_in engine.old)
            (λ world number. turned world number engine.old.moment
            (Some (busy_with (held_record self.old.assembler) begun)))) (ending result) }
        ensures same { BorrowsSame engine.old engine.new }
    {
        let Some(record) = self.assembler.record() else {
            unreachable!();
        };
        match begun.step(record, engine, &mut self.results_buffer) {
            Ok(done) => Ok(self.settle(done)),
            Err(failed) => {
                self.stage = Stage::Running(failed.begun);
                Err(failed.fault)
            }
        }
    }

    /// Goes on after a step, and returns what the turn was. With the reply, the record is released.
    fn settle(&mut self, done: TurnEnd) -> Turn
        requires holds { (request : List ℕ) × (self.old.assembler ≡ Holds request) }
        requires follows { can_follow (held_record self.old.assembler) done ≡ true }
        ensures turn { turn_view result ≡ turn_of_end done }
        ensures state { connection_view self.new
            ≡ left_by_turn (held_record self.old.assembler) done }
    {
        match done {
            TurnEnd::Begun(begun) => {
                self.stage = Stage::Running(begun);
                Turn::Ran
            }
            TurnEnd::Answered(reply) => {
                self.assembler.release();
                self.stage = Stage::Replied(reply);
                Turn::Answered
            }
        }
    }
}
