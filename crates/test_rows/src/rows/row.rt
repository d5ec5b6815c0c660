//! Rows.

use super::aftermath::Aftermath;
use super::call::{Call, orders_of};
use super::step::Step;
use crate::fault::Fault;
use crate::player::Place;
use std::alloc::Global;

/// A row of steps, which is played on a new volume.
#[derive(Drop)]
pub struct Row<'a> {
    pub name: &'a str,
    pub(crate) steps: Vec<Placed>,
    /// The layout of its volume.
    pub(crate) layout: Layout,
    /// Whether it needs each change to be kept in its turn.
    pub(crate) unshared: bool,
    /// How many of the steps are `tries`.
    pub(crate) tried: u32,
    /// In how many orders records that meet arrive.
    pub(crate) orders: usize,
    /// What a crash may leave.
    pub(crate) aftermath: Aftermath,
}

/// The layout of a volume.
#[derive(Clone, Copy)]
pub enum Layout {
    /// Of version 2.
    Small,
    /// Of version 3.
    Large,
}

impl Layout {
    /// How many sectors the volume of a row has.
    pub fn sectors(self) -> u32 {
        match self {
            Layout::Small => 256,
            Layout::Large => 600,
        }
    }
}

/// A step, and its line.
#[derive(Drop)]
pub struct Placed {
    pub line: u32,
    pub step: Step,
}

impl<'a> Row<'a> {
    /// A row of no steps.
    pub fn new(alloc: Global, name: &'a str) -> Row<'a> {
        Row {
            name,
            steps: Vec::new(alloc),
            layout: Layout::Small,
            unshared: false,
            tried: 0,
            orders: 1,
            aftermath: Aftermath::new(alloc),
        }
    }

    /// Whether it can be played there.
    pub fn is_of(&self, place: Place) -> bool {
        !(self.unshared && place == Place::Shared)
            && self.steps.iter().all(|placed| placed.step.is_of(place))
    }

    /// Whether its device crashes or fails.
    pub fn has_trials(&self) -> bool {
        self.aftermath.has_trials()
    }

    /// How many states a crash may leave of it.
    pub fn states(&self) -> usize {
        self.aftermath.states.len()
    }

    /// Puts a step after the others.
    pub fn add(&mut self, line: u32, step: Step) -> Result<(), Fault> {
        Ok(self.steps.push(Placed { line, step })?)
    }

    /// Has a call meet those right above it.
    pub fn meet(&mut self, alloc: Global, line: u32, call: Call) -> Result<(), Fault> {
        if let Some(
            Placed {
                step: Step::Meets(calls),
                ..
            },
        ) = self.steps.last_mut()
        {
            calls.push(call)?;
            self.orders = self.orders.max(orders_of(calls.len()));
            return Ok(());
        }
        let mut calls = Vec::new(alloc);
        calls.push(call)?;
        self.add(line, Step::Meets(calls))
    }
}
