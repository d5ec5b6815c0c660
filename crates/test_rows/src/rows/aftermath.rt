//! What a crash may leave of a row, and how that is looked at.

use super::records::{Pattern, Records};
use crate::fault::Fault;
use std::alloc::Global;

/// What the steps of a row say of crashes.
#[derive(Drop)]
pub struct Aftermath {
    pub trials: Trials,
    /// What is asked after each crash.
    pub looks: Vec<Look>,
    /// The states that may then be found, by their replies.
    pub states: Vec<State>,
    /// What a restart is asked after a failure.
    pub sequel: Option<Sequel>,
}

/// What is done to the device.
#[derive(Clone, Copy)]
pub struct Trials {
    /// It crashes before and within each of its steps.
    pub crashes: bool,
    /// So do the mounts after that.
    pub twice: bool,
    /// Each of its calls fails.
    pub fails: bool,
}

/// What a step says of the states that a crash may leave from there on.
#[derive(Clone, Copy)]
pub enum Mark {
    /// The next state too.
    Stands,
    /// None that is older than the one `but` states before the newest.
    Lasts { but: usize },
    /// The crashes begin here.
    Begins,
}

/// A record that is asked over connection 0.
#[derive(Drop)]
pub struct Look {
    pub record: Pattern,
    /// Its reply, if each state has the same.
    pub reply: Option<Pattern>,
}

/// What a restart is asked once it has shown its state, and how that is looked at after a crash.
#[derive(Drop)]
pub struct Sequel {
    pub record: Pattern,
    pub look: Look,
}

/// The replies to the looks that have none of their own.
#[derive(Drop)]
pub struct State {
    replies: Vec<Pattern>,
}

impl Trials {
    /// Takes in what the words of a line ask for.
    pub fn read(&mut self, verb: &str, words: &[&str]) -> Result<(), Fault> {
        match (verb, words) {
            ("crashes", []) => self.crashes = true,
            ("crashes", [word]) if *word == "twice" => {
                self.crashes = true;
                self.twice = true;
            }
            ("fails", []) => self.fails = true,
            _ => return Err(Fault::Step),
        }
        Ok(())
    }
}

impl Aftermath {
    /// Nothing crashes.
    pub fn new(alloc: Global) -> Aftermath {
        Aftermath {
            trials: Trials {
                crashes: false,
                twice: false,
                fails: false,
            },
            looks: Vec::new(alloc),
            states: Vec::new(alloc),
            sequel: None,
        }
    }

    /// Whether the device crashes or fails.
    pub fn has_trials(&self) -> bool {
        self.trials.crashes || self.trials.fails || self.sequel.is_some()
    }

    /// How many replies a state has.
    fn replies(&self) -> usize {
        self.looks
            .iter()
            .filter(|look| look.reply.is_none())
            .count()
    }
}

impl State {
    /// Whether these are its replies in this run.
    pub fn is(&self, alloc: Global, answers: &[Vec<u8>], run: u32) -> Result<bool, Fault> {
        for (reply, answer) in self.replies.iter().zip(answers) {
            if reply.spell(alloc, run)?.as_slice() != answer.as_slice() {
                return Ok(false);
            }
        }
        Ok(true)
    }
}

/// Adds what `RECORD` or `RECORD REPLY` says. The states, which have a reply to each look without
/// one, come after all looks.
pub fn add_look(
    alloc: Global,
    records: &Records<'_>,
    words: &[&str],
    aftermath: &mut Aftermath,
) -> Result<(), Fault> {
    if !aftermath.states.is_empty() {
        return Err(Fault::Place);
    }
    let look = match words {
        [record] => Look {
            record: records.pattern(alloc, *record)?,
            reply: None,
        },
        [record, reply] => Look {
            record: records.pattern(alloc, *record)?,
            reply: Some(records.pattern(alloc, *reply)?),
        },
        _ => return Err(Fault::Step),
    };
    Ok(aftermath.looks.push(look)?)
}

/// Adds the state whose replies the words of a line name.
pub fn add_state(
    alloc: Global,
    records: &Records<'_>,
    words: &[&str],
    aftermath: &mut Aftermath,
) -> Result<(), Fault> {
    if words.len() != aftermath.replies() {
        return Err(Fault::Step);
    }
    let mut replies = Vec::new(alloc);
    for word in words {
        replies.push(records.pattern(alloc, *word)?)?;
    }
    Ok(aftermath.states.push(State { replies })?)
}

/// Takes in what `RECORD LOOK REPLY` says.
pub fn add_sequel(
    alloc: Global,
    records: &Records<'_>,
    words: &[&str],
    aftermath: &mut Aftermath,
) -> Result<(), Fault> {
    let [record, look, reply] = words else {
        return Err(Fault::Step);
    };
    let look = Look {
        record: records.pattern(alloc, *look)?,
        reply: Some(records.pattern(alloc, *reply)?),
    };
    aftermath.sequel = Some(Sequel {
        record: records.pattern(alloc, *record)?,
        look,
    });
    Ok(())
}

/// The states that a crash may leave, by their numbers.
#[derive(Clone, Copy, PartialEq)]
pub struct Left {
    pub first: usize,
    /// The number after the last one.
    pub end: usize,
}

impl Left {
    /// Takes in what a step says.
    pub fn mark(&mut self, mark: Mark) {
        match mark {
            Mark::Stands => self.end = self.end.saturating_add(1),
            Mark::Lasts { but } => self.first = self.end.saturating_sub(but.saturating_add(1)),
            Mark::Begins => {}
        }
    }
}
