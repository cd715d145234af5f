// A script played from set-up to reckoning.
use crate::script::{Command, RuleName, Script};
use model::signals::Fault;
use rights::bits::Bits;
use rights::rule::RightsRule;
use rights::steps::Steps;
use run::play::play;
use scene::opened::Reckoning;
use scene::setup::SetUp;
use shelf::traits::{ReadableShelf, WritableShelf};

fn prepare<R: RightsRule, S: WritableShelf>(
    set_up: &mut SetUp<R>,
    shelf: &mut S,
    command: &Command<S::Element>,
) -> Result<u32, Fault> {
    match command {
        Command::Enrol => set_up.enrol(),
        Command::Make {
            kind,
            count,
            buffer,
        } => set_up.make(shelf, *kind, *count, buffer.as_deref().unwrap_or(&[])),
        Command::Plant {
            owner,
            slot,
            object,
            code,
        } => set_up.plant(*owner, *slot, *object, *code),
        Command::Template { owner, slot, form } => set_up.template(*owner, *slot, *form),
    }
}

fn play_by<R: RightsRule + Drop, S: WritableShelf>(
    rule: R,
    shelf: &mut S,
    script: &mut Script<S::Element>,
) -> Reckoning {
    let mut set_up = SetUp::new(rule);
    for step in script.steps.iter_mut() {
        step.answer = Some(prepare(&mut set_up, shelf, &step.command));
    }
    play(set_up, shelf, script.requests.as_mut_slice())
}

// Every answer is written into the script. A rule is a type, so each name calls another function.
// A scene lies in this function's frame, so no caller takes it into its own.
#[inline(never)]
pub(crate) fn play_script<S: WritableShelf>(
    rule: RuleName,
    shelf: &mut S,
    script: &mut Script<S::Element>,
) -> Reckoning {
    match rule {
        RuleName::Bits => play_by(Bits {}, shelf, script),
        RuleName::Steps => play_by(Steps {}, shelf, script),
    }
}
