// A slot's rights code on the slot's way.
ghost use Rattle.std.specs.Prelude.{◌≡◌};
ghost use Rattle.model.specs.Kalls.{masked, confined, recode, changed};

use model::kinds::{Cap, Change, Form, Slot};
use rights::rule::RightsRule;

pub fn masked<R: RightsRule>(rule: &R, mask: Option<u32>, code: u32) -> u32
    ensures { result ≡ masked R.RightsRule.rule mask code }
{
    match mask {
        None => code,
        Some(mask) => rule.restricted(code, mask),
    }
}

fn confined<R: RightsRule>(rule: &R, clear: bool, code: u32) -> u32
    ensures { result ≡ confined R.RightsRule.rule clear code }
{
    if clear { code } else { rule.stripped(code) }
}

fn recode<R: RightsRule>(rule: &R, change: Change, code: u32) -> u32
    ensures { result ≡ recode R.RightsRule.rule change code }
{
    match change {
        Change::Taken { clear } => confined(rule, clear, code),
        Change::Loaded { clear } => rule.with_delete(confined(rule, clear, code)),
        Change::Moved { mask } => masked(rule, mask, code),
        Change::Stored { mask } => masked(rule, mask, rule.with_delete(code)),
    }
}

#[tactic(auto, unfolding(model::specs::Kalls::changed))]
pub fn changed<R: RightsRule>(rule: &R, change: Change, slot: Slot) -> Slot
    ensures { result ≡ changed R.RightsRule.rule change slot }
{
    match slot {
        Slot::Empty => Slot::Empty,
        Slot::Capability(cap) => Slot::Capability(Cap {
            name: cap.name,
            rights: recode(rule, change, cap.rights),
        }),
        Slot::Template(form) => Slot::Template(Form {
            rights: recode(rule, change, form.rights),
            ..form
        }),
    }
}
