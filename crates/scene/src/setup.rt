// A scene is set up: processes are enrolled, house objects made, slots planted.
ghost use Rattle.std.specs.Prelude.{◌≡◌, replicate};
ghost use Rattle.model.specs.declared.kinds.Slot.TheVariants.{Empty};
ghost use Rattle.model.specs.SetUp.{HouseObjects, HouseHeld, HouseListed, SetsAll, bare, enrol, furnish, fits, plant, template, house, holder, caller, free, wanted_ok, codes_ok};
ghost use Rattle.scene.specs.Abstract.{frame, world, Steps};

use crate::fill::create;
use crate::limits::limits;
use crate::tables::Tables;
use model::kinds::{Cap, Form, Holder, Limits, Name, Owner, Site, Slot};
use model::signals::{Fault, Signal};
use rights::rule::RightsRule;
use shelf::traits::WritableShelf;

// Every object is of the house, and every capability is for one of those.
#[derive(Drop)]
pub struct SetUp<R> {
    pub rule: R,
    pub tables: Tables,
    ghost objects: { HouseObjects (frame tables) },
    ghost held: { HouseHeld (frame tables) },
    ghost listed: { HouseListed (frame tables) },
}

fn house(number: u32) -> Name
    ensures { result ≡ house number }
{
    Name { share: 0, number }
}

fn caller(owner: Owner) -> u32
    ensures { result ≡ caller owner }
{
    match owner {
        Owner::Process(process) => process,
        Owner::Object(_) => 0,
    }
}

// The slot of an owner by its index from 1.
fn site(owner: Owner, index: u32) -> Site
    ensures { result ≡ record { holder = holder owner; index = index; at = 0 } }
{
    match owner {
        Owner::Process(_) => Site::own(index),
        Owner::Object(number) => Site {
            holder: Holder::Listed(house(number)),
            index,
            at: 0,
        },
    }
}

// The owner's slot is there, and empty.
fn free(tables: &Tables, owner: Owner, slot: u32) -> Result<(), Fault>
    ensures { result ≡ free owner slot (frame tables.now) }
{
    tables.owned(owner)?;
    tables.vacant(caller(owner), site(owner, slot))
}

fn fits(count: u32, given: usize, limits: Limits) -> Result<(), Fault>
    ensures { result ≡ fits count given limits }
{
    if count as usize <= limits.elements && count as usize <= given {
        Ok(())
    } else {
        Err(Fault::new(Signal::Slim, 0))
    }
}

fn codes_ok<R: RightsRule>(rule: &R, form: Form) -> Result<(), Fault>
    ensures { result ≡ codes_ok R.RightsRule.rule form }
{
    rule.check(form.rights)?;
    rule.check(form.check)?;
    rule.check(form.new)
}

fn wanted_ok(kind: u32) -> Result<(), Fault>
    ensures { result ≡ wanted_ok kind }
{
    if kind != 0 {
        limits(kind)?;
    }
    Ok(())
}

impl<R: RightsRule> SetUp<R> {
    pub fn new(rule: R) -> SetUp<R>
        ensures scene { frame result.tables ≡ bare }
        ensures slots { result.tables.slots ≡ replicate 1280 Empty }
    {
        SetUp {
            rule,
            tables: Tables::new(),
        }
    }

    // The next process, with an empty name space: its number.
    pub fn enrol(&mut self) -> Result<u32, Fault>
        ensures { Steps self.old.tables self.new.tables result enrol }
    {
        self.tables.enrol()
    }

    // A house object with the first elements of a buffer: its number.
    pub fn make<S: WritableShelf>(
        &mut self,
        shelf: &mut S,
        kind: u32,
        count: u32,
        buffer: &[S::Element],
    ) -> Result<u32, Fault>
        ensures { SetsAll result (world self.old.tables (S.ReadableShelf.holds shelf.old)) (world self.new.tables (S.ReadableShelf.holds shelf.new)) (furnish kind count buffer.now (world self.old.tables (S.ReadableShelf.holds shelf.old))) }
    {
        let limits = limits(kind)?;
        fits(count, buffer.len(), limits)?;
        create(&mut self.tables, shelf, 0, kind, &buffer[..count as usize])
    }

    // A capability for a house object in an empty slot; success is 0.
    pub fn plant(&mut self, owner: Owner, slot: u32, object: u32, code: u32) -> Result<u32, Fault>
        ensures { Steps self.old.tables self.new.tables result (plant R.RightsRule.rule owner slot object code) }
    {
        free(&self.tables, owner, slot)?;
        self.tables.alive(house(object))?;
        self.rule.check(code)?;
        let cap = Slot::Capability(Cap {
            name: house(object),
            rights: code,
        });
        self.tables.put_in(caller(owner), site(owner, slot), cap);
        Ok(0)
    }

    // A template in an empty slot; success is 0.
    pub fn template(&mut self, owner: Owner, slot: u32, form: Form) -> Result<u32, Fault>
        ensures { Steps self.old.tables self.new.tables result (template R.RightsRule.rule owner slot form) }
    {
        free(&self.tables, owner, slot)?;
        wanted_ok(form.wanted)?;
        codes_ok(&self.rule, form)?;
        self.tables
            .put_in(caller(owner), site(owner, slot), Slot::Template(form));
        Ok(0)
    }
}
