// The object layer: what is read from the tables and written to them, by name.
ghost use Rattle.std.specs.Prelude.{◌≡◌, ◌-◌, ◌<◌, ◌≤◌, length, replicate, position, is_none, IfSome, option_map, slice_get, Ok, None, Some};
ghost use Rattle.model.specs.declared.kinds.Name.{Name};
ghost use Rattle.model.specs.declared.kinds.Slot.TheVariants.{Empty};
ghost use Rattle.model.specs.Plan.{slot_of, own_slot, slot_at, runs, vacant, lives, last_filled, length_of, list_length, next_slot, spaces_of, part_limit};
ghost use Rattle.model.specs.Kalls.{put_own, put_listed, put_in};
ghost use Rattle.model.specs.SetUp.{bare, enrol, enrolled, owned, living};
ghost use Rattle.scene.specs.Places.{base_of, part_of, placed, is_numbered, place_of};
ghost use Rattle.scene.specs.Abstract.{frame, homes, IsLastFilled, object_of, process_of, Makes, Ends, Steps};
ghost use Rattle.scene.specs.Tasks.{task_of, index_of};

use crate::kinds::{Body, Object, Process, Spot, State};
use crate::limits::{part_room, room};
use crate::tables::Tables;
use model::kinds::{EMPTY, Holder, Name, Owner, Site, Slot, Space};
use model::signals::{Fault, Signal};
use std::array;

fn base(share: u32) -> usize
    ensures { result ≡ base_of share }
{
    if share == 0 {
        0
    } else {
        16 + 16 * share as usize
    }
}

// The index of the last filled slot.
fn last_index(slots: &[Slot]) -> Option<usize>
    ensures { IsLastFilled slots.now result }
{
    slots.iter().rposition(|slot| *slot != Slot::Empty)
}

// The index after it, or 0.
fn last_filled(slots: &[Slot]) -> usize
    ensures value { result ≡ last_filled slots.now }
    ensures bound { result ≤ length slots.now }
{
    last_index(slots).map_or(0, |index| index + 1)
}

// The first of the places that is unused.
fn unused<T>(places: &[Option<T>]) -> Option<usize>
    ensures { result ≡ position is_none places.now }
{
    places.iter().position(|place| place.is_none())
}

// The place with the object of a number.
fn numbered(places: &[Option<Object>], number: u32) -> Option<usize>
    ensures { result ≡ position (is_numbered number) places.now }
{
    places.iter().position(|place| place.is_some_and(|object| object.number == number))
}

// The index of a process: they go by 1 to 8.
fn index_of(process: u32) -> Option<usize>
    ensures value { result ≡ index_of process }
    ensures bound { IfSome result (λ i. i < 8) }
{
    match process {
        1..=8 => Some(process as usize - 1),
        _ => None,
    }
}

impl Tables {
    pub(crate) fn new() -> Tables
        ensures scene { frame result ≡ bare }
        ensures slots { result.slots ≡ replicate 1280 Empty }
    {
        Tables {
            objects: [None; 160],
            slots: [EMPTY; 1280],
            given: [0; 9],
            processes: array::from_fn(|_| None),
        }
    }

    // The places of a share.
    fn places(&self, share: u32) -> &[Option<Object>]
        ensures value { result.now ≡ part_of self.now.objects share }
        ensures bound { length result.now ≤ 32 }
    {
        let low = base(share);
        match share {
            0 => &self.objects[low..low + 32],
            1..=8 => &self.objects[low..low + 16],
            _ => &[],
        }
    }

    // Where an object lies.
    fn find(&self, name: Name) -> Option<usize>
        ensures value { result ≡ place_of self.now.objects name.share name.number }
        ensures bound { IfSome result (λ p. p < 160) }
    {
        let low = base(name.share);
        numbered(self.places(name.share), name.number).map(|index| low + index)
    }

    // An unused place of a share.
    fn unused_place(&self, share: u32) -> Option<usize>
        ensures value { result ≡ placed share (position is_none (part_of self.now.objects share)) }
        ensures bound { IfSome result (λ p. (share < 9) × (p < 160)) }
    {
        let low = base(share);
        unused(self.places(share)).map(|index| low + index)
    }

    #[tactic(auto, unfolding(crate::specs::Abstract::object_of, crate::specs::Abstract::list_at))]
    fn body(&self, name: Name) -> Option<Body<'_>>
        ensures { option_map (λ b. record { kind = b.kind; list = b.list.now }) result ≡ object_of self.now.objects self.now.slots name }
    {
        let place = self.find(name)?;
        let object = self.objects[place]?;
        Some(Body {
            kind: object.kind,
            list: &self.slots[8 * place..8 * place + 8],
        })
    }

    // A slot of an object's list, by an index from 0; `at` is the detail of a refusal.
    pub fn slot(&self, name: Name, index: usize, at: u8) -> Result<Slot, Fault>
        ensures { result ≡ slot_of (frame self.now) name index at }
    {
        let body = self.body(name).ok_or(Fault::new(Signal::Sgone, at))?;
        if index >= room(body.kind) {
            return Err(Fault::new(Signal::Sindex, at));
        }
        Ok(body.list[index])
    }

    pub fn put(&mut self, name: Name, index: usize, slot: Slot)
        ensures after { frame self.new ≡ put_listed name index slot (frame self.old) }
        ensures homes { homes self.new ≡ homes self.old }
    {
        if let Some(place) = self.find(name) {
            if index < 8 {
                self.slots[8 * place + index] = slot;
            }
        }
    }

    // An object with an empty list at an unused place of the share.
    pub fn make(&mut self, share: u32, kind: u32) -> Result<Spot, Fault>
        ensures { Makes share kind self.old self.new result }
    {
        let place = self
            .unused_place(share)
            .ok_or(Fault::new(Signal::Sroom, 0))?;
        let number = self.given[share as usize];
        if number >= 60000 {
            return Err(Fault::new(Signal::Snames, 0));
        }
        self.slots[8 * place..8 * place + 8].fill(EMPTY);
        self.given[share as usize] = number + 1;
        self.objects[place] = Some(Object {
            number: number + 1,
            kind,
        });
        Ok(Spot {
            place: place + 1,
            number: number + 1,
        })
    }

    #[tactic(auto, unfolding(crate::specs::Abstract::process_of))]
    fn task(&self, process: u32) -> Option<&Process>
        ensures { option_map (λ t. task_of t.now) result ≡ process_of self.now.processes process }
    {
        self.processes[index_of(process)?].as_ref()
    }

    #[tactic(auto, unfolding(model::specs::Plan::runs))]
    pub fn running(&self, process: u32) -> Result<(), Fault>
        ensures { result ≡ runs process (frame self.now) }
    {
        let task = self.task(process).ok_or(Fault::new(Signal::Sproc, 0))?;
        match task.state {
            State::Running => Ok(()),
            State::Stopped => Err(Fault::new(Signal::Sstop, 0)),
        }
    }

    // The current name space.
    fn current(&self, process: u32) -> Option<&Space>
        ensures { option_map (λ s. s.now) result ≡ slice_get (spaces_of (process_of self.now.processes process)) 0 }
    {
        let task = self.task(process)?;
        task.spaces[..task.depth as usize].last()
    }

    // A slot of the current name space, by an index from 0.
    pub fn own(&self, process: u32, index: usize, at: u8) -> Result<Slot, Fault>
        ensures { result ≡ own_slot (frame self.now) process index at }
    {
        self.current(process)
            .and_then(|space| space.slots.get(index))
            .copied()
            .ok_or(Fault::new(Signal::Sindex, at))
    }

    pub fn put_own(&mut self, process: u32, index: usize, slot: Slot)
        ensures after { frame self.new ≡ put_own process index slot (frame self.old) }
        ensures homes { homes self.new ≡ homes self.old }
    {
        if index >= 12 {
            return;
        }
        let Some(i) = index_of(process) else {
            return;
        };
        let processes = &mut self.processes;
        let Some(task) = &mut processes[i] else {
            return;
        };
        let Some(top) = task.depth.checked_sub(1) else {
            return;
        };
        task.spaces[top as usize].slots[index] = slot;
    }

    // The length of the current name space.
    #[tactic(auto, unfolding(model::specs::Plan::length_of))]
    pub fn length(&self, process: u32) -> usize
        ensures value { Ok result ≡ length_of process (frame self.now) }
        ensures bound { result ≤ 12 }
    {
        self.current(process)
            .map_or(0, |space| last_filled(&space.slots))
    }

    // The length of an object's list.
    #[tactic(auto, unfolding(model::specs::Plan::list_length))]
    pub fn list_length(&self, name: Name) -> usize
        ensures value { Ok result ≡ list_length name (frame self.now) }
        ensures bound { result ≤ 8 }
    {
        self.body(name).map_or(0, |body| last_filled(body.list))
    }

    // How many elements an object's data part may have.
    #[tactic(auto, unfolding(model::specs::Plan::part_limit))]
    pub fn part_limit(&self, name: Name) -> usize
        ensures value { Ok result ≡ part_limit name (frame self.now) }
        ensures bound { result ≤ 64 }
    {
        self.body(name).map_or(0, |body| part_room(body.kind))
    }

    // The object and its list end, and its place serves again.
    pub fn end(&mut self, name: Name) -> Result<(), Fault>
        ensures { Ends name self.old self.new result }
    {
        let place = self.find(name).ok_or(Fault::new(Signal::Sgone, 0))?;
        self.objects[place] = None;
        Ok(())
    }

    // The slot after a list's length, by its index from 1.
    #[tactic(auto, unfolding(model::specs::Plan::next_slot))]
    pub fn next_slot(&self, name: Name) -> Result<u32, Fault>
        ensures { result ≡ next_slot name (frame self.now) }
    {
        let body = self.body(name).ok_or(Fault::new(Signal::Slim, 0))?;
        let length = last_filled(body.list);
        if length >= room(body.kind) {
            return Err(Fault::new(Signal::Slim, 0));
        }
        Ok(length as u32 + 1)
    }

    // Where on the shelf an object's elements lie, and those of no other.
    #[tactic(auto, unfolding(crate::specs::Abstract::home_of))]
    pub fn home(&self, name: Name) -> Option<usize>
        ensures value { result ≡ homes self.now name }
        ensures within { IfSome result (λ p. (1 ≤ p) × (p ≤ 160)) }
        ensures alone { IfSome result (λ p. (n : Name) → Some p ≡ homes self.now n → n ≡ name) }
    {
        self.find(name).map(|place| place + 1)
    }

    pub fn is_living(&self, name: Name) -> bool
        ensures { result ≡ lives (frame self.now) name }
    {
        self.find(name).is_some()
    }

    pub fn reach(&self, process: u32, site: Site) -> Result<Slot, Fault>
        ensures { result ≡ slot_at (frame self.now) process site.holder site.index site.at }
    {
        if site.index == 0 {
            return Err(Fault::new(Signal::Sindex, site.at));
        }
        let i = site.index as usize - 1;
        match site.holder {
            Holder::Mine => self.own(process, i, site.at),
            Holder::Listed(name) => self.slot(name, i, site.at),
        }
    }

    // An empty slot.
    #[tactic(auto, unfolding(model::specs::Plan::vacant))]
    pub fn vacant(&self, process: u32, site: Site) -> Result<(), Fault>
        ensures { result ≡ vacant process site.holder site.index site.at (frame self.now) }
    {
        match self.reach(process, site)? {
            Slot::Empty => Ok(()),
            _ => Err(Fault::new(Signal::Sfull, site.at)),
        }
    }

    // A slot is put, index 0 counting as 1; past the end nothing is.
    pub fn put_in(&mut self, process: u32, site: Site, slot: Slot)
        ensures after { frame self.new ≡ put_in process site.holder (site.index - 1) slot (frame self.old) }
        ensures homes { homes self.new ≡ homes self.old }
    {
        let i = site.index.saturating_sub(1) as usize;
        match site.holder {
            Holder::Mine => self.put_own(process, i, slot),
            Holder::Listed(name) => self.put(name, i, slot),
        }
    }

    pub(crate) fn enrol(&mut self) -> Result<u32, Fault>
        ensures { Steps self.old self.new result enrol }
    {
        let i = unused(&self.processes).ok_or(Fault::new(Signal::Sroom, 0))?;
        self.processes[i] = Some(Process::new());
        Ok(i as u32 + 1)
    }

    fn enrolled(&self, process: u32) -> Result<(), Fault>
        ensures { result ≡ enrolled (process_of self.now.processes process) }
    {
        self.task(process).ok_or(Fault::new(Signal::Sproc, 0))?;
        Ok(())
    }

    pub(crate) fn alive(&self, name: Name) -> Result<(), Fault>
        ensures { result ≡ living name (frame self.now) }
    {
        if self.is_living(name) {
            Ok(())
        } else {
            Err(Fault::new(Signal::Sgone, 0))
        }
    }

    #[tactic(auto, unfolding(model::specs::SetUp::owned))]
    pub(crate) fn owned(&self, owner: Owner) -> Result<(), Fault>
        ensures { result ≡ owned owner (frame self.now) }
    {
        match owner {
            Owner::Process(process) => self.enrolled(process),
            Owner::Object(number) => self.alive(Name { share: 0, number }),
        }
    }

    // How many objects of a share live.
    #[tactic(auto, unfolding(crate::specs::Abstract::living_of))]
    pub(crate) fn living(&self, share: u32) -> u32
        ensures { result ≡ (frame self.now).living share }
    {
        self.places(share)
            .iter()
            .filter(|place| place.is_some())
            .count() as u32
    }
}
